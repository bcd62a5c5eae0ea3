//! A tree as its device meets it, and beside the plain yardstick.
ghost use Rattle.std.specs.Prelude.{◌≡◌, ◌+◌, ◌<◌, ◌≤◌, [], length};

use std::alloc::AllocError;
use std::process::Abort;
use std::test::Fail;
use vi_bytes::{Mapping, Over, PAGE, Span, Split};
use vi_ranges::Ranges;
use vi_tree::{Steps, Tree};

fn mapping(first: u64, last: u64) -> Mapping
    ensures { result ≡ record { span = record { first = first; last = last }; target = 0; flags = 3 } }
{
    Mapping {
        span: Span { first, last },
        target: 0,
        flags: 3,
    }
}

fn low() -> Mapping
    ensures { result ≡ record { span = record { first = 4096; last = 12287 }; target = 0; flags = 3 } }
{
    mapping(0x1000, 0x2fff)
}

fn high() -> Mapping
    ensures { result ≡ record { span = record { first = 16384; last = 20479 }; target = 0; flags = 3 } }
{
    mapping(0x4000, 0x4fff)
}

fn one_more(tree: &mut Tree) -> (Result<(), Over>, u32)
    requires { 1 ≤ tree.old.spare }
{
    let inserted = tree.insert(mapping(0x1000, 0x1fff), &mut Steps::new());
    (inserted, tree.len())
}

// The higher first, then the lower, then one that meets it.
fn three(rt: &impl Abort, tree: &mut Tree) -> Result<(), AllocError>
    requires empty { tree.old.mappings ≡ [] }
    requires room { 2 ≤ tree.old.spare }
{
    assert_eq!(rt; tree.insert(high(), &mut Steps::new()), Ok(()));
    tree.reserve(2)?;
    assert_eq!(rt; tree.insert(low(), &mut Steps::new()), Ok(()));
    tree.reserve(2)?;
    let over = tree.insert(mapping(0x2fff, u64::MAX), &mut Steps::new());
    assert_eq!(rt; over, Err(Over { met: low() }));
    Ok(())
}

const UPPER: Span = Span {
    first: 0x3000,
    last: u64::MAX,
};

// With the nodes that the first call looked at.
fn found(tree: &Tree) -> ([Option<Mapping>; 3], u64) {
    let mut steps = Steps::new();
    let low = tree.find(0x2fff, &mut steps);
    let counted = steps.count();
    let free = tree.find(0x3000, &mut Steps::new());
    let high = tree.meeting(&UPPER, &mut Steps::new());
    ([low, free, high], counted)
}

// Of a span that cuts a mapping, and of one that doesn't, and how many stay.
fn unmapped(tree: &mut Tree) -> ([Result<u32, Split>; 2], u32) {
    let part = Span {
        first: 0x2000,
        last: u64::MAX,
    };
    let both = [
        tree.unmap(&part, &mut Steps::new()),
        tree.unmap(&UPPER, &mut Steps::new()),
    ];
    (both, tree.len())
}

#[test]
fn reserve_makes_room_in_an_empty_set(rt: HostRuntime) -> Result<(), Fail> {
    let mut tree = Tree::with_room(rt.alloc(), 0)?;
    tree.reserve(1)?;
    assert_eq!(rt; one_more(&mut tree), (Ok(()), 1));
    Ok(())
}

#[test]
fn mappings_lie_apart(rt: HostRuntime) -> Result<(), Fail> {
    let mut tree = Tree::with_room(rt.alloc(), 2)?;
    three(&rt, &mut tree)?;
    assert_eq!(rt; found(&tree), ([Some(low()), None, Some(high())], 2));
    let cut = Err(Split { met: low() });
    assert_eq!(rt; unmapped(&mut tree), ([cut, Ok(1)], 1));
    Ok(())
}

// Both sets, which are made with room for 65 mappings and are given no more.
#[derive(Drop)]
struct Pair {
    ranges: Ranges,
    tree: Tree,
    ghost ranges_room: { 65 ≤ length ranges.mappings + ranges.spare },
    ghost tree_room: { 65 ≤ length tree.mappings + tree.spare },
}

impl Pair {
    fn insert(&mut self, rt: &impl Abort, page: u64)
        requires { page < 64 }
    {
        let m = mapping(PAGE * page, PAGE * page + (PAGE - 1));
        assert!(rt; self.ranges.len() < 65);
        assert!(rt; self.tree.len() < 65);
        let wanted = self.ranges.insert(m);
        let got = self.tree.insert(m, &mut Steps::new());
        assert_eq!(rt; got, wanted);
    }

    // The page and the next.
    fn unmap(&mut self, rt: &impl Abort, page: u64)
        requires { page < 64 }
    {
        let span = Span {
            first: PAGE * page,
            last: PAGE * page + (2 * PAGE - 1),
        };
        let wanted = self.ranges.unmap(&span);
        let got = self.tree.unmap(&span, &mut Steps::new());
        assert_eq!(rt; got, wanted);
    }

    fn find(&self, rt: &impl Abort, page: u64)
        requires { page < 64 }
    {
        let wanted = self.ranges.find(PAGE * page);
        let got = self.tree.find(PAGE * page, &mut Steps::new());
        assert_eq!(rt; got, wanted);
    }
}

#[test]
fn tree_answers_as_ranges_do(rt: HostRuntime) -> Result<(), Fail> {
    let ranges = Ranges::with_room(rt.alloc(), 65)?;
    let tree = Tree::with_room(rt.alloc(), 65)?;
    let mut both = Pair { ranges, tree };
    let mut x: u64 = 1;
    for _ in 0..2000 {
        x = x
            .wrapping_mul(6_364_136_223_846_793_005)
            .wrapping_add(1_442_695_040_888_963_407);
        let page = (x >> 33) % 64;
        match (x >> 40) % 4 {
            0 | 1 => both.insert(&rt, page),
            2 => both.unmap(&rt, page),
            _ => both.find(&rt, page),
        }
    }
    for page in 0..64 {
        both.find(&rt, page);
    }
    Ok(())
}
