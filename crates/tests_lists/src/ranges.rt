//! A set of mappings as its device meets it.
ghost use Rattle.std.specs.Prelude.{◌≡◌, ◌≤◌, []};

use std::alloc::AllocError;
use std::process::Abort;
use std::test::Fail;
use vi_bytes::{Mapping, Over, Span, Split};
use vi_ranges::Ranges;

fn mapping(first: u64, last: u64) -> Mapping
    ensures { result ≡ record { span = record { first = first; last = last }; target = 0; flags = 3 } }
{
    Mapping {
        span: Span { first, last },
        target: 0,
        flags: 3,
    }
}

fn low() -> Mapping
    ensures { result ≡ record { span = record { first = 4096; last = 12287 }; target = 0; flags = 3 } }
{
    mapping(0x1000, 0x2fff)
}

fn high() -> Mapping
    ensures { result ≡ record { span = record { first = 16384; last = 20479 }; target = 0; flags = 3 } }
{
    mapping(0x4000, 0x4fff)
}

fn one_more(ranges: &mut Ranges) -> (Result<(), Over>, u32)
    requires { 1 ≤ ranges.old.spare }
{
    let inserted = ranges.insert(mapping(0x1000, 0x1fff));
    (inserted, ranges.len())
}

// The higher first, then the lower, then one that meets it.
fn three(rt: &impl Abort, ranges: &mut Ranges) -> Result<(), AllocError>
    requires empty { ranges.old.mappings ≡ [] }
    requires room { 2 ≤ ranges.old.spare }
{
    assert_eq!(rt; ranges.insert(high()), Ok(()));
    ranges.reserve(2)?;
    assert_eq!(rt; ranges.insert(low()), Ok(()));
    ranges.reserve(2)?;
    let over = ranges.insert(mapping(0x2fff, u64::MAX));
    assert_eq!(rt; over, Err(Over { met: low() }));
    Ok(())
}

const UPPER: Span = Span {
    first: 0x3000,
    last: u64::MAX,
};

fn found(ranges: &Ranges) -> [Option<Mapping>; 3] {
    [
        ranges.find(0x2fff),
        ranges.find(0x3000),
        ranges.meeting(&UPPER),
    ]
}

// Of a span that cuts a mapping, and of one that doesn't, and how many stay.
fn unmapped(ranges: &mut Ranges) -> ([Result<u32, Split>; 2], u32) {
    let part = Span {
        first: 0x2000,
        last: u64::MAX,
    };
    let both = [ranges.unmap(&part), ranges.unmap(&UPPER)];
    (both, ranges.len())
}

#[test]
fn reserve_makes_room_in_an_empty_set(rt: HostRuntime) -> Result<(), Fail> {
    let mut ranges = Ranges::with_room(rt.alloc(), 0)?;
    ranges.reserve(1)?;
    assert_eq!(rt; one_more(&mut ranges), (Ok(()), 1));
    Ok(())
}

#[test]
fn mappings_lie_apart(rt: HostRuntime) -> Result<(), Fail> {
    let mut ranges = Ranges::with_room(rt.alloc(), 2)?;
    three(&rt, &mut ranges)?;
    assert_eq!(rt; found(&ranges), [Some(low()), None, Some(high())]);
    let cut = Err(Split { met: low() });
    assert_eq!(rt; unmapped(&mut ranges), ([cut, Ok(1)], 1));
    Ok(())
}
