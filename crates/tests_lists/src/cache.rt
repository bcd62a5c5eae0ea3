//! A cache as its back end meets it.
ghost use Rattle.std.specs.Prelude.{◌≡◌};
ghost use Rattle.vi_bytes.specs.Leases.{IsLease};

use vi_bytes::{Lease, Span};
use vi_cache::Cache;

// A lease of one page.
fn page(page: u64) -> Lease
    ensures lease { IsLease result }
    ensures page { result.page ≡ page }
{
    Lease {
        page,
        count: 1,
        target: 7,
        perm: 3,
    }
}

// Three pages are put into two places, the second of which is looked at before the third comes.
fn answers(cache: &mut Cache) -> [Option<Lease>; 6] {
    [
        cache.put(page(1)),
        cache.put(page(2)),
        cache.look(1),
        cache.peek(2),
        cache.put(page(3)),
        cache.look(2),
    ]
}

#[test]
fn the_least_recent_leaves(rt: HostRuntime) {
    let mut cache = Cache::new(2);
    let met = [
        None,
        None,
        Some(page(1)),
        Some(page(2)),
        Some(page(2)),
        None,
    ];
    assert_eq!(rt; answers(&mut cache), met);
    assert_eq!(rt; cache.capacity(), 2);
    assert_eq!(rt; cache.leases(), [page(3), page(1)].as_slice());
}

// The pages 16 and 17.
const TWO: Lease = Lease {
    page: 16,
    count: 2,
    target: 7,
    perm: 3,
};

fn two_after_three(cache: &mut Cache) -> Option<Lease> {
    for number in 15..18 {
        cache.put(page(number));
    }
    cache.put(TWO)
}

#[test]
fn a_lease_takes_the_place_of_those_that_share_a_page(rt: HostRuntime) {
    let mut cache = Cache::new(3);
    assert_eq!(rt; two_after_three(&mut cache), None);
    assert_eq!(rt; cache.leases(), [TWO, page(15)].as_slice());
    assert_eq!(rt; cache.look(17), Some(TWO));
}

// The pages 16 to 19.
const FOUR: Lease = Lease {
    page: 16,
    count: 4,
    target: 7,
    perm: 3,
};

const LAST_BYTE: Span = Span {
    first: 0x13fff,
    last: 0x13fff,
};

const ALL: Span = Span {
    first: 0,
    last: u64::MAX,
};

fn four_between(cache: &mut Cache) -> u32 {
    cache.put(page(15));
    cache.put(FOUR);
    cache.put(page(20));
    cache.drop_span(&LAST_BYTE)
}

fn emptied(cache: &mut Cache) -> (u32, Option<Lease>) {
    let dropped = cache.drop_span(&ALL);
    (dropped, cache.peek(15))
}

#[test]
fn a_span_removes_whole_leases(rt: HostRuntime) {
    let mut cache = Cache::new(64);
    assert_eq!(rt; four_between(&mut cache), 1);
    assert_eq!(rt; cache.leases(), [page(20), page(15)].as_slice());
    assert_eq!(rt; emptied(&mut cache), (2, None));
}
