//! A cache of leases of one page each.
ghost use Rattle.std.specs.Prelude.{◌≡◌, ◌<◌, ◌≤◌};
ghost use Rattle.vi_bytes.specs.Leases.{IsLease};

use vi_bytes::Lease;
use vi_cache::Cache;

/// Fills a cache of so many leases and looks their pages up in turn. The sum of the targets.
pub fn run(leases: u32, looks: u32) -> u64
    requires some { 1 ≤ leases }
    requires most { leases ≤ 64 }
{
    let mut cache = Cache::new(leases);
    for number in 0..leases {
        cache.put(lease_of(number));
    }
    let mut sum: u64 = 0;
    let mut number: u32 = 0;
    for _look in 0..looks {
        if let Some(lease) = cache.look(u64::from(number) * 16) {
            sum = sum.wrapping_add(lease.target);
        }
        number = if number + 1 < leases { number + 1 } else { 0 };
    }
    sum
}

/// A lease of one page, each 16 pages from the next.
fn lease_of(number: u32) -> Lease
    requires { number < 64 }
    ensures { IsLease result }
{
    Lease {
        page: u64::from(number) * 16,
        count: 1,
        target: u64::from(number),
        perm: 3,
    }
}
