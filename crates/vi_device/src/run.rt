//! Runs of pages, which one lease may hold together.
ghost use Rattle.std.specs.Prelude.{◌≡◌, ◌+◌, ◌*◌, ◌/◌, ◌<◌, ◌≤◌, ◌^◌, IfSome, length};
ghost use Rattle.vi_bytes.specs.declared.span.TheConstants.{PAGE};
ghost use Rattle.vi_history.specs.Runs.{run, goes_alike, mapping_through, mapping_by, same_mapping};
ghost use Rattle.vi_device.specs.Ends.{IsLowest, IsHighest};
ghost use Rattle.vi_device.specs.Values.{id_at};

use crate::Device;
use vi_bytes::{Lease, Mapping, Membership, PAGE};

// The pages of a lease have the same number divided by this.
const BLOCK: u64 = 16;

impl Device {
    /// The run of a page: the pages around it, in its block of 16, to which one gets from it by pages
    /// that have a lease, all by one mapping or all in bypass, with the permission of its lease. `None`
    /// where the page has no lease. Takes no memory.
    pub fn run(&self, place: u32, page: u64) -> Option<Lease>
        requires place_in { place < length self.now.dev.endpoints }
        requires page { page < 2 ^ 52 }
        ensures run { result ≡ run self.now.dev (id_at self.now.dev place) page }
        ensures permission { IfSome result (λ l. (1 ≤ l.perm) × (l.perm ≤ 3)) }
    {
        match self.lease(place, page) {
            None => None,
            Some(lease) => {
                let low = self.lowest_alike(place, page);
                let high = self.highest_alike(place, page);
                Some(Lease {
                    page: low,
                    count: (high - low + 1) as u32,
                    target: lease.target.saturating_sub(page - low),
                    perm: lease.perm,
                })
            }
        }
    }

    // The lowest page of the block to which one gets from this one by pages that go alike.
    fn lowest_alike(&self, place: u32, page: u64) -> u64
        requires place_in { place < length self.now.dev.endpoints }
        requires page { page < 2 ^ 52 }
        ensures { IsLowest (goes_alike self.now.dev (id_at self.now.dev place) page) page result }
    {
        let first = page / BLOCK * BLOCK;
        let mut low = page;
        while low > first {
            if !self.goes_alike(place, page, low - 1) {
                return low;
            }
            low -= 1;
        }
        low
    }

    // The highest such page.
    fn highest_alike(&self, place: u32, page: u64) -> u64
        requires place_in { place < length self.now.dev.endpoints }
        requires page { page < 2 ^ 52 }
        ensures { IsHighest (goes_alike self.now.dev (id_at self.now.dev place) page) page result }
    {
        let last = page / BLOCK * BLOCK + 15;
        let mut high = page;
        while high < last {
            if !self.goes_alike(place, page, high + 1) {
                return high;
            }
            high += 1;
        }
        high
    }

    // Whether the page `other` has a lease, by the mapping or the bypass that `page` goes by.
    fn goes_alike(&self, place: u32, page: u64, other: u64) -> bool
        requires place_in { place < length self.now.dev.endpoints }
        requires page { page < 2 ^ 52 }
        requires other { other < 2 ^ 52 }
        ensures { result ≡ goes_alike self.now.dev (id_at self.now.dev place) page other }
    {
        match self.lease(place, other) {
            None => false,
            Some(_) => same_mapping(
                self.mapping_through(place, page),
                self.mapping_through(place, other),
            ),
        }
    }

    // The mapping that has the first address of the endpoint's page; in bypass there is none.
    fn mapping_through(&self, place: u32, page: u64) -> Option<Mapping>
        requires place_in { place < length self.now.dev.endpoints }
        requires page { page < 2 ^ 52 }
        ensures { result ≡ mapping_through self.now.dev (id_at self.now.dev place) page }
    {
        self.mapping_by(PAGE * page, self.endpoints.domain(place))
    }

    fn mapping_by(&self, address: u64, membership: Membership) -> Option<Mapping>
        ensures { result ≡ mapping_by self.now.dev address membership }
    {
        match membership {
            Membership::Unattached => None,
            Membership::Member(domain) => match self.domains.find(domain) {
                None => None,
                Some(held) => if held.bypass {
                    None
                } else {
                    held.table.find(address)
                },
            },
        }
    }
}

// Whether two pages are in one mapping, which its first address tells, or both in bypass.
fn same_mapping(one: Option<Mapping>, other: Option<Mapping>) -> bool
    ensures { result ≡ same_mapping one other }
{
    match one {
        None => other.is_none(),
        Some(m) => match other {
            None => false,
            Some(n) => m.span.first == n.span.first,
        },
    }
}
