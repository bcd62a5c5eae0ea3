//! The lease that is granted for a page.
ghost use Rattle.std.specs.Prelude.{◌≡◌, ◌+◌, ◌-◌, ◌<◌, ◌≤◌, ◌^◌, false, length, IfSome};
ghost use Rattle.vi_control.specs.Places.{closed_at};
ghost use Rattle.vi_control.specs.Granting.{AreSeated, open_run_at, IsLowestOpen, IsHighestOpen, IsGrantable};
ghost use Rattle.vi_model.specs.Whole.{IsWholeDev};

use crate::places::is_closed;
use vi_bytes::Lease;
use vi_device::Device;
use vi_removals::Removals;

/// The run of a page that isn't closed, up to the first page on either side that an open removal closes. `None` where
/// the page has no lease.
pub fn open_run(device: &Device, removals: &Removals, place: u32, page: u64) -> Option<Lease>
    requires seated { AreSeated device.now.dev removals.now }
    requires place { place < length removals.now.ids }
    requires page { page < 2 ^ 52 }
    requires whole { IsWholeDev device.now.dev }
    requires memory { device.now.dev.pages ≤ 16384 }
    requires open { closed_at device.now.dev removals.now place page ≡ false }
    ensures run { result ≡ open_run_at device.now.dev removals.now place page }
    ensures grant { IfSome result (IsGrantable page) }
{
    match device.run(place, page) {
        None => None,
        Some(run) => {
            let last = run.page + u64::from(run.count) - 1;
            let low = lowest_open(device, removals, place, page, run.page);
            let high = highest_open(device, removals, place, page, last);
            Some(Lease {
                page: low,
                count: (high - low + 1) as u32,
                target: run.target + (low - run.page),
                perm: run.perm,
            })
        }
    }
}

// The lowest page from `first` on to which one gets from this one by pages that aren't closed.
fn lowest_open(device: &Device, removals: &Removals, place: u32, page: u64, first: u64) -> u64
    requires seated { AreSeated device.now.dev removals.now }
    requires place { place < length removals.now.ids }
    requires page { page < 2 ^ 52 }
    requires first { first ≤ page }
    ensures { IsLowestOpen (closed_at device.now.dev removals.now place) first page result }
{
    let mut low = page;
    while low > first {
        if is_closed(device, removals, place, low - 1) {
            return low;
        }
        low -= 1;
    }
    low
}

// The highest such page up to `last`.
fn highest_open(device: &Device, removals: &Removals, place: u32, page: u64, last: u64) -> u64
    requires seated { AreSeated device.now.dev removals.now }
    requires place { place < length removals.now.ids }
    requires page { page ≤ last }
    requires last { last < 2 ^ 52 }
    ensures { IsHighestOpen (closed_at device.now.dev removals.now place) page last result }
{
    let mut high = page;
    while high < last {
        if is_closed(device, removals, place, high + 1) {
            return high;
        }
        high += 1;
    }
    high
}
