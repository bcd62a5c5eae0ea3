//! The entries of a cache as a vector.
ghost use Rattle.std.specs.Prelude.{◌≡◌, ◌-◌, ◌≤◌, ◌<◌, ◌∷◌, length, take, All, IfSome, IfNone, Some, None, remove, slice_get};
ghost use Rattle.vi_bytes.specs.Spans.{IsProper};
ghost use Rattle.vi_bytes.specs.Leases.{IsLease};
ghost use Rattle.vi_cache.specs.Caches.{cached_at, apart, untouched};

use arrayvec::ArrayVec;
use vi_bytes::{Lease, Span};

/// The most entries that a cache can have.
pub const MOST: usize = 64;

/// The entries of a cache, most recent first.
pub type Entries = ArrayVec<Lease, MOST>;

/// The index of the entry that has the page.
pub fn place_of(entries: &[Lease], page: u64) -> Option<usize>
    ensures within { IfSome result (λ at. at < length entries.now) }
    ensures found { IfSome result (λ at. cached_at page entries.now ≡ slice_get entries.now at) }
    ensures absent { IfNone result (cached_at page entries.now ≡ None) }
{
    for (at, entry) in entries.iter().enumerate() {
        if entry.has_page(page) {
            return Some(at);
        }
    }
    None
}

/// Moves the entry to the front, and answers it.
pub fn move_to_front(entries: &mut Entries, at: usize) -> Lease
    requires { at < length entries.old.items }
    ensures answer { slice_get entries.old.items at ≡ Some result }
    ensures order { entries.new.items ≡ result ∷ remove entries.old.items at }
{
    shift_to_front(entries.as_mut_slice(), at)
}

fn shift_to_front(entries: &mut [Lease], at: usize) -> Lease
    requires { at < length entries.old }
    ensures answer { slice_get entries.old at ≡ Some result }
    ensures order { entries.new ≡ result ∷ remove entries.old at }
{
    let found = entries[at];
    let mut carried = found;
    for place in 0..at {
        let displaced = entries[place];
        entries[place] = carried;
        carried = displaced;
    }
    entries[at] = carried;
    found
}

/// Where the entries are as many as the capacity, removes the last, and answers it.
pub fn make_room(entries: &mut Entries, capacity: usize) -> Option<Lease>
    requires some { 1 ≤ capacity }
    requires within { length entries.old.items ≤ capacity }
    ensures answer { result ≡ slice_get entries.old.items (capacity - 1) }
    ensures rest { entries.new.items ≡ take (capacity - 1) entries.old.items }
    ensures room { length entries.new.items < capacity }
{
    if entries.len() == capacity {
        entries.pop()
    } else {
        None
    }
}

/// Removes the entries that share a page with the lease.
pub fn drop_sharing(entries: &mut Entries, lease: &Lease)
    requires lease { IsLease lease.now }
    requires leases { All IsLease entries.old.items }
    ensures { entries.new.items ≡ apart lease.now entries.old.items }
{
    for at in (0..entries.len()).rev() {
        if lease.shares_page(&entries[at]) {
            entries.remove(at);
        }
    }
}

/// Removes the entries of which a page has an address of the span.
pub fn drop_meeting(entries: &mut Entries, span: &Span)
    requires proper { IsProper span.now }
    requires leases { All IsLease entries.old.items }
    ensures { entries.new.items ≡ untouched span.now entries.old.items }
{
    for at in (0..entries.len()).rev() {
        if entries[at].meets(span) {
            entries.remove(at);
        }
    }
}
