//! A cache of leases.
ghost use Rattle.std.specs.Prelude.{◌≡◌, ◌≤◌, ◌↔◌, [], count_by, length, false, IsSome};
ghost use Rattle.std.specs.List.{list_any};
ghost use Rattle.vi_bytes.specs.Spans.{IsProper};
ghost use Rattle.vi_bytes.specs.Leases.{IsLease, share_page, reaches_into};
ghost use Rattle.vi_cache.specs.Caches.{IsCache, cached_at, looked, put, evicted, untouched};

use crate::entries::{Entries, drop_meeting, drop_sharing, make_room, move_to_front, place_of};
use arrayvec::ArrayVec;
use std::marker::Model;
use vi_bytes::{Lease, Span};

/// The leases that a back end keeps, most recent first, and how many there can be: the capacity, 1
/// to 64. No two have a common page. No call takes memory.
#[derive(Drop)]
pub struct Cache {
    entries: Entries,
    capacity: u32,
}

impl Model for Cache {
    ghost use Rattle.vi_cache.specs.Caches.{CachedLeases, IsCache};

    ghost Value = { CachedLeases };

    ghost view = { λ c. record { leases = c.entries.items; capacity = c.capacity } };

    ghost invariant = { λ c. IsCache (record { leases = c.entries.items; capacity = c.capacity }) };
}

impl Cache {
    /// An empty cache.
    pub fn new(capacity: u32) -> Cache
        requires some { 1 ≤ capacity }
        requires most { capacity ≤ 64 }
        ensures empty { result ≡ record { leases = []; capacity = capacity } }
        ensures cache { IsCache result }
    {
        Cache {
            entries: ArrayVec::new(),
            capacity,
        }
    }

    /// The lease that has the page, or `None` where none has it. The lease moves to the front, and
    /// the others keep their order.
    pub fn look(&mut self, page: u64) -> Option<Lease>
        ensures answer { result ≡ cached_at page self.old.leases }
        ensures order { self.new ≡ record self.old { leases = looked page self.old.leases } }
        ensures cache { IsCache self.new }
    {
        let at = place_of(self.entries.as_slice(), page)?;
        Some(move_to_front(&mut self.entries, at))
    }

    /// The lease that has the page, or `None` where none has it. Nothing moves.
    pub fn peek(&self, page: u64) -> Option<Lease>
        ensures { result ≡ cached_at page self.now.leases }
    {
        let at = place_of(self.entries.as_slice(), page)?;
        Some(self.entries[at])
    }

    /// Puts the lease in front. Every lease that shares a page with it leaves. Where there is none
    /// and the cache is full, the last lease leaves and is answered. Otherwise the answer is `None`.
    pub fn put(&mut self, lease: Lease) -> Option<Lease>
        requires { IsLease lease }
        ensures answer { result ≡ evicted self.old.capacity lease self.old.leases }
        ensures evicts { IsSome result
            ↔ ((length self.old.leases ≡ self.old.capacity)
            × (list_any (share_page lease) self.old.leases ≡ false)) }
        ensures order { self.new
            ≡ record self.old { leases = put self.old.capacity lease self.old.leases } }
        ensures cache { IsCache self.new }
    {
        drop_sharing(&mut self.entries, &lease);
        let evicted = make_room(&mut self.entries, self.capacity as usize);
        self.entries.insert(0, lease);
        evicted
    }

    /// Removes every lease of which a page has an address of the span, as a whole, and answers how
    /// many. The others keep their order.
    pub fn drop_span(&mut self, span: &Span) -> u32
        requires { IsProper span.now }
        ensures answer { result ≡ count_by (λ l. reaches_into l span.now) self.old.leases }
        ensures order { self.new
            ≡ record self.old { leases = untouched span.now self.old.leases } }
        ensures cache { IsCache self.new }
    {
        let had = self.entries.len();
        drop_meeting(&mut self.entries, span);
        (had - self.entries.len()) as u32
    }

    /// The leases, most recent first.
    pub fn leases(&self) -> &[Lease]
        ensures leases { result.now ≡ self.now.leases }
        ensures cache { IsCache self.now }
    {
        self.entries.as_slice()
    }

    /// How many leases there can be.
    pub fn capacity(&self) -> u32
        ensures capacity { result ≡ self.now.capacity }
        ensures cache { IsCache self.now }
    {
        self.capacity
    }
}
