//! The domains of a device.
ghost use Rattle.std.specs.Prelude.{◌≡◌, ◌==◌, ℕ, ◌+◌, ◌<◌, ◌≤◌, None, [], ◌∷◌, ◌++◌, length, map, All, IfOk, IfSome, is_some, vec_len, vec_capacity};
ghost use Rattle.std.specs.Option.{option_copied, option_map};
ghost use Rattle.std.specs.List.{position_or_len};
ghost use Rattle.vi_bytes.specs.Spans.{IsProper};
ghost use Rattle.vi_bytes.specs.Mappings.{with_mapping, without_span};
ghost use Rattle.vi_history.specs.Effects.{inhabited, with_mappings};
ghost use Rattle.vi_device.specs.Kept.{DomainsValue, AreKept, domain_seen, domain_in, TakesMapping, CutsNone};
ghost use Rattle.vi_device.specs.Tables.{IsInRange};
ghost use Rattle.vi_device.specs.Values.{AreDistinct, ExistsWith};

use crate::endpoints::Endpoints;
use crate::held::Held;
use crate::table::Table;
use std::alloc::{AllocError, Global};
use std::marker::Model;
use vi_bytes::{Mapping, Span};

/// How many domains can exist.
pub const MOST: usize = 16;

/// The domains that exist, in the order in which they were made, each with a table that has room
/// for `maps` mappings. There are as many tables as domains can exist.
#[derive(Drop)]
pub struct Domains {
    held: Vec<Held>,
    unused: Vec<Table>,
    maps: u32,
}

impl Model for Domains {
    ghost use Rattle.std.specs.Prelude.{map, ◌≤◌, vec_capacity};
    ghost use Rattle.vi_device.specs.Kept.{DomainsValue, AreKept, domain_seen};

    ghost Value = { DomainsValue };

    ghost view = { λ d. record { domains = map domain_seen d.held.items; maps = d.maps } };

    ghost invariant = { λ d. AreKept d.maps d.held.items d.unused.items × (16 ≤ vec_capacity d.held) × (16 ≤ vec_capacity d.unused) };
}

impl Domains {
    /// No domain, with room for 16 that have room for `maps` mappings each.
    pub fn with_room(alloc: Global, maps: u32) -> Result<Domains, AllocError>
        ensures { IfOk result (λ d. d ≡ record { domains = []; maps = maps }) }
    {
        let held = Vec::with_capacity(alloc, MOST)?;
        let mut unused = Vec::with_capacity(alloc, MOST)?;
        for _table in 0..MOST {
            unused.push_reserved(Table::with_room(alloc, maps)?);
        }
        Ok(Domains { held, unused, maps })
    }

    /// How many mappings each domain has room for.
    pub fn maps(&self) -> u32
        ensures { result ≡ self.now.maps }
    {
        self.maps
    }

    /// The domain of this id, if it exists.
    pub fn find(&self, id: u32) -> Option<&Held>
        ensures found { option_map domain_seen (option_copied result) ≡ domain_in id self.now.domains }
        ensures room { IfSome (option_copied result) (λ h. h.table.maps ≡ self.now.maps) }
    {
        held_of(&self.held, id)
    }

    /// Whether the domain of this id exists.
    pub fn exists(&self, id: u32) -> bool
        ensures { result ≡ is_some (domain_in id self.now.domains) }
    {
        match self.find(id) {
            Some(_) => true,
            None => false,
        }
    }

    /// Makes a domain, which doesn't exist.
    pub fn add(&mut self, id: u32, bypass: bool)
        requires new { domain_in id self.old.domains ≡ None }
        requires room { length self.old.domains < 16 }
        ensures { self.new ≡ record self.old { domains = self.old.domains ++ record { id = id; bypass = bypass; mappings = [] } ∷ [] } }
    {
        if let Some(table) = self.unused.pop() {
            self.held.push_reserved(Held { id, bypass, table });
        }
    }

    /// Keeps those domains that one of these endpoints is in. The others cease to exist.
    pub fn keep_inhabited(&mut self, endpoints: &Endpoints)
        ensures kept { self.new ≡ record self.old { domains = inhabited endpoints.now self.old.domains } }
        ensures distinct { AreDistinct (map (λ y. y.id) self.old.domains) }
    {
        keep_inhabited(&mut self.held, &mut self.unused, endpoints);
    }

    /// Adds a mapping to a domain.
    pub fn insert(&mut self, id: u32, m: Mapping)
        requires proper { IsProper m.span }
        requires ranges { IsInRange m }
        requires takes { ExistsWith (TakesMapping self.old.maps m) (domain_in id self.old.domains) }
        ensures { self.new ≡ record self.old { domains = with_mappings id (with_mapping m) self.old.domains } }
    {
        let place = place_of(&self.held, id);
        self.held[place].table.insert(m);
    }

    /// Removes those mappings of a domain that lie in the span.
    pub fn remove(&mut self, id: u32, span: &Span)
        requires proper { IsProper span.now }
        requires whole { ExistsWith (CutsNone span.now) (domain_in id self.old.domains) }
        ensures { self.new ≡ record self.old { domains = with_mappings id (without_span span.now) self.old.domains } }
    {
        let place = place_of(&self.held, id);
        self.held[place].table.remove(span);
    }
}

// The domain of this id.
fn held_of(held: &[Held], id: u32) -> Option<&Held>
    ensures found { option_map domain_seen (option_copied result) ≡ domain_in id (map domain_seen held.now) }
    ensures room { (maps : ℕ) → All (λ h. h.table.maps ≡ maps) held.now → IfSome (option_copied result) (λ h. h.table.maps ≡ maps) }
{
    for domain in held {
        if domain.id == id {
            return Some(domain);
        }
    }
    None
}

// The place of the domain of this id, or the number of domains.
fn place_of(held: &[Held], id: u32) -> usize
    ensures { result ≡ position_or_len (λ y. y.id == id) (map domain_seen held.now) }
{
    for (place, domain) in held.iter().enumerate() {
        if domain.id == id {
            return place;
        }
    }
    held.len()
}

// Keeps those domains that one of these endpoints is in. The tables of the others are emptied and
// put with the unused ones.
fn keep_inhabited(held: &mut Vec<Held>, unused: &mut Vec<Table>, endpoints: &Endpoints)
    requires count { vec_len held.old + vec_len unused.old ≡ 16 }
    requires room { 16 ≤ vec_capacity unused.old }
    ensures kept { map domain_seen held.new.items ≡ inhabited endpoints.now (map domain_seen held.old.items) }
    ensures tables { (maps : ℕ) → AreKept maps held.old.items unused.old.items → AreKept maps held.new.items unused.new.items }
    ensures held_room { vec_capacity held.new ≡ vec_capacity held.old }
    ensures unused_room { vec_capacity unused.new ≡ vec_capacity unused.old }
{
    let mut place = 0;
    while place < held.len() {
        if endpoints.is_inhabited(held[place].id) {
            place += 1;
        } else {
            let Held { table, .. } = held.remove(place);
            let mut table = table;
            table.clear();
            unused.push_reserved(table);
        }
    }
}
