//! The grants of all back ends.
ghost use Rattle.std.specs.Prelude.{◌≡◌, ℕ, ◌<◌, ◌↔◌, [], length, IsTrue, IfOk, All, replicate, set, count_by};
ghost use Rattle.std.specs.List.{list_any};
ghost use Rattle.vi_bytes.specs.Spans.{IsProper};
ghost use Rattle.vi_bytes.specs.Leases.{IsLease, HasPage};
ghost use Rattle.vi_grants.specs.Rows.{IsRow, HasRoom, granted, is_met, without_span, empty_row, row_at};

use crate::row::Row;
use std::alloc::{AllocError, Global};
use std::marker::Model;
use vi_bytes::{Lease, Span};

/// The leases that each back end was granted and has not given back, a row a back end: which
/// translations it may have cached. A back end has one grant a page that it asked for. `place` is
/// the number of a back end from 0.
#[derive(Debug, Drop)]
pub struct Grants {
    rows: Vec<Row>,
}

impl Model for Grants {
    ghost use Rattle.std.specs.Prelude.{List, All};
    ghost use Rattle.vi_grants.specs.Rows.{GrantRow, IsRow};

    ghost Value = { List GrantRow };

    ghost view = { λ g. g.rows.items };

    ghost invariant = { λ g. All IsRow g.rows.items };
}

impl Grants {
    /// So many back ends with no grants, each with room for `each`. An error means out of memory.
    pub fn with_room(alloc: Global, backs: u32, each: u32) -> Result<Grants, AllocError>
        ensures empty { IfOk result (λ grants. grants ≡ replicate backs (empty_row each)) }
        ensures rows { IfOk result (All IsRow) }
    {
        let mut rows = Vec::with_capacity(alloc, backs as usize)?;
        for place in 0..backs {
            rows.push_reserved(Row::with_room(alloc, each)?);
        }
        Ok(Grants { rows })
    }

    /// How many back ends there are.
    pub fn backs(&self) -> usize
        ensures backs { result ≡ length self.now }
        ensures rows { All IsRow self.now }
    {
        self.rows.len()
    }

    /// Whether the back end has a grant for the page, or room for one.
    pub fn has_room(&self, place: u32, asked: u64) -> bool
        requires { place < length self.now }
        ensures { IsTrue result ↔ HasRoom asked (row_at self.now place) }
    {
        let row = &self.rows[place as usize];
        row.has_room(asked)
    }

    /// Grants the lease to the back end for the page `asked`, in the place of what was granted for
    /// it before. Where that was nothing, there is room for one grant less. Takes no memory.
    pub fn add(&mut self, place: u32, asked: u64, lease: Lease)
        requires place_in { place < length self.old }
        requires lease { IsLease lease }
        requires has_asked { HasPage lease asked }
        requires room { HasRoom asked (row_at self.old place) }
        ensures granted { self.new
            ≡ set self.old place (granted asked lease (row_at self.old place)) }
        ensures rows { All IsRow self.new }
    {
        let row = &mut self.rows[place as usize];
        row.add(asked, lease);
    }

    /// Whether a page of a lease that the back end was granted has an address of the span.
    pub fn meets(&self, place: u32, span: &Span) -> bool
        requires place_in { place < length self.now }
        requires proper { IsProper span.now }
        ensures meets { result ≡ list_any (is_met span.now) (row_at self.now place).grants }
        ensures rows { All IsRow self.now }
    {
        let row = &self.rows[place as usize];
        row.meets(span)
    }

    /// Takes out, as a whole, every grant of the back end of which a page has an address of the
    /// span. Answers how many, for which there is room again.
    pub fn take_span(&mut self, place: u32, span: &Span) -> u32
        requires place_in { place < length self.old }
        requires proper { IsProper span.now }
        ensures answer { result ≡ count_by (is_met span.now) (row_at self.old place).grants }
        ensures rest { self.new
            ≡ set self.old place (without_span span.now (row_at self.old place)) }
        ensures rows { All IsRow self.new }
    {
        let row = &mut self.rows[place as usize];
        row.take_span(span)
    }

    /// Whether the back end has no grants.
    pub fn is_empty(&self, place: u32) -> bool
        requires { place < length self.now }
        ensures { IsTrue result ↔ ((row_at self.now place).grants ≡ []) }
    {
        let row = &self.rows[place as usize];
        row.is_empty()
    }
}
