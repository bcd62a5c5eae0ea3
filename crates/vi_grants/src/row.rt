//! The grants of one back end.
ghost use Rattle.std.specs.Prelude.{◌≡◌, ℕ, ◌-◌, ◌≤◌, ◌↔◌, [], false, if◌then◌else◌, IsTrue, IfOk, All, filter, not, count_by, is_some, vec_len, vec_capacity};
ghost use Rattle.std.specs.List.{list_any};
ghost use Rattle.vi_bytes.specs.Spans.{IsProper};
ghost use Rattle.vi_bytes.specs.Leases.{IsLease, HasPage};
ghost use Rattle.vi_grants.specs.Marks.{AreMarked};
ghost use Rattle.vi_grants.specs.Rows.{IsRow, IsGrant, HasRoom, grant_of, others, granted, is_met, without_span, empty_row};

use crate::marks::Marks;
use std::alloc::{AllocError, Global};
use std::marker::Model;
use vi_bytes::{Lease, Span};

/// A lease that was granted when the page `asked`, one of its pages, was asked for.
#[derive(Clone, Copy, Debug, PartialEq, Eq)]
pub struct Grant {
    pub asked: u64,
    pub lease: Lease,
}

/// The grants of one back end, oldest first and one a page that was asked for, and for how many
/// more there is room.
#[derive(Debug, Drop)]
pub struct Row {
    grants: Vec<Grant>,
    spare: u32,
    // Which pages were asked for: most grants are for another page than any before, and the grants are many.
    marks: Marks,
}

impl Model for Row {
    ghost use Rattle.std.specs.Prelude.{◌+◌, ◌<◌, ◌≤◌, ◌^◌, length, vec_len, vec_capacity};
    ghost use Rattle.vi_grants.specs.Marks.{AreMarked};
    ghost use Rattle.vi_grants.specs.Rows.{GrantRow, IsRow};

    ghost Value = { GrantRow };

    ghost view = { λ r. record { grants = r.grants.items; spare = r.spare } };

    ghost invariant = { λ r. IsRow (record { grants = r.grants.items; spare = r.spare })
        × (vec_len r.grants + r.spare ≤ vec_capacity r.grants)
        × (vec_len r.grants + r.spare < 2 ^ 32)
        × (0 < length r.marks)
        × AreMarked r.marks r.grants.items };
}

impl Row {
    /// No grants, with room for so many. An error means out of memory.
    pub fn with_room(alloc: Global, spare: u32) -> Result<Row, AllocError>
        ensures empty { IfOk result (λ row. row ≡ empty_row spare) }
        ensures row { IfOk result IsRow }
    {
        let grants = Vec::with_capacity(alloc, spare as usize)?;
        let marks = Marks::for_pages(alloc, spare)?;
        Ok(Row {
            grants,
            spare,
            marks,
        })
    }

    /// Whether there is a grant for the page, or room for one.
    pub fn has_room(&self, asked: u64) -> bool
        ensures { IsTrue result ↔ HasRoom asked self.now }
    {
        self.spare > 0 || has_grant(&self.grants, asked)
    }

    /// Grants the lease for the page, in the place of what was granted for it before.
    pub fn add(&mut self, asked: u64, lease: Lease)
        requires lease { IsLease lease }
        requires has_asked { HasPage lease asked }
        requires room { HasRoom asked self.old }
        ensures granted { self.new ≡ granted asked lease self.old }
        ensures row { IsRow self.new }
    {
        let had = take_out(&mut self.grants, &self.marks, asked);
        self.spare = room_left(self.spare, had);
        self.marks.mark(asked);
        self.grants.push_reserved(Grant { asked, lease });
    }

    /// Whether a page of a granted lease has an address of the span.
    pub fn meets(&self, span: &Span) -> bool
        requires { IsProper span.now }
        ensures { result ≡ list_any (is_met span.now) self.now.grants }
    {
        any_meets(&self.grants, span)
    }

    /// Takes out the grants of which a page has an address of the span, and answers how many.
    pub fn take_span(&mut self, span: &Span) -> u32
        requires { IsProper span.now }
        ensures answer { result ≡ count_by (is_met span.now) self.old.grants }
        ensures rest { self.new ≡ without_span span.now self.old }
        ensures row { IsRow self.new }
    {
        let had = self.grants.len();
        leave_unmet(&mut self.grants, span);
        let taken = (had - self.grants.len()) as u32;
        self.spare += taken;
        taken
    }

    /// Whether nothing is granted.
    pub fn is_empty(&self) -> bool
        ensures { IsTrue result ↔ (self.now.grants ≡ []) }
    {
        self.grants.is_empty()
    }
}

fn has_grant(grants: &[Grant], asked: u64) -> bool
    ensures { result ≡ is_some (grant_of asked grants.now) }
{
    for grant in grants {
        if grant.asked == asked {
            return true;
        }
    }
    false
}

// The room that a grant leaves: it takes a part unless there was one for the page.
fn room_left(spare: u32, had: bool) -> u32
    requires { had ≡ false → 1 ≤ spare }
    ensures { result ≡ (if had then spare else spare - 1) }
{
    if had { spare } else { spare - 1 }
}

fn any_meets(grants: &[Grant], span: &Span) -> bool
    requires grants { All IsGrant grants.now }
    requires proper { IsProper span.now }
    ensures { result ≡ list_any (is_met span.now) grants.now }
{
    for grant in grants {
        if grant.lease.meets(span) {
            return true;
        }
    }
    false
}

// Takes out the grant for the page, and answers whether there was one.
fn take_out(grants: &mut Vec<Grant>, marks: &Marks, asked: u64) -> bool
    requires { AreMarked marks.now grants.old.items }
    ensures had { result ≡ is_some (grant_of asked grants.old.items) }
    ensures items { grants.new.items ≡ others asked grants.old.items }
    ensures fewer { vec_len grants.new ≤ vec_len grants.old }
    ensures capacity { vec_capacity grants.new ≡ vec_capacity grants.old }
{
    if !marks.has(asked) {
        return false;
    }
    leave_others(grants, asked)
}

// The same by one walk over all of them.
fn leave_others(grants: &mut Vec<Grant>, asked: u64) -> bool
    ensures had { result ≡ is_some (grant_of asked grants.old.items) }
    ensures items { grants.new.items ≡ others asked grants.old.items }
    ensures fewer { vec_len grants.new ≤ vec_len grants.old }
    ensures capacity { vec_capacity grants.new ≡ vec_capacity grants.old }
{
    let before = grants.len();
    grants.retain(|grant| grant.asked != asked);
    grants.len() < before
}

fn leave_unmet(grants: &mut Vec<Grant>, span: &Span)
    requires grants { All IsGrant grants.old.items }
    requires proper { IsProper span.now }
    ensures items { grants.new.items ≡ filter (λ g. not (is_met span.now g)) grants.old.items }
    ensures fewer { vec_len grants.new ≤ vec_len grants.old }
    ensures capacity { vec_capacity grants.new ≡ vec_capacity grants.old }
{
    for at in (0..grants.len()).rev() {
        if grants[at].lease.meets(span) {
            grants.remove(at);
        }
    }
}
