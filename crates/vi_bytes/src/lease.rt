//! Translations: what a back end may keep of them, and the mappings that they come from.
ghost use Rattle.std.specs.Prelude.{IsTrue, ◌↔◌, ◌≡◌, ◌+◌, ◌-◌};
ghost use Rattle.vi_bytes.specs.Spans.{IsProper};
ghost use Rattle.vi_bytes.specs.Leases.{IsLease, HasPage, SharePage, ReachesInto, has_page, share_page, reaches_into};

use crate::{Span, page_of};
use std::error::Error;
use std::fmt;

/// What an access does to the bytes at its address.
#[derive(Clone, Copy, Debug, PartialEq, Eq)]
pub enum Need {
    Read,
    Write,
}

/// A translation that a back end may cache: the pages `page` to `page + count - 1` go to the memory
/// pages from `target` on, counted up alike. `count` is 1 to 16, and all pages of a lease have the
/// same number divided by 16, rounded down. `perm` is 1 for reading, 2 for writing, 3 for both.
#[derive(Clone, Copy, Debug, Default, PartialEq, Eq)]
pub struct Lease {
    pub page: u64,
    pub count: u32,
    pub target: u64,
    pub perm: u8,
}

impl Lease {
    /// Whether the page is one of the lease's.
    pub fn has_page(&self, page: u64) -> bool
        ensures within { IsTrue result ↔ HasPage self.now page }
        ensures test { result ≡ has_page self.now page }
    {
        self.page <= page && page - self.page < u64::from(self.count)
    }

    /// Whether a page is in both leases.
    pub fn shares_page(&self, other: &Lease) -> bool
        requires lease { IsLease self.now }
        requires other_lease { IsLease other.now }
        ensures shares { IsTrue result ↔ SharePage self.now other.now }
        ensures test { result ≡ share_page self.now other.now }
    {
        self.has_page(other.page) || other.has_page(self.page)
    }

    /// The last page of the lease.
    pub fn last_page(&self) -> u64
        requires lease { IsLease self.now }
        ensures { result ≡ self.now.page + self.now.count - 1 }
    {
        self.page + u64::from(self.count - 1)
    }

    /// Whether a page of the lease has an address of the span.
    pub fn meets(&self, span: &Span) -> bool
        requires lease { IsLease self.now }
        requires proper { IsProper span.now }
        ensures reaches { IsTrue result ↔ ReachesInto self.now span.now }
        ensures test { result ≡ reaches_into self.now span.now }
    {
        self.page <= page_of(span.last) && page_of(span.first) <= self.last_page()
    }
}

/// A mapping of a domain (Virtio 1.2, 5.13.6.5): the addresses of the span go to those from
/// `target` on. `flags` are those of the MAP request: bit 0 permits reading and bit 1 writing.
#[derive(Clone, Copy, Debug, PartialEq, Eq)]
pub struct Mapping {
    pub span: Span,
    pub target: u64,
    pub flags: u32,
}

/// A mapping was not added, because `met`, the lowest mapping that shares an address with it, is
/// there.
#[derive(Clone, Copy, Debug, PartialEq, Eq)]
pub struct Over {
    pub met: Mapping,
}

impl fmt::Display for Over {
    fn fmt<W: fmt::Write>(&self, f: &mut fmt::Formatter<W>) -> fmt::Result {
        let Span { first, last } = self.met.span;
        write!(
            f,
            "shares addresses with the mapping of {first:#x} to {last:#x}"
        )
    }
}

impl Error for Over {}

/// Nothing was unmapped, because `met`, the lowest such mapping, lies only in part in the span.
#[derive(Clone, Copy, Debug, PartialEq, Eq)]
pub struct Split {
    pub met: Mapping,
}

impl fmt::Display for Split {
    fn fmt<W: fmt::Write>(&self, f: &mut fmt::Formatter<W>) -> fmt::Result {
        let Span { first, last } = self.met.span;
        write!(
            f,
            "has only a part of the mapping of {first:#x} to {last:#x}"
        )
    }
}

impl Error for Split {}
