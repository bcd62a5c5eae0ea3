//! What a removal takes from endpoints.
ghost use Rattle.std.specs.Prelude.{◌≡◌};
ghost use Rattle.vi_shoot.specs.Reaches.{is_for, reach_of, reach_span, reaches};

use vi_bytes::{Membership, Span, page_of};

/// What a removal takes back.
#[derive(Clone, Copy, Debug, PartialEq, Eq)]
pub enum What {
    /// An UNMAP takes the addresses of the span from the endpoints that are in the domain (Virtio
    /// 1.2, 5.13.6.6).
    Unmap { domain: u32, span: Span },
    /// An ATTACH or a DETACH takes all addresses from the endpoint at this place (Virtio 1.2,
    /// 5.13.6.3 and 5.13.6.4).
    Endpoint(u32),
    /// A bypass setting to off takes all addresses from the endpoints that are in no domain.
    BypassOff,
}

impl What {
    /// Whether it takes anything from the endpoint at this place, which is now in this domain.
    pub fn is_for(&self, place: u32, now: Membership) -> bool
        ensures { result ≡ is_for self.now place now }
    {
        match *self {
            What::Unmap { domain, .. } => match now {
                Membership::Member(member) => member == domain,
                Membership::Unattached => false,
            },
            What::Endpoint(endpoint) => endpoint == place,
            What::BypassOff => match now {
                Membership::Member(_) => false,
                Membership::Unattached => true,
            },
        }
    }

    /// The pages that it closes.
    pub fn reach(&self) -> Reach
        ensures { result ≡ reach_of self.now }
    {
        match *self {
            What::Unmap { span, .. } => Reach::Within(span),
            What::Endpoint(_) | What::BypassOff => Reach::All,
        }
    }
}

/// The pages that a removal closes: all, or those with an address of the span.
#[derive(Clone, Copy, Debug, PartialEq, Eq)]
pub enum Reach {
    All,
    Within(Span),
}

impl Reach {
    /// The addresses of these pages, as an invalidate names them: 0 to 2^64 - 1 for all pages.
    pub fn span(&self) -> Span
        ensures { result ≡ reach_span self.now }
    {
        match *self {
            Reach::All => Span {
                first: 0,
                last: u64::MAX,
            },
            Reach::Within(span) => span,
        }
    }

    /// Whether the page is one of them.
    pub fn has(&self, page: u64) -> bool
        ensures { result ≡ reaches self.now page }
    {
        match *self {
            Reach::All => true,
            Reach::Within(span) => page_of(span.first) <= page && page <= page_of(span.last),
        }
    }
}
