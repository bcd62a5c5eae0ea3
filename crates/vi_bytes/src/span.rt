//! Spans of addresses, pages and granules.
ghost use Rattle.std.specs.Prelude.{◌≡◌, ◌+◌, ◌*◌, ◌/◌, ◌^◌, ◌≤◌, ◌<◌, ◌↔◌, IsTrue, IfSome, IsNone};
ghost use Rattle.vi_bytes.specs.Spans.{IsProper, Has, Meets, Covers, has, meets, covers, IsWholeGranules};

/// The size of a page in bytes. Translations, leases and parts go by pages of this size, whatever
/// the device's granule is.
pub const PAGE: u64 = 4096;

/// The addresses from `first` to `last`, both included. A span is proper where `first <= last`. A
/// call has that as a condition where it matters, and every span that a call gives is proper.
#[derive(Clone, Copy, Debug, PartialEq, Eq)]
pub struct Span {
    pub first: u64,
    pub last: u64,
}

impl Span {
    /// The span from `first` to `last`, or `None` where `last` is below `first`.
    pub fn new(first: u64, last: u64) -> Option<Span>
        ensures refused { IsNone result ↔ (last < first) }
        ensures span { IfSome result (λ s. s ≡ record { first = first; last = last }) }
        ensures proper { IfSome result IsProper }
    {
        if first <= last {
            Some(Span { first, last })
        } else {
            None
        }
    }

    /// Whether the address is in the span.
    pub fn contains(&self, address: u64) -> bool
        ensures within { IsTrue result ↔ Has self.now address }
        ensures test { result ≡ has self.now address }
    {
        self.first <= address && address <= self.last
    }

    /// Whether an address is in both.
    pub fn meets(&self, other: &Span) -> bool
        requires proper { IsProper self.now }
        requires other_proper { IsProper other.now }
        ensures shares { IsTrue result ↔ Meets self.now other.now }
        ensures test { result ≡ meets self.now other.now }
    {
        self.first <= other.last && other.first <= self.last
    }

    /// Whether all addresses of `other` are in `self`.
    pub fn covers(&self, other: &Span) -> bool
        requires other_proper { IsProper other.now }
        ensures contains { IsTrue result ↔ Covers self.now other.now }
        ensures test { result ≡ covers self.now other.now }
    {
        self.first <= other.first && other.last <= self.last
    }
}

/// The number of the page that has the address: the address divided by 4096.
pub fn page_of(address: u64) -> u64
    ensures page { result ≡ address / PAGE }
    ensures below { result < 2 ^ 52 }
{
    address >> 12
}

/// Whether `first` and `last + 1` are multiples of the granule, as whole numbers. With a granule of
/// 0 they never are, since 0 is its one multiple.
pub fn aligned(first: u64, last: u64, granule: u32) -> bool
    ensures { IsTrue result ↔ IsWholeGranules first last granule }
{
    if granule == 0 {
        return false;
    }
    let granule = u64::from(granule);
    first % granule == 0 && last % granule == granule - 1
}
