//! A walk by rising address over what is taken, to the lowest place that is clear.
ghost use Rattle.std.specs.Prelude.{◌≡◌, ◌+◌, ◌-◌, ◌^◌, ◌≤◌, ◌<◌, ℕ, ◌∷◌, IfSome, IfNone};
ghost use Rattle.vi_bytes.specs.Spans.{IsMultiple};
ghost use Rattle.vi_iova.specs.Spaces.{span_of};
ghost use Rattle.vi_iova.specs.Order.{AreRising};
ghost use Rattle.vi_iova.specs.Walks.{BeginAbove, Finds, IsNext, IsPast};

use vi_bytes::Span;

/// What is looked for: this many bytes from a multiple of the granule on, which end at the last
/// address or below it.
#[derive(Clone, Copy)]
pub struct Wanted {
    len: u64,
    granule: u64,
    last: u64,
}

impl Wanted {
    /// So many bytes, from a multiple of this granule on, up to this address.
    pub fn new(len: u64, granule: u64, last: u64) -> Wanted
        ensures wanted { result ≡ record { len = len; granule = granule; last = last } }
        ensures fits { last < 2 ^ 64 }
    {
        Wanted { len, granule, last }
    }

    /// The lowest multiple of the granule above the address.
    pub fn above(&self, address: u64) -> Option<u64>
        requires { 0 < self.now.granule }
        ensures next { IfSome result (IsNext self.now.granule address) }
        ensures none { IfNone result ((n : ℕ) → IsMultiple self.now.granule n → address < n → 2 ^ 64 ≤ n) }
    {
        (address - address % self.granule).checked_add(self.granule)
    }

    // The lowest multiple of the granule, from `first` on, above the taken span.
    fn past(&self, first: u64, taken: &Span) -> Option<u64>
        requires some { 0 < self.now.granule }
        requires whole { IsMultiple self.now.granule first }
        ensures next { IfSome result (IsPast self.now.granule first taken.now.last) }
        ensures none { IfNone result ((n : ℕ) → IsMultiple self.now.granule n → taken.now.last < n → 2 ^ 64 ≤ n) }
    {
        if taken.last < first {
            Some(first)
        } else {
            self.above(taken.last)
        }
    }

    // The wanted bytes from this address on.
    fn span_from(&self, first: u64) -> Option<Span>
        requires { 0 < self.now.len }
        ensures span { IfSome result (λ span. span ≡ span_of first self.now.len) }
        ensures ends { IfSome result (λ span. span.last ≤ self.now.last) }
        ensures fits { self.now.last < 2 ^ 64 }
        ensures none { IfNone result (self.now.last < first + (self.now.len - 1)) }
    {
        let more = self.len - 1;
        if first <= self.last && more <= self.last - first {
            Some(Span {
                first,
                last: first + more,
            })
        } else {
            None
        }
    }
}

// The span in front and those after it, where it begins at the address or below it.
fn front_by(spans: &[Span], address: u64) -> Option<(Span, &[Span])>
    ensures front { IfSome result (λ found. spans.now ≡ found.0 ∷ found.1.now) }
    ensures begins { IfSome result (λ found. found.0.first ≤ address) }
    ensures none { IfNone result (BeginAbove address spans.now) }
{
    let (front, rest) = spans.split_first()?;
    if front.first <= address {
        Some((*front, rest))
    } else {
        None
    }
}

/// The lowest of the wanted spans, from the multiple `from` on, that meets none of the live ones and
/// of those that are kept off. Each of them is passed once.
#[tactic(auto, using(crate::proofs::Walking::steps))]
pub fn lowest_clear(wanted: &Wanted, live: &[Span], kept_off: &[Span], from: u64) -> Option<Span>
    requires granule { 0 < wanted.now.granule }
    requires len { 0 < wanted.now.len }
    requires whole { IsMultiple wanted.now.granule from }
    requires live { AreRising live.now }
    requires kept_off { AreRising kept_off.now }
    ensures { Finds wanted.now live.now kept_off.now from result }
{
    let mut first = from;
    let mut ahead = live;
    let mut regions = kept_off;
    loop {
        let span = wanted.span_from(first)?;
        if let Some((taken, rest)) = front_by(ahead, span.last) {
            first = wanted.past(first, &taken)?;
            ahead = rest;
        } else if let Some((taken, rest)) = front_by(regions, span.last) {
            first = wanted.past(first, &taken)?;
            regions = rest;
        } else {
            return Some(span);
        }
    }
}
