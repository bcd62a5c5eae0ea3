//! Tests of spans, whether their ends are in order or not: a request may have any numbers.
ghost use Rattle.std.specs.Prelude.{◌≡◌};
ghost use Rattle.std.specs.List.{list_any};
ghost use Rattle.vi_bytes.specs.Spans.{has, meets, covers};
ghost use Rattle.vi_history.specs.Statuses.{any_region_meets};

use vi_bytes::{Region, Span};

/// Each of the two ends at or behind the other's first address.
pub fn share_address(a: &Span, b: &Span) -> bool
    ensures { result ≡ meets a.now b.now }
{
    a.first <= b.last && b.first <= a.last
}

/// The outer span has both ends of the inner one.
pub fn lies_in(outer: &Span, inner: &Span) -> bool
    ensures { result ≡ covers outer.now inner.now }
{
    outer.first <= inner.first && inner.last <= outer.last
}

/// One of the regions shares an address with the span.
pub fn region_shares_address(span: &Span, regions: &[Region]) -> bool
    ensures { result ≡ any_region_meets span.now regions.now }
{
    regions.iter().any(|r| share_address(&r.span, span))
}

/// One of the regions has the address.
pub fn region_has(address: u64, regions: &[Region]) -> bool
    ensures { result ≡ list_any (λ r. has r.span address) regions.now }
{
    regions.iter().any(|r| r.span.contains(address))
}
