//! The pages that a back end may keep, as a map from a page to its permission.
ghost use Rattle.std.specs.Prelude.{◌≡◌, ◌≤◌, ◌<◌, ◌+◌, ◌/◌, ◌++◌, ◌^◌, ℕ, List, true, false, None, OnOk, IfSome, IfNone, IsSome, filter, not};
ghost use Rattle.std.specs.BTreeMap.{get};
ghost use Rattle.std.specs.Ordering.{nat_cmp};
ghost use Rattle.vi_bytes.specs.Spans.{meets, page_span};
ghost use Rattle.vi_bytes.specs.declared.span.TheConstants.{PAGE};
ghost use Rattle.vi_trace.specs.Rules.{Kept, allows, pages_kept, perm_of, takes};
ghost use Rattle.vi_trace.specs.Steps.{IsCache};

use std::alloc::AllocError;
use std::collections::BTreeMap;
use vi_bytes::{Need, Span, page_of};

/// The pages of an Update are kept, each with its permission. An error means out of memory.
pub fn keep(
    cache: &mut BTreeMap<u64, u8>,
    page: u64,
    count: u32,
    perm: u8,
) -> Result<(), AllocError>
    requires { page + count ≤ 2 ^ 52 }
    ensures { OnOk result ((kept : List Kept) → IsCache cache.old kept → IsCache cache.new (pages_kept page count perm ++ kept)) }
{
    for i in 0..count {
        cache.insert(page + u64::from(i), perm)?;
    }
    Ok(())
}

/// The pages that meet the span are no longer kept. This costs those pages alone, however many others there are.
pub fn forget(cache: &mut BTreeMap<u64, u8>, span: &Span)
    ensures taken { (page : ℕ) → meets (page_span page) span.now ≡ true → get nat_cmp cache.new page ≡ None }
    ensures kept { (page : ℕ) → meets (page_span page) span.now ≡ false → get nat_cmp cache.new page ≡ get nat_cmp cache.old page }
{
    let first = page_of(span.first);
    let last = page_of(span.last);
    while let Some(page) = first_within(cache, first, last) {
        cache.remove(&page);
    }
}

/// The first page that is kept from `first` to `last`.
fn first_within(cache: &BTreeMap<u64, u8>, first: u64, last: u64) -> Option<u64>
    ensures within { IfSome result (λ page. (first ≤ page) × (page ≤ last)) }
    ensures kept { IfSome result (λ page. IsSome (get nat_cmp cache.now page)) }
    ensures none { IfNone result ((page : ℕ) → first ≤ page → page ≤ last → get nat_cmp cache.now page ≡ None) }
{
    let (page, _) = cache.range(first..).next()?;
    if *page <= last { Some(*page) } else { None }
}

/// Whether the page of an address is kept with the right that is needed.
pub fn permits(cache: &BTreeMap<u64, u8>, address: u64, need: Need) -> bool
    ensures { (kept : List Kept) → IsCache cache.now kept → result ≡ allows need (perm_of (address / PAGE) kept) }
{
    let perm = cache.get(&page_of(address)).copied().unwrap_or(0);
    allows(need, perm)
}

/// Whether a permission has the bit of what is needed.
fn allows(need: Need, perm: u8) -> bool
    ensures { result ≡ allows need perm }
{
    match need {
        Need::Read => perm % 2 == 1,
        Need::Write => perm / 2 % 2 == 1,
    }
}
