//! An endpoint's I/O addresses.
ghost use Rattle.std.specs.Prelude.{◌≡◌, ◌≤◌, ◌<◌, ◌-◌, ◌^◌, ◌↔◌, ℕ, [], true, false, not, length, map, filter, IsTrue, IfOk, IfSome, IfNone, OnOk, OnErr, IsErrOf, IsPermutation, Contains, insert};
ghost use Rattle.std.specs.List.{list_any};
ghost use Rattle.vi_bytes.specs.Spans.{IsMultiple};
ghost use Rattle.vi_bytes.specs.Properties.{ReadsFrom, Regions};
ghost use Rattle.vi_prop.specs.declared.refusal.PropFault.{PropFault};
ghost use Rattle.vi_iova.specs.Spaces.{IsFree, IsLowestFree, among, is_same, with_live, without_live};
ghost use Rattle.vi_iova.specs.Faults.{ReadsFaultily};
ghost use Rattle.vi_iova.specs.Order.{AreRising};
ghost use Rattle.vi_iova.specs.declared.fault.SpaceFault.TheVariants.{Properties};
ghost use Rattle.vi_iova.specs.declared.fault.AllocFault.TheVariants.{Full};

use crate::fault::{AllocFault, SpaceFault};
use crate::walk::{Wanted, lowest_clear};
use std::alloc::{AllocError, Global};
use std::marker::Model;
use vi_bytes::{Region, Span};
use vi_prop::decode;

/// An endpoint's I/O addresses: the input range, the granule in bytes, the regions that are kept
/// from it in the order of its properties, and the live spans by rising address. Contracts see
/// these.
#[derive(Drop)]
pub struct Space {
    input: Span,
    granule: u32,
    regions: Vec<Region>,
    // The spans of the regions, by rising address.
    kept_off: Vec<Span>,
    live: Vec<Span>,
}

impl Model for Space {
    ghost use Rattle.vi_iova.specs.Spaces.{SpaceValue};
    ghost use Rattle.vi_iova.specs.Order.{IsInOrder};

    ghost Value = { SpaceValue };

    ghost view = { λ s. record { input = s.input; granule = s.granule; regions = s.regions.items; live = s.live.items } };

    ghost invariant = { λ s. IsInOrder s.granule s.regions.items s.kept_off.items s.live.items };
}

impl Space {
    /// The space of an endpoint whose PROBE was answered with these properties (Virtio 1.2, 5.13.6.8),
    /// in which nothing is live. `input` is the device's input range (5.13.4). An error says what is at
    /// fault in the properties, or out of memory.
    pub fn open(
        alloc: Global,
        input: Span,
        granule: u32,
        properties: &[u8],
    ) -> Result<Space, SpaceFault>
        requires granule { 0 < granule }
        requires fits { length properties.now < 2 ^ 32 - 1 }
        ensures input { IfOk result (λ s. s.input ≡ input) }
        ensures granule { IfOk result (λ s. s.granule ≡ granule) }
        ensures regions { IfOk result (λ s. ReadsFrom properties.now 0 (Regions s.regions)) }
        ensures empty { IfOk result (λ s. s.live ≡ []) }
        ensures refused { (fault : PropFault) → result ≡ Err (Properties fault) → ReadsFaultily properties.now fault }
    {
        let regions = decode(alloc, properties)?;
        let kept_off = rising_spans(alloc, &regions)?;
        Ok(Space {
            input,
            granule,
            regions,
            kept_off,
            live: Vec::new(alloc),
        })
    }

    /// The lowest free span of this many bytes, which is live from now on. An error changes nothing.
    #[tactic(auto, using(crate::proofs::Keeping::steps))]
    pub fn alloc(&mut self, len: u64) -> Result<Span, AllocFault>
        requires whole { IsMultiple self.old.granule len }
        requires some { 0 < len }
        ensures lowest { IfOk result (IsLowestFree self.old len) }
        ensures live { IfOk result (λ span. self.new ≡ with_live span self.old) }
        ensures full { IsErrOf result Full ↔ ((first : ℕ) → ¬ IsFree self.old len first) }
        ensures err { OnErr result (self.new ≡ self.old) }
    {
        let Some(span) = self.lowest_free(len) else {
            return Err(AllocFault::Full);
        };
        match put_among(&mut self.live, span) {
            Ok(()) => Ok(span),
            Err(_) => Err(AllocFault::OutOfMemory),
        }
    }

    // The lowest free span of this many bytes.
    fn lowest_free(&self, len: u64) -> Option<Span>
        requires some { 0 < len }
        ensures lowest { IfSome result (IsLowestFree self.now len) }
        ensures none { IfNone result ((first : ℕ) → ¬ IsFree self.now len first) }
    {
        let granule = u64::from(self.granule);
        let wanted = Wanted::new(len, granule, self.input.last);
        let from = wanted.above(granule.max(self.input.first) - 1)?;
        lowest_clear(&wanted, &self.live, &self.kept_off, from)
    }

    /// Takes the span out of the live ones, and answers whether it was one. Takes no memory.
    #[tactic(auto, using(crate::proofs::Keeping::steps))]
    pub fn free(&mut self, span: &Span) -> bool
        ensures was { IsTrue result ↔ Contains self.old.live span.now }
        ensures freed { result ≡ true → self.new ≡ without_live span.now self.old }
        ensures kept { result ≡ false → self.new ≡ self.old }
    {
        if !is_among(&self.live, span) {
            return false;
        }
        take_out(&mut self.live, span);
        true
    }
}

// The spans of the regions, by rising address.
fn rising_spans(alloc: Global, regions: &[Region]) -> Result<Vec<Span>, AllocError>
    ensures spans { IfOk result (λ v. IsPermutation (map (λ r. r.span) regions.now) v.items) }
    ensures rising { IfOk result (λ v. AreRising v.items) }
{
    let mut spans = spans_of(alloc, regions)?;
    sort(&mut spans);
    Ok(spans)
}

fn spans_of(alloc: Global, regions: &[Region]) -> Result<Vec<Span>, AllocError>
    ensures { IfOk result (λ v. v.items ≡ map (λ r. r.span) regions.now) }
{
    let mut spans = Vec::new(alloc);
    for region in regions {
        spans.push(region.span)?;
    }
    Ok(spans)
}

fn sort(spans: &mut Vec<Span>)
    ensures same { IsPermutation spans.old.items spans.new.items }
    ensures rising { AreRising spans.new.items }
{
    spans.sort_unstable_by_key(|span| span.first);
}

// Where the span goes among the others.
fn place_of(live: &[Span], span: &Span) -> usize
    ensures within { result ≤ length live.now }
    ensures place { insert live.now result span.now ≡ among span.now live.now }
{
    for (i, other) in live.iter().enumerate() {
        if span.first < other.first {
            return i;
        }
    }
    live.len()
}

fn put_among(live: &mut Vec<Span>, span: Span) -> Result<(), AllocError>
    ensures put { OnOk result (live.new.items ≡ among span live.old.items) }
    ensures err { OnErr result (live.new.items ≡ live.old.items) }
{
    let at = place_of(live, &span);
    live.insert(at, span)?;
    Ok(())
}

fn is_same(other: &Span, span: &Span) -> bool
    ensures { result ≡ is_same other.now span.now }
{
    other.first == span.first && other.last == span.last
}

fn is_among(live: &[Span], span: &Span) -> bool
    ensures { result ≡ list_any (λ t. is_same t span.now) live.now }
{
    live.iter().any(|other| is_same(other, span))
}

fn take_out(live: &mut Vec<Span>, span: &Span)
    ensures { live.new.items ≡ filter (λ t. not (is_same t span.now)) live.old.items }
{
    live.retain(|other| !is_same(other, span));
}
