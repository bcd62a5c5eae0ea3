//! A sorted list of mappings with room for more.
ghost use Rattle.std.specs.Prelude.{◌≡◌, ◌+◌, ◌-◌, ◌^◌, ◌<◌, ◌≤◌, ◌↔◌, [], length, Ok, Err, Some, IfOk, OnOk, OnErr, insert, vec_len, vec_capacity};
ghost use Rattle.std.specs.Option.{option_copied};
ghost use Rattle.vi_bytes.specs.Spans.{IsProper, meets, covers};
ghost use Rattle.vi_bytes.specs.Mappings.{AreApart, mapping_at, mapping_meeting, is_cut, mapping_cut, with_mapping, within_span, without_span};

use std::alloc::{AllocError, Global};
use std::marker::Model;
use vi_bytes::{Mapping, Over, Span, Split};

/// The mappings of a domain by rising address, no two of which have a common address, and room for
/// more. Contracts see the list of mappings and `spare`, the number of those that can be inserted
/// before `reserve` has to be called; together they are fewer than 2^32.
#[derive(Drop)]
pub struct Ranges {
    mappings: Vec<Mapping>,
    // For how many more mappings there is room in the vector.
    spare: u32,
}

impl Model for Ranges {
    ghost use Rattle.std.specs.Prelude.{◌+◌, ◌^◌, ◌<◌, ◌≤◌, vec_len, vec_capacity};
    ghost use Rattle.vi_bytes.specs.Mappings.{MappingSet, AreApart};

    ghost Value = { MappingSet };

    ghost view = { λ r. record { mappings = r.mappings.items; spare = r.spare } };

    ghost invariant = { λ r. AreApart r.mappings.items × (vec_len r.mappings + r.spare ≤ vec_capacity r.mappings) × (vec_len r.mappings + r.spare < 2 ^ 32) };
}

impl Ranges {
    /// No mapping, with room for `n`.
    pub fn with_room(alloc: Global, n: u32) -> Result<Ranges, AllocError>
        ensures empty { IfOk result (λ r. r.mappings ≡ []) }
        ensures room { IfOk result (λ r. n ≤ r.spare) }
        ensures few { IfOk result (λ r. length r.mappings + r.spare < 2 ^ 32) }
    {
        Ok(Ranges {
            mappings: Vec::with_capacity(alloc, n as usize)?,
            spare: n,
        })
    }

    /// The number of mappings.
    pub fn len(&self) -> u32
        ensures number { result ≡ length self.now.mappings }
        ensures apart { AreApart self.now.mappings }
        ensures few { length self.now.mappings + self.now.spare < 2 ^ 32 }
    {
        let _ = &self.spare;
        self.mappings.len() as u32
    }

    /// Makes room for `n` more mappings. The room that is there stays.
    pub fn reserve(&mut self, n: u32) -> Result<(), AllocError>
        requires { length self.old.mappings + n < 2 ^ 32 }
        ensures room { OnOk result (n ≤ self.new.spare) }
        ensures kept { self.new.mappings ≡ self.old.mappings }
        ensures spare { self.old.spare ≤ self.new.spare }
        ensures refused { OnErr result (self.new ≡ self.old) }
        ensures apart { AreApart self.new.mappings }
        ensures few { length self.new.mappings + self.new.spare < 2 ^ 32 }
    {
        if self.spare < n {
            self.mappings.reserve(n as usize)?;
            self.spare = n;
        }
        Ok(())
    }

    /// Puts the mapping among the others, or answers the lowest that shares an address with it. Takes
    /// no memory.
    pub fn insert(&mut self, m: Mapping) -> Result<(), Over>
        requires proper { IsProper m.span }
        requires room { 1 ≤ self.old.spare }
        ensures over { (met : Mapping) → (result ≡ Err (record { met = met })) ↔ (mapping_meeting m.span self.old.mappings ≡ Some met) }
        ensures inserted { OnOk result (self.new ≡ record { mappings = with_mapping m self.old.mappings; spare = self.old.spare - 1 }) }
        ensures refused { OnErr result (self.new ≡ self.old) }
        ensures apart { AreApart self.new.mappings }
        ensures few { length self.new.mappings + self.new.spare < 2 ^ 32 }
    {
        match lowest_meeting(&self.mappings, &m.span) {
            Some(met) => Err(Over { met: *met }),
            None => {
                put_among(&mut self.mappings, m);
                self.spare -= 1;
                Ok(())
            }
        }
    }

    /// The mapping that has the address.
    pub fn find(&self, address: u64) -> Option<Mapping>
        ensures { result ≡ mapping_at address self.now.mappings }
    {
        mapping_with(&self.mappings, address).copied()
    }

    /// The lowest mapping that shares an address with the span.
    pub fn meeting(&self, span: &Span) -> Option<Mapping>
        requires { IsProper span.now }
        ensures { result ≡ mapping_meeting span.now self.now.mappings }
    {
        lowest_meeting(&self.mappings, span).copied()
    }

    /// Removes all mappings that lie in the span and answers their number, or removes none and answers
    /// the lowest that lies in it only in part. Takes no memory.
    pub fn unmap(&mut self, span: &Span) -> Result<u32, Split>
        requires { IsProper span.now }
        ensures split { (met : Mapping) → (result ≡ Err (record { met = met })) ↔ (mapping_cut span.now self.old.mappings ≡ Some met) }
        ensures number { IfOk result (λ n. n ≡ length (within_span span.now self.old.mappings)) }
        ensures removed { IfOk result (λ n. self.new ≡ record { mappings = without_span span.now self.old.mappings; spare = self.old.spare + n }) }
        ensures refused { OnErr result (self.new ≡ self.old) }
        ensures apart { AreApart self.new.mappings }
        ensures few { length self.new.mappings + self.new.spare < 2 ^ 32 }
    {
        if let Some(met) = lowest_cut(&self.mappings, span) {
            return Err(Split { met: *met });
        }
        let before = self.mappings.len();
        keep_outside(&mut self.mappings, span);
        let removed = (before - self.mappings.len()) as u32;
        self.spare += removed;
        Ok(removed)
    }
}

// The spans' own tests ask for proper spans; within a search these go without.
fn shares(m: &Mapping, span: &Span) -> bool
    ensures { result ≡ meets m.now.span span.now }
{
    m.span.first <= span.last && span.first <= m.span.last
}

fn lies_in(m: &Mapping, span: &Span) -> bool
    ensures { result ≡ covers span.now m.now.span }
{
    span.first <= m.span.first && m.span.last <= span.last
}

fn is_split(m: &Mapping, span: &Span) -> bool
    ensures { result ≡ is_cut span.now m.now }
{
    shares(m, span) && !lies_in(m, span)
}

fn mapping_with(mappings: &[Mapping], address: u64) -> Option<&Mapping>
    ensures { option_copied result ≡ mapping_at address mappings.now }
{
    mappings.iter().find(|m| m.span.contains(address))
}

fn lowest_meeting<'a>(mappings: &'a [Mapping], span: &Span) -> Option<&'a Mapping>
    ensures { option_copied result ≡ mapping_meeting span.now mappings.now }
{
    mappings.iter().find(|m| shares(m, span))
}

fn lowest_cut<'a>(mappings: &'a [Mapping], span: &Span) -> Option<&'a Mapping>
    ensures { option_copied result ≡ mapping_cut span.now mappings.now }
{
    mappings.iter().find(|m| is_split(m, span))
}

fn keep_outside(mappings: &mut Vec<Mapping>, span: &Span)
    ensures items { mappings.new.items ≡ without_span span.now mappings.old.items }
    ensures capacity { vec_capacity mappings.new ≡ vec_capacity mappings.old }
{
    mappings.retain(|m| !lies_in(m, span));
}

// Where the mapping goes among the others.
fn place_of(mappings: &[Mapping], m: &Mapping) -> usize
    ensures within { result ≤ length mappings.now }
    ensures place { insert mappings.now result m.now ≡ with_mapping m.now mappings.now }
{
    for (i, x) in mappings.iter().enumerate() {
        if m.span.first < x.span.first {
            return i;
        }
    }
    mappings.len()
}

fn put_among(mappings: &mut Vec<Mapping>, m: Mapping)
    requires { vec_len mappings.old < vec_capacity mappings.old }
    ensures items { mappings.new.items ≡ with_mapping m mappings.old.items }
    ensures len { vec_len mappings.new ≡ vec_len mappings.old + 1 }
    ensures capacity { vec_capacity mappings.new ≡ vec_capacity mappings.old }
{
    let at = place_of(mappings, &m);
    match mappings.insert(at, m) {
        Ok(()) => {}
        Err(_) => unreachable!(),
    }
}
