//! A domain: its mappings by rising address.
ghost use Rattle.std.specs.Prelude.{◌≡◌, [], nat_le, OnOk, OnErr, IfSome, IsTrue};
ghost use Rattle.std.specs.List.{prefix_len};
ghost use Rattle.std.specs.Option.{option_copied};
ghost use Rattle.vi_bytes.specs.Mappings.{mapping_at, with_mapping, without_span};
ghost use Rattle.vi_bytes.specs.Spans.{has};
ghost use Rattle.vi_history.specs.Effects.{changed_if};
ghost use Rattle.vi_history.specs.Statuses.{any_mapping_meets, any_mapping_meets_region, any_mapping_is_cut};
ghost use Rattle.vi_plain.specs.Kept.{IsSound};

use crate::spans::{lies_in, region_shares_address, share_address};
use std::alloc::{AllocError, Global};
use std::marker::Model;
use vi_bytes::{Mapping, Region, Span};

/// A domain, which contracts see with its id, its bypass flag and its mappings by rising address.
#[derive(Drop)]
pub struct Domain {
    id: u32,
    bypass: bool,
    mappings: Vec<Mapping>,
}

impl Model for Domain {
    ghost use Rattle.std.specs.Prelude.{All};
    ghost use Rattle.vi_history.specs.Device as device;
    ghost use Rattle.vi_plain.specs.Kept.{IsSound};

    ghost Value = { device.Domain };

    ghost view = { λ y. record { id = y.id; bypass = y.bypass; mappings = y.mappings.items } };

    ghost invariant = { λ y. All IsSound y.mappings.items };
}

// How many of the mappings come before one that begins at this address.
fn place_of(mappings: &[Mapping], first: u64) -> usize
    ensures { result ≡ prefix_len (λ x. nat_le x.span.first first) mappings.now }
{
    mappings
        .iter()
        .take_while(|x| x.span.first <= first)
        .count()
}

// Puts one more among the mappings, by rising address.
fn insert(mappings: &mut Vec<Mapping>, mapping: Mapping) -> Result<(), AllocError>
    ensures ok { OnOk result (mappings.new.items ≡ with_mapping mapping mappings.old.items) }
    ensures err { OnErr result (mappings.new.items ≡ mappings.old.items) }
{
    let place = place_of(mappings, mapping.span.first);
    mappings.insert(place, mapping)?;
    Ok(())
}

// Removes the mappings that lie in the span.
fn remove_within(mappings: &mut Vec<Mapping>, span: &Span)
    ensures { mappings.new.items ≡ without_span span.now mappings.old.items }
{
    mappings.retain(|m| !lies_in(span, &m.span));
}

impl Domain {
    /// A domain without mappings, with no memory taken.
    pub fn new(alloc: Global, id: u32, bypass: bool) -> Domain
        ensures { result ≡ record { id = id; bypass = bypass; mappings = [] } }
    {
        Domain {
            id,
            bypass,
            mappings: Vec::new(alloc),
        }
    }

    /// The domain's id.
    pub fn id(&self) -> u32
        ensures { result ≡ self.now.id }
    {
        self.id
    }

    /// Whether the endpoints of the domain bypass translation.
    pub fn is_bypass(&self) -> bool
        ensures { result ≡ self.now.bypass }
    {
        self.bypass
    }

    /// Whether one of the mappings shares an address with the span.
    pub fn meets(&self, span: &Span) -> bool
        ensures { result ≡ any_mapping_meets span.now self.now.mappings }
    {
        self.mappings.iter().any(|m| share_address(&m.span, span))
    }

    /// Whether one of the mappings shares an address with one of the regions.
    pub fn meets_region(&self, regions: &[Region]) -> bool
        ensures { result ≡ any_mapping_meets_region regions.now self.now.mappings }
    {
        self.mappings
            .iter()
            .any(|m| region_shares_address(&m.span, regions))
    }

    /// Whether one of the mappings lies in the span only in part.
    pub fn is_cut(&self, span: &Span) -> bool
        ensures { result ≡ any_mapping_is_cut span.now self.now.mappings }
    {
        self.mappings.iter().any(|m| share_address(&m.span, span) && !lies_in(span, &m.span))
    }

    /// The mapping that has the address.
    pub fn mapping_at(&self, address: u64) -> Option<&Mapping>
        ensures mapping { option_copied result ≡ mapping_at address self.now.mappings }
        ensures within { IfSome result (λ m. IsTrue (has m.now.span address)) }
        ensures sound { IfSome result (λ m. IsSound m.now) }
    {
        self.mappings.iter().find(|m| m.span.contains(address))
    }

    /// Adds a mapping. An error means out of memory, and changes nothing.
    pub fn map(&mut self, mapping: Mapping) -> Result<(), AllocError>
        requires { IsSound mapping }
        ensures ok { OnOk result (self.new ≡ record self.old { mappings = with_mapping mapping self.old.mappings }) }
        ensures err { OnErr result (self.new ≡ self.old) }
    {
        insert(&mut self.mappings, mapping)
    }

    /// Removes the mappings that lie in the span, if the domain has this id.
    pub fn unmap_if(&mut self, id: u32, span: &Span)
        ensures { self.new ≡ changed_if id (without_span span.now) self.old }
    {
        if self.id == id {
            remove_within(&mut self.mappings, span);
        }
    }
}
