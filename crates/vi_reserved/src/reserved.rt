//! The reserved regions of all endpoints.
ghost use Rattle.std.specs.Prelude.{◌≡◌, ℕ, ◌<◌, length, All, IfOk, IfSome};
ghost use Rattle.vi_bytes.specs.Spans.{IsProper};
ghost use Rattle.vi_reserved.specs.Regions.{AreProper, regions_of, regions_at, region_meeting, region_with};

use std::alloc::{AllocError, Global};
use std::marker::Model;
use vi_bytes::{EndpointSetup, Items, Region, Span};

/// The regions that each endpoint keeps to itself (Virtio 1.2, 5.13.6.8.1), in declared order.
/// `place` is the number of an endpoint from 0, as they are declared.
#[derive(Debug, Drop)]
pub struct Reserved {
    endpoints: Vec<Items<Region>>,
}

impl Model for Reserved {
    ghost use Rattle.std.specs.Prelude.{List, All};
    ghost use Rattle.vi_bytes.specs.declared.region.Region.{Region};
    ghost use Rattle.vi_reserved.specs.Regions.{AreProper};

    ghost Value = { List (List Region) };

    ghost view = { λ r. r.endpoints.items };

    ghost invariant = { λ r. All AreProper r.endpoints.items };
}

impl Reserved {
    /// The regions of these endpoints. An error means out of memory.
    pub fn new(alloc: Global, endpoints: &[EndpointSetup]) -> Result<Reserved, AllocError>
        requires { All (λ e. AreProper e.regions) endpoints.now }
        ensures regions { IfOk result (λ reserved. reserved ≡ regions_of endpoints.now) }
        ensures proper { IfOk result (All AreProper) }
    {
        let mut all = Vec::with_capacity(alloc, endpoints.len())?;
        for endpoint in endpoints {
            all.push_reserved(Items::of(alloc, endpoint.regions.as_slice())?);
        }
        Ok(Reserved { endpoints: all })
    }

    /// How many endpoints there are.
    pub fn len(&self) -> usize
        ensures { result ≡ length self.now }
    {
        self.endpoints.len()
    }

    /// The endpoint's regions, in declared order.
    pub fn regions(&self, place: u32) -> &[Region]
        requires { place < length self.now }
        ensures regions { result.now ≡ regions_at self.now place }
        ensures proper { AreProper result.now }
    {
        self.endpoints[place as usize].as_slice()
    }

    /// The endpoint's first region in declared order that shares an address with the span, or
    /// `None` where none does.
    pub fn first_meeting(&self, place: u32, span: &Span) -> Option<Region>
        requires place_in { place < length self.now }
        requires proper { IsProper span.now }
        ensures first { result ≡ region_meeting span.now (regions_at self.now place) }
    {
        first_meeting(self.regions(place), span)
    }

    /// The endpoint's first region in declared order that has the address, or `None` where none
    /// has it.
    pub fn first_with(&self, place: u32, address: u64) -> Option<Region>
        requires place_in { place < length self.now }
        ensures first { result ≡ region_with address (regions_at self.now place) }
    {
        first_with(self.regions(place), address)
    }
}

fn first_meeting(regions: &[Region], span: &Span) -> Option<Region>
    requires regions { AreProper regions.now }
    requires proper { IsProper span.now }
    ensures { result ≡ region_meeting span.now regions.now }
{
    for region in regions {
        if region.span.meets(span) {
            return Some(*region);
        }
    }
    None
}

fn first_with(regions: &[Region], address: u64) -> Option<Region>
    ensures { result ≡ region_with address regions.now }
{
    for region in regions {
        if region.span.contains(address) {
            return Some(*region);
        }
    }
    None
}
