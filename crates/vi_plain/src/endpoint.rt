//! An endpoint: its regions, and the domain that it is in.
ghost use Rattle.std.specs.Prelude.{◌≡◌, ◌&&◌, ◌≤◌, length, IfOk};
ghost use Rattle.std.specs.List.{list_any};
ghost use Rattle.vi_bytes.specs.Spans.{has};
ghost use Rattle.vi_history.specs.Device.{is_in};
ghost use Rattle.vi_history.specs.Effects.{moved_if};
ghost use Rattle.vi_history.specs.Start.{unattached};
ghost use Rattle.vi_history.specs.Statuses.{any_region_meets};
ghost use Rattle.vi_plain.specs.Conditions.{HasFewRegions};

use crate::spans::{region_has, region_shares_address};
use std::alloc::{AllocError, Global};
use std::marker::Model;
use vi_bytes::{EndpointSetup, Items, Membership, Region, Span};

/// An endpoint, which contracts see with its id, its regions and the domain that it is in.
#[derive(Drop)]
pub struct Endpoint {
    id: u32,
    regions: Items<Region>,
    domain: Membership,
}

impl Model for Endpoint {
    ghost use Rattle.std.specs.Prelude.{◌≤◌, length};
    ghost use Rattle.vi_history.specs.Device as device;

    ghost Value = { device.Endpoint };

    ghost view = { λ x. record { id = x.id; regions = x.regions; domain = x.domain } };

    ghost invariant = { λ x. length x.regions ≤ 16 };
}

impl Endpoint {
    /// A declared endpoint, in no domain at first. An error means out of memory.
    pub fn declared(alloc: Global, setup: &EndpointSetup) -> Result<Endpoint, AllocError>
        requires { HasFewRegions setup.now }
        ensures { IfOk result (λ x. x ≡ unattached setup.now) }
    {
        let regions = Items::of(alloc, setup.regions.as_slice())?;
        Ok(Endpoint {
            id: setup.id,
            regions,
            domain: Membership::Unattached,
        })
    }

    /// The endpoint's id.
    pub fn id(&self) -> u32
        ensures { result ≡ self.now.id }
    {
        self.id
    }

    /// The domain that the endpoint is in.
    pub fn membership(&self) -> Membership
        ensures { result ≡ self.now.domain }
    {
        self.domain
    }

    /// The regions that the endpoint keeps to itself: no more than its properties can show.
    pub fn regions(&self) -> &[Region]
        ensures regions { result.now ≡ self.now.regions }
        ensures few { length result.now ≤ 16 }
    {
        self.regions.as_slice()
    }

    /// Whether the endpoint is in the domain.
    pub fn is_in(&self, domain: u32) -> bool
        ensures { result ≡ is_in domain self.now.domain }
    {
        match self.domain {
            Membership::Unattached => false,
            Membership::Member(id) => id == domain,
        }
    }

    /// Whether the endpoint is in the domain, and one of its regions shares an address with the span.
    pub fn keeps_from(&self, domain: u32, span: &Span) -> bool
        ensures { result ≡ (is_in domain self.now.domain && any_region_meets span.now self.now.regions) }
    {
        self.is_in(domain) && region_shares_address(span, self.regions.as_slice())
    }

    /// Whether the address is in one of the endpoint's regions.
    pub fn keeps(&self, address: u64) -> bool
        ensures { result ≡ list_any (λ r. has r.span address) self.now.regions }
    {
        region_has(address, self.regions.as_slice())
    }

    /// Puts the endpoint into this domain or into none, if it has this id.
    pub fn move_if(&mut self, id: u32, membership: Membership)
        ensures { self.new ≡ moved_if id membership self.old }
    {
        if self.id == id {
            self.domain = membership;
        }
    }
}
