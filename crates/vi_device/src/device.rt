//! The device.
ghost use Rattle.std.specs.Prelude.{◌≡◌, ◌<◌, ◌≤◌, ◌↔◌, IfOk, IsSome, IsTrue, length, replicate};
ghost use Rattle.vi_history.specs.Device.{domain_of};
ghost use Rattle.vi_history.specs.Effects.{with_bypass};
ghost use Rattle.vi_history.specs.Start.{start_dev};
ghost use Rattle.vi_device.specs.Values.{IsSetup, rooms, membership_at, ExistsWith, HasRoom, RoomIn};

use crate::domains::Domains;
use crate::endpoints::Endpoints;
use std::alloc::{AllocError, Global};
use std::marker::Model;
use vi_bytes::{Membership, Span};
use vi_history::{Request, Setup};
use vi_tree::Tree;

/// The state of the device (Virtio 1.2, 5.13): its endpoints and its domains with their mappings.
/// Contracts see it as `dev`, and with it `maps`, the number of mappings that each of 16 domains
/// has room for. `place` is the number of an endpoint from 0, as they were declared.
#[derive(Drop)]
pub struct Device {
    pub(crate) granule: u32,
    pub(crate) input: Span,
    pub(crate) pages: u32,
    pub(crate) bypass: bool,
    pub(crate) endpoints: Endpoints,
    pub(crate) domains: Domains,
}

impl Model for Device {
    ghost use Rattle.vi_device.specs.Values.{DeviceValue};

    ghost Value = { DeviceValue };

    ghost view = { λ d. record {
      dev = record { granule = d.granule; input = d.input; pages = d.pages; bypass = d.bypass; endpoints = d.endpoints; domains = d.domains.domains };
      maps = d.domains.maps;
    } };
}

impl Device {
    /// The device of this setup before the first request, with room for `maps` mappings in each of
    /// 16 domains. An error means out of memory. No other call takes memory.
    pub fn new(alloc: Global, setup: &Setup, maps: u32) -> Result<Device, AllocError>
        requires { IsSetup setup.now }
        ensures device { IfOk result (λ d. d ≡ record { dev = start_dev setup.now; maps = maps }) }
        ensures room { IfOk result (λ d. rooms d ≡ replicate 16 maps) }
    {
        Ok(Device {
            granule: setup.granule,
            input: setup.input,
            pages: setup.memory,
            bypass: setup.bypass,
            endpoints: Endpoints::new(alloc, setup.endpoints.as_slice())?,
            domains: Domains::with_room(alloc, maps)?,
        })
    }

    /// Whether endpoints in no domain bypass translation (Virtio 1.2, 5.13.4).
    pub fn bypass(&self) -> bool
        ensures { result ≡ self.now.dev.bypass }
    {
        self.bypass
    }

    /// Sets whether endpoints in no domain bypass translation.
    pub fn set_bypass(&mut self, on: bool)
        ensures { self.new ≡ record self.old { dev = with_bypass self.old.dev on } }
    {
        self.bypass = on;
    }

    /// The domain that the endpoint is in.
    pub fn membership(&self, place: u32) -> Membership
        requires { place < length self.now.dev.endpoints }
        ensures { result ≡ membership_at self.now.dev place }
    {
        self.endpoints.domain(place)
    }

    /// How many endpoints there are.
    pub fn endpoints(&self) -> usize
        ensures { result ≡ length self.now.dev.endpoints }
    {
        self.endpoints.len() as usize
    }

    /// Whether an endpoint is in this domain, so that it exists.
    pub fn has_domain(&self, domain: u32) -> bool
        ensures { IsTrue result ↔ IsSome (domain_of self.now.dev domain) }
    {
        self.domains.exists(domain)
    }

    /// Whether the request can be committed: for a MAP, one more mapping has to fit in its domain.
    pub fn has_room(&self, request: &Request) -> bool
        ensures { IsTrue result ↔ HasRoom self.now request.now }
    {
        match *request {
            Request::Map { domain, .. } => self.takes_one(domain),
            Request::Attach { .. }
            | Request::Detach { .. }
            | Request::Unmap { .. }
            | Request::Probe { .. } => true,
        }
    }

    // Whether one more mapping fits in the domain, if it exists.
    fn takes_one(&self, domain: u32) -> bool
        ensures { IsTrue result ↔ RoomIn self.now.maps (domain_of self.now.dev domain) }
    {
        match self.domains.find(domain) {
            None => true,
            Some(held) => held.table.len() < self.domains.maps(),
        }
    }

    /// The mappings of a domain, which exists. They are no more than it has room for.
    pub fn mappings(&self, domain: u32) -> &Tree
        requires { IsSome (domain_of self.now.dev domain) }
        ensures mappings { ExistsWith (λ y. result.now.mappings ≡ y.mappings) (domain_of self.now.dev domain) }
        ensures most { length result.now.mappings ≤ self.now.maps }
    {
        match self.domains.find(domain) {
            Some(held) => held.table.tree(),
            None => unreachable!(),
        }
    }
}
