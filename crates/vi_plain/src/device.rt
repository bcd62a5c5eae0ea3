//! The device: its endpoints and its domains.
ghost use Rattle.std.specs.Prelude.{◌≡◌, IfOk};
ghost use Rattle.std.specs.Option.{option_copied};
ghost use Rattle.vi_history.specs.Device.{endpoint_of, domain_of};
ghost use Rattle.vi_history.specs.Effects.{with_bypass};
ghost use Rattle.vi_history.specs.Start.{start_dev};
ghost use Rattle.vi_plain.specs.Conditions.{IsPlainSetup};

mod effects;
mod replies;
mod statuses;
mod translations;

use crate::domain::Domain;
use crate::endpoint::Endpoint;
use std::alloc::{AllocError, Global};
use std::marker::Model;
use vi_bytes::Span;
use vi_history::Setup;

/// The device without its memory (Virtio 1.2, 5.13), which contracts see as the definitions have it.
#[derive(Drop)]
pub struct Device {
    granule: u32,
    input: Span,
    pages: u32,
    bypass: bool,
    endpoints: Vec<Endpoint>,
    domains: Vec<Domain>,
}

impl Model for Device {
    ghost use Rattle.vi_history.specs.Device.{Dev};
    ghost use Rattle.vi_plain.specs.Kept.{IsGranule, HaveOwnIds};

    ghost Value = { Dev };

    ghost view = { λ d. record {
      granule = d.granule;
      input = d.input;
      pages = d.pages;
      bypass = d.bypass;
      endpoints = d.endpoints.items;
      domains = d.domains.items;
    } };

    ghost invariant = { λ d. IsGranule d.granule × HaveOwnIds d.domains.items };
}

impl Device {
    /// The setup's device, without a domain. An error means out of memory.
    pub fn new(alloc: Global, setup: &Setup) -> Result<Device, AllocError>
        requires { IsPlainSetup setup.now }
        ensures { IfOk result (λ d. d ≡ start_dev setup.now) }
    {
        let mut endpoints = Vec::new(alloc);
        for endpoint in setup.endpoints.as_slice() {
            endpoints.push(Endpoint::declared(alloc, endpoint)?)?;
        }
        Ok(Device {
            granule: setup.granule,
            input: setup.input,
            pages: setup.memory,
            bypass: setup.bypass,
            endpoints,
            domains: Vec::new(alloc),
        })
    }

    /// How many pages the memory has.
    pub fn pages(&self) -> u32
        ensures { result ≡ self.now.pages }
    {
        self.pages
    }

    /// Sets the bypass field (Virtio 1.2, 5.13.4).
    pub fn set_bypass(&mut self, on: bool)
        ensures { self.new ≡ with_bypass self.old on }
    {
        self.bypass = on;
    }

    // The endpoint of this id, if it was declared.
    fn endpoint(&self, id: u32) -> Option<&Endpoint>
        ensures { option_copied result ≡ endpoint_of self.now id }
    {
        self.endpoints.iter().find(|x| x.id() == id)
    }

    // The domain of this id, if it exists.
    fn domain(&self, id: u32) -> Option<&Domain>
        ensures { option_copied result ≡ domain_of self.now id }
    {
        self.domains.iter().find(|y| y.id() == id)
    }
}
