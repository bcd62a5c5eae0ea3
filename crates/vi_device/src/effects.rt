//! What a request whose status is OK makes of the device.
ghost use Rattle.std.specs.Prelude.{◌≡◌, IsSome, if◌then◌else◌};
ghost use Rattle.vi_history.specs.Device.{endpoint_of};
ghost use Rattle.vi_history.specs.Effects.{commit, effect, endpoint_is_in, attached, detached};
ghost use Rattle.vi_history.specs.Statuses.{status};
ghost use Rattle.vi_history.specs.declared.request.Request.TheVariants.{Map, Unmap};
ghost use Rattle.vi_device.specs.Values.{HasRoom};

use crate::Device;
use crate::statuses::BYPASS;
use vi_bytes::{Mapping, Membership, Span};
use vi_history::Request;
use vi_history::status::OK;

impl Device {
    /// The status of the request, and its effect if that is OK (Virtio 1.2, 5.13.6.3 to 5.13.6.7).
    /// A refused request changes nothing.
    #[tactic(auto, unfolding(vi_history::specs::Effects::commit))]
    pub fn commit(&mut self, request: &Request) -> u8
        requires room { HasRoom self.old request.now }
        ensures status { result ≡ status self.old.dev request.now }
        ensures effect { self.new ≡ record self.old { dev = commit self.old.dev request.now } }
    {
        let status = self.status(request);
        if status == OK {
            self.take_effect(request);
        }
        status
    }

    fn take_effect(&mut self, request: &Request)
        requires accepted { status self.old.dev request.now ≡ 0 }
        requires room { HasRoom self.old request.now }
        ensures { self.new ≡ record self.old { dev = effect self.old.dev request.now } }
    {
        match *request {
            Request::Attach {
                domain,
                endpoint,
                flags,
            } => self.attach(domain, endpoint, flags == BYPASS),
            Request::Detach { endpoint, .. } => self.detach(endpoint),
            Request::Map {
                domain,
                first,
                last,
                target,
                flags,
            } => self.map(domain, first, last, target, flags),
            Request::Unmap {
                domain,
                first,
                last,
            } => self.unmap(domain, first, last),
            Request::Probe { .. } => {}
        }
    }

    // The endpoint, which was declared, leaves its domain and joins this one, if it isn't in it.
    fn attach(&mut self, domain: u32, endpoint: u32, bypass: bool)
        requires { IsSome (endpoint_of self.old.dev endpoint) }
        ensures { self.new ≡ record self.old { dev = if endpoint_is_in domain (endpoint_of self.old.dev endpoint) then self.old.dev else attached self.old.dev domain bypass endpoint } }
    {
        if self.is_in(endpoint, domain) {
            return;
        }
        self.endpoints.move_to(endpoint, Membership::Member(domain));
        self.domains.keep_inhabited(&self.endpoints);
        if !self.domains.exists(domain) {
            self.domains.add(domain, bypass);
        }
    }

    // Whether the endpoint of this id is in the domain.
    fn is_in(&self, endpoint: u32, domain: u32) -> bool
        ensures { result ≡ endpoint_is_in domain (endpoint_of self.now.dev endpoint) }
    {
        match self.endpoints.find(endpoint) {
            None => false,
            Some(place) => self.endpoints.is_in(place, domain),
        }
    }

    // The endpoint leaves its domain.
    fn detach(&mut self, endpoint: u32)
        ensures { self.new ≡ record self.old { dev = detached self.old.dev endpoint } }
    {
        self.endpoints.move_to(endpoint, Membership::Unattached);
        self.domains.keep_inhabited(&self.endpoints);
    }

    fn map(&mut self, domain: u32, first: u64, last: u64, target: u64, flags: u32)
        requires accepted { status self.old.dev (Map domain first last target flags) ≡ 0 }
        requires room { HasRoom self.old (Map domain first last target flags) }
        ensures { self.new ≡ record self.old { dev = effect self.old.dev (Map domain first last target flags) } }
    {
        let span = Span { first, last };
        let mapping = Mapping {
            span,
            target,
            flags,
        };
        self.domains.insert(domain, mapping);
    }

    fn unmap(&mut self, domain: u32, first: u64, last: u64)
        requires { status self.old.dev (Unmap domain first last) ≡ 0 }
        ensures { self.new ≡ record self.old { dev = effect self.old.dev (Unmap domain first last) } }
    {
        self.domains.remove(domain, &Span { first, last });
    }
}
