//! What a request with status OK makes of the device (Virtio 1.2, 5.13.6.3 to 5.13.6.7).
ghost use Rattle.std.specs.Prelude.{◌≡◌, ◌==◌, OnOk, OnErr};
ghost use Rattle.std.specs.List.{position};
ghost use Rattle.vi_bytes.specs.Mappings.{with_mapping, without_span};
ghost use Rattle.vi_history.specs.Device.{domain_of, endpoint_of};
ghost use Rattle.vi_history.specs.Effects.{moved, is_inhabited, inhabited, with_domain, with_mappings, endpoint_is_in, attached, effect, commit};
ghost use Rattle.vi_history.specs.Statuses.{status};
ghost use Rattle.vi_plain.specs.Kept.{IsSound, HaveOwnIds};

use crate::device::Device;
use crate::domain::Domain;
use crate::endpoint::Endpoint;
use std::alloc::{AllocError, Global};
use vi_bytes::{Mapping, Membership, Span};
use vi_history::Request;
use vi_history::status::OK;

// Puts the endpoint of this id into this domain or into none.
fn move_endpoint(endpoints: &mut [Endpoint], id: u32, membership: Membership)
    ensures { endpoints.new ≡ moved id membership endpoints.old }
{
    for x in endpoints.iter_mut() {
        x.move_if(id, membership);
    }
}

// Whether some endpoint is in the domain.
fn is_in_some(endpoints: &[Endpoint], domain: u32) -> bool
    ensures { result ≡ is_inhabited endpoints.now domain }
{
    endpoints.iter().any(|x| x.is_in(domain))
}

// Leaves the domains that some endpoint is in.
fn keep_inhabited(domains: &mut Vec<Domain>, endpoints: &[Endpoint])
    ensures { domains.new.items ≡ inhabited endpoints.now domains.old.items }
{
    domains.retain(|y| is_in_some(endpoints, y.id()));
}

// Removes the mappings of a domain that lie in the span.
fn unmap(domains: &mut [Domain], id: u32, span: &Span)
    ensures { domains.new ≡ with_mappings id (without_span span.now) domains.old }
{
    for y in domains.iter_mut() {
        y.unmap_if(id, span);
    }
}

// Where the domain of this id stands.
fn place_of(domains: &[Domain], id: u32) -> Option<usize>
    ensures { result ≡ position (λ y. y.id == id) domains.now }
{
    domains.iter().position(|y| y.id() == id)
}

// Adds a mapping to the domain of this id.
fn map(domains: &mut [Domain], id: u32, mapping: Mapping) -> Result<(), AllocError>
    requires own_ids { HaveOwnIds domains.old }
    requires sound { IsSound mapping }
    ensures ok { OnOk result (domains.new ≡ with_mappings id (with_mapping mapping) domains.old) }
    ensures err { OnErr result (domains.new ≡ domains.old) }
{
    match place_of(domains, id) {
        None => Ok(()),
        Some(place) => domains[place].map(mapping),
    }
}

impl Device {
    /// Takes the effect of a request with this status: a refused one has none. An error means out of memory,
    /// and changes nothing.
    #[tactic(auto, unfolding(vi_history::specs::Effects::commit))]
    pub fn commit(&mut self, alloc: Global, request: &Request, code: u8) -> Result<(), AllocError>
        requires { code ≡ status self.old request.now }
        ensures ok { OnOk result (self.new ≡ commit self.old request.now) }
        ensures err { OnErr result (self.new ≡ self.old) }
        ensures pages { self.new.pages ≡ self.old.pages }
    {
        if code == OK {
            self.take_effect(alloc, request)
        } else {
            Ok(())
        }
    }

    // The effect of a request whose status is OK. An ATTACH to the domain that the endpoint is in has none.
    fn take_effect(&mut self, alloc: Global, request: &Request) -> Result<(), AllocError>
        requires { status self.old request.now ≡ OK }
        ensures ok { OnOk result (self.new ≡ effect self.old request.now) }
        ensures err { OnErr result (self.new ≡ self.old) }
        ensures pages { self.new.pages ≡ self.old.pages }
    {
        match *request {
            Request::Attach {
                domain,
                endpoint,
                flags,
            } => {
                if self.is_in(endpoint, domain) {
                    return Ok(());
                }
                self.attach(alloc, domain, flags == 1, endpoint)
            }
            Request::Detach { endpoint, .. } => {
                self.move_to(endpoint, Membership::Unattached);
                Ok(())
            }
            Request::Map {
                domain,
                first,
                last,
                target,
                flags,
            } => {
                let span = Span { first, last };
                let mapping = Mapping {
                    span,
                    target,
                    flags,
                };
                self.map(domain, mapping)
            }
            Request::Unmap {
                domain,
                first,
                last,
            } => {
                self.unmap(domain, &Span { first, last });
                Ok(())
            }
            Request::Probe { .. } => Ok(()),
        }
    }

    // Whether the endpoint of this id is in the domain.
    fn is_in(&self, endpoint: u32, domain: u32) -> bool
        ensures { result ≡ endpoint_is_in domain (endpoint_of self.now endpoint) }
    {
        match self.endpoint(endpoint) {
            None => false,
            Some(x) => x.is_in(domain),
        }
    }

    // The endpoint leaves its domain and joins this one, which is made where it doesn't exist.
    fn attach(
        &mut self,
        alloc: Global,
        domain: u32,
        bypass: bool,
        endpoint: u32,
    ) -> Result<(), AllocError>
        ensures ok { OnOk result (self.new ≡ attached self.old domain bypass endpoint) }
        ensures err { OnErr result (self.new ≡ self.old) }
        ensures pages { self.new.pages ≡ self.old.pages }
    {
        self.make_domain(alloc, domain, bypass)?;
        self.move_to(endpoint, Membership::Member(domain));
        Ok(())
    }

    // Makes the domain, where it doesn't exist.
    fn make_domain(&mut self, alloc: Global, id: u32, bypass: bool) -> Result<(), AllocError>
        ensures ok { OnOk result (self.new ≡ record self.old { domains = with_domain id bypass self.old.domains (domain_of self.old id) }) }
        ensures err { OnErr result (self.new ≡ self.old) }
        ensures pages { self.new.pages ≡ self.old.pages }
    {
        match self.domain(id) {
            Some(_) => Ok(()),
            None => {
                self.domains.push(Domain::new(alloc, id, bypass))?;
                Ok(())
            }
        }
    }

    // The endpoint leaves its domain, which ends with its last endpoint, and joins this one or none.
    fn move_to(&mut self, endpoint: u32, membership: Membership)
        ensures { self.new ≡ record self.old {
          endpoints = moved endpoint membership self.old.endpoints;
          domains = inhabited (moved endpoint membership self.old.endpoints) self.old.domains;
        } }
    {
        move_endpoint(&mut self.endpoints, endpoint, membership);
        keep_inhabited(&mut self.domains, &self.endpoints);
    }

    // Adds a mapping to the domain.
    fn map(&mut self, domain: u32, mapping: Mapping) -> Result<(), AllocError>
        requires { status self.old (Request.Map domain mapping.span.first mapping.span.last mapping.target mapping.flags) ≡ OK }
        ensures ok { OnOk result (self.new ≡ record self.old { domains = with_mappings domain (with_mapping mapping) self.old.domains }) }
        ensures err { OnErr result (self.new ≡ self.old) }
        ensures pages { self.new.pages ≡ self.old.pages }
    {
        map(&mut self.domains, domain, mapping)
    }

    // Removes the mappings of the domain that lie in the span.
    fn unmap(&mut self, domain: u32, span: &Span)
        ensures { self.new ≡ record self.old { domains = with_mappings domain (without_span span.now) self.old.domains } }
    {
        unmap(&mut self.domains, domain, span);
    }
}
