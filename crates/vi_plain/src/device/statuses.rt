//! The status of a request, by the rules that are tried in order (Virtio 1.2, 5.13.6.3 to 5.13.6.7).
ghost use Rattle.std.specs.Prelude.{◌≡◌, ◌+◌, Some};
ghost use Rattle.vi_history.specs.Device.{endpoint_of, domain_of};
ghost use Rattle.vi_history.specs.Statuses.{same, are_multiples, region_meets_in, attach_to, attach_status, detach_status, map_into, map_status, unmap_status, probe_status, status};

use crate::device::Device;
use crate::domain::Domain;
use crate::endpoint::Endpoint;
use crate::spans::lies_in;
use vi_bytes::{Span, aligned};
use vi_history::Request;
use vi_history::status::{INVAL, NOENT, OK, RANGE};

// Whether two flags are alike.
fn are_alike(a: bool, b: bool) -> bool
    ensures { result ≡ same a b }
{
    if a { b } else { !b }
}

impl Device {
    /// The status of a request in this state.
    #[tactic(auto, unfolding(vi_history::specs::Statuses::status))]
    pub fn status(&self, request: &Request) -> u8
        ensures { result ≡ status self.now request.now }
    {
        match *request {
            Request::Attach {
                domain,
                endpoint,
                flags,
            } => self.attach_status(domain, endpoint, flags),
            Request::Detach { domain, endpoint } => self.detach_status(domain, endpoint),
            Request::Map {
                domain,
                first,
                last,
                target,
                flags,
            } => self.map_status(domain, &Span { first, last }, target, flags),
            Request::Unmap {
                domain,
                first,
                last,
            } => self.unmap_status(domain, &Span { first, last }),
            Request::Probe { endpoint } => self.probe_status(endpoint),
        }
    }

    // ATTACH: a flag bit other than BYPASS, INVAL; an unknown endpoint, NOENT.
    fn attach_status(&self, domain: u32, endpoint: u32, flags: u32) -> u8
        ensures { result ≡ attach_status self.now domain endpoint flags }
    {
        if flags >= 2 {
            return INVAL;
        }
        match self.endpoint(endpoint) {
            None => NOENT,
            Some(x) => self.attach_to(domain, flags == 1, x),
        }
    }

    // ATTACH to a domain that exists: the bypass flag differs, INVAL; the endpoint is in it already, OK; a
    // mapping meets a region of the endpoint, INVAL.
    fn attach_to(&self, domain: u32, bypass: bool, x: &Endpoint) -> u8
        ensures { result ≡ attach_to domain bypass x.now (domain_of self.now domain) }
    {
        match self.domain(domain) {
            None => OK,
            Some(y) => {
                if !are_alike(y.is_bypass(), bypass) {
                    INVAL
                } else if x.is_in(domain) {
                    OK
                } else if y.meets_region(x.regions()) {
                    INVAL
                } else {
                    OK
                }
            }
        }
    }

    // DETACH: an unknown endpoint, NOENT; it isn't in this domain, INVAL.
    fn detach_status(&self, domain: u32, endpoint: u32) -> u8
        ensures { result ≡ detach_status domain (endpoint_of self.now endpoint) }
    {
        match self.endpoint(endpoint) {
            None => NOENT,
            Some(x) => if x.is_in(domain) { OK } else { INVAL },
        }
    }

    // MAP: a flag bit other than READ and WRITE, INVAL; the domain doesn't exist, NOENT.
    fn map_status(&self, domain: u32, span: &Span, target: u64, flags: u32) -> u8
        ensures { result ≡ map_status self.now domain span.now target flags }
    {
        if flags >= 4 {
            return INVAL;
        }
        match self.domain(domain) {
            None => NOENT,
            Some(y) => self.map_into(domain, span, target, y),
        }
    }

    // MAP into a domain: a bypass domain, INVAL; the last address isn't above the first, INVAL; no whole
    // granules, RANGE; not within the input range, RANGE; the targets pass 2^64 - 1, RANGE; a region of an
    // endpoint of the domain or a mapping is met, INVAL.
    fn map_into(&self, domain: u32, span: &Span, target: u64, y: &Domain) -> u8
        ensures { result ≡ map_into self.now domain span.now target (Some y.now) }
    {
        if y.is_bypass() {
            INVAL
        } else if span.last <= span.first {
            INVAL
        } else if !self.has_whole_granules(span, target) {
            RANGE
        } else if !lies_in(&self.input, span) {
            RANGE
        } else if target.checked_add(span.last - span.first).is_none() {
            RANGE
        } else if self.region_meets(domain, span) {
            INVAL
        } else if y.meets(span) {
            INVAL
        } else {
            OK
        }
    }

    // Whether the span and the target are whole granules.
    fn has_whole_granules(&self, span: &Span, target: u64) -> bool
        ensures { result ≡ are_multiples self.now.granule span.now.first (span.now.last + 1) target }
    {
        aligned(span.first, span.last, self.granule) && target % u64::from(self.granule) == 0
    }

    // Whether a region of an endpoint of the domain shares an address with the span.
    fn region_meets(&self, domain: u32, span: &Span) -> bool
        ensures { result ≡ region_meets_in self.now domain span.now }
    {
        self.endpoints.iter().any(|x| x.keeps_from(domain, span))
    }

    // UNMAP: the domain doesn't exist, NOENT; it is a bypass domain, INVAL; the last address is below the
    // first, INVAL; a mapping lies in the range only in part, RANGE.
    fn unmap_status(&self, domain: u32, span: &Span) -> u8
        ensures { result ≡ unmap_status span.now (domain_of self.now domain) }
    {
        match self.domain(domain) {
            None => NOENT,
            Some(y) => {
                if y.is_bypass() {
                    INVAL
                } else if span.last < span.first {
                    INVAL
                } else if y.is_cut(span) {
                    RANGE
                } else {
                    OK
                }
            }
        }
    }

    // PROBE: an unknown endpoint, NOENT.
    fn probe_status(&self, endpoint: u32) -> u8
        ensures { result ≡ probe_status (endpoint_of self.now endpoint) }
    {
        match self.endpoint(endpoint) {
            None => NOENT,
            Some(_) => OK,
        }
    }
}
