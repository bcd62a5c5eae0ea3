//! The status of a request, by the rules that are tried in order.
ghost use Rattle.std.specs.Prelude.{◌≡◌, ◌==◌, ◌%◌, ◌+◌, ◌<◌, Some, All, length};
ghost use Rattle.vi_bytes.specs.Spans.{IsProper};
ghost use Rattle.std.specs.List.{list_any};
ghost use Rattle.vi_history.specs.Statuses.{status, attach_status, attach_to, detach_status, map_status, map_into, unmap_status, probe_status, are_multiples, any_mapping_meets};
ghost use Rattle.vi_history.specs.Device.{endpoint_of, domain_of};
ghost use Rattle.vi_device.specs.Kept.{domain_seen};
ghost use Rattle.vi_device.specs.Seated.{endpoint_at};

use crate::Device;
use crate::held::Held;
use crate::table::Table;
use vi_bytes::{Region, Span};
use vi_history::Request;
use vi_history::status::{INVAL, NOENT, OK, RANGE};

// The flag of an ATTACH that asks for a bypass domain, its only one.
pub const BYPASS: u32 = 1;

// The flags of a MAP together: READ and WRITE.
const READ_WRITE: u32 = 3;

impl Device {
    /// The status of the request in this state (Virtio 1.2, 5.13.6.3 to 5.13.6.7).
    #[tactic(auto, unfolding(vi_history::specs::Statuses::status))]
    pub fn status(&self, request: &Request) -> u8
        ensures { result ≡ status self.now.dev request.now }
    {
        match *request {
            Request::Attach {
                domain,
                endpoint,
                flags,
            } => self.attach_status(domain, endpoint, flags),
            Request::Detach { domain, endpoint } => self.detach_status(domain, endpoint),
            Request::Map {
                domain,
                first,
                last,
                target,
                flags,
            } => self.map_status(domain, &Span { first, last }, target, flags),
            Request::Unmap {
                domain,
                first,
                last,
            } => self.unmap_status(domain, &Span { first, last }),
            Request::Probe { endpoint } => self.probe_status(endpoint),
        }
    }

    fn attach_status(&self, domain: u32, endpoint: u32, flags: u32) -> u8
        ensures { result ≡ attach_status self.now.dev domain endpoint flags }
    {
        if flags > BYPASS {
            return INVAL;
        }
        match self.endpoints.find(endpoint) {
            None => NOENT,
            Some(place) => match self.domains.find(domain) {
                None => OK,
                Some(held) => self.join_status(held, place, domain, flags == BYPASS),
            },
        }
    }

    // The status of an ATTACH of this endpoint to this domain, which exists.
    #[tactic(auto, using(crate::proofs::StatusLemmas::meets_by_region))]
    fn join_status(&self, held: &Held, place: u32, domain: u32, bypass: bool) -> u8
        requires { place < length self.now.dev.endpoints }
        ensures { result ≡ attach_to domain bypass (endpoint_at self.now.dev.endpoints place) (Some (domain_seen held.now)) }
    {
        if held.bypass != bypass {
            return INVAL;
        }
        if self.endpoints.is_in(place, domain) {
            return OK;
        }
        if meets_one_of(&held.table, self.endpoints.regions(place)) {
            INVAL
        } else {
            OK
        }
    }

    fn detach_status(&self, domain: u32, endpoint: u32) -> u8
        ensures { result ≡ detach_status domain (endpoint_of self.now.dev endpoint) }
    {
        match self.endpoints.find(endpoint) {
            None => NOENT,
            Some(place) => if self.endpoints.is_in(place, domain) {
                OK
            } else {
                INVAL
            },
        }
    }

    fn map_status(&self, domain: u32, span: &Span, target: u64, flags: u32) -> u8
        ensures { result ≡ map_status self.now.dev domain span.now target flags }
    {
        if flags > READ_WRITE {
            return INVAL;
        }
        match self.domains.find(domain) {
            None => NOENT,
            Some(held) => self.map_into(held, domain, span, target),
        }
    }

    // The status of a MAP into this domain, whose flags are in order.
    fn map_into(&self, held: &Held, domain: u32, span: &Span, target: u64) -> u8
        ensures { result ≡ map_into self.now.dev domain span.now target (Some (domain_seen held.now)) }
    {
        if held.bypass {
            return INVAL;
        }
        if span.last <= span.first {
            return INVAL;
        }
        if !are_multiples(self.granule, span, target) {
            return RANGE;
        }
        if !self.input.covers(span) {
            return RANGE;
        }
        if u64::MAX - (span.last - span.first) < target {
            return RANGE;
        }
        if self.endpoints.keep_some_of(domain, span) {
            return INVAL;
        }
        if held.table.meets(span) { INVAL } else { OK }
    }

    fn unmap_status(&self, domain: u32, span: &Span) -> u8
        ensures { result ≡ unmap_status span.now (domain_of self.now.dev domain) }
    {
        match self.domains.find(domain) {
            None => NOENT,
            Some(held) => unmap_from(held, span),
        }
    }

    fn probe_status(&self, endpoint: u32) -> u8
        ensures { result ≡ probe_status (endpoint_of self.now.dev endpoint) }
    {
        match self.endpoints.find(endpoint) {
            None => NOENT,
            Some(_) => OK,
        }
    }
}

// The status of an UNMAP of this domain.
fn unmap_from(held: &Held, span: &Span) -> u8
    ensures { result ≡ unmap_status span.now (Some (domain_seen held.now)) }
{
    if held.bypass {
        return INVAL;
    }
    if span.last < span.first {
        return INVAL;
    }
    if held.table.is_cut(span) { RANGE } else { OK }
}

// Whether one of the mappings shares an address with one of the regions.
fn meets_one_of(table: &Table, regions: &[Region]) -> bool
    requires { All (λ r. IsProper r.span) regions.now }
    ensures { result ≡ list_any (λ r. any_mapping_meets r.span table.now.mappings) regions.now }
{
    for region in regions {
        if table.meets(&region.span) {
            return true;
        }
    }
    false
}

// Whether the span's first address, the one behind it and the target are multiples of the granule.
fn are_multiples(granule: u32, span: &Span, target: u64) -> bool
    ensures { result ≡ are_multiples granule span.now.first (span.now.last + 1) target }
{
    is_multiple(u128::from(span.first), granule)
        && is_multiple(u128::from(span.last) + 1, granule)
        && is_multiple(u128::from(target), granule)
}

// Whether the number is a multiple of the granule. 0 is the one multiple of 0.
fn is_multiple(n: u128, granule: u32) -> bool
    ensures { result ≡ (n % granule == 0) }
{
    if granule == 0 {
        n == 0
    } else {
        n % u128::from(granule) == 0
    }
}
