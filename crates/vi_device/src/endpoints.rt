//! All endpoints.
ghost use Rattle.std.specs.Prelude.{◌≡◌, ◌==◌, ◌&&◌, ◌<◌, ◌≤◌, Some, find, map, length, All, IfOk, IfSome};
ghost use Rattle.std.specs.Option.{option_map};
ghost use Rattle.std.specs.List.{list_any};
ghost use Rattle.vi_bytes.specs.Spans.{IsProper, has};
ghost use Rattle.vi_history.specs.Device.{is_in};
ghost use Rattle.vi_history.specs.Effects.{moved, is_inhabited};
ghost use Rattle.vi_history.specs.Start.{unattached};
ghost use Rattle.vi_history.specs.Statuses.{any_region_meets};
ghost use Rattle.vi_device.specs.Seated.{endpoint_at, seat_moved_if, unattached_seat};
ghost use Rattle.vi_device.specs.Values.{AreDistinct, AreRegions};

use crate::seat::Seat;
use std::alloc::{AllocError, Global};
use std::marker::Model;
use vi_bytes::{EndpointSetup, Membership, Region, Span};
use vi_reserved::Reserved;

/// The endpoints, no two with one id: the domains that they are in, and the regions that they keep
/// to themselves. `place` is the number of an endpoint from 0, as they were declared.
#[derive(Drop)]
pub struct Endpoints {
    seats: Vec<Seat>,
    reserved: Reserved,
}

impl Model for Endpoints {
    ghost use Rattle.std.specs.Prelude.{List};
    ghost use Rattle.vi_history.specs.Device.{Endpoint};
    ghost use Rattle.vi_device.specs.Seated.{endpoints_seen, AreSeated};

    ghost Value = { List Endpoint };

    ghost view = { λ e. endpoints_seen e.seats.items e.reserved };

    ghost invariant = { λ e. AreSeated e.seats.items e.reserved };
}

impl Endpoints {
    /// These endpoints, in no domain. An error means out of memory.
    pub fn new(alloc: Global, endpoints: &[EndpointSetup]) -> Result<Endpoints, AllocError>
        requires few { length endpoints.now ≤ 16 }
        requires distinct { AreDistinct (map (λ e. e.id) endpoints.now) }
        requires regions { All (λ e. AreRegions e.regions) endpoints.now }
        ensures { IfOk result (λ e. e ≡ map (λ e. unattached e) endpoints.now) }
    {
        Ok(Endpoints {
            seats: seats_of(alloc, endpoints)?,
            reserved: Reserved::new(alloc, endpoints)?,
        })
    }

    /// How many endpoints there are.
    pub fn len(&self) -> u32
        ensures { result ≡ length self.now }
    {
        self.seats.len() as u32
    }

    /// The place of the endpoint of this id.
    pub fn find(&self, id: u32) -> Option<u32>
        ensures found { option_map (endpoint_at self.now) result ≡ find (λ x. x.id == id) self.now }
        ensures within { IfSome result (λ place. place < length self.now) }
    {
        for place in 0..self.len() {
            if self.id(place) == id {
                return Some(place);
            }
        }
        None
    }

    // The endpoint's id.
    fn id(&self, place: u32) -> u32
        requires { place < length self.now }
        ensures { result ≡ (endpoint_at self.now place).id }
    {
        self.seats[place as usize].id
    }

    /// The domain that the endpoint is in. No other endpoint has its id.
    pub fn domain(&self, place: u32) -> Membership
        requires { place < length self.now }
        ensures domain { result ≡ (endpoint_at self.now place).domain }
        ensures own_id { find (λ x. x.id == (endpoint_at self.now place).id) self.now ≡ Some (endpoint_at self.now place) }
    {
        self.seats[place as usize].domain
    }

    /// Whether the endpoint is attached to this domain.
    pub fn is_in(&self, place: u32, domain: u32) -> bool
        requires { place < length self.now }
        ensures { result ≡ is_in domain (endpoint_at self.now place).domain }
    {
        self.seats[place as usize].is_in(domain)
    }

    /// Whether one of the endpoints is in the domain.
    pub fn is_inhabited(&self, domain: u32) -> bool
        ensures { result ≡ is_inhabited self.now domain }
    {
        for place in 0..self.len() {
            if self.is_in(place, domain) {
                return true;
            }
        }
        false
    }

    /// The endpoint's regions, in declared order.
    pub fn regions(&self, place: u32) -> &[Region]
        requires { place < length self.now }
        ensures regions { result.now ≡ (endpoint_at self.now place).regions }
        ensures declared { AreRegions result.now }
    {
        self.reserved.regions(place)
    }

    /// Whether one of the endpoint's regions has the address.
    pub fn keeps(&self, place: u32, address: u64) -> bool
        requires { place < length self.now }
        ensures { result ≡ list_any (λ r. has r.span address) (endpoint_at self.now place).regions }
    {
        self.reserved.first_with(place, address).is_some()
    }

    /// Whether one of the endpoint's regions shares an address with the span.
    pub fn keeps_some_of(&self, place: u32, span: &Span) -> bool
        requires place_in { place < length self.now }
        requires proper { IsProper span.now }
        ensures { result ≡ any_region_meets span.now (endpoint_at self.now place).regions }
    {
        self.reserved.first_meeting(place, span).is_some()
    }

    /// Whether one of the endpoints is in the domain and has a region that shares an address with
    /// the span.
    pub fn keep_some_of(&self, domain: u32, span: &Span) -> bool
        requires { IsProper span.now }
        ensures { result ≡ list_any (λ x. is_in domain x.domain && any_region_meets span.now x.regions) self.now }
    {
        for place in 0..self.len() {
            if self.is_in(place, domain) && self.keeps_some_of(place, span) {
                return true;
            }
        }
        false
    }

    /// Puts the endpoint of this id into this domain or into none.
    pub fn move_to(&mut self, id: u32, domain: Membership)
        ensures moved { self.new ≡ moved id domain self.old }
        ensures few { length self.new ≤ 16 }
    {
        move_in(&mut self.seats, id, domain);
    }
}

// The seats of these endpoints, in no domain.
fn seats_of(alloc: Global, endpoints: &[EndpointSetup]) -> Result<Vec<Seat>, AllocError>
    ensures { IfOk result (λ seats. seats.items ≡ map (λ e. unattached_seat e) endpoints.now) }
{
    let mut seats = Vec::with_capacity(alloc, endpoints.len())?;
    for endpoint in endpoints {
        seats.push_reserved(Seat {
            id: endpoint.id,
            domain: Membership::Unattached,
        });
    }
    Ok(seats)
}

// Puts the seat of this id into this domain or into none.
fn move_in(seats: &mut [Seat], id: u32, domain: Membership)
    ensures { seats.new ≡ map (seat_moved_if id domain) seats.old }
{
    for seat in seats.iter_mut() {
        if seat.id == id {
            seat.domain = domain;
        }
    }
}
