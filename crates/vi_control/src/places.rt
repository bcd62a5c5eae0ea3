//! The places of back ends at which there is something to serve.
ghost use Rattle.std.specs.Prelude.{◌≡◌, ◌<◌, ◌≤◌, ◌^◌, length, IfSome};
ghost use Rattle.vi_control.specs.Places.{closed_at, has_frame_in, first_frame_in, is_free_at, first_free_in};
ghost use Rattle.vi_control.specs.Granting.{AreSeated};
ghost use Rattle.vi_lanes.specs.Value.{lanes_at, parked_at};

use vi_bytes::PAGE;
use vi_device::Device;
use vi_lanes::Lanes;
use vi_removals::Removals;

/// Whether an open removal closes the page for the endpoint at this place.
pub fn is_closed(device: &Device, removals: &Removals, place: u32, page: u64) -> bool
    requires seated { AreSeated device.now.dev removals.now }
    requires place { place < length removals.now.ids }
    requires page { page < 2 ^ 52 }
    ensures { result ≡ closed_at device.now.dev removals.now place page }
{
    removals.closes(place, page, device.membership(place))
}

/// Whether a frame of the back end at this place is on its way up.
fn has_frame(lanes: &Lanes, place: u32) -> bool
    requires { place < length lanes.now.mail }
    ensures { result ≡ has_frame_in (lanes_at place lanes.now) }
{
    lanes.has_ack(place) || lanes.has_miss(place)
}

/// The lowest of so many places with a frame on its way up.
#[tactic(auto, using(crate::proofs::Finding::first_here, crate::proofs::Finding::first_later))]
pub fn first_frame(lanes: &Lanes, places: u32) -> Option<u32>
    requires { places ≤ length lanes.now.mail }
    ensures first { result ≡ first_frame_in places lanes.now }
    ensures below { IfSome result (λ place. place < places) }
{
    for place in 0..places {
        if has_frame(lanes, place) {
            return Some(place);
        }
    }
    None
}

/// Whether a miss of the back end at this place is parked whose page isn't closed.
fn is_free(device: &Device, removals: &Removals, lanes: &Lanes, place: u32) -> bool
    requires seated { AreSeated device.now.dev removals.now }
    requires place { place < length removals.now.ids }
    requires lanes { length removals.now.ids ≤ length lanes.now.mail }
    ensures { result ≡ is_free_at device.now.dev removals.now place (parked_at place lanes.now) }
{
    match lanes.parked(place) {
        None => false,
        Some(miss) => !is_closed(device, removals, place, miss.iova / PAGE),
    }
}

/// The lowest place with a parked miss whose page isn't closed.
#[tactic(auto, using(crate::proofs::Finding::first_here, crate::proofs::Finding::first_later))]
pub fn first_free(device: &Device, removals: &Removals, lanes: &Lanes) -> Option<u32>
    requires seated { AreSeated device.now.dev removals.now }
    requires lanes { length removals.now.ids ≤ length lanes.now.mail }
    ensures first { result ≡ first_free_in device.now.dev removals.now lanes.now }
    ensures below { IfSome result (λ place. place < length removals.now.ids) }
{
    let places = device.endpoints() as u32;
    for place in 0..places {
        if is_free(device, removals, lanes, place) {
            return Some(place);
        }
    }
    None
}
