//! Whom a call that takes translations away waits for, and what these back ends are told.
ghost use Rattle.std.specs.Prelude.{◌≡◌, ℕ, ◌<◌, ◌≤◌, true, false, length, map, set, All, IfSome, IfNone, IsTrue, Some};
ghost use Rattle.vi_bytes.specs.Spans.{IsProper};
ghost use Rattle.vi_history.specs.Device.{endpoint_of};
ghost use Rattle.vi_history.specs.Effects.{endpoint_is_in};
ghost use Rattle.vi_history.specs.declared.reading.Reading.TheVariants.{Asks};
ghost use Rattle.vi_device.specs.Values.{AreDistinct};
ghost use Rattle.vi_model.specs.Tasks.{removes, request_removes, reach_between};
ghost use Rattle.vi_lanes.specs.Value.{lanes_at};
ghost use Rattle.vi_removals.specs.Takings.{has_id, IsTaking};
ghost use Rattle.vi_control.specs.Inner.{HasPages};
ghost use Rattle.vi_control.specs.Awaits.{stands_in_way, awaited_in, must_begin, HasFlags, told_at, told_all};

use crate::ids::place_of;
use vi_bytes::{Membership, Span};
use vi_device::Device;
use vi_grants::Grants;
use vi_history::status::OK;
use vi_history::{Reading, Request};
use vi_lanes::Lanes;
use vi_model::Task;
use vi_removals::Removals;
use vi_removals::laws::removals_take;
use vi_shoot::Waiting;

/// Whether the task takes translations away: the bypass field set to off, and an ATTACH that moves its endpoint, a
/// DETACH or an UNMAP whose status now is OK.
#[tactic(auto, unfolding(vi_model::specs::Tasks::removes))]
pub fn removes(device: &Device, removals: &Removals, task: &Task) -> bool
    requires endpoints { map (λ x. x.id) device.now.dev.endpoints ≡ removals.now.ids }
    requires few { length removals.now.ids ≤ 16 }
    ensures { result ≡ removes device.now.dev task.now }
{
    match task {
        Task::Reads(Reading::Asks(request)) => request_removes(device, removals, request),
        Task::Reads(Reading::Silent) | Task::Reads(Reading::Malformed { .. }) => false,
        Task::Sets(on) => !*on,
    }
}

fn request_removes(device: &Device, removals: &Removals, request: &Request) -> bool
    requires few { length removals.now.ids ≤ 16 }
    requires endpoints { map (λ x. x.id) device.now.dev.endpoints ≡ removals.now.ids }
    ensures { result ≡ request_removes device.now.dev request.now }
{
    let accepted = device.status(request) == OK;
    match *request {
        Request::Attach {
            domain,
            endpoint,
            ..
        } => {
            if !accepted {
                return false;
            }
            !is_in(device, removals, endpoint, domain)
        }
        Request::Detach { .. } | Request::Unmap { .. } => accepted,
        Request::Map { .. } | Request::Probe { .. } => false,
    }
}

// Whether the endpoint is in the domain.
fn is_in(device: &Device, removals: &Removals, endpoint: u32, domain: u32) -> bool
    requires endpoints { map (λ x. x.id) device.now.dev.endpoints ≡ removals.now.ids }
    requires few { length removals.now.ids ≤ 16 }
    requires known { IsTrue (has_id endpoint removals.now.ids) }
    ensures { result ≡ endpoint_is_in domain (endpoint_of device.now.dev endpoint) }
{
    match device.membership(place_of(removals.ids(), endpoint)) {
        Membership::Member(id) => id == domain,
        Membership::Unattached => false,
    }
}

// Whether the back end at a place has to be waited for: the task takes a page of one of its leases away.
fn stands_in_way(
    device: &Device,
    removals: &Removals,
    grants: &Grants,
    task: &Task,
    place: u32,
) -> bool
    requires taking { IsTaking removals.now.ids task.now }
    requires endpoints { map (λ x. x.id) device.now.dev.endpoints ≡ removals.now.ids }
    requires distinct { AreDistinct removals.now.ids }
    requires rows { length grants.now ≡ length removals.now.ids }
    requires pages { All HasPages grants.now }
    requires place { place < length removals.now.ids }
    ensures { result ≡ stands_in_way device.now.dev removals.now.ids grants.now task.now place }
{
    let span = removals.addresses(task);
    let is_met = grants.meets(place, &span);
    removals.takes(task, place, device.membership(place)) && is_met
}

// Who has to be waited for.
fn awaited(device: &Device, removals: &Removals, grants: &Grants, task: &Task) -> Waiting
    requires taking { IsTaking removals.now.ids task.now }
    requires endpoints { map (λ x. x.id) device.now.dev.endpoints ≡ removals.now.ids }
    requires distinct { AreDistinct removals.now.ids }
    requires few { length removals.now.ids ≤ 16 }
    requires rows { length grants.now ≡ length removals.now.ids }
    requires pages { All HasPages grants.now }
    ensures { HasFlags result (awaited_in device.now.dev removals.now.ids grants.now task.now) }
{
    let mut flags = [false; 16];
    for place in 0..device.endpoints() as u32 {
        flags[place as usize] = stands_in_way(device, removals, grants, task, place);
    }
    Waiting(flags)
}

/// Whom a call that starts has to wait for, so that its removal begins, or `None` where it is answered at once.
pub fn whom(device: &Device, removals: &Removals, grants: &Grants, task: &Task) -> Option<Waiting>
    requires endpoints { map (λ x. x.id) device.now.dev.endpoints ≡ removals.now.ids }
    requires distinct { AreDistinct removals.now.ids }
    requires few { length removals.now.ids ≤ 16 }
    requires rows { length grants.now ≡ length removals.now.ids }
    requires pages { All HasPages grants.now }
    ensures none { IfNone result (must_begin device.now.dev removals.now.ids grants.now task.now ≡ false) }
    ensures some { IfSome result (λ waits. must_begin device.now.dev removals.now.ids grants.now task.now ≡ true) }
    ensures flags { IfSome result (λ waits. HasFlags waits (awaited_in device.now.dev removals.now.ids grants.now task.now)) }
    ensures taking { IfSome result (λ waits. IsTaking removals.now.ids task.now) }
{
    if !removes(device, removals, task) {
        return None;
    }
    removals_take();
    let waits = awaited(device, removals, grants, task);
    if waits.is_none() {
        return None;
    }
    Some(waits)
}

/// The back ends that are waited for are sent an Invalidate of the addresses.
pub fn tell(lanes: &mut Lanes, waits: &Waiting, places: u32, span: &Span)
    requires places { places ≡ length lanes.old.mail }
    requires room { (place : ℕ) → place < places → length (lanes_at place lanes.old).down ≤ 8 }
    requires proper { IsProper span.now }
    ensures { lanes.new ≡ record lanes.old { mail = told_all waits.now.0 (reach_between span.now.first span.now.last) lanes.old.mail } }
{
    for place in 0..places {
        tell_one(lanes, waits, place, span);
    }
}

// The back end at a place is, if it is waited for.
fn tell_one(lanes: &mut Lanes, waits: &Waiting, place: u32, span: &Span)
    requires place { place < length lanes.old.mail }
    requires room { length (lanes_at place lanes.old).down ≤ 8 }
    requires proper { IsProper span.now }
    ensures { lanes.new ≡ record lanes.old { mail = set lanes.old.mail place (told_at waits.now.0 (reach_between span.now.first span.now.last) lanes.old.mail place) } }
{
    if waits.has(place) {
        lanes.invalidate(place, span);
    }
}
