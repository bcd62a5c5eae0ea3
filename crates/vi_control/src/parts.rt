//! The parts of a control before the first turn.
ghost use Rattle.std.specs.Prelude.{◌≡◌, [], None, map, replicate, IfOk};
ghost use Rattle.vi_calls.specs.Moves.{no_calls};
ghost use Rattle.vi_events.specs.Value.{no_events};
ghost use Rattle.vi_grants.specs.Rows.{empty_row};
ghost use Rattle.vi_history.specs.Start.{start_dev};
ghost use Rattle.vi_history.specs.declared.call.Caller.TheVariants.{Back};
ghost use Rattle.vi_lines.specs.Valid.{IsValid};
ghost use Rattle.vi_model.specs.Control.{no_lanes};
ghost use Rattle.vi_model.specs.Places.{ids_of, place_count};
ghost use Rattle.vi_model.specs.Rooms.{all_maps, all_parts, all_transfers};
ghost use Rattle.vi_control.specs.Opening.{transfers_in};

use crate::Transfer;
use crate::counts::{count_maps, count_parts, count_transfers};
use crate::opening::{ids_in, transfers_by, zeros};
use std::alloc::{AllocError, Global};
use vi_calls::Calls;
use vi_device::Device;
use vi_events::EventQueue;
use vi_grants::Grants;
use vi_lanes::Lanes;
use vi_lines::Script;
use vi_removals::Removals;

/// No removal, and what each back end transfers. An error means out of memory.
pub(crate) fn back_ends_of(
    alloc: Global,
    script: &Script,
) -> Result<(Vec<Vec<Transfer>>, Removals), AllocError>
    requires { IsValid script.now }
    ensures transfers { IfOk result (λ r. map (λ t. t.items) r.0.items ≡ map (λ id. transfers_in script.now.lines (Back id)) (ids_of script.now)) }
    ensures removals { IfOk result (λ r. r.1 ≡ record { ids = ids_of script.now; opened = [] }) }
{
    let ids = ids_in(alloc, script.setup.endpoints.as_slice())?;
    let transfers = transfers_by(alloc, script.lines.as_slice(), &ids)?;
    Ok((transfers, Removals::new(&ids)))
}

/// What has a row for each back end: the posted numbers, the grants and the lanes. An error means out of memory.
pub(crate) fn rows_of(
    alloc: Global,
    script: &Script,
) -> Result<(Vec<u32>, Grants, Lanes), AllocError>
    requires { IsValid script.now }
    ensures posted { IfOk result (λ r. r.0.items ≡ replicate (place_count script.now) 0) }
    ensures grants { IfOk result (λ r. r.1 ≡ replicate (place_count script.now) (empty_row (all_parts script.now))) }
    ensures lanes { IfOk result (λ r. r.2 ≡ record { mail = replicate (place_count script.now) no_lanes; parked = replicate (place_count script.now) None }) }
{
    let places = script.setup.endpoints.len();
    let posted = zeros(alloc, places)?;
    let grants = Grants::with_room(alloc, places as u32, count_parts(script.lines.as_slice()))?;
    let lanes = Lanes::build(alloc, places as u32)?;
    Ok((posted, grants, lanes))
}

/// The request queue, the event queue and the device. An error means out of memory.
pub(crate) fn device_of(
    alloc: Global,
    script: &Script,
) -> Result<(Calls, EventQueue, Device), AllocError>
    requires { IsValid script.now }
    ensures calls { IfOk result (λ r. r.0 ≡ no_calls) }
    ensures events { IfOk result (λ r. r.1 ≡ record { buffers = script.now.setup.queue; events = no_events (all_transfers script.now) }) }
    ensures device { IfOk result (λ r. r.2 ≡ record { dev = start_dev script.now.setup; maps = all_maps script.now }) }
{
    let setup = &script.setup;
    let lines = script.lines.as_slice();
    let calls = Calls::build(alloc, setup.queue)?;
    let events = EventQueue::build(alloc, setup.queue, count_transfers(lines))?;
    let device = Device::new(alloc, setup, count_maps(lines))?;
    Ok((calls, events, device))
}
