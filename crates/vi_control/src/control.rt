//! The control.
ghost use Rattle.std.specs.Prelude.{◌≡◌, [], IfOk};
ghost use Rattle.vi_lines.specs.Valid.{IsValid};
ghost use Rattle.vi_model.specs.Worlds.{opening_control};
ghost use Rattle.vi_control.specs.Plan.{plan_of};

use crate::Transfer;
use crate::opening::configuration;
use crate::parts::{back_ends_of, device_of, rows_of};
use std::alloc::{AllocError, Global};
use std::marker::Model;
use vi_calls::Calls;
use vi_device::Device;
use vi_events::EventQueue;
use vi_grants::Grants;
use vi_lanes::Lanes;
use vi_lines::Script;
use vi_removals::Removals;

/// What is shared of a script's run: the device, what its drivers asked and its back ends await. All room is taken when
/// it is built, and no other call takes memory.
#[derive(Drop)]
pub struct Control {
    pub(crate) device: Device,
    pub(crate) calls: Calls,
    pub(crate) removals: Removals,
    pub(crate) grants: Grants,
    pub(crate) lanes: Lanes,
    pub(crate) events: EventQueue,
    // How many of each back end's first lines are posted as finished.
    pub(crate) posted: Vec<u32>,
    // What each back end transfers, line by line.
    pub(crate) transfers: Vec<Vec<Transfer>>,
    // The configuration space (Virtio 1.2, 5.13.4).
    pub(crate) config: [u8; 40],
    // The properties of the last entry, if it is a PROBE's.
    pub(crate) properties: [u8; 512],
    pub(crate) probed: bool,
}

impl Model for Control {
    ghost use Rattle.vi_control.specs.Value.{ControlValue};

    ghost Value = { ControlValue };

    ghost use Rattle.vi_control.specs.Inner.{seen, IsKept};

    ghost view = { seen };

    ghost invariant = { IsKept };
}

impl Control {
    /// The control in which nothing has happened, with room for all mappings, grants and fault records that the script
    /// can make. An error means out of memory.
    pub fn build(alloc: Global, script: &Script) -> Result<Control, AllocError>
        requires { IsValid script.now }
        ensures plan { IfOk result (λ c. c.plan ≡ plan_of script.now) }
        ensures state { IfOk result (λ c. c.state ≡ opening_control script.now) }
        ensures answered { IfOk result (λ c. c.answered ≡ []) }
    {
        let (transfers, removals) = back_ends_of(alloc, script)?;
        let (posted, grants, lanes) = rows_of(alloc, script)?;
        let (calls, events, device) = device_of(alloc, script)?;
        Ok(Control {
            device,
            calls,
            removals,
            grants,
            lanes,
            events,
            posted,
            transfers,
            config: configuration(&script.setup),
            properties: [0; 512],
            probed: false,
        })
    }
}
