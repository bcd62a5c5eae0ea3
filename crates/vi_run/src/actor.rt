//! An actor with its pass.
ghost use Rattle.std.specs.Prelude.{◌≡◌, None};
ghost use Rattle.vi_run.specs.Actors.{IsIdle, IsPassOf, is_done, view_of};
ghost use Rattle.vi_run.specs.Taking.{HasRun};

use crate::backs::back_turn;
use crate::device::device_turn;
use crate::drivers::driver_turn;
use crate::ran::Ran;
use crate::reader::reader_turn;
use crate::role::Role;
use std::marker::Model;
use vi_core::Gate;
use vi_lines::Who;
use vi_turns::{Pass, Shared};

/// A driver, a back end, the device or the event reader, with its pass of the shared object. Contracts see the pass and
/// who it is.
#[derive(Drop)]
pub struct Actor {
    pub(crate) pass: Pass,
    pub(crate) who: Who,
    pub(crate) role: Role,
}

impl Model for Actor {
    ghost use Rattle.vi_run.specs.Actors.{ActorValue, IsIdle, Plays};

    ghost Value = { ActorValue };

    ghost view = { λ a. record { pass = a.pass; who = a.who } };

    ghost invariant = { λ a. IsIdle (record { pass = a.pass; who = a.who }) × Plays a.role (record { pass = a.pass; who = a.who }) };
}

impl Actor {
    /// One turn: an access on the page that it wishes to access, or else a turn under the control. Where somebody else has what
    /// it needs, nothing is changed, but the pass records the exchange that it lost. It passes the gate at its moments. It takes no
    /// memory and doesn't wait.
    pub fn turn<G: Gate>(&mut self, shared: &Shared, gate: &G) -> Ran
        requires own { IsPassOf shared.now self.old.pass }
        ensures own { IsPassOf shared.now self.new.pass }
        ensures who { self.new.who ≡ self.old.who }
        ensures number { (view_of self.new).number ≡ (view_of self.old).number }
        ensures ran { HasRun (view_of self.old) (view_of self.new) result }
    {
        match &mut self.role {
            Role::Driver(driver) => driver_turn(shared, &mut self.pass, driver),
            Role::Back(place, back) => back_turn(shared, &mut self.pass, *place, back, gate),
            Role::Device => device_turn(shared, &mut self.pass, gate),
            Role::Events(events) => reader_turn(shared, &mut self.pass, *events),
        }
    }

    /// Whether all its lines are finished. The device and the event reader have none.
    pub fn is_finished(&self) -> bool
        ensures { result ≡ is_done self.now }
    {
        match &self.role {
            Role::Driver(driver) => driver.is_finished(),
            Role::Back(_, back) => back.is_finished(),
            Role::Device | Role::Events(_) => true,
        }
    }

    /// Its pass, which holds nothing.
    pub fn end(self) -> Pass
        ensures pass { result ≡ self.pass }
        ensures empty { result.view.held ≡ None }
        ensures idle { IsIdle self }
    {
        self.pass
    }
}
