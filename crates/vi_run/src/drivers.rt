//! A driver's turn on the shared object.
ghost use Rattle.std.specs.Prelude.{◌≡◌};
ghost use Rattle.vi_lines.specs.declared.line.Who.TheVariants as who;
ghost use Rattle.vi_run.specs.Actors.{IsDriver, IsIdle, IsPassOf};
ghost use Rattle.vi_run.specs.Turns.{HasTurned, driver_with};

use crate::ran::Ran;
use vi_core::{Turned, drive};
use vi_driver::Driver;
use vi_turns::{Pass, Shared};

/// A driver's turn. One that has finished all its lines rests and leaves the control alone.
pub(crate) fn driver_turn(shared: &Shared, pass: &mut Pass, driver: &mut Driver) -> Ran
    requires own { IsPassOf shared.now pass.old }
    requires idle { IsIdle (driver_with pass.old driver.old) }
    requires plays { IsDriver (driver_with pass.old driver.old) driver.old }
    ensures own { IsPassOf shared.now pass.new }
    ensures number { driver.new.number ≡ driver.old.number }
    ensures plays { IsDriver (driver_with pass.new driver.new) driver.new }
    ensures turned { HasTurned (who.Driver driver.old.number) pass.old pass.new result }
{
    if driver.is_finished() {
        return Ran::Turned(Turned::Rest);
    }
    let mut control = match shared.try_control(pass) {
        Ok(control) => control,
        Err(busy) => return Ran::Busy(busy),
    };
    let turned = drive(driver, &mut control);
    shared.give_control(pass, control);
    Ran::Turned(turned)
}
