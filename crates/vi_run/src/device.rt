//! The device's turn on the shared object.
ghost use Rattle.vi_lines.specs.declared.line.Who.TheVariants as who;
ghost use Rattle.vi_run.specs.Actors.{IsDevice, IsIdle, IsPassOf};
ghost use Rattle.vi_run.specs.Turns.{HasTurned, device_with};

use crate::ran::Ran;
use vi_core::{Gate, serve};
use vi_turns::{Pass, Shared};

/// The device's turn.
pub(crate) fn device_turn<G: Gate>(shared: &Shared, pass: &mut Pass, gate: &G) -> Ran
    requires own { IsPassOf shared.now pass.old }
    requires idle { IsIdle (device_with pass.old) }
    requires plays { IsDevice (device_with pass.old) }
    ensures own { IsPassOf shared.now pass.new }
    ensures plays { IsDevice (device_with pass.new) }
    ensures turned { HasTurned who.Device pass.old pass.new result }
{
    let mut control = match shared.try_control(pass) {
        Ok(control) => control,
        Err(busy) => return Ran::Busy(busy),
    };
    let served = serve(&mut control, gate);
    if let Some(mark) = served.mark {
        shared.stamp(pass, mark, control.answered());
    }
    shared.give_control(pass, control);
    Ran::Turned(served.turned)
}
