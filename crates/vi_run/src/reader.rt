//! The event reader's turn on the shared object.
ghost use Rattle.vi_lines.specs.declared.line.Who.TheVariants as who;
ghost use Rattle.vi_run.specs.Actors.{IsIdle, IsPassOf, IsReader};
ghost use Rattle.vi_run.specs.Turns.{HasTurned, reader_with};

use crate::ran::Ran;
use vi_core::read_event;
use vi_turns::{Pass, Shared};

/// The event reader's turn.
pub(crate) fn reader_turn(shared: &Shared, pass: &mut Pass, events: bool) -> Ran
    requires own { IsPassOf shared.now pass.old }
    requires idle { IsIdle (reader_with pass.old) }
    requires plays { IsReader (reader_with pass.old) events }
    ensures own { IsPassOf shared.now pass.new }
    ensures plays { IsReader (reader_with pass.new) events }
    ensures turned { HasTurned who.Events pass.old pass.new result }
{
    let mut control = match shared.try_control(pass) {
        Ok(control) => control,
        Err(busy) => return Ran::Busy(busy),
    };
    let turned = read_event(&mut control, events);
    shared.give_control(pass, control);
    Ran::Turned(turned)
}
