//! The event reader's turn.
ghost use Rattle.std.specs.Prelude.{◌≡◌};
ghost use Rattle.vi_core.specs.DeviceTurns.{HasRead, read_of};

use crate::Turned;
use vi_control::Control;

/// The event reader's turn, where the script has one: it reads the oldest fault record that nobody has read, and its
/// buffer is given back. Else it waits. It takes no memory.
pub fn read_event(control: &mut Control, events: bool) -> Turned
    ensures { HasRead (read_of events control.old.state) control.old control.new result }
{
    if !events {
        return Turned::Waiting;
    }
    match control.take_event() {
        None => Turned::Waiting,
        Some(_) => Turned::Moved,
    }
}
