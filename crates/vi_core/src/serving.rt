//! The device's turn.
ghost use Rattle.std.specs.Prelude.{◌≡◌};
ghost use Rattle.vi_core.specs.declared.turned.Turned.TheVariants.{Moved};
ghost use Rattle.vi_control.specs.Rooms.{HasRoom};
ghost use Rattle.vi_core.specs.DeviceTurns.{IsDevicesTurn};

use crate::Turned;
use crate::gate::{Gate, Point};
use vi_control::{Control, Work};
use vi_history::Mark;
use vi_lines::Who;

/// What a turn of the device did, and the mark of the entry that it made, if it made one.
#[derive(Clone, Copy, Debug, PartialEq, Eq)]
pub struct Served {
    pub turned: Turned,
    pub mark: Option<Mark>,
}

/// The device's turn: the first work that there is, or it waits. The entry's bytes are the control's `answered`. It
/// passes the gate when it has begun a removal that waits for back ends. It takes no memory.
pub fn serve<G: Gate>(control: &mut Control, gate: &G) -> Served
    requires { HasRoom control.old }
    ensures turn { IsDevicesTurn control.old control.new result }
    ensures plan { control.new.plan ≡ control.old.plan }
{
    match control.next() {
        Work::Idle => Served {
            turned: Turned::Waiting,
            mark: None,
        },
        Work::Finish => moved(Some(control.finish())),
        Work::Parked(_) => moved(control.serve()),
        Work::Frame(_) => moved(control.serve()),
        Work::Request => moved(watched(control.start(), gate)),
        Work::Bypass(_) => moved(watched(control.start(), gate)),
    }
}

// What was started with no entry is a removal that waits.
fn watched<G: Gate>(mark: Option<Mark>, gate: &G) -> Option<Mark>
    ensures { result ≡ mark }
{
    if mark.is_none() {
        gate.pass(Who::Device, Point::OpOpen);
    }
    mark
}

fn moved(mark: Option<Mark>) -> Served
    ensures { result ≡ record { turned = Moved; mark = mark } }
{
    Served {
        turned: Turned::Moved,
        mark,
    }
}
