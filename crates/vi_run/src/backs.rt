//! A back end's turn on the shared object.
ghost use Rattle.std.specs.Prelude.{◌≡◌, Some, None};
ghost use Rattle.vi_lines.specs.declared.line.Who.TheVariants as who;
ghost use Rattle.vi_run.specs.Actors.{IsBack, IsIdle, IsPassOf};
ghost use Rattle.vi_run.specs.Taking.{wished_of};
ghost use Rattle.vi_run.specs.Turns.{HasTurned, back_with};

use crate::ran::Ran;
use vi_backend::{Backend, Wish};
use vi_core::{Gate, Point, Turned, converse, reach};
use vi_lines::Who;
use vi_turns::{Pass, Shared};

/// The turn of the back end at this place: an access, which takes its page alone, or a turn under the control.
pub(crate) fn back_turn<G: Gate>(
    shared: &Shared,
    pass: &mut Pass,
    place: u32,
    back: &mut Backend,
    gate: &G,
) -> Ran
    requires own { IsPassOf shared.now pass.old }
    requires idle { IsIdle (back_with pass.old back.old) }
    requires plays { IsBack (back_with pass.old back.old) place back.old }
    ensures own { IsPassOf shared.now pass.new }
    ensures id { back.new.id ≡ back.old.id }
    ensures plays { IsBack (back_with pass.new back.new) place back.new }
    ensures turned { HasTurned (who.Back back.old.id) pass.old pass.new result }
{
    vi_backend::laws::wishes_agree();
    match back.next() {
        Wish::Access(page) => access_turn(shared, pass, page as u32, place, back, gate),
        Wish::Ask(_) | Wish::Receive | Wish::Rest => {
            converse_turn(shared, pass, place, back, gate)
        }
    }
}

// The access of this page, which the back end wishes.
fn access_turn<G: Gate>(
    shared: &Shared,
    pass: &mut Pass,
    page: u32,
    place: u32,
    back: &mut Backend,
    gate: &G,
) -> Ran
    requires own { IsPassOf shared.now pass.old }
    requires idle { IsIdle (back_with pass.old back.old) }
    requires plays { IsBack (back_with pass.old back.old) place back.old }
    requires wish { wished_of pass.old.view ≡ Some page }
    ensures own { IsPassOf shared.now pass.new }
    ensures id { back.new.id ≡ back.old.id }
    ensures plays { IsBack (back_with pass.new back.new) place back.new }
    ensures turned { HasTurned (who.Back back.old.id) pass.old pass.new result }
{
    let mut value = match shared.try_page(pass, page) {
        Ok(value) => value,
        Err(busy) => return Ran::Busy(busy),
    };
    let who = Who::Back(back.id());
    gate.pass(who, Point::PageHeld);
    let done = reach(back, &mut value);
    shared.stamp(pass, done.mark, value.read(done.from, done.len));
    shared.give_page(pass, page, value);
    gate.pass(who, Point::Stamped);
    Ran::Turned(Turned::Moved)
}

// A turn under the control.
fn converse_turn<G: Gate>(
    shared: &Shared,
    pass: &mut Pass,
    place: u32,
    back: &mut Backend,
    gate: &G,
) -> Ran
    requires own { IsPassOf shared.now pass.old }
    requires idle { IsIdle (back_with pass.old back.old) }
    requires plays { IsBack (back_with pass.old back.old) place back.old }
    requires wish { wished_of pass.old.view ≡ None }
    ensures own { IsPassOf shared.now pass.new }
    ensures id { back.new.id ≡ back.old.id }
    ensures plays { IsBack (back_with pass.new back.new) place back.new }
    ensures turned { HasTurned (who.Back back.old.id) pass.old pass.new result }
{
    let mut control = match shared.try_control(pass) {
        Ok(control) => control,
        Err(busy) => return Ran::Busy(busy),
    };
    let turned = converse(&mut control, place, back, gate);
    shared.give_control(pass, control);
    Ran::Turned(turned)
}
