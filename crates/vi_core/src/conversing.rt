//! A back end's turn under control.
ghost use Rattle.std.specs.Prelude.{◌≡◌, ◌<◌, ◌≤◌, ◌+◌, All, length, take, drop, Some, IfSome};
ghost use Rattle.std.specs.List.{list_all};
ghost use Rattle.vi_bytes.specs.declared.span.TheConstants.{PAGE};
ghost use Rattle.vi_history.specs.declared.call.Caller.TheVariants.{Back};
ghost use Rattle.vi_iotlb.specs.Frames.{IsSendable};
ghost use Rattle.vi_model.specs.Control.{link_of};
ghost use Rattle.vi_backend.specs.Frames.{IsFor, answer_to, after};
ghost use Rattle.vi_backend.specs.Own.{IsOwn};
ghost use Rattle.vi_backend.specs.Wishes.{own_wish, own_awaits, shown, IsAccess};
ghost use Rattle.vi_backend.specs.declared.wish.Wish.TheVariants as wish;
ghost use Rattle.vi_control.specs.Calls.{IsCaller};
ghost use Rattle.vi_core.specs.BackTurns.{HasConverseRoom, IsBacksTurn, IsBacksAccess, HasAsked, HasReceived, turned_by, after_posting, after_answer, after_hearing, hearing_moves};

use crate::Turned;
use crate::gate::{Gate, Point};
use crate::posted::are_posted;
use vi_backend::{Backend, Done, Wish};
use vi_control::Control;
use vi_history::Caller;
use vi_iotlb::Frame;
use vi_lines::{Await, Who};
use vi_memory::Page;

/// The turn of the back end at this place, where it doesn't wish for an access: it posts how many of
/// its lines are finished, and asks for a translation, or takes a frame where one is under way. An access waits here.
/// It passes the gate when it has carried an Invalidate out. It takes no memory.
pub fn converse<G: Gate>(control: &mut Control, place: u32, back: &mut Backend, gate: &G) -> Turned
    requires room { HasConverseRoom control.old.plan control.old.state place back.old }
    ensures turn { IsBacksTurn place control.old control.new back.old back.new result }
    ensures own { IsOwn back.new }
    ensures plan { control.new.plan ≡ control.old.plan }
{
    vi_backend::laws::wishes_agree();
    match back.next() {
        Wish::Access(_) => Turned::Waiting,
        Wish::Ask(frame) => {
            ask(control, place, back, &frame);
            Turned::Moved
        }
        Wish::Receive => turned(receive(control, place, back, gate), Turned::Waiting),
        Wish::Rest => turned(receive(control, place, back, gate), Turned::Rest),
    }
}

/// The access that a back end wishes for, on the page that it wishes for: its current part is done. What comes of it is
/// the mark of its entry, and where the entry's bytes stand on the page. It takes no memory.
pub fn reach(back: &mut Backend, page: &mut Page) -> Done
    requires own { IsOwn back.old }
    requires wish { IsAccess (shown (own_wish back.old)) }
    ensures turn { IsBacksAccess page.old page.new back.old back.new result }
    ensures own { IsOwn back.new }
    ensures within { result.from + result.len ≤ PAGE }
    ensures stays { take result.len (drop result.from page.new) ≡ take result.len (drop result.from page.old) }
{
    vi_backend::laws::wishes_agree();
    vi_backend::laws::accesses_agree();
    back.access(page)
}

fn turned(moved: bool, idle: Turned) -> Turned
    ensures { result ≡ turned_by moved idle }
{
    if moved { Turned::Moved } else { idle }
}

// The frame that it wishes to send is sent.
fn ask(control: &mut Control, place: u32, back: &mut Backend, frame: &Frame)
    requires wish { shown (own_wish back.old) ≡ wish.Ask frame.now }
    requires room { HasConverseRoom control.old.plan control.old.state place back.old }
    ensures exchange { HasAsked place control.old control.new back.old back.new }
    ensures own { IsOwn back.new }
    ensures plan { control.new.plan ≡ control.old.plan }
{
    vi_bytes::laws::parts_join();
    control.post(Caller::Back(back.id()), back.finished());
    control.send(place, frame);
    back.asked();
}

// It takes a frame, if one is under way.
fn receive<G: Gate>(control: &mut Control, place: u32, back: &mut Backend, gate: &G) -> bool
    requires room { HasConverseRoom control.old.plan control.old.state place back.old }
    ensures exchange { HasReceived place control.old control.new back.old back.new result }
    ensures own { IsOwn back.new }
    ensures plan { control.new.plan ≡ control.old.plan }
{
    vi_backend::laws::frames_agree();
    vi_backend::laws::awaits_agree();
    match control.receive(place) {
        None => hear(control, back),
        Some(frame) => {
            take(control, place, back, &frame, gate);
            true
        }
    }
}

// It takes this frame, and answers it.
fn take<G: Gate>(control: &mut Control, place: u32, back: &mut Backend, frame: &Frame, gate: &G)
    requires caller { IsCaller control.old.plan.ids (Back back.old.id) }
    requires place { place < length control.old.plan.ids }
    requires sendable { IsSendable frame.now }
    requires down { IsFor back.old.seat.asking frame.now }
    requires room { IfSome (answer_to frame.now) (λ answer. (link_of control.old.state place).acks < 8) }
    ensures control { control.new ≡ after_answer place (answer_to frame.now) (after_posting back.old control.old) }
    ensures seat { back.new ≡ record back.old { seat = after back.old.capacity frame.now back.old.seat } }
    ensures own { IsOwn back.new }
{
    control.post(Caller::Back(back.id()), back.finished());
    if let Some(answer) = back.got(frame) {
        gate.pass(Who::Back(back.id()), Point::Dropped);
        control.send(place, &answer);
    }
}

// No frame was under way: it tests whether the lines that it awaits are posted, where it wishes to.
fn hear(control: &mut Control, back: &mut Backend) -> bool
    requires caller { IsCaller control.old.plan.ids (Back back.old.id) }
    requires awaited { All (λ a. IsCaller control.old.plan.ids a.caller) (own_awaits back.old) }
    ensures control { control.new ≡ after_posting back.old control.old }
    ensures seat { back.new ≡ after_hearing control.old.plan.ids control.old.state back.old }
    ensures moved { result ≡ hearing_moves control.old.plan.ids control.old.state back.old }
    ensures own { IsOwn back.new }
{
    let caller = Caller::Back(back.id());
    let finished = back.finished();
    let ready = back.tests() && are_posted(control, back.awaits());
    let moved = control.posted(caller) < finished || back.since() > 0 || ready;
    control.post(caller, finished);
    back.received(ready);
    moved
}
