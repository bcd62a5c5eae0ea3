//! The open removals by drivers' calls.
ghost use Rattle.std.specs.Prelude.{◌≡◌, ℕ, ◌≤◌, ◌<◌, ◌^◌, ◌↔◌, ◌&&◌, ◌++◌, [], ◌∷◌, true, false, not, length, map, take, drop, get_or, Some, IsTrue};
ghost use Rattle.std.specs.List.{list_any, list_all};
ghost use Rattle.std.specs.Option.{option_map};
ghost use Rattle.vi_bytes.specs.Spans.{IsProper};
ghost use Rattle.vi_history.specs.Device.{Dev};
ghost use Rattle.vi_device.specs.Values.{AreDistinct, membership_at};
ghost use Rattle.vi_model.specs.Tasks.{closes, reach_of, reaches};
ghost use Rattle.vi_model.specs.Removals.{Removal, waits_for, is_ready, acked, closed, first_ready, without_first};
ghost use Rattle.vi_removals.specs.Value.{removals_of, opened_by, with_ack, oldest_awaiting, addresses_of, addresses_in, first_free, without_free, ready_of};
ghost use Rattle.vi_removals.specs.Takings.{what_of, IsTaking, AreOpened};

use crate::taking::{copied, what_of};
use arrayvec::ArrayVec;
use std::marker::Model;
use vi_bytes::{Membership, Span};
use vi_history::Reading;
use vi_model::Task;
use vi_shoot::{Ops, Token, Waiting, What};

/// The call of a driver that an open removal belongs to.
#[derive(Clone, Copy)]
struct Call {
    driver: u8,
    line: u32,
    task: Task,
}

impl Call {
    fn ready(self, token: Token) -> Ready
        ensures { result ≡ record { driver = self.driver; line = self.line; task = self.task; token = token } }
    {
        Ready {
            driver: self.driver,
            line: self.line,
            task: self.task,
            token,
        }
    }
}

/// What a number has that no removal had.
const NO_CALL: Call = Call {
    driver: 0,
    line: 0,
    task: Task::Reads(Reading::Silent),
};

/// A removal that waits for nobody any more: the driver's line, what it asks for, and where its answer goes.
#[derive(Clone, Copy, Debug, PartialEq, Eq)]
pub struct Ready {
    pub driver: u8,
    pub line: u32,
    pub task: Task,
    pub token: Token,
}

/// A copy of the flags, of which there are 16.
fn copied_flags(waits: &Waiting) -> Waiting
    ensures copy { result ≡ waits.now }
    ensures flags { length result.0 ≡ 16 }
{
    let flags = waits.0;
    Waiting(flags)
}

/// The open removals in the order in which they began, at most 8, and the ids of the endpoints by place, at most 16.
/// A removal has the driver's line and its task, and waits for back ends of some of these endpoints. No call takes
/// memory.
#[derive(Drop)]
pub struct Removals {
    ids: ArrayVec<u32, 16>,
    ops: Ops,
    // The call of each open removal, by its number.
    calls: [Call; 8],
}

impl Model for Removals {
    ghost use Rattle.vi_removals.specs.Value.{RemovalsValue};

    ghost Value = { RemovalsValue };

    ghost use Rattle.vi_removals.specs.Inner.{seen, IsWhole};

    ghost view = { seen };

    ghost invariant = { IsWhole };
}

impl Removals {
    /// No removal is open. `ids` are those of the endpoints by place.
    pub fn new(ids: &[u32]) -> Removals
        requires { length ids.now ≤ 16 }
        ensures none { result ≡ record { ids = ids.now; opened = [] } }
        ensures open { AreOpened result }
    {
        Removals {
            ids: copied(ids),
            ops: Ops::new(),
            calls: [NO_CALL; 8],
        }
    }

    /// The id of the endpoint at this place.
    pub fn id(&self, place: u32) -> u32
        requires { place < length self.now.ids }
        ensures { result ≡ get_or self.now.ids place 0 }
    {
        self.ids[place as usize]
    }

    /// The ids of the endpoints by place.
    pub fn ids(&self) -> &[u32]
        ensures { result.now ≡ self.now.ids }
    {
        self.ids.as_slice()
    }

    /// Whether 8 removals are open, so that none can begin.
    pub fn is_full(&self) -> bool
        ensures full { IsTrue result ↔ (length self.now.opened ≡ 8) }
        ensures open { AreOpened self.now }
    {
        self.ops.is_full()
    }

    /// What the task takes back: an ATTACH and a DETACH all addresses from the endpoint at the place of their id, an
    /// UNMAP those of its range from the endpoints of its domain, and the bypass field set to off all addresses from
    /// the endpoints in no domain (Virtio 1.2, 5.13.6).
    pub fn what_of(&self, task: &Task) -> What
        requires { IsTaking self.now.ids task.now }
        ensures { Some result ≡ what_of self.now.ids task.now }
    {
        what_of(self.ids.as_slice(), task).unwrap()
    }

    /// Whether the task takes addresses from the endpoint at this place, which is now in this domain. It then closes
    /// for it the pages that it reaches.
    pub fn takes(&self, task: &Task, place: u32, now: Membership) -> bool
        requires taking { IsTaking self.now.ids task.now }
        requires place { place < length self.now.ids }
        requires distinct { AreDistinct self.now.ids }
        ensures { (dev : Dev) (page : ℕ) → map (λ x. x.id) dev.endpoints ≡ self.now.ids → membership_at dev place ≡ now → page < 2 ^ 52
            → closes dev task.now (get_or self.now.ids place 0) page ≡ (result && reaches (reach_of task.now) page) }
    {
        self.what_of(task).is_for(place, now)
    }

    /// The addresses that back ends are told to forget when the task begins: the range of an UNMAP, and else all.
    pub fn addresses(&self, task: &Task) -> Span
        requires { IsTaking self.now.ids task.now }
        ensures addresses { result ≡ addresses_of (reach_of task.now) }
        ensures proper { IsProper result }
    {
        self.what_of(task).reach().span()
    }

    /// A removal begins, behind those that are open: a driver's line with this task. It waits for the back ends of the
    /// places that are set in `waits`.
    pub fn begin(&mut self, driver: u8, line: u32, task: Task, waits: &Waiting, token: Token)
        requires room { length self.old.opened < 8 }
        requires taking { IsTaking self.old.ids task }
        requires someone { list_all not (take (length self.old.ids) waits.now.0) ≡ false }
        requires beyond { list_all not (drop (length self.old.ids) waits.now.0) ≡ true }
        ensures begun { self.new
            ≡ record self.old { opened = self.old.opened ++ opened_by driver line task (take (length self.old.ids) waits.now.0) token ∷ [] } }
        ensures open { AreOpened self.new }
    {
        let waits = copied_flags(waits);
        let what = self.what_of(&task);
        let number = self.ops.begin(what, waits, token);
        self.calls[number as usize] = Call { driver, line, task };
    }

    /// Whether an open removal waits for the back end at this place.
    pub fn waits_for(&self, place: u32) -> bool
        requires { place < length self.now.ids }
        ensures { result ≡ list_any (waits_for place) (removals_of self.now) }
    {
        self.ops.waits_for(place)
    }

    /// The oldest removal that waits for the back end at this place does so no longer. Answers the addresses that the
    /// back end was told to forget: the range of an UNMAP, and else all.
    pub fn acked(&mut self, place: u32) -> Span
        requires place { place < length self.old.ids }
        requires waits { IsTrue (list_any (waits_for place) (removals_of self.old)) }
        ensures acked { self.new ≡ record self.old { opened = with_ack place self.old.opened } }
        ensures removals { removals_of self.new ≡ acked place (removals_of self.old) }
        ensures addresses { Some result ≡ option_map addresses_in (oldest_awaiting place self.old.opened) }
        ensures proper { IsProper result }
        ensures open { AreOpened self.new }
    {
        let (_number, reach) = self.ops.acked(place);
        reach.span()
    }

    /// Whether an open removal waits for nobody.
    pub fn is_ready(&self) -> bool
        ensures { result ≡ list_any is_ready (removals_of self.now) }
    {
        self.ops.ready().is_some()
    }

    /// The first begun of the removals that wait for nobody leaves. `None` where each waits, and then all stay.
    pub fn take_ready(&mut self) -> Option<Ready>
        ensures first { result ≡ option_map ready_of (first_free self.old.opened) }
        ensures left { self.new ≡ record self.old { opened = without_free self.old.opened } }
        ensures removal { option_map (λ o. o.removal) (first_free self.old.opened) ≡ first_ready (removals_of self.old) }
        ensures removals { removals_of self.new ≡ without_first (removals_of self.old) }
        ensures open { AreOpened self.new }
    {
        match self.ops.ready() {
            None => None,
            Some(number) => {
                let (_what, token) = self.ops.close(number);
                let call = self.calls[number as usize];
                Some(call.ready(token))
            }
        }
    }

    /// Whether an open removal closes the page for the endpoint at this place, which is now in this domain: where it
    /// takes addresses from the endpoint now, or still waits for its back end, and reaches the page.
    pub fn closes(&self, place: u32, page: u64, now: Membership) -> bool
        requires place { place < length self.now.ids }
        requires distinct { AreDistinct self.now.ids }
        requires page { page < 2 ^ 52 }
        ensures { (dev : Dev) → map (λ x. x.id) dev.endpoints ≡ self.now.ids → membership_at dev place ≡ now
            → result ≡ closed dev (get_or self.now.ids place 0) place page (removals_of self.now) }
    {
        self.ops.closes(place, page, now)
    }
}
