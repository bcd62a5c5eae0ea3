//! The open removals, in the order in which they began.
ghost use Rattle.std.specs.Prelude.{◌≡◌, ℕ, ◌<◌, ◌↔◌, [], false, length, Some, IsTrue, IsNone, IfSome};
ghost use Rattle.std.specs.List.{list_any, find, position};
ghost use Rattle.std.specs.Option.{option_map};
ghost use Rattle.vi_shoot.specs.Waits.{is_nobody};
ghost use Rattle.vi_shoot.specs.Reaches.{IsProperReach, reach_of};
ghost use Rattle.vi_shoot.specs.Removals.{has_number, is_number, is_ready, is_closable, waits_for, closes_page, closes, free_number, begun, acknowledged, acked, without_number, number_of, number_and_reach, what_and_token, AreOpen};

use crate::{Reach, Waiting, What};
use arrayvec::ArrayVec;
use std::marker::Model;
use vi_bytes::Membership;

/// The open call that a removal belongs to.
#[derive(Clone, Copy, Debug, PartialEq, Eq)]
pub enum Token {
    /// A chain of the request queue, by its head.
    Chain(u16),
    /// A driver's bypass setting, by the line of its script.
    Setting { driver: u8, line: u32 },
}

/// An open removal: its number, what it takes back, whom it waits for and the call that it belongs
/// to.
#[derive(Clone, Copy, Debug, PartialEq, Eq)]
pub struct Op {
    pub number: u32,
    pub what: What,
    pub waiting: Waiting,
    pub token: Token,
}

// The blank that fills room which no removal has.
impl Default for Op {
    fn default() -> Op {
        Op {
            number: 0,
            what: What::BypassOff,
            waiting: Waiting::none(),
            token: Token::Chain(0),
        }
    }
}

impl Op {
    fn waits_for(&self, place: u32) -> bool
        ensures { result ≡ waits_for place self.now }
    {
        self.waiting.has(place)
    }

    fn is_ready(&self) -> bool
        ensures { result ≡ is_ready self.now }
    {
        self.waiting.is_none()
    }

    // The removal, which waits for the back end of this place no longer.
    fn acknowledged(self, place: u32) -> Op
        requires { place < 16 }
        ensures { result ≡ acknowledged place self }
    {
        let mut waiting = self.waiting;
        waiting.clear(place);
        Op { waiting, ..self }
    }

    fn closes(&self, place: u32, page: u64, now: Membership) -> bool
        ensures { result ≡ closes_page place page now self.now }
    {
        (self.what.is_for(place, now) || self.waits_for(place)) && self.what.reach().has(page)
    }
}

/// The open removals in the order in which they began, at most 8. Each has a number below 8 that
/// no other one has. No call takes memory.
#[derive(Drop)]
pub struct Ops {
    open: ArrayVec<Op, 8>,
}

impl Model for Ops {
    ghost use Rattle.std.specs.Prelude.{List};
    ghost use Rattle.vi_shoot.specs.declared.ops.Op.{Op};
    ghost use Rattle.vi_shoot.specs.Removals.{AreOpen};

    ghost Value = { List Op };

    ghost view = { λ o. o.open.items };

    ghost invariant = { λ o. AreOpen o.open.items };
}

impl Ops {
    /// No removal is open.
    pub fn new() -> Ops
        ensures { result ≡ [] }
    {
        Ops {
            open: ArrayVec::new(),
        }
    }

    /// Whether 8 removals are open, so that none can begin.
    pub fn is_full(&self) -> bool
        ensures full { IsTrue result ↔ (length self.now ≡ 8) }
        ensures open { AreOpen self.now }
    {
        self.open.len() == 8
    }

    /// Whether an open removal waits for the back end of this place.
    pub fn waits_for(&self, place: u32) -> bool
        ensures { result ≡ list_any (λ op. waits_for place op) self.now }
    {
        self.open.iter().any(|op| op.waits_for(place))
    }

    /// Whether an open removal closes the page for the endpoint at this place, which is now in this
    /// domain.
    pub fn closes(&self, place: u32, page: u64, now: Membership) -> bool
        ensures { result ≡ closes place page now self.now }
    {
        self.open.iter().any(|op| op.closes(place, page, now))
    }

    /// The number of the first begun of those that wait for nobody, or `None` where each waits.
    pub fn ready(&self) -> Option<u32>
        ensures first { result ≡ option_map number_of (find is_ready self.now) }
        ensures none { IsNone result ↔ (list_any is_ready self.now ≡ false) }
        ensures closable { IfSome result (λ number. IsTrue (is_closable number self.now)) }
    {
        self.first_ready()
    }

    /// A removal begins, behind those that are open, and waits for these back ends. Its number is
    /// the lowest from 0 that no open removal has.
    pub fn begin(&mut self, what: What, waiting: Waiting, token: Token) -> u32
        requires room { length self.old < 8 }
        requires waits { is_nobody waiting ≡ false }
        requires proper { IsProperReach (reach_of what) }
        ensures number { result ≡ free_number self.old }
        ensures begun { self.new ≡ begun what waiting token self.old }
        ensures fresh { has_number result self.old ≡ false }
        ensures lowest { (n : ℕ) → n < result → IsTrue (has_number n self.old) }
        ensures open { AreOpen self.new }
    {
        let number = self.free_number();
        self.open.push(Op {
            number,
            what,
            waiting,
            token,
        });
        number
    }

    /// The oldest removal that waits for the back end of this place no longer does. Answers its
    /// number and the pages that it closes.
    pub fn acked(&mut self, place: u32) -> (u32, Reach)
        requires place { place < 16 }
        requires waits { IsTrue (list_any (λ op. waits_for place op) self.old) }
        ensures oldest { Some result ≡ option_map number_and_reach (find (λ op. waits_for place op) self.old) }
        ensures acked { self.new ≡ acked place self.old }
        ensures proper { IsProperReach result.1 }
        ensures open { AreOpen self.new }
    {
        let at = self.first_awaiting(place).unwrap();
        let op = self.open[at];
        self.open[at] = op.acknowledged(place);
        (op.number, op.what.reach())
    }

    /// The removal with this number is done, and leaves.
    pub fn close(&mut self, number: u32) -> (What, Token)
        requires { IsTrue (is_closable number self.old) }
        ensures closed { Some result ≡ option_map what_and_token (find (λ op. is_number number op) self.old) }
        ensures left { self.new ≡ without_number number self.old }
        ensures open { AreOpen self.new }
    {
        let at = self.numbered(number).unwrap();
        let Op { what, token, .. } = self.open.remove(at);
        (what, token)
    }

    fn has_number(&self, number: u32) -> bool
        ensures { result ≡ has_number number self.now }
    {
        self.open.iter().any(|op| op.number == number)
    }

    // The lowest number that no open removal has.
    fn free_number(&self) -> u32
        requires { length self.now < 8 }
        ensures number { result ≡ free_number self.now }
        ensures below { result < 8 }
        ensures fresh { has_number result self.now ≡ false }
        ensures lowest { (n : ℕ) → n < result → IsTrue (has_number n self.now) }
    {
        let mut number = 0;
        while self.has_number(number) {
            number += 1;
        }
        number
    }

    // Where the oldest removal stands that waits for this place.
    fn first_awaiting(&self, place: u32) -> Option<usize>
        ensures { result ≡ position (λ op. waits_for place op) self.now }
    {
        self.open.iter().position(|op| op.waits_for(place))
    }

    // Where the removal with this number stands.
    fn numbered(&self, number: u32) -> Option<usize>
        ensures { result ≡ position (λ op. is_number number op) self.now }
    {
        self.open.iter().position(|op| op.number == number)
    }

    // The number of the first begun that waits for nobody.
    fn first_ready(&self) -> Option<u32>
        ensures { result ≡ option_map number_of (find is_ready self.now) }
    {
        self.open
            .iter()
            .find(|op| op.is_ready())
            .map(|op| op.number)
    }
}
