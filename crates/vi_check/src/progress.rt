//! How far each caller has come in a history.
ghost use Rattle.std.specs.Prelude.{◌≡◌, ◌==◌, ◌^◌, ◌-◌, ◌≤◌, ◌<◌, length, map, find, IfOk, All, slice_get};
ghost use Rattle.std.specs.List.{list_all, range_with_len};
ghost use Rattle.std.specs.Option.{option_copied};
ghost use Rattle.vi_history.specs.declared.call.Caller.TheVariants.{Driver, Back};
ghost use Rattle.vi_lines.specs.Calls.{HasTransfers, lines_of, line_of, awaits_of};
ghost use Rattle.vi_lines.specs.Order.{batch_of, place_after};
ghost use Rattle.vi_check.specs.Due.{callers_of};
ghost use Rattle.vi_check.specs.Seen.{FitsScript, MayEnter, nothing_seen, has_entry, next_of, has_passed, has_finished, comes_next, may_come, ends_batch_in, missing_in, first_missing_in, moved_if, next_at, with_entry};

use crate::Verdict;
use crate::driver::Entered;
use std::alloc::{AllocError, Global};
use std::marker::Model;
use vi_history::{Caller, Entry};
use vi_lines::{Await, Script};

/// The next call of the back end of an endpoint: a line of its own and a part, both from 1.
#[derive(Clone, Copy, Debug, PartialEq, Eq)]
pub struct Next {
    pub endpoint: u32,
    pub line: u32,
    pub part: u32,
}

impl Next {
    // The back end's next call is this one from now on, if it is of its endpoint.
    fn move_if(&mut self, next: Next)
        ensures { self.new ≡ moved_if next self.old }
    {
        if self.endpoint == next.endpoint {
            *self = next;
        }
    }
}

/// How far the callers of a script have come: of each driver which lines have an entry, of each back end its next
/// call.
#[derive(Debug, Drop)]
pub struct Progress {
    drivers: Vec<Entered>,
    backs: Vec<Next>,
}

impl Model for Progress {
    ghost use Rattle.vi_check.specs.Seen.{Seen};

    ghost Value = { Seen };

    ghost view = { λ p. record { drivers = p.drivers.items; backs = p.backs.items } };
}

impl Progress {
    /// No caller of the script has an entry. An error means out of memory.
    pub fn new(alloc: Global, script: &Script) -> Result<Progress, AllocError>
        ensures { IfOk result (λ p. p ≡ nothing_seen script.now) }
    {
        let mut drivers = Vec::new(alloc);
        for number in 0..8 {
            let count = script.count(Caller::Driver(number));
            drivers.push(Entered::none(alloc, count)?)?;
        }
        let mut backs = Vec::new(alloc);
        for endpoint in script.setup.endpoints.as_slice() {
            backs.push(Next {
                endpoint: endpoint.id,
                line: 1,
                part: 1,
            })?;
        }
        Ok(Progress { drivers, backs })
    }

    // Which lines of the driver have an entry, for a driver from 0 to 7.
    fn driver(&self, number: u8) -> Option<&Entered>
        ensures { option_copied result ≡ slice_get self.now.drivers number }
    {
        self.drivers.get(number as usize)
    }

    // Whether the driver's line has an entry.
    fn has_entry(&self, number: u8, line: u32) -> bool
        requires { 1 ≤ line }
        ensures { result ≡ has_entry self.now number line }
    {
        match self.driver(number) {
            Some(entered) => entered.has(line),
            None => false,
        }
    }

    // The next call of the back end, if its endpoint was declared.
    fn back(&self, endpoint: u32) -> Option<&Next>
        ensures { option_copied result ≡ find (λ next. next.endpoint == endpoint) self.now.backs }
    {
        self.backs.iter().find(|next| next.endpoint == endpoint)
    }

    // The next call of the back end. For an endpoint that wasn't declared that is the first one.
    fn next_of(&self, endpoint: u32) -> Next
        ensures { result ≡ next_of self.now endpoint }
    {
        match self.back(endpoint) {
            Some(next) => *next,
            None => Next {
                endpoint,
                line: 1,
                part: 1,
            },
        }
    }

    /// Whether the caller's call of this line and part has an entry, or is a part after its line's fault.
    pub fn has_passed(&self, caller: Caller, line: u32, part: u32) -> bool
        requires { 1 ≤ line }
        ensures { result ≡ has_passed self.now caller line part }
    {
        match caller {
            Caller::Driver(number) => self.has_entry(number, line),
            Caller::Back(endpoint) => {
                let next = self.next_of(endpoint);
                line < next.line || line == next.line && part < next.part
            }
        }
    }

    // Whether the block of an awaited line is whole.
    fn has_finished(&self, awaited: Await) -> bool
        requires { 1 ≤ awaited.line }
        ensures { result ≡ has_finished self.now awaited.caller awaited.line }
    {
        match awaited.caller {
            Caller::Driver(number) => self.has_entry(number, awaited.line),
            Caller::Back(endpoint) => awaited.line < self.next_of(endpoint).line,
        }
    }

    // Whether the driver's line has no entry, and is of its first batch that has such a line.
    fn line_comes_next(&self, script: &Script, number: u8, line: u32) -> bool
        requires fits { FitsScript script.now self.now }
        requires first { 1 ≤ line }
        requires last { line ≤ length (lines_of script.now (Driver number)) }
        ensures { result ≡ comes_next script.now self.now (Driver number) line 0 }
    {
        let Some(entered) = self.driver(number) else {
            return false;
        };
        if entered.has(line) {
            return false;
        }
        let open = entered.done_first() as u32 + 1;
        is_one_batch(script, Caller::Driver(number), open, line)
    }

    // Whether the caller's call of this line and part is the next one of a back end, or one of a driver's first batch
    // that isn't done.
    fn comes_next(&self, script: &Script, caller: Caller, line: u32, part: u32) -> bool
        requires fits { FitsScript script.now self.now }
        requires first { 1 ≤ line }
        requires last { line ≤ length (lines_of script.now caller) }
        ensures { result ≡ comes_next script.now self.now caller line part }
    {
        match caller {
            Caller::Driver(number) => self.line_comes_next(script, number, line),
            Caller::Back(endpoint) => {
                let next = self.next_of(endpoint);
                next.line == line && next.part == part
            }
        }
    }

    // Whether the blocks of all lines that the caller's line awaits are whole.
    fn awaits_nothing(&self, script: &Script, caller: Caller, line: u32) -> bool
        requires { All (λ a. 1 ≤ a.line) (awaits_of script.now caller line) }
        ensures { result ≡ list_all (λ a. has_finished self.now a.caller a.line) (awaits_of script.now caller line) }
    {
        match script.line(caller, line) {
            Some(found) => found
                .awaits
                .as_slice()
                .iter()
                .all(|a| self.has_finished(*a)),
            None => true,
        }
    }

    /// Whether the caller's call of this line and part is due, and the blocks of the lines that its line awaits are
    /// whole.
    pub fn may_come(&self, script: &Script, caller: Caller, line: u32, part: u32) -> bool
        requires fits { FitsScript script.now self.now }
        requires first { 1 ≤ line }
        requires last { line ≤ length (lines_of script.now caller) }
        requires awaited { All (λ a. 1 ≤ a.line) (awaits_of script.now caller line) }
        ensures { result ≡ may_come script.now self.now caller line part }
    {
        self.comes_next(script, caller, line, part) && self.awaits_nothing(script, caller, line)
    }

    /// Takes an entry into account, which was due.
    pub fn enter(&mut self, script: &Script, entry: &Entry)
        requires { MayEnter script.now self.old entry.now }
        ensures { self.new ≡ with_entry script.now entry.now self.old }
    {
        let line = entry.mark.line;
        match entry.mark.caller {
            Caller::Driver(number) => self.drivers[number as usize].enter(line),
            Caller::Back(endpoint) => {
                move_to(&mut self.backs, next_after(script, entry, endpoint));
            }
        }
    }

    /// The first due call of the first caller that has one left: the drivers by number, then the back ends in declared
    /// order.
    pub fn first_missing(&self, script: &Script) -> Option<Verdict>
        requires { FitsScript script.now self.now }
        ensures { result ≡ first_missing_in script.now self.now (callers_of script.now) }
    {
        match self.missing_of_drivers(script) {
            Some(missing) => Some(missing),
            None => self.missing_of_backs(script),
        }
    }

    // The first due call of the first driver that has one left.
    fn missing_of_drivers(&self, script: &Script) -> Option<Verdict>
        requires { FitsScript script.now self.now }
        ensures { result ≡ first_missing_in script.now self.now (map (λ number. Driver number) (range_with_len 0 8)) }
    {
        for number in 0..8 {
            if let Some(missing) = self.missing_of(script, Caller::Driver(number)) {
                return Some(missing);
            }
        }
        None
    }

    // The next call of the first back end that has one left.
    fn missing_of_backs(&self, script: &Script) -> Option<Verdict>
        requires { FitsScript script.now self.now }
        ensures { result ≡ first_missing_in script.now self.now (map (λ e. Back e.id) script.now.setup.endpoints) }
    {
        for endpoint in script.setup.endpoints.as_slice() {
            if let Some(missing) = self.missing_of(script, Caller::Back(endpoint.id)) {
                return Some(missing);
            }
        }
        None
    }

    // The first due call of the caller, if it has one left.
    fn missing_of(&self, script: &Script, caller: Caller) -> Option<Verdict>
        requires { FitsScript script.now self.now }
        ensures { result ≡ missing_in script.now self.now caller }
    {
        match caller {
            Caller::Driver(number) => self.missing_of_driver(script, number),
            Caller::Back(endpoint) => {
                let Next { line, part, .. } = self.next_of(endpoint);
                if line > script.count(caller) {
                    return None;
                }
                Some(Verdict::Missing { caller, line, part })
            }
        }
    }

    // The first line of the driver without an entry, if there is one.
    fn missing_of_driver(&self, script: &Script, number: u8) -> Option<Verdict>
        requires { FitsScript script.now self.now }
        ensures { result ≡ missing_in script.now self.now (Driver number) }
    {
        let caller = Caller::Driver(number);
        let Some(entered) = self.driver(number) else {
            return None;
        };
        let done = entered.done_first();
        if done >= script.count(caller) as usize {
            return None;
        }
        Some(Verdict::Missing {
            caller,
            line: done as u32 + 1,
            part: 0,
        })
    }
}

// The next call of the back end of its endpoint is this one from now on.
fn move_to(backs: &mut Vec<Next>, next: Next)
    ensures { backs.new.items ≡ map (moved_if next) backs.old.items }
{
    for back in backs.iter_mut() {
        back.move_if(next);
    }
}

// Whether two lines of a driver, the first not below the second, are of one batch.
fn is_one_batch(script: &Script, caller: Caller, first: u32, second: u32) -> bool
    requires begins { 1 ≤ first }
    requires rises { first ≤ second }
    requires ends { second ≤ length (lines_of script.now caller) }
    ensures { result ≡ (batch_of script.now caller first == batch_of script.now caller second) }
{
    for line in first..second {
        if ends_batch(script, caller, line) {
            return false;
        }
    }
    true
}

// Whether the driver's line ends a batch. So does one that isn't there.
fn ends_batch(script: &Script, caller: Caller, line: u32) -> bool
    ensures { result ≡ ends_batch_in (line_of script.now caller line) }
{
    match script.line(caller, line) {
        Some(found) => !found.add,
        None => true,
    }
}

// The back end's next call after an entry: the next part, or the next line's first behind an entry that ends a block.
fn next_after(script: &Script, entry: &Entry, endpoint: u32) -> Next
    requires transfers { HasTransfers script.now }
    requires few_lines { entry.now.mark.line < 2 ^ 32 - 1 }
    requires few_parts { entry.now.mark.part < 2 ^ 32 - 1 }
    ensures { result ≡ next_at endpoint (place_after script.now entry.now) }
{
    let mark = entry.mark;
    let parts = match script.line(mark.caller, mark.line) {
        Some(line) => line.job.parts(),
        None => 0,
    };
    if mark.kind.is_fault() || mark.part == parts {
        Next {
            endpoint,
            line: mark.line + 1,
            part: 1,
        }
    } else {
        Next {
            endpoint,
            line: mark.line,
            part: mark.part + 1,
        }
    }
}
