//! A driver's own state.
ghost use Rattle.std.specs.Prelude.{◌≡◌, ◌==◌, ◌+◌, ◌≤◌, ◌<◌, ◌^◌, true, length, All, IfOk, IsSome};
ghost use Rattle.std.specs.List.{list_any};
ghost use Rattle.vi_lines.specs.Calls.{lines_of, awaits_in};
ghost use Rattle.vi_model.specs.Drivers.{finished_first, next_open, no_stand, other_lines};
ghost use Rattle.vi_driver.specs.Drivers.{IsSubmitted, MaySubmit, own_driver, is_finished, is_open, next_line, next_parcel, closed};
ghost use Rattle.vi_driver.specs.Parcels.{read_in, write_in, switch_in};
ghost use Rattle.vi_driver.specs.Wishes.{wish_of, wish_at_end, wish_before};

use crate::DriverWish;
use crate::batch::are_in_batch;
use crate::own::OwnLine;
use arrayvec::ArrayVec;
use std::alloc::{AllocError, Global};
use std::marker::Model;
use vi_history::Caller;
use vi_lines::{Await, Script};

/// A driver: its own lines of the script, of which the first ones are submitted, and the numbers of those
/// whose calls are open, at most 8, rising. Lines are counted from 1. Only `new` takes memory.
#[derive(Drop)]
pub struct Driver {
    number: u8,
    lines: Vec<OwnLine>,
    submitted: u32,
    open: ArrayVec<u32, 8>,
}

impl Model for Driver {
    ghost use Rattle.vi_driver.specs.Drivers.{OwnDriver, IsDriver};

    ghost Value = { OwnDriver };

    ghost view = { λ d. record { number = d.number; lines = d.lines.items; stand = record { submitted = d.submitted; open_lines = d.open.items } } };

    ghost invariant = { λ d. IsDriver (record { number = d.number; lines = d.lines.items; stand = record { submitted = d.submitted; open_lines = d.open.items } }) };
}

impl Driver {
    /// The driver of this number before its first call, with copies of its lines. An error means out of memory.
    pub fn new(alloc: Global, script: &Script, number: u8) -> Result<Driver, AllocError>
        ensures { IfOk result (λ d. d ≡ own_driver script.now number no_stand) }
    {
        let lines = lines_of(alloc, script, Caller::Driver(number))?;
        Ok(Driver {
            number,
            lines,
            submitted: 0,
            open: ArrayVec::new(),
        })
    }

    /// What the driver wants to do next: nothing where no line is left and no call is open; to collect
    /// where a call is open and no line of its batch is left to submit; else to wait where the next line
    /// awaits lines; and to submit elsewhere.
    #[tactic(auto, unfolding(crate::specs::Wishes::wish_of))]
    pub fn next(&self) -> DriverWish
        ensures { result ≡ wish_of self.now }
    {
        match self.lines.get(self.submitted as usize) {
            None => self.without_lines(),
            Some(line) => self.before_line(line),
        }
    }

    // The wish where no line is left.
    fn without_lines(&self) -> DriverWish
        ensures { result ≡ wish_at_end self.now }
    {
        if self.open() {
            DriverWish::Collect
        } else {
            DriverWish::Rest
        }
    }

    // The wish where this line is the next one.
    fn before_line(&self, line: &OwnLine) -> DriverWish
        ensures { result ≡ wish_before line.now self.now }
    {
        if !are_in_batch(&self.lines, self.submitted, &self.open) {
            DriverWish::Collect
        } else if line.awaits().is_empty() {
            DriverWish::Submit
        } else {
            DriverWish::Await
        }
    }

    /// The driver's number.
    pub fn number(&self) -> u8
        ensures { result ≡ self.now.number }
    {
        self.number
    }

    /// The number of the next line to submit, from 1.
    pub fn line(&self) -> u32
        requires { IsSome (next_line self.now) }
        ensures { result ≡ self.now.stand.submitted + 1 }
    {
        self.submitted + 1
    }

    /// The device-readable part of the next line's request, empty for a bypass setting.
    pub fn readable(&self) -> &[u8]
        requires { IsSome (next_line self.now) }
        ensures { result.now ≡ read_in (next_parcel self.now) }
    {
        self.lines[self.submitted as usize].readable()
    }

    /// How many bytes the writable part of the next line's request has, 0 for a bypass setting.
    pub fn writable(&self) -> u32
        requires { IsSome (next_line self.now) }
        ensures { result ≡ write_in (next_parcel self.now) }
    {
        self.lines[self.submitted as usize].writable()
    }

    /// To what the next line sets the bypass field, `None` where it is a request.
    pub fn setting(&self) -> Option<bool>
        requires { IsSome (next_line self.now) }
        ensures { result ≡ switch_in (next_parcel self.now) }
    {
        self.lines[self.submitted as usize].setting()
    }

    /// The lines that the next line awaits.
    pub fn awaits(&self) -> &[Await]
        requires { IsSome (next_line self.now) }
        ensures { result.now ≡ awaits_in (next_line self.now) }
    {
        self.lines[self.submitted as usize].awaits()
    }

    /// The next line is submitted, and its call is open. There is such a line, fewer than 8 calls are open,
    /// and they are all of its batch.
    pub fn submitted(&mut self)
        requires { MaySubmit self.old }
        ensures { self.new ≡ record self.old { stand = next_open self.old.stand } }
    {
        self.submitted += 1;
        self.open.push(self.submitted);
    }

    /// The call of this line is finished and no longer open. The answer is how many of the driver's first
    /// lines are all finished.
    pub fn collected(&mut self, line: u32) -> u32
        requires { list_any (λ n. n == line) self.old.stand.open_lines ≡ true }
        ensures closed { self.new ≡ record self.old { stand = closed line self.old.stand } }
        ensures finished { result ≡ finished_first self.new.stand.open_lines self.new.stand.submitted }
    {
        close(&mut self.open, line);
        finished_first(&self.open, self.submitted)
    }

    /// Whether all its lines are submitted and none of them is open.
    pub fn is_finished(&self) -> bool
        ensures { result ≡ is_finished self.now }
    {
        self.submitted as usize >= self.lines.len() && !self.open()
    }

    /// Whether a call is open.
    pub fn open(&self) -> bool
        ensures { result ≡ is_open self.now.stand }
    {
        !self.open.is_empty()
    }
}

/// Copies of the caller's lines. An error means out of memory.
fn lines_of(alloc: Global, script: &Script, caller: Caller) -> Result<Vec<OwnLine>, AllocError>
    ensures own { IfOk result (λ own. own.items ≡ lines_of script.now caller) }
    ensures few { IfOk result (λ own. length own.items < 2 ^ 32) }
{
    let mut own = Vec::with_capacity(alloc, script.count(caller) as usize)?;
    for line in script.lines.as_slice() {
        if line.caller == caller {
            own.push(OwnLine::of(alloc, line)?)?;
        }
    }
    Ok(own)
}

/// Takes the line out of these.
fn close(open_lines: &mut ArrayVec<u32, 8>, line: u32)
    ensures { open_lines.new.items ≡ other_lines line open_lines.old.items }
{
    open_lines.retain(|n| *n != line);
}

/// How many of the first lines are all finished, where these are open and so many are submitted.
fn finished_first(open_lines: &[u32], submitted: u32) -> u32
    requires { All (IsSubmitted submitted) open_lines.now }
    ensures { result ≡ finished_first open_lines.now submitted }
{
    let mut finished = submitted;
    for line in open_lines {
        finished = finished.min(*line - 1);
    }
    finished
}
