//! The one-thread device at work on a script: its state, and what it has answered so far.
ghost use Rattle.std.specs.Prelude.{◌≡◌, ◌+◌, ◌-◌, ◌*◌, ◌^◌, ◌<◌, ◌≤◌, length, ℕ, [], IfOk, OnOk, MatchOption, Some};
ghost use Rattle.vi_history.specs.Kinds.{is_fault};
ghost use Rattle.vi_history.specs.Outcomes.{HasPart, IsWellMade};
ghost use Rattle.vi_history.specs.Records.{record_of};
ghost use Rattle.vi_history.specs.Replies.{reply};
ghost use Rattle.vi_plain.specs.Conditions.{IsPlainSetup, IsPlainCall};
ghost use Rattle.vi_lines.specs.Calls.{call_in, parts_of};
ghost use Rattle.vi_commands.specs.Made.{IsTaken};
ghost use Rattle.vi_commands.specs.OneThread.{nothing_replied, with_reply, with_part, with_parts, with_line, outcome_of, stops};

use std::alloc::{AllocError, Global};
use std::marker::Model;
use vi_bytes::Items;
use vi_fault::FaultRecord;
use vi_history::{Call, Caller, Entry, Mark, Outcome, Setup, Shown};
use vi_lines::Line;
use vi_plain::Plain;

/// The one-thread device, its entries, and the records of those that are faults.
#[derive(Drop)]
pub struct Course {
    plain: Plain,
    entries: Vec<Entry>,
    shown: Vec<Shown>,
}

impl Model for Course {
    ghost use Rattle.vi_commands.specs.OneThread.{Replied};
    ghost use Rattle.vi_commands.specs.Made.{AreMade};

    ghost Value = { Replied };

    ghost view = { λ c. record { one = c.plain; entries = c.entries.items; shown = c.shown.items } };

    ghost invariant = { λ c. AreMade c.entries.items c.shown.items };
}

impl Course {
    /// Nothing was asked yet. An error means out of memory.
    pub fn new(alloc: Global, setup: &Setup) -> Result<Course, AllocError>
        requires { IsPlainSetup setup.now }
        ensures { IfOk result (λ c. c ≡ nothing_replied setup.now) }
    {
        Ok(Course {
            plain: Plain::new(alloc, setup)?,
            entries: Vec::new(alloc),
            shown: Vec::new(alloc),
        })
    }

    /// Replies to the line, which is its caller's line of this number: a transfer's parts up to the first
    /// that faults. An error means out of memory.
    pub fn reply_to(&mut self, alloc: Global, line: &Line, number: u32) -> Result<(), AllocError>
        requires taken { IsTaken line.now }
        requires number { 1 ≤ number }
        requires few { length self.old.entries + 17 < 2 ^ 32 }
        ensures replied { OnOk result (self.new ≡ with_line self.old line.now number) }
        ensures most { OnOk result (length self.new.entries ≤ length self.old.entries + 17) }
    {
        match line.caller {
            Caller::Driver(_) => self.driver_line(alloc, line, number),
            Caller::Back(_) => self.parts(alloc, line, number),
        }
    }

    fn driver_line(&mut self, alloc: Global, line: &Line, number: u32) -> Result<(), AllocError>
        requires taken { IsTaken line.now }
        requires part { HasPart line.now.caller 0 }
        requires number { 1 ≤ number }
        requires few { length self.old.entries + 17 < 2 ^ 32 }
        ensures replied { OnOk result (self.new ≡ with_part self.old line.now number 0) }
        ensures most { OnOk result (length self.new.entries ≤ length self.old.entries + 17) }
    {
        self.part(alloc, line, number, 0)?;
        Ok(())
    }

    // The parts of a transfer, up to the first that faults.
    fn parts(&mut self, alloc: Global, line: &Line, number: u32) -> Result<(), AllocError>
        requires taken { IsTaken line.now }
        requires parts { (part : ℕ) → 1 ≤ part → HasPart line.now.caller part }
        requires number { 1 ≤ number }
        requires few { length self.old.entries + 17 < 2 ^ 32 }
        ensures replied { OnOk result (self.new ≡ with_parts self.old line.now number 1 (parts_of line.now.job)) }
        ensures most { OnOk result (length self.new.entries ≤ length self.old.entries + 17) }
    {
        for part in 1..=line.job.parts() {
            if self.part(alloc, line, number, part)? {
                return Ok(());
            }
        }
        Ok(())
    }

    // One part. The answer is whether it is the last that is replied to: it faults, or isn't there.
    fn part(
        &mut self,
        alloc: Global,
        line: &Line,
        number: u32,
        part: u32,
    ) -> Result<bool, AllocError>
        requires taken { IsTaken line.now }
        requires part { HasPart line.now.caller part }
        requires number { 1 ≤ number }
        requires few { length self.old.entries + 1 < 2 ^ 32 }
        ensures stops { IfOk result (λ b. b ≡ stops self.old.one (call_in line.now.caller part (Some line.now))) }
        ensures replied { OnOk result (self.new ≡ with_part self.old line.now number part) }
        ensures most { OnOk result (length self.new.entries ≤ length self.old.entries + 1) }
    {
        match line.call(alloc, part)? {
            Some(call) => self.reply(alloc, line.caller, number, part, &call),
            None => Ok(true),
        }
    }

    // Replies to a call. The answer is whether it faults.
    fn reply(
        &mut self,
        alloc: Global,
        caller: Caller,
        line: u32,
        part: u32,
        call: &Call,
    ) -> Result<bool, AllocError>
        requires plain { IsPlainCall call.now }
        requires part { HasPart caller part }
        requires line { 1 ≤ line }
        requires few { length self.old.entries + 1 < 2 ^ 32 }
        ensures faults { IfOk result (λ b. b ≡ is_fault (reply self.old.one call.now).kind) }
        ensures replied { OnOk result (self.new ≡ with_reply self.old caller line part call.now) }
    {
        let entry = self.plain.step(alloc, caller, line, part, call)?;
        let Mark { kind, code, .. } = entry.mark;
        self.entries.push(entry)?;
        if !kind.is_fault() {
            return Ok(false);
        }
        match record(code, call) {
            Some(bytes) => {
                let entry = self.entries.len() as u32;
                self.shown.push(Shown { entry, bytes })?;
                Ok(true)
            }
            None => Ok(false),
        }
    }

    /// What was answered, with all records shown.
    pub fn outcome(self) -> Outcome
        requires { length self.entries < 2 ^ 32 - 1 }
        ensures outcome { result ≡ outcome_of self }
        ensures made { IsWellMade result }
    {
        let Course { entries, shown, .. } = self;
        Outcome {
            entries: Items::from_vec(entries),
            shown: Items::from_vec(shown),
            dropped: 0,
        }
    }
}

/// The record of a fault at an access (Virtio 1.2, 5.13.6.9); a call of a driver has none.
fn record(reason: u8, call: &Call) -> Option<[u8; 24]>
    requires { reason ≤ 2 }
    ensures { MatchOption result (record_of reason call.now ≡ []) (λ bytes. record_of reason call.now ≡ bytes) }
{
    let (write, endpoint, part) = match call {
        Call::Read { endpoint, part } => (false, *endpoint, *part),
        Call::Write { endpoint, part, .. } => (true, *endpoint, *part),
        _ => return None,
    };
    let record = FaultRecord {
        reason,
        write,
        endpoint,
        address: part.iova,
    };
    Some(record.encode())
}
