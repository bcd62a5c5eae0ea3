//! A history gone through entry by entry, beside the one-thread device.
ghost use Rattle.std.specs.Prelude.{◌≡◌, ◌^◌, ◌+◌, ◌<◌, ◌≤◌, [], ◌∷◌, ◌++◌, Some, None, IfOk, OnOk, IsTrue, length};
ghost use Rattle.std.specs.Option.{option_to_list};
ghost use Rattle.vi_history.specs.Histories.{answer_of};
ghost use Rattle.vi_history.specs.Kinds.{is_fault};
ghost use Rattle.vi_history.specs.Records.{records_at};
ghost use Rattle.vi_history.specs.Replies.{reply};
ghost use Rattle.vi_lines.specs.Order.{IsDue, IsOrderedSoFar};
ghost use Rattle.vi_lines.specs.Valid.{IsValid};
ghost use Rattle.vi_check.specs.Answers.{same_answer};
ghost use Rattle.vi_check.specs.Due.{call_at, callers_of};
ghost use Rattle.vi_check.specs.Seen.{FitsScript, MayEnter, IsAccess, first_missing_in, walked_of, with_answer};
ghost use Rattle.vi_check.specs.Verdicts.{device_after, wrong_answer, finding, first_finding};

use crate::Verdict;
use crate::progress::Progress;
use std::alloc::{AllocError, Global};
use std::marker::Model;
use vi_bytes::Bytes;
use vi_fault::FaultRecord;
use vi_history::{Call, Caller, Entry, Mark, Shown};
use vi_lines::Script;
use vi_plain::Plain;

/// What is known behind some entries of a history: how far the callers have come, the device, and the fault records of
/// the entries.
#[derive(Drop)]
pub struct Walk {
    progress: Progress,
    plain: Plain,
    records: Vec<Shown>,
}

impl Model for Walk {
    ghost use Rattle.vi_check.specs.Seen.{Walked};

    ghost Value = { Walked };

    ghost view = { λ w. record { seen = w.progress; one = w.plain; records = w.records.items } };
}

impl Walk {
    /// Before the first entry. An error means out of memory.
    pub fn new(alloc: Global, script: &Script) -> Result<Walk, AllocError>
        requires { IsValid script.now }
        ensures { IfOk result (λ walk. walk ≡ walked_of script.now []) }
    {
        Ok(Walk {
            progress: Progress::new(alloc, script)?,
            plain: Plain::new(alloc, &script.setup)?,
            records: Vec::new(alloc),
        })
    }

    /// The fault records of the entries.
    pub fn records(&self) -> &[Shown]
        ensures { result.now ≡ self.now.records }
    {
        self.records.as_slice()
    }

    /// What is wrong with the first entry with which something is. An error means out of memory.
    pub fn first_finding(
        &mut self,
        alloc: Global,
        script: &Script,
        entries: &[Entry],
    ) -> Result<Option<Verdict>, AllocError>
        requires valid { IsValid script.now }
        requires before { self.old ≡ walked_of script.now [] }
        requires few { length entries.now < 2 ^ 32 }
        ensures found { IfOk result (λ found. found ≡ first_finding script.now [] entries.now) }
        ensures walked { IfOk result (λ found. found ≡ None → self.new ≡ walked_of script.now entries.now) }
    {
        for (at, entry) in entries.iter().enumerate() {
            if let Some(found) = self.step(alloc, script, &entries[..at], entry)? {
                return Ok(Some(found));
            }
        }
        Ok(None)
    }

    // What is wrong with the entry behind these; where nothing is, the entry is gone through.
    fn step(
        &mut self,
        alloc: Global,
        script: &Script,
        before: &[Entry],
        entry: &Entry,
    ) -> Result<Option<Verdict>, AllocError>
        requires valid { IsValid script.now }
        requires few { length before.now + 1 < 2 ^ 32 }
        requires ordered { IsOrderedSoFar script.now before.now }
        requires walked { self.old ≡ walked_of script.now before.now }
        ensures found { IfOk result (λ found. found ≡ finding script.now before.now entry.now) }
        ensures walked { IfOk result (λ found. found ≡ None → self.new ≡ walked_of script.now (before.now ++ entry.now ∷ [])) }
        ensures due { IfOk result (λ found. found ≡ None → IsDue script.now before.now entry.now) }
    {
        let number = before.len() as u32 + 1;
        let Mark {
            caller,
            line,
            part,
            ..
        } = entry.mark;
        let Some(call) = script.call(alloc, caller, line, part)? else {
            return Ok(Some(Verdict::Extra { entry: number }));
        };
        if self.progress.has_passed(caller, line, part) {
            return Ok(Some(Verdict::Extra { entry: number }));
        }
        if !self.progress.may_come(script, caller, line, part) {
            return Ok(Some(Verdict::Order { entry: number }));
        }
        self.answer(alloc, script, before, entry, &call)
    }

    // What is wrong with the entry's answer, which should be that of the device to its call; where nothing is, the entry
    // is gone through.
    fn answer(
        &mut self,
        alloc: Global,
        script: &Script,
        before: &[Entry],
        entry: &Entry,
        call: &Call,
    ) -> Result<Option<Verdict>, AllocError>
        requires valid { IsValid script.now }
        requires few { length before.now + 1 < 2 ^ 32 }
        requires ordered { IsOrderedSoFar script.now before.now }
        requires known { call_at script.now entry.now ≡ Some call.now }
        requires walked { self.old ≡ walked_of script.now before.now }
        ensures found { IfOk result (λ found. found ≡ wrong_answer (length before.now + 1) entry.now (reply (device_after script.now before.now) call.now)) }
        ensures walked { IfOk result (λ found. found ≡ None → self.new ≡ walked_of script.now (before.now ++ entry.now ∷ [])) }
    {
        let number = before.len() as u32 + 1;
        let Mark {
            caller,
            line,
            part,
            ..
        } = entry.mark;
        let want = self.plain.step(alloc, caller, line, part, call)?;
        if !same_answer(entry, &want) {
            let got = copy_of(alloc, entry)?;
            return Ok(Some(Verdict::Wrong {
                entry: number,
                want,
                got,
            }));
        }
        self.enter(script, number, entry, call)?;
        Ok(None)
    }

    // Takes the entry of this number into account, which answers the call as the device does.
    fn enter(
        &mut self,
        script: &Script,
        number: u32,
        entry: &Entry,
        call: &Call,
    ) -> Result<(), AllocError>
        requires entry { MayEnter script.now self.old.seen entry.now }
        requires access { IsTrue (is_fault entry.now.mark.kind) → IsAccess call.now }
        requires reason { IsTrue (is_fault entry.now.mark.kind) → entry.now.mark.code ≤ 2 }
        ensures { OnOk result (self.new ≡ with_answer script.now number entry.now call.now self.old) }
    {
        if let Some(record) = record_of(number, entry.mark, call) {
            self.records.push(record)?;
        }
        self.progress.enter(script, entry);
        Ok(())
    }

    /// The first due call of the first caller that has one left.
    pub fn first_missing(&self, script: &Script) -> Option<Verdict>
        requires { FitsScript script.now self.now.seen }
        ensures { result ≡ first_missing_in script.now self.now.seen (callers_of script.now) }
    {
        self.progress.first_missing(script)
    }
}

// Whether two entries have one answer.
fn same_answer(one: &Entry, other: &Entry) -> bool
    ensures { result ≡ same_answer (answer_of one.now) (answer_of other.now) }
{
    one.mark.kind == other.mark.kind
        && one.mark.code == other.mark.code
        && one.bytes.as_slice() == other.bytes.as_slice()
}

// A copy of an entry. An error means out of memory.
fn copy_of(alloc: Global, entry: &Entry) -> Result<Entry, AllocError>
    ensures { IfOk result (λ copy. copy ≡ entry.now) }
{
    let bytes = Bytes::of(alloc, entry.bytes.as_slice())?;
    Ok(Entry {
        mark: entry.mark,
        bytes,
    })
}

// The record of the entry of this number, which answers the call, if it is a fault.
fn record_of(number: u32, mark: Mark, call: &Call) -> Option<Shown>
    requires access { IsTrue (is_fault mark.kind) → IsAccess call.now }
    requires reason { IsTrue (is_fault mark.kind) → mark.code ≤ 2 }
    ensures { option_to_list result ≡ records_at number mark.kind mark.code call.now }
{
    if !mark.kind.is_fault() {
        return None;
    }
    let (write, endpoint, address) = match call {
        Call::Read { endpoint, part } => (false, *endpoint, part.iova),
        Call::Write { endpoint, part, .. } => (true, *endpoint, part.iova),
        Call::Ask(_) | Call::Raw { .. } | Call::Bypass(_) => return None,
    };
    let record = FaultRecord {
        reason: mark.code,
        write,
        endpoint,
        address,
    };
    Some(Shown {
        entry: number,
        bytes: record.encode(),
    })
}
