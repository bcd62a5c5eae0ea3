//! The lines of a report, each read up to and with its LF, where it stands at the front of the bytes.
ghost use Rattle.vi_report.specs.Lines.{call_at, entry_at, faults_at, head_at, record_at};
ghost use Rattle.vi_report.specs.Parsing.{Finds, Reads};

use crate::fault::Refusal;
use crate::reading::answer::read_answer;
use crate::reading::field::{after, read_count, read_number, read_record_bytes};
use crate::reading::name::{LIMIT, Name, read_name};
use std::alloc::Global;
use vi_history::{Entry, Mark, Shown};

/// There are fewer delivered records than this.
const SHOWN: u64 = LIMIT - 1;

/// All faults are fewer than this.
const FAULTS: u64 = 2 * LIMIT;

/// The counts of a report's faults.
#[derive(Clone, Copy, Debug, PartialEq, Eq)]
pub struct FaultCounts {
    /// How many records were delivered.
    pub shown: u32,
    /// How many were dropped.
    pub dropped: u32,
}

/// The number of entries, from the first line.
#[tactic(auto, unfolding(crate::specs::Lines::head_at))]
pub fn read_head(bytes: &[u8]) -> Option<(u32, &[u8])>
    ensures { Finds (λ x. (x.0, x.1.now)) result (head_at bytes.now) }
{
    let rest = after(b"viommu history ", bytes)?;
    let (count, rest) = read_number(LIMIT, rest)?;
    let rest = after(b"\n", rest)?;
    Some((count as u32, rest))
}

/// The entry of this number.
#[tactic(auto, unfolding(crate::specs::Lines::entry_at))]
pub fn read_entry(alloc: Global, number: u32, bytes: &[u8]) -> Result<(Entry, &[u8]), Refusal>
    ensures { Reads (λ x. (x.0, x.1.now)) result (entry_at number bytes.now) }
{
    let (name, rest) = read_call(number, bytes).ok_or(Refusal::Unfit)?;
    let (answer, rest) = read_answer(alloc, rest)?;
    let rest = after(b"\n", rest).ok_or(Refusal::Unfit)?;
    let mark = Mark {
        caller: name.caller,
        line: name.line,
        part: name.part,
        kind: answer.kind,
        code: answer.code,
    };
    let bytes = answer.bytes;
    Ok((Entry { mark, bytes }, rest))
}

/// The name of the entry of this number, behind the number.
#[tactic(auto, unfolding(crate::specs::Lines::call_at))]
fn read_call(number: u32, bytes: &[u8]) -> Option<(Name, &[u8])>
    ensures { Finds (λ x. (x.0, x.1.now)) result (call_at number bytes.now) }
{
    let (read, rest) = read_number(LIMIT, bytes)?;
    let rest = after(b" ", rest)?;
    let (name, rest) = read_name(rest)?;
    let rest = after(b" ", rest)?;
    if read == u64::from(number) {
        Some((name, rest))
    } else {
        None
    }
}

/// The counts of faults: all, those with a delivered record, and the others.
#[tactic(auto, unfolding(crate::specs::Lines::faults_at))]
pub fn read_faults(bytes: &[u8]) -> Option<(FaultCounts, &[u8])>
    ensures { Finds (λ x. (x.0, x.1.now)) result (faults_at bytes.now) }
{
    let rest = after(b"faults ", bytes)?;
    let (all, rest) = read_number(FAULTS, rest)?;
    let rest = after(b" shown ", rest)?;
    let (shown, rest) = read_number(SHOWN, rest)?;
    let rest = after(b" dropped ", rest)?;
    let (dropped, rest) = read_number(LIMIT, rest)?;
    let rest = after(b"\n", rest)?;
    if all != shown + dropped {
        return None;
    }
    let shown = shown as u32;
    let dropped = dropped as u32;
    Some((FaultCounts { shown, dropped }, rest))
}

/// A delivered record, in a report of so many entries.
#[tactic(auto, unfolding(crate::specs::Lines::record_at))]
pub fn read_record(count: u32, bytes: &[u8]) -> Option<(Shown, &[u8])>
    ensures { Finds (λ x. (x.0, x.1.now)) result (record_at count bytes.now) }
{
    let (entry, rest) = read_count(u64::from(count) + 1, bytes)?;
    let rest = after(b" ", rest)?;
    let (bytes, rest) = read_record_bytes(rest)?;
    let rest = after(b"\n", rest)?;
    let entry = entry as u32;
    Some((Shown { entry, bytes }, rest))
}
