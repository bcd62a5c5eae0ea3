//! Reports are read from texts.
ghost use Rattle.std.specs.Prelude.{◌≡◌, ◌+◌, ◌-◌, ◌^◌, ◌<◌, ◌≤◌, length, IfOk, MatchResult};
ghost use Rattle.vi_history.specs.Outcomes.{IsWellMade};
ghost use Rattle.vi_report.specs.Laws.{IsReadExactly};
ghost use Rattle.vi_report.specs.Parsing.{Faults, ReadsLines};
ghost use Rattle.vi_report.specs.Reading.{entries_at, records_at, read_report};
ghost use Rattle.vi_report.specs.Texts.{text};
ghost use Rattle.vi_report.specs.Types.{IsTyped};

mod answer;
mod field;
mod line;
mod name;

use crate::fault::{Refusal, ReportFault};
use field::after;
use line::{read_entry, read_faults, read_head, read_record};
use std::alloc::Global;
use vi_bytes::Items;
use vi_history::{Entry, Outcome, Shown};

/// The outcome whose report these bytes are, or the first line that doesn't fit. The bytes are fewer
/// than 2^32 - 1.
///
/// The report is read as `text` writes it, with no other spelling of a number or of bytes. Where
/// lines are missing, the line behind the last one doesn't fit; a last line without LF doesn't fit
/// itself; of bytes behind `end` the line that they begin doesn't. Neither the count of faults is
/// held against the entries, nor the records.
pub fn parse(alloc: Global, bytes: &[u8]) -> Result<Outcome, ReportFault>
    requires { length bytes.now < 2 ^ 32 - 1 }
    ensures read { MatchResult result (λ o. read_report bytes.now ≡ Ok o) (λ e. Faults e (read_report bytes.now)) }
    ensures made { IfOk result IsWellMade }
    ensures typed { IfOk result IsTyped }
    ensures text { IfOk result (λ o. text o ≡ bytes.now) }
{
    outcome(alloc, bytes)
}

/// The outcome whose report these bytes are.
#[tactic(auto, unfolding(crate::specs::Reading::read_report))]
fn outcome(alloc: Global, bytes: &[u8]) -> Result<Outcome, ReportFault>
    requires { length bytes.now < 2 ^ 32 - 1 }
    ensures { ReadsLines (λ o. o) result (read_report bytes.now) }
{
    let Some((count, rest)) = read_head(bytes) else {
        return Err(ReportFault::Bad { line: 1 });
    };
    let (entries, rest) = read_entries(alloc, count, rest)?;
    let Some((faults, rest)) = read_faults(rest) else {
        return Err(ReportFault::Bad { line: count + 2 });
    };
    let (shown, rest) = read_records(alloc, faults.shown, count, count + 3, rest)?;
    let end = count + 3 + faults.shown;
    let Some(rest) = after(b"end\n", rest) else {
        return Err(ReportFault::Bad { line: end });
    };
    if !rest.is_empty() {
        return Err(ReportFault::Bad { line: end + 1 });
    }
    Ok(Outcome {
        entries: Items::from_vec(entries),
        shown: Items::from_vec(shown),
        dropped: faults.dropped,
    })
}

/// The entries of this many lines, which are numbered from 1 and stand from line 2 on.
fn read_entries(alloc: Global, count: u32, bytes: &[u8]) -> Result<(Vec<Entry>, &[u8]), ReportFault>
    requires { length bytes.now + 2 < 2 ^ 32 }
    ensures found { ReadsLines (λ x. (x.0.items, x.1.now)) result (entries_at count 1 bytes.now) }
    ensures shorter { IfOk result (λ x. count + length x.1.now ≤ length bytes.now) }
{
    let mut entries = Vec::new(alloc);
    let mut rest = bytes;
    for i in 0..count {
        match read_entry(alloc, i + 1, rest) {
            Ok((entry, more)) => {
                entries.push(entry)?;
                rest = more;
            }
            Err(refusal) => return Err(refusal.at(i + 2)),
        }
    }
    Ok((entries, rest))
}

/// The delivered records of so many lines from this one on, in a report of `count` entries.
fn read_records(
    alloc: Global,
    shown: u32,
    count: u32,
    line: u32,
    bytes: &[u8],
) -> Result<(Vec<Shown>, &[u8]), ReportFault>
    requires { line + length bytes.now < 2 ^ 32 }
    ensures found { ReadsLines (λ x. (x.0.items, x.1.now)) result (records_at shown count line bytes.now) }
    ensures shorter { IfOk result (λ x. shown + length x.1.now ≤ length bytes.now) }
{
    let mut records = Vec::new(alloc);
    let mut rest = bytes;
    for i in 0..shown {
        match read_record(count, rest) {
            Some((record, more)) => {
                records.push(record)?;
                rest = more;
            }
            None => return Err(ReportFault::Bad { line: line + i }),
        }
    }
    Ok((records, rest))
}

/// `parse` reads the reports of outcomes, and no other texts: reading gives an outcome exactly where
/// it is well made, within its types' ranges, and has this report.
pub fn parse_reads_reports()
    ensures { IsReadExactly }
{}
