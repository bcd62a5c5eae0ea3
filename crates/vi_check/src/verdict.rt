//! What a report is found to be.
ghost use Rattle.std.specs.Prelude.{◌≡◌, IfOk, OnOk};
ghost use Rattle.vi_report.specs.Texts.{Adds};
ghost use Rattle.vi_check.specs.Texts.{verdict_text, words, wrong_words, missing_words};

use std::alloc::{AllocError, Global};
use vi_bytes::Bytes;
use vi_history::{Caller, Entry};
use vi_report::push_answer;

/// The verdict on a report. Entries and record lines are counted from 1.
#[derive(Debug, Drop)]
pub enum Verdict {
    /// Every entry is due and right in its place, no call is left, and the fault records are those of the entries.
    Legal,
    /// The entry `got` of this number answers otherwise than the one-thread device, which answers `want`.
    Wrong {
        entry: u32,
        want: Entry,
        got: Entry,
    },
    /// The entry of this number isn't due in its place: others come before it.
    Order {
        entry: u32,
    },
    /// The entry of this number answers no call of the script that is left.
    Extra {
        entry: u32,
    },
    /// The caller's call of this line and part has no entry.
    Missing {
        caller: Caller,
        line: u32,
        part: u32,
    },
    /// The record line of this number is wrong; behind the last, records are missing or the counts are wrong.
    Faults {
        at: u32,
    },
}

impl Verdict {
    /// The verdict as a line of text with its LF, its answers and its call spelled as in reports: `legal`,
    /// `wrong N want ANSWER got ANSWER`, `order N`, `extra N`, `missing NAME` or `faults N`. An error means out of memory.
    pub fn text(&self, alloc: Global) -> Result<Bytes, AllocError>
        ensures { IfOk result (λ text. text ≡ verdict_text self.now) }
    {
        let mut out = String::new(alloc);
        self.push(alloc, &mut out)?;
        out.push_str("\n")?;
        Ok(Bytes::from_vec(out.into_bytes()))
    }

    // Adds the line without its LF.
    fn push(&self, alloc: Global, out: &mut String) -> Result<(), AllocError>
        ensures { OnOk result (Adds out.old out.new (words self.now)) }
    {
        match self {
            Verdict::Legal => out.push_str("legal"),
            Verdict::Wrong { entry, want, got } => push_wrong(alloc, out, *entry, want, got),
            Verdict::Order { entry } => write!(out, "order {entry}"),
            Verdict::Extra { entry } => write!(out, "extra {entry}"),
            Verdict::Missing { caller, line, part } => push_missing(out, *caller, *line, *part),
            Verdict::Faults { at } => write!(out, "faults {at}"),
        }
    }
}

// Adds that the entry of this number has another answer than it should.
fn push_wrong(
    alloc: Global,
    out: &mut String,
    entry: u32,
    want: &Entry,
    got: &Entry,
) -> Result<(), AllocError>
    ensures { OnOk result (Adds out.old out.new (wrong_words entry want.now got.now)) }
{
    write!(out, "wrong {entry} want ")?;
    push_answer(alloc, out, want)?;
    out.push_str(" got ")?;
    push_answer(alloc, out, got)
}

// Adds that the call of this caller, line and part is missing.
fn push_missing(out: &mut String, caller: Caller, line: u32, part: u32) -> Result<(), AllocError>
    ensures { OnOk result (Adds out.old out.new (missing_words caller line part)) }
{
    match caller {
        Caller::Driver(number) => write!(out, "missing d{number}.{line}"),
        Caller::Back(endpoint) => write!(out, "missing b{endpoint}.{line}.{part}"),
    }
}
