//! How the program ends: a status, its number, and the text that is written with it.
ghost use Rattle.std.specs.Prelude.{◌≡◌, IfOk};
ghost use Rattle.vi_commands.specs.Status.{bad_script_text, bad_report_text, bad_trace_text};

use std::alloc::{AllocError, Global};
use vi_bytes::Bytes;
use vi_script::BadKind;

/// How a command ends.
#[derive(Clone, Copy, Debug, PartialEq, Eq)]
pub enum Status {
    /// The work is done, and its whole text was written.
    Ok,
    /// The words of the command line are none of the forms.
    Usage,
    /// The script is refused at this line, counted from 1.
    BadScript { line: u32, kind: BadKind },
    /// The input has more bytes than the limit.
    TooLong,
    /// Reading the input failed.
    ReadFault,
    /// Writing the text failed.
    WriteFault,
    /// The report isn't one of the script, or a rule is broken in the trace: the text says what is wrong first.
    Wrong,
    OutOfMemory,
    /// The report is refused at this line of its own, counted from 1.
    BadReport { line: u32 },
    /// The trace is refused at this line, counted from 1.
    BadTrace { line: u32 },
}

/// What is written where the words are no form.
pub const USAGE: &[u8] =
    b"usage: viommu run W | sim S T | one | check | make N | load N W | dirty K W | trace\n";

/// What is written where the input is over its limit.
pub const TOO_LONG: &[u8] = b"input too long\n";

impl Status {
    ghost use Rattle.vi_commands.specs.Status.{status_number, status_text};

    /// The number with which the process ends.
    pub fn number(&self) -> u8
        ensures { result ≡ status_number self.now }
    {
        match self {
            Status::Ok => 0,
            Status::Usage => 2,
            Status::BadScript { .. } => 3,
            Status::TooLong => 4,
            Status::ReadFault => 5,
            Status::WriteFault => 6,
            Status::Wrong => 7,
            Status::OutOfMemory => 8,
            Status::BadReport { .. } => 10,
            Status::BadTrace { .. } => 14,
        }
    }

    /// The text that is written with the status: one line, or nothing. With `Ok` and `Wrong` a command
    /// writes its own text in its place. An error means out of memory.
    pub fn text(&self, alloc: Global) -> Result<Bytes, AllocError>
        ensures { IfOk result (λ text. text ≡ status_text self.now) }
    {
        match self {
            Status::Usage => Bytes::of(alloc, USAGE),
            Status::BadScript { line, kind } => bad_script(alloc, *line, *kind),
            Status::TooLong => Bytes::of(alloc, TOO_LONG),
            Status::BadReport { line } => bad_report(alloc, *line),
            Status::BadTrace { line } => bad_trace(alloc, *line),
            _ => Ok(Bytes::new(alloc)),
        }
    }
}

/// The line that says where a script is refused, and why.
fn bad_script(alloc: Global, line: u32, kind: BadKind) -> Result<Bytes, AllocError>
    ensures { IfOk result (λ text. text ≡ bad_script_text line kind) }
{
    let text = format!(in alloc; "bad script line {line}: {kind}\n")?;
    Ok(Bytes::from_vec(text.into_bytes()))
}

/// The line that says where a report is refused.
fn bad_report(alloc: Global, line: u32) -> Result<Bytes, AllocError>
    ensures { IfOk result (λ text. text ≡ bad_report_text line) }
{
    let text = format!(in alloc; "bad report line {line}\n")?;
    Ok(Bytes::from_vec(text.into_bytes()))
}

/// The line that says where a trace is refused.
fn bad_trace(alloc: Global, line: u32) -> Result<Bytes, AllocError>
    ensures { IfOk result (λ text. text ≡ bad_trace_text line) }
{
    let text = format!(in alloc; "bad trace line {line}\n")?;
    Ok(Bytes::from_vec(text.into_bytes()))
}
