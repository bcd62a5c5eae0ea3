//! Why a text is no script.
ghost use Rattle.std.specs.Prelude.{◌≡◌};
ghost use Rattle.vi_script.specs.Faults.{kind_text};
ghost use Rattle.vi_script.specs.Parsing.{fault_at};

use std::alloc::{AllocError, AllocFailed};
use std::error::Error;
use std::fmt;

/// What is wrong with the first bad line of a text.
#[derive(Clone, Copy, Debug, PartialEq, Eq)]
pub enum BadKind {
    /// A byte isn't one of 32 to 126.
    Byte,
    /// The words have the form of no statement.
    Word,
    /// A setup line stands below an actor line.
    Late,
    /// A word in a number's place isn't one, or is too large.
    Number,
    /// A word in the place of bytes isn't an even number of hexadecimal digits.
    Hex,
    /// A setting or an endpoint is given twice.
    Again,
    /// An endpoint isn't declared above.
    Endpoint,
    /// A range is empty, misaligned or meets another one, or a transfer passes the last address.
    Span,
    /// A number, a length or a count is beyond its limit.
    Limit,
    /// An awaited line isn't above, or is of the same caller.
    After,
    /// No report follows the script.
    Report,
}

impl BadKind {
    /// The word for this kind.
    pub fn text(self) -> &'static str
        ensures { result.now ≡ kind_text self }
    {
        match self {
            BadKind::Byte => "byte",
            BadKind::Word => "word",
            BadKind::Late => "late",
            BadKind::Number => "number",
            BadKind::Hex => "hex",
            BadKind::Again => "again",
            BadKind::Endpoint => "endpoint",
            BadKind::Span => "span",
            BadKind::Limit => "limit",
            BadKind::After => "after",
            BadKind::Report => "report",
        }
    }
}

impl fmt::Display for BadKind {
    ghost use Rattle.std.specs.Prelude.{Some};
    ghost use Rattle.vi_script.specs.Faults.{kind_text};

    ghost output = { λ kind. Some (kind_text kind) };

    fn fmt<W: fmt::Write>(&self, f: &mut fmt::Formatter<W>) -> fmt::Result {
        let text = self.text();
        write!(f, "{text}")
    }
}

/// Why no script was read from a text.
#[derive(Clone, Copy, Debug, PartialEq, Eq)]
pub enum ScriptFault {
    /// The text's first bad line, counted from 1, and what is wrong with it.
    Bad { line: u32, kind: BadKind },
    OutOfMemory,
}

impl fmt::Display for ScriptFault {
    ghost use Rattle.std.specs.Prelude.{Some};
    ghost use Rattle.vi_script.specs.Faults.{fault_text};

    ghost output = { λ e. Some (fault_text e) };

    fn fmt<W: fmt::Write>(&self, f: &mut fmt::Formatter<W>) -> fmt::Result {
        match self {
            ScriptFault::Bad { line, kind } => write!(f, "bad script line {line}: {kind}"),
            ScriptFault::OutOfMemory => write!(f, "out of memory"),
        }
    }
}

impl Error for ScriptFault {}

impl From<AllocError> for ScriptFault {
    ghost use Rattle.std.specs.Prelude.{◌≡◌};
    ghost use Rattle.vi_script.specs.declared.fault.ScriptFault.TheVariants.{OutOfMemory};

    ghost from_gives = { λ _ e. e ≡ OutOfMemory };

    fn from(_: AllocError) -> ScriptFault {
        ScriptFault::OutOfMemory
    }
}

/// Why a line, or a part of one, wasn't read.
#[derive(Clone, Copy)]
pub enum Refusal {
    Bad(BadKind),
    OutOfMemory,
}

impl Refusal {
    /// The fault of a text whose line of this number is refused so.
    pub fn at(self, line: u32) -> ScriptFault
        ensures { result ≡ fault_at line self }
    {
        match self {
            Refusal::Bad(kind) => ScriptFault::Bad { line, kind },
            Refusal::OutOfMemory => ScriptFault::OutOfMemory,
        }
    }
}

impl From<AllocError> for Refusal {
    ghost use Rattle.std.specs.Prelude.{◌≡◌};
    ghost use Rattle.vi_script.specs.declared.fault.Refusal.TheVariants.{OutOfMemory};

    ghost from_gives = { λ _ e. e ≡ OutOfMemory };

    fn from(_: AllocError) -> Refusal {
        Refusal::OutOfMemory
    }
}

impl<T: Drop> From<AllocFailed<T>> for Refusal {
    ghost use Rattle.std.specs.Prelude.{◌≡◌};
    ghost use Rattle.vi_script.specs.declared.fault.Refusal.TheVariants.{OutOfMemory};

    ghost from_gives = { λ _ e. e ≡ OutOfMemory };

    fn from(_: AllocFailed<T>) -> Refusal {
        Refusal::OutOfMemory
    }
}
