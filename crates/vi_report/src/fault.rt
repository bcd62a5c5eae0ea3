//! Why a text is no report.
ghost use Rattle.std.specs.Prelude.{◌≡◌};
ghost use Rattle.vi_report.specs.Parsing.{fault_at};

use hex::FromHexError;
use std::alloc::{AllocError, AllocFailed};
use std::error::Error;
use std::fmt;

/// Why no outcome was read from a text.
#[derive(Clone, Copy, Debug, PartialEq, Eq)]
pub enum ReportFault {
    /// The text's first line that doesn't fit, counted from 1.
    Bad { line: u32 },
    OutOfMemory,
}

impl fmt::Display for ReportFault {
    ghost use Rattle.std.specs.Prelude.{Some};
    ghost use Rattle.vi_report.specs.Parsing.{fault_text};

    ghost output = { λ e. Some (fault_text e) };

    fn fmt<W: fmt::Write>(&self, f: &mut fmt::Formatter<W>) -> fmt::Result {
        match self {
            ReportFault::Bad { line } => write!(f, "bad report line {line}"),
            ReportFault::OutOfMemory => write!(f, "out of memory"),
        }
    }
}

impl Error for ReportFault {}

impl From<AllocError> for ReportFault {
    ghost use Rattle.std.specs.Prelude.{◌≡◌};
    ghost use Rattle.vi_report.specs.declared.fault.ReportFault.TheVariants.{OutOfMemory};

    ghost from_gives = { λ _ e. e ≡ OutOfMemory };

    fn from(_: AllocError) -> ReportFault {
        ReportFault::OutOfMemory
    }
}

impl<T: Drop> From<AllocFailed<T>> for ReportFault {
    ghost use Rattle.std.specs.Prelude.{◌≡◌};
    ghost use Rattle.vi_report.specs.declared.fault.ReportFault.TheVariants.{OutOfMemory};

    ghost from_gives = { λ _ e. e ≡ OutOfMemory };

    fn from(_: AllocFailed<T>) -> ReportFault {
        ReportFault::OutOfMemory
    }
}

/// Why a line, or a part of one, wasn't read.
#[derive(Clone, Copy, Debug, PartialEq, Eq)]
pub enum Refusal {
    /// Something else stands there.
    Unfit,
    OutOfMemory,
}

impl Refusal {
    /// The fault of a text whose line of this number is refused so.
    pub fn at(self, line: u32) -> ReportFault
        ensures { result ≡ fault_at line self }
    {
        match self {
            Refusal::Unfit => ReportFault::Bad { line },
            Refusal::OutOfMemory => ReportFault::OutOfMemory,
        }
    }
}

impl From<FromHexError> for Refusal {
    ghost use Rattle.std.specs.Prelude.{◌≡◌};
    ghost use Rattle.vi_report.specs.Parsing.{refusal_of};

    ghost from_gives = { λ fault refusal. refusal ≡ refusal_of fault };

    fn from(fault: FromHexError) -> Refusal {
        match fault {
            FromHexError::InvalidHexCharacter { .. } => Refusal::Unfit,
            FromHexError::OddLength | FromHexError::InvalidStringLength => Refusal::Unfit,
            FromHexError::OutOfMemory => Refusal::OutOfMemory,
        }
    }
}
