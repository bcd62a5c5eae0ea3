//! Entries of a history: who was answered what.
ghost use Rattle.std.specs.Prelude.{◌≡◌};
ghost use Rattle.vi_history.specs.Kinds.{is_fault};

use crate::Caller;
use vi_bytes::Bytes;

/// The kind of an answer.
#[derive(Clone, Copy, Debug, PartialEq, Eq)]
pub enum Kind {
    /// A request other than PROBE was answered with a status.
    Status,
    /// A PROBE was answered with a status and 512 property bytes.
    Probed,
    /// Nothing was written into the request's writable part: its used length is 0.
    Nothing,
    /// The bypass field was set.
    Set,
    /// The bytes were read.
    Read,
    /// The bytes were written.
    Wrote,
    /// The access faulted.
    Fault,
}

impl Kind {
    /// Whether the access faulted.
    pub fn is_fault(self) -> bool
        ensures { result ≡ is_fault self }
    {
        match self {
            Kind::Fault => true,
            Kind::Status | Kind::Probed | Kind::Nothing | Kind::Set | Kind::Read | Kind::Wrote =>
                false,
        }
    }
}

/// Whose call was answered, and how, but for the bytes.
#[derive(Clone, Copy, Debug, PartialEq, Eq)]
pub struct Mark {
    pub caller: Caller,
    /// The place of the call's line among the caller's own lines, from 1.
    pub line: u32,
    /// The part of a transfer, from 1; 0 for a driver.
    pub part: u32,
    pub kind: Kind,
    /// The status of `Status` and `Probed`, the reason of `Fault`, and 0 otherwise.
    pub code: u8,
}

/// An entry of a history.
#[derive(Debug, Drop)]
pub struct Entry {
    pub mark: Mark,
    /// The 512 property bytes of `Probed`, the bytes of `Read`, and none otherwise.
    pub bytes: Bytes,
}
