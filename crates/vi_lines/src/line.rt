//! Lines of a script, and turns.
ghost use Rattle.std.specs.Prelude.{◌≡◌, Some, IfOk};
ghost use Rattle.vi_lines.specs.Calls.{TransfersWell, call_in};

use crate::Job;
use std::alloc::{AllocError, Global};
use vi_bytes::Items;
use vi_history::{Call, Caller};

/// A line that another one awaits: the `line`-th line of the caller, from 1.
#[derive(Clone, Copy, Debug, PartialEq, Eq)]
pub struct Await {
    pub caller: Caller,
    pub line: u32,
}

/// A line of a driver or of a back end.
#[derive(Debug, Drop)]
pub struct Line {
    pub caller: Caller,
    pub job: Job,
    /// Whether the driver goes on without waiting for this request: an `add` line.
    pub add: bool,
    /// The lines that must be finished before this one begins.
    pub awaits: Items<Await>,
}

impl Line {
    /// The call of a part of this line: the one part 0 for a driver, a part of the transfer from 1 on for a
    /// back end. An error means out of memory.
    pub fn call(&self, alloc: Global, part: u32) -> Result<Option<Call>, AllocError>
        requires { TransfersWell self.now.job }
        ensures { IfOk result (λ call. call ≡ call_in self.now.caller part (Some self.now)) }
    {
        match self.caller {
            Caller::Driver(_) if part == 0 => self.job.ask(alloc),
            Caller::Back(endpoint) if part >= 1 && part <= self.job.parts() => {
                self.job.access(alloc, endpoint, part)
            }
            _ => Ok(None),
        }
    }
}

/// Whose turn it is: a driver by its number, a back end by its endpoint's id, the device, or the reader
/// of fault records.
#[derive(Clone, Copy, Debug, PartialEq, Eq)]
pub enum Who {
    Driver(u8),
    Back(u32),
    Device,
    Events,
}
