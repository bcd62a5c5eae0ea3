//! What a trace records.
ghost use Rattle.std.specs.Prelude.{◌≡◌};

use std::marker::Model;
use vi_bytes::{Bytes, Items, Need};

/// What a line of a trace records.
#[derive(Debug, Drop)]
pub enum Event {
    /// These bytes went to the back end.
    Down(Bytes),
    /// These bytes came from it.
    Up(Bytes),
    /// It read from, or wrote to, this address by what it keeps.
    Access { address: u64, need: Need },
}

/// A line that says something, with its number in the text, from 1.
#[derive(Debug, Drop)]
pub struct TraceLine {
    pub number: u32,
    pub event: Event,
}

/// A trace, which contracts see as the list of its lines.
#[derive(Debug, Drop)]
pub struct Trace {
    lines: Items<TraceLine>,
}

impl Model for Trace {
    ghost use Rattle.std.specs.Prelude.{List};
    ghost use Rattle.vi_trace.specs.declared.trace.TraceLine.{TraceLine};

    ghost Value = { List TraceLine };

    ghost view = { λ t. t.lines };
}

impl Trace {
    /// A trace of these lines, with no memory taken.
    pub fn from_lines(lines: Items<TraceLine>) -> Trace
        ensures { result ≡ lines }
    {
        Trace { lines }
    }

    /// The lines as a slice.
    pub fn lines(&self) -> &[TraceLine]
        ensures { result.now ≡ self.now }
    {
        self.lines.as_slice()
    }
}
