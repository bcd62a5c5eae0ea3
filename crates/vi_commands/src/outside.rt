//! What the program reads from and writes to: a source and a sink of bytes, which count their
//! faults.
ghost use Rattle.std.specs.Prelude.{ℕ, ◌<◌, List, length, codes, Some, IfOk};
ghost use Rattle.std.specs.declared.option.Option.{Option};
ghost use Rattle.std.specs.Io.{ReadsAtMost, WritesAtMost};
ghost use Rattle.std.specs.Io.KnownBytes.{ReadConsumes, WriteAppends};
ghost use Rattle.vi_commands.specs.Causes.{HasCause};

use std::error::Error;
use std::fmt;

/// A read or a write that failed. The object's count of faults rose.
#[derive(Clone, Copy, Debug, PartialEq, Eq)]
pub struct Failed;

impl fmt::Display for Failed {
    ghost output = { λ _. Some (codes "a read or a write failed") };

    fn fmt<W: fmt::Write>(&self, f: &mut fmt::Formatter<W>) -> fmt::Result {
        f.write_str("a read or a write failed")
    }
}

impl Error for Failed {}

/// Where bytes come from.
pub trait Source {
    /// The bytes that are left, where the source tells them. One that tells goes on to tell.
    ghost left: { Self → Option (List ℕ) };

    /// How often the source has failed. The count never falls, and may stand still at 2^64 - 1.
    ghost faults: { Self → ℕ };

    /// Takes the next bytes into the front of `buf`, and says how many they are. It is 0 for a
    /// `buf` that isn't empty only where nothing is left. `Failed` comes only where the count of
    /// faults rose, and then nothing was taken.
    fn read(&mut self, buf: &mut [u8]) -> Result<usize, Failed>
        ensures bound { ReadsAtMost result buf.new }
        ensures bytes { ReadConsumes (left self.old) (left self.new) result buf.new }
        ensures cause { HasCause (faults self.old) (faults self.new) result };
}

/// Where bytes go.
pub trait Sink {
    /// The bytes that were taken, where the sink tells them. One that tells goes on to tell.
    ghost taken: { Self → Option (List ℕ) };

    /// How often the sink has failed. The count never falls, and may stand still at 2^64 - 1.
    ghost faults: { Self → ℕ };

    /// Takes the first bytes of `piece`, and says how many they are: at least one, where it has
    /// one. `Failed` comes only where the count of faults rose, and then nothing was taken.
    fn write(&mut self, piece: &[u8]) -> Result<usize, Failed>
        ensures bound { WritesAtMost result piece.now }
        ensures some { IfOk result (λ n. 0 < length piece.now → 0 < n) }
        ensures bytes { WriteAppends (taken self.old) (taken self.new) result piece.now }
        ensures cause { HasCause (faults self.old) (faults self.new) result };
}
