//! All the input of a command, read up to a limit.
ghost use Rattle.std.specs.Prelude.{◌+◌, ◌≤◌, length, IfOk, IsErrOf};
ghost use Rattle.vi_commands.specs.Causes.{Rose};
ghost use Rattle.vi_commands.specs.Input.{ReadsAll, IsPast, TakesAtMost};

use crate::outside::Source;
use std::alloc::Global;
use std::error::Error;
use std::fmt;
use vi_bytes::Bytes;

/// How many bytes are read in one call.
const PIECE: usize = 4096;

/// Why the input wasn't read to its end within the limit.
#[derive(Clone, Copy, Debug, PartialEq, Eq)]
pub enum InputFault {
    TooLong,
    ReadFault,
    OutOfMemory,
}

impl fmt::Display for InputFault {
    ghost use Rattle.std.specs.Prelude.{Some};
    ghost use Rattle.vi_commands.specs.Input.{fault_text};

    ghost output = { λ fault. Some (fault_text fault) };

    fn fmt<W: fmt::Write>(&self, f: &mut fmt::Formatter<W>) -> fmt::Result {
        f.write_str(match self {
            InputFault::TooLong => "the input is longer than the limit",
            InputFault::ReadFault => "reading the input failed",
            InputFault::OutOfMemory => "out of memory",
        })
    }
}

impl Error for InputFault {}

/// Reads the source to its end, in pieces of at most 4096 bytes, until a read gives 0 bytes or
/// more than `limit` bytes were read. Where memory is out, the bytes that were read are lost.
pub fn read_input<S: Source>(alloc: Global, source: &mut S, limit: u32) -> Result<Bytes, InputFault>
    ensures all { IfOk result (ReadsAll (S.left source.old) (S.left source.new)) }
    ensures within { IfOk result (λ input. length input ≤ limit) }
    ensures too_long { IsErrOf result InputFault.TooLong → IsPast limit (S.left source.old) }
    ensures read_fault { IsErrOf result InputFault.ReadFault
        → Rose (S.faults source.old) (S.faults source.new) }
    ensures reads_at_most { TakesAtMost (limit + 4096) (S.left source.old) (S.left source.new) }
    ensures count { S.faults source.old ≤ S.faults source.new }
{
    let mut input = Vec::new(alloc);
    let mut piece = [0u8; PIECE];
    // Each turn but the last takes a byte at least.
    for _turn in 0..u64::from(limit) + 1 {
        let Ok(count) = source.read(&mut piece) else {
            return Err(InputFault::ReadFault);
        };
        if count == 0 {
            return Ok(Bytes::from_vec(input));
        }
        if input.extend_from_slice(&piece[..count]).is_err() {
            return Err(InputFault::OutOfMemory);
        }
        if input.len() > limit as usize {
            return Err(InputFault::TooLong);
        }
    }
    Err(InputFault::TooLong)
}
