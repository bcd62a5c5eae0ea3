//! A whole text, written to a sink.
ghost use Rattle.std.specs.Prelude.{OnOk, OnErr};
ghost use Rattle.std.specs.Io.KnownBytes.{Appends};
ghost use Rattle.vi_commands.specs.Causes.{HasCause};
ghost use Rattle.vi_commands.specs.Output.{TakesProperPrefix};

use crate::outside::{Failed, Sink};

/// How many bytes are written in one call.
const PIECE: usize = 4096;

/// Writes the text to its end, in pieces of at most 4096 bytes. It fails only where a write
/// failed, and then the sink took less than the whole text.
pub fn write_text<K: Sink>(sink: &mut K, text: &[u8]) -> Result<(), Failed>
    ensures all { OnOk result (Appends (K.taken sink.old) (K.taken sink.new) text.now) }
    ensures prefix { OnErr result
        (TakesProperPrefix (K.taken sink.old) (K.taken sink.new) text.now) }
    ensures cause { HasCause (K.faults sink.old) (K.faults sink.new) result }
{
    let mut written = 0;
    while written < text.len() {
        let end = text.len().min(written + PIECE);
        written += sink.write(&text[written..end])?;
    }
    Ok(())
}
