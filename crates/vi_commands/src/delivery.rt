//! The end of a command: its text is written, and its status answered.
ghost use Rattle.std.specs.Prelude.{◌≡◌, ◌≢◌, ◌≤◌, ◌⊎◌};
ghost use Rattle.std.specs.Io.KnownBytes.{Appends};
ghost use Rattle.vi_commands.specs.Causes.{Rose};
ghost use Rattle.vi_commands.specs.Output.{TakesProperPrefix};

use crate::output::write_text;
use crate::outside::Sink;
use crate::status::Status;

/// Writes the text that goes with the status. The answer is the status, or `WriteFault` in its
/// place where a write failed.
pub fn deliver<K: Sink>(sink: &mut K, status: Status, text: &[u8]) -> Status
    requires { status ≢ Status.WriteFault }
    ensures either { (result ≡ status) ⊎ (result ≡ Status.WriteFault) }
    ensures whole { result ≡ status → Appends (K.taken sink.old) (K.taken sink.new) text.now }
    ensures prefix { result ≡ Status.WriteFault
        → TakesProperPrefix (K.taken sink.old) (K.taken sink.new) text.now }
    ensures write_fault { result ≡ Status.WriteFault
        → Rose (K.faults sink.old) (K.faults sink.new) }
    ensures count { K.faults sink.old ≤ K.faults sink.new }
{
    match write_text(sink, text) {
        Ok(()) => status,
        Err(_) => Status::WriteFault,
    }
}
