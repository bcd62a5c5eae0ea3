//! The program as one call, over any source and sink.
ghost use Rattle.std.specs.Prelude.{◌≡◌, ◌≢◌, ◌+◌, ◌≤◌, ◌⊎◌, ℕ, Some, None};
ghost use Rattle.std.specs.Io.KnownBytes.{Appends, Keeps};
ghost use Rattle.vi_make.specs.LoadScript.{load_script};
ghost use Rattle.vi_script.specs.declared.fault.BadKind.{BadKind};
ghost use Rattle.vi_commands.specs.Accepted.{task_of, text_task_of, limit_of, input_limit};
ghost use Rattle.vi_commands.specs.Causes.{Rose};
ghost use Rattle.vi_commands.specs.Command.{command_in, IsForm};
ghost use Rattle.vi_commands.specs.Input.{TakesAtMost};
ghost use Rattle.vi_commands.specs.Output.{TakesProperPrefix};
ghost use Rattle.vi_commands.specs.Status.{status_text};
ghost use Rattle.vi_commands.specs.Top.{CutsText, Ends, IsBadReport, IsBadTrace, IsDoneWithin, IsFault, IsRefusedAt, IsRefusedWithin, IsToldWithin, IsTooLongPast, IsTooMuch, Writes, WritesHeld, WritesWrong, reads_up_to};
ghost use Rattle.vi_commands.specs.declared.command.Command.{Command};
ghost use Rattle.vi_commands.specs.declared.command.Task.{Task};
ghost use Rattle.vi_commands.specs.declared.command.TextTask.{TextTask};
ghost use Rattle.vi_commands.specs.declared.top.TheConstants.{INPUT_LIMIT};

use crate::command::{Command, Task, TextTask};
use crate::delivery::deliver;
use crate::input::{InputFault, read_input};
use crate::outside::{Sink, Source};
use crate::status::{Status, TOO_LONG, USAGE};
use crate::told::tell;
use crate::work::work;
use std::alloc::Global;
use vi_make::make;

/// How many bytes of input a command reads at most, but for `check`.
pub const INPUT_LIMIT: u32 = 1_048_576;

/// How many bytes `check` reads at most, whose input has a report behind the script.
pub const CHECK_LIMIT: u32 = 67_108_864;

/// Does what the words say: reads the source, does the command's work, writes its text to the
/// sink, and answers the status. The words are those behind the program's name.
pub fn plain_top<S: Source, K: Sink>(
    alloc: Global,
    words: &[String],
    source: &mut S,
    sink: &mut K,
) -> Status
    // How it ends: with every status, what was due and what the sink took.
    ensures ends { Ends (command_in words.now)
        (record {
          left = S.left source.old;
          read_faults = S.faults source.old;
          taken = K.taken sink.old;
          write_faults = K.faults sink.old;
        })
        (record {
          left = S.left source.new;
          read_faults = S.faults source.new;
          taken = K.taken sink.new;
          write_faults = K.faults sink.new;
        })
        result }

    // The words are none of the forms exactly where the status is Usage, unless writing its text
    // fails.
    ensures usage { result ≡ Status.Usage → command_in words.now ≡ None }
    ensures usage_always { command_in words.now ≡ None → (result ≡ Status.Usage) ⊎ (result ≡ Status.WriteFault) }

    // Nothing is read but by a command that has a limit of input.
    ensures reads_nothing { input_limit (command_in words.now) ≡ None → source.new ≡ source.old }

    // More bytes than the limit are left exactly where the status is TooLong, unless a fault comes.
    ensures too_long { result ≡ Status.TooLong → IsTooMuch (command_in words.now) (S.left source.old) }
    ensures too_long_always { (limit : ℕ) → input_limit (command_in words.now) ≡ Some limit
        → IsTooLongPast limit (S.left source.old) result }

    // With Ok the source was read to its end, the bytes are a script, and the sink took what the command writes.
    ensures ok { (task : Task) → task_of (command_in words.now) ≡ Some task → result ≡ Status.Ok → Writes task
        (S.left source.old) (S.left source.new) (K.taken sink.old) (K.taken sink.new) }

    // With Ok and `make N` the sink took the load script of N rounds.
    ensures made { (rounds : ℕ) → command_in words.now ≡ Some (Command.Make rounds) → result ≡ Status.Ok
        → Appends (K.taken sink.old) (K.taken sink.new) (load_script rounds) }
    ensures made_always { (rounds : ℕ) → command_in words.now ≡ Some (Command.Make rounds) → (result ≡ Status.Ok) ⊎ IsFault result }

    // The work on a script that is within the limit is done, unless a fault comes. For `check` the status is then
    // that of the verdict, or of the line at which the report is refused.
    ensures accepted { (task : Task) → task_of (command_in words.now) ≡ Some task → IsDoneWithin task (S.left source.old) result }

    // The script is refused with this line and kind exactly where the definition refuses it so, unless a fault comes.
    ensures bad_script { (task : Task) (line : ℕ) (kind : BadKind) → task_of (command_in words.now) ≡ Some task
        → result ≡ Status.BadScript line kind → IsRefusedAt task line kind (S.left source.old) (S.left source.new) }
    ensures bad_script_always { (task : Task) → task_of (command_in words.now) ≡ Some task → IsRefusedWithin task (S.left source.old) result }

    // `trace`: with Ok the source was read to its end, the bytes are a trace whose finding is Held, and the sink took `held`.
    // So no lawful cache outlives an Ack, and each use was granted.
    ensures held { text_task_of (command_in words.now) ≡ Some TextTask.Trace → result ≡ Status.Ok → WritesHeld
        (S.left source.old) (S.left source.new) (K.taken sink.old) (K.taken sink.new) }

    // The work on an input without a script is done, unless a fault comes: the status of `trace` is that of the finding,
    // or of the first line that has no form.
    ensures told { (task : TextTask) → text_task_of (command_in words.now) ≡ Some task → IsToldWithin task (S.left source.old) result }
    ensures bad_trace { (line : ℕ) → result ≡ Status.BadTrace line
        → (text_task_of (command_in words.now) ≡ Some TextTask.Trace) × IsBadTrace line (S.left source.old) (S.left source.new) }

    // The report of a `check` is refused at this line.
    ensures bad_report { (line : ℕ) → result ≡ Status.BadReport line
        → (task_of (command_in words.now) ≡ Some Task.Check) × IsBadReport line (S.left source.old) (S.left source.new) }

    // The verdict of a `check` isn't Legal, or the finding of a `trace` isn't Held, and the sink took its text.
    ensures wrong { result ≡ Status.Wrong → WritesWrong (command_in words.now)
        (S.left source.old) (S.left source.new) (K.taken sink.old) (K.taken sink.new) }

    // A fault comes only where the source's or the sink's count of faults rose in this call.
    ensures read_fault { result ≡ Status.ReadFault
        → Rose (S.faults source.old) (S.faults source.new) }
    ensures write_fault { result ≡ Status.WriteFault
        → Rose (K.faults sink.old) (K.faults sink.new) }

    // What the sink took with each other status.
    ensures text { result ≢ Status.Ok → result ≢ Status.WriteFault → result ≢ Status.Wrong
        → Appends (K.taken sink.old) (K.taken sink.new) (status_text result) }
    ensures prefix { result ≡ Status.WriteFault → CutsText (command_in words.now)
        (S.left source.old) (S.left source.new) (K.taken sink.old) (K.taken sink.new) }

    ensures reads_at_most { TakesAtMost (reads_up_to (input_limit (command_in words.now)) + 4096) (S.left source.old) (S.left source.new) }
    ensures read_faults { S.faults source.old ≤ S.faults source.new }
    ensures write_faults { K.faults sink.old ≤ K.faults sink.new }
{
    carry_out(alloc, Command::parse(words), source, sink)
}

/// Does the command, or answers `Usage` where there is none.
fn carry_out<S: Source, K: Sink>(
    alloc: Global,
    command: Option<Command>,
    source: &mut S,
    sink: &mut K,
) -> Status
    requires { IsForm command }
    ensures ends { Ends command
        (record {
          left = S.left source.old;
          read_faults = S.faults source.old;
          taken = K.taken sink.old;
          write_faults = K.faults sink.old;
        })
        (record {
          left = S.left source.new;
          read_faults = S.faults source.new;
          taken = K.taken sink.new;
          write_faults = K.faults sink.new;
        })
        result }
    ensures unread { input_limit command ≡ None → source.new ≡ source.old }
    ensures reads_at_most { TakesAtMost (reads_up_to (input_limit command) + 4096) (S.left source.old) (S.left source.new) }
    ensures read_count { S.faults source.old ≤ S.faults source.new }
    ensures write_count { K.faults sink.old ≤ K.faults sink.new }
{
    match command {
        None => deliver(sink, Status::Usage, USAGE),
        Some(Command::Make { rounds }) => write_load_script(alloc, rounds, sink),
        Some(Command::Script(task)) => do_task(alloc, task, source, sink),
        Some(Command::Text(task)) => do_text(alloc, task, source, sink),
    }
}

/// Writes the load script. An error of memory is a status.
fn write_load_script<K: Sink>(alloc: Global, rounds: u32, sink: &mut K) -> Status
    requires some { 1 ≤ rounds }
    requires most { rounds ≤ 400 }
    ensures either { (result ≡ Status.Ok) ⊎ ((result ≡ Status.WriteFault) ⊎ (result ≡ Status.OutOfMemory)) }
    ensures whole { result ≡ Status.Ok → Appends (K.taken sink.old) (K.taken sink.new) (load_script rounds) }
    ensures prefix { result ≡ Status.WriteFault → TakesProperPrefix (K.taken sink.old) (K.taken sink.new) (load_script rounds) }
    ensures nothing { result ≡ Status.OutOfMemory → Keeps (K.taken sink.old) (K.taken sink.new) }
    ensures write_fault { result ≡ Status.WriteFault → Rose (K.faults sink.old) (K.faults sink.new) }
    ensures count { K.faults sink.old ≤ K.faults sink.new }
{
    match make(alloc, rounds) {
        Ok(text) => deliver(sink, Status::Ok, text.as_slice()),
        Err(_) => Status::OutOfMemory,
    }
}

/// Reads the source, works on what it gave, and writes the text.
fn do_task<S: Source, K: Sink>(alloc: Global, task: Task, source: &mut S, sink: &mut K) -> Status
    ensures ends { Ends (Some (Command.Script task))
        (record {
          left = S.left source.old;
          read_faults = S.faults source.old;
          taken = K.taken sink.old;
          write_faults = K.faults sink.old;
        })
        (record {
          left = S.left source.new;
          read_faults = S.faults source.new;
          taken = K.taken sink.new;
          write_faults = K.faults sink.new;
        })
        result }
    ensures reads_at_most { TakesAtMost (limit_of task + 4096) (S.left source.old) (S.left source.new) }
    ensures read_count { S.faults source.old ≤ S.faults source.new }
    ensures write_count { K.faults sink.old ≤ K.faults sink.new }
{
    let input = match read_input(alloc, source, limit(task)) {
        Ok(input) => input,
        Err(InputFault::TooLong) => return deliver(sink, Status::TooLong, TOO_LONG),
        Err(InputFault::ReadFault) => return Status::ReadFault,
        Err(InputFault::OutOfMemory) => return Status::OutOfMemory,
    };
    match work(alloc, task, input.as_slice()) {
        Ok(answer) => deliver(sink, answer.status, answer.text.as_slice()),
        Err(_) => Status::OutOfMemory,
    }
}

/// Reads the source, makes a text of what it gave, and writes it.
fn do_text<S: Source, K: Sink>(
    alloc: Global,
    task: TextTask,
    source: &mut S,
    sink: &mut K,
) -> Status
    ensures ends { Ends (Some (Command.Text task))
        (record {
          left = S.left source.old;
          read_faults = S.faults source.old;
          taken = K.taken sink.old;
          write_faults = K.faults sink.old;
        })
        (record {
          left = S.left source.new;
          read_faults = S.faults source.new;
          taken = K.taken sink.new;
          write_faults = K.faults sink.new;
        })
        result }
    ensures reads_at_most { TakesAtMost (INPUT_LIMIT + 4096) (S.left source.old) (S.left source.new) }
    ensures read_count { S.faults source.old ≤ S.faults source.new }
    ensures write_count { K.faults sink.old ≤ K.faults sink.new }
{
    let input = match read_input(alloc, source, INPUT_LIMIT) {
        Ok(input) => input,
        Err(InputFault::TooLong) => return deliver(sink, Status::TooLong, TOO_LONG),
        Err(InputFault::ReadFault) => return Status::ReadFault,
        Err(InputFault::OutOfMemory) => return Status::OutOfMemory,
    };
    match tell(alloc, task, input.as_slice()) {
        Ok(answer) => deliver(sink, answer.status, answer.text.as_slice()),
        Err(_) => Status::OutOfMemory,
    }
}

/// How many bytes of input are read at most, where it has a script.
fn limit(task: Task) -> u32
    ensures { result ≡ limit_of task }
{
    match task {
        Task::Sim { .. } | Task::One => INPUT_LIMIT,
        Task::Check => CHECK_LIMIT,
    }
}
