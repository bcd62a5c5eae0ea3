//! The commands that run threads, and the program as one call with them.
ghost use Rattle.std.specs.Prelude.{◌≡◌, ◌≤◌, ◌+◌, ◌++◌, ◌⊎◌, ℕ, List, length, Ok, Some, None, IfOk, OnOk};
ghost use Rattle.std.specs.declared.option.Option.{Option};
ghost use Rattle.std.specs.Io.KnownBytes.{Appends, Keeps};
ghost use Rattle.vi_lines.specs.Fields.{HasFields};
ghost use Rattle.vi_script.specs.Texts as texts;
ghost use Rattle.vi_lines.specs.Valid.{IsValid};
ghost use Rattle.vi_make.specs.LoadScript.{load_script};
ghost use Rattle.vi_commands.specs.Accepted.{task_of, text_task_of, input_limit};
ghost use Rattle.vi_commands.specs.Causes.{Rose};
ghost use Rattle.vi_commands.specs.Command.{command_in};
ghost use Rattle.vi_commands.specs.Input.{ReadsAll, TakesAtMost};
ghost use Rattle.vi_commands.specs.Output.{TakesProperPrefix};
ghost use Rattle.vi_threaded.specs.Histories.{WritesHistory};
ghost use Rattle.vi_threaded.specs.Running.{EndsRun, IsHistoryOf, IsRunRefused, IsRunTooLong, IsRunWithin, RanTo, ReadsScript, ReportsRun, Summarizes, SumsRun, WritesRun, WritesSummary, report_text};
ghost use Rattle.vi_commands.specs.Status.{bad_script_text};
ghost use Rattle.vi_threaded.specs.Threads.{IsThreaded, threaded_in};
ghost use Rattle.vi_dirty.specs.Rounds.{dirty_text};
ghost use Rattle.vi_history.specs.Outcomes.{IsWellMade};
ghost use Rattle.vi_history.specs.Start.{start};
ghost use Rattle.vi_history.specs.declared.call.Call.{Call};
ghost use Rattle.vi_lines.specs.Legal.{AreCalls, IsLegalHistory};
ghost use Rattle.vi_lines.specs.Value.{ScriptValue};
ghost use Rattle.vi_report.specs.Texts as reports;
ghost use Rattle.vi_report.specs.Types.{IsTyped};
ghost use Rattle.vi_commands.specs.Top.{Ends, IsFault, IsToldWithin, Writes, WritesHeld};
ghost use Rattle.vi_commands.specs.declared.command.Task.{Task};
ghost use Rattle.vi_commands.specs.declared.command.TextTask.{TextTask};
ghost use Rattle.vi_commands.specs.declared.top.TheConstants.{INPUT_LIMIT};

use crate::threaded::Threaded;
use std::alloc::{AllocError, Global};
use std::sync::Wait;
use std::thread::Threads;
use vi_bytes::Bytes;
use vi_commands::{
    INPUT_LIMIT, InputFault, Sink, Source, Status, TOO_LONG, deliver, plain_top, read_input,
};
use vi_history::{Entry, Outcome};
use vi_lines::Script;
use vi_make::{load_script_is_accepted, make, summary};
use vi_run::{Finished, Gate, Opened, run};
use vi_script::{BadKind, ScriptFault};

/// How a call of the program ended, with the run whose text was written, if there was one.
#[derive(Drop)]
pub struct Ended {
    pub status: Status,
    pub run: Option<Finished>,
}

/// Does what the words say, as `plain_top`, and `run W`, `load N W` and `dirty K W` too. What they print is the outcome of a run on
/// threads, and is so whatever the interleaving of the threads' atomic steps.
pub fn top<R: Threads + Wait + Sync, S: Source, K: Sink, G: Gate + Sync>(
    rt: &R,
    alloc: Global,
    words: &[String],
    source: &mut S,
    sink: &mut K,
    gate: &G,
) -> Ended
    // `run W` and `dirty K W`: with Ok the source was read to its end, the bytes are a script, and the sink took the text of a run of
    // that script: the report of a history that is in order and legal. The run is handed back, and its own logs have that history.
    ensures run { (form : Threaded) → ReadsScript form → threaded_in words.now ≡ Some form → result.status ≡ Status.Ok → WritesRun form
        (record { left = S.left source.old; read_faults = S.faults source.old; taken = K.taken sink.old; write_faults = K.faults sink.old })
        (record { left = S.left source.new; read_faults = S.faults source.new; taken = K.taken sink.new; write_faults = K.faults sink.new }) result.run }
    // `run W` without the run and its logs: what the source and the sink say.
    ensures run_is_plain { (workers : ℕ) → threaded_in words.now ≡ Some (Threaded.Run workers) → result.status ≡ Status.Ok → WritesHistory
        (S.left source.old) (S.left source.new) (K.taken sink.old) (K.taken sink.new) }
    ensures accepted { (form : Threaded) → ReadsScript form → threaded_in words.now ≡ Some form → IsRunWithin (S.left source.old) result.status }
    ensures refused { (form : Threaded) → ReadsScript form → threaded_in words.now ≡ Some form → IsRunRefused (S.left source.old) result.status }
    ensures too_long { (form : Threaded) → ReadsScript form → threaded_in words.now ≡ Some form → IsRunTooLong (S.left source.old) result.status }

    // `dirty K W`: below the report stand the pages that the run's writes reached, for each K entries and for all.
    ensures dirty { (every workers : ℕ) → threaded_in words.now ≡ Some (Threaded.Dirty every workers) → result.status ≡ Status.Ok
        → WritesRun (Threaded.Dirty every workers)
        (record { left = S.left source.old; read_faults = S.faults source.old; taken = K.taken sink.old; write_faults = K.faults sink.old })
        (record { left = S.left source.new; read_faults = S.faults source.new; taken = K.taken sink.new; write_faults = K.faults sink.new }) result.run }

    // `load N W`: with Ok the sink took the summary of a run of the load script of N rounds.
    ensures load { (rounds workers : ℕ) → threaded_in words.now ≡ Some (Threaded.Load rounds workers) → result.status ≡ Status.Ok → WritesSummary rounds
        (record { left = S.left source.old; read_faults = S.faults source.old; taken = K.taken sink.old; write_faults = K.faults sink.old })
        (record { left = S.left source.new; read_faults = S.faults source.new; taken = K.taken sink.new; write_faults = K.faults sink.new }) result.run }
    ensures load_always { (rounds workers : ℕ) → threaded_in words.now ≡ Some (Threaded.Load rounds workers) → (result.status ≡ Status.Ok) ⊎ IsFault result.status }
    ensures load_reads_nothing { (rounds workers : ℕ) → threaded_in words.now ≡ Some (Threaded.Load rounds workers) → source.new ≡ source.old }

    // With every status, what was due, what the sink took, and which run is handed back.
    ensures ends { (form : Threaded) → threaded_in words.now ≡ Some form → EndsRun form
        (record { left = S.left source.old; read_faults = S.faults source.old; taken = K.taken sink.old; write_faults = K.faults sink.old })
        (record { left = S.left source.new; read_faults = S.faults source.new; taken = K.taken sink.new; write_faults = K.faults sink.new })
        result.run result.status }

    // The words are none of the forms exactly where the status is Usage, unless writing its text fails.
    ensures usage { result.status ≡ Status.Usage → (command_in words.now ≡ None) × (threaded_in words.now ≡ None) }
    ensures usage_always { command_in words.now ≡ None → threaded_in words.now ≡ None → (result.status ≡ Status.Usage) ⊎ (result.status ≡ Status.WriteFault) }

    // The other words: as `plain_top`, and no run.
    ensures plain { threaded_in words.now ≡ None → Ends (command_in words.now)
        (record { left = S.left source.old; read_faults = S.faults source.old; taken = K.taken sink.old; write_faults = K.faults sink.old })
        (record { left = S.left source.new; read_faults = S.faults source.new; taken = K.taken sink.new; write_faults = K.faults sink.new })
        result.status }
    ensures plain_ok { (task : Task) → threaded_in words.now ≡ None → task_of (command_in words.now) ≡ Some task → result.status ≡ Status.Ok → Writes task
        (S.left source.old) (S.left source.new) (K.taken sink.old) (K.taken sink.new) }
    // `trace`: with Ok the bytes are a trace whose finding is Held, so no lawful cache outlives an Ack, and each use was granted.
    ensures plain_held { threaded_in words.now ≡ None → text_task_of (command_in words.now) ≡ Some TextTask.Trace → result.status ≡ Status.Ok → WritesHeld
        (S.left source.old) (S.left source.new) (K.taken sink.old) (K.taken sink.new) }
    ensures plain_told { (task : TextTask) → threaded_in words.now ≡ None → text_task_of (command_in words.now) ≡ Some task → IsToldWithin task (S.left source.old) result.status }
    ensures no_run { threaded_in words.now ≡ None → result.run ≡ None }

    // How much is read: a script that is over its limit by a piece at most, and nothing where no input is wanted.
    ensures reads_at_most { (form : Threaded) → ReadsScript form → threaded_in words.now ≡ Some form → TakesAtMost (INPUT_LIMIT + 4096) (S.left source.old) (S.left source.new) }
    ensures reads_nothing { threaded_in words.now ≡ None → input_limit (command_in words.now) ≡ None → source.new ≡ source.old }

    ensures read_faults { S.faults source.old ≤ S.faults source.new }
    ensures write_faults { K.faults sink.old ≤ K.faults sink.new }
{
    match Threaded::parse(words) {
        None => without_run(plain_top(alloc, words, source, sink)),
        Some(form) => run_form(rt, alloc, form, source, sink, gate),
    }
}

/// A status without a run.
fn without_run(ended: Status) -> Ended
    ensures { (result.status ≡ ended) × (result.run ≡ None) }
{
    Ended {
        status: ended,
        run: None,
    }
}

/// A status with its run.
fn with_run(finished: Finished, ended: Status) -> Ended
    ensures { (result.status ≡ ended) × (result.run ≡ Some finished) }
{
    Ended {
        status: ended,
        run: Some(finished),
    }
}

/// Does what a form that runs threads says.
fn run_form<R: Threads + Wait + Sync, S: Source, K: Sink, G: Gate + Sync>(
    rt: &R,
    alloc: Global,
    form: Threaded,
    source: &mut S,
    sink: &mut K,
    gate: &G,
) -> Ended
    requires { IsThreaded form }
    ensures ends { EndsRun form
        (record { left = S.left source.old; read_faults = S.faults source.old; taken = K.taken sink.old; write_faults = K.faults sink.old })
        (record { left = S.left source.new; read_faults = S.faults source.new; taken = K.taken sink.new; write_faults = K.faults sink.new })
        result.run result.status }
    ensures at_most { ReadsScript form → TakesAtMost (INPUT_LIMIT + 4096) (S.left source.old) (S.left source.new) }
    ensures unread { (rounds workers : ℕ) → form ≡ Threaded.Load rounds workers → source.new ≡ source.old }
    ensures read_count { S.faults source.old ≤ S.faults source.new }
    ensures write_count { K.faults sink.old ≤ K.faults sink.new }
{
    match form {
        Threaded::Load { rounds, workers } => run_load(rt, alloc, rounds, workers, sink, gate),
        Threaded::Run { .. } | Threaded::Dirty { .. } => {
            run_input(rt, alloc, form, source, sink, gate)
        }
    }
}

/// Reads a script, runs it, and writes the text of the run.
fn run_input<R: Threads + Wait + Sync, S: Source, K: Sink, G: Gate + Sync>(
    rt: &R,
    alloc: Global,
    form: Threaded,
    source: &mut S,
    sink: &mut K,
    gate: &G,
) -> Ended
    requires bounds { IsThreaded form }
    requires reads { ReadsScript form }
    ensures ends { EndsRun form
        (record { left = S.left source.old; read_faults = S.faults source.old; taken = K.taken sink.old; write_faults = K.faults sink.old })
        (record { left = S.left source.new; read_faults = S.faults source.new; taken = K.taken sink.new; write_faults = K.faults sink.new })
        result.run result.status }
    ensures at_most { TakesAtMost (INPUT_LIMIT + 4096) (S.left source.old) (S.left source.new) }
    ensures read_count { S.faults source.old ≤ S.faults source.new }
    ensures write_count { K.faults sink.old ≤ K.faults sink.new }
{
    let input = match read_input(alloc, source, INPUT_LIMIT) {
        Ok(input) => input,
        Err(InputFault::TooLong) => return without_run(deliver(sink, Status::TooLong, TOO_LONG)),
        Err(InputFault::ReadFault) => return without_run(Status::ReadFault),
        Err(InputFault::OutOfMemory) => return without_run(Status::OutOfMemory),
    };
    let bytes = input.as_slice();
    match vi_script::parse(alloc, bytes) {
        Ok(script) => report_run(rt, alloc, form, bytes, script, sink, gate),
        Err(ScriptFault::Bad { line, kind }) => without_run(refuse(alloc, line, kind, sink)),
        Err(ScriptFault::OutOfMemory) => without_run(Status::OutOfMemory),
    }
}

/// Writes where a script is refused, and why. An error of memory is a status.
fn refuse<K: Sink>(alloc: Global, line: u32, kind: BadKind, sink: &mut K) -> Status
    ensures either { (result ≡ Status.BadScript line kind) ⊎ ((result ≡ Status.WriteFault) ⊎ (result ≡ Status.OutOfMemory)) }
    ensures whole { result ≡ Status.BadScript line kind → Appends (K.taken sink.old) (K.taken sink.new) (bad_script_text line kind) }
    ensures prefix { result ≡ Status.WriteFault → TakesProperPrefix (K.taken sink.old) (K.taken sink.new) (bad_script_text line kind) }
    ensures nothing { result ≡ Status.OutOfMemory → Keeps (K.taken sink.old) (K.taken sink.new) }
    ensures write_fault { result ≡ Status.WriteFault → Rose (K.faults sink.old) (K.faults sink.new) }
    ensures count { K.faults sink.old ≤ K.faults sink.new }
{
    let refused = Status::BadScript { line, kind };
    match refused.text(alloc) {
        Ok(text) => deliver(sink, refused, text.as_slice()),
        Err(_) => Status::OutOfMemory,
    }
}

/// Runs the script, and writes the text of the run.
fn report_run<R: Threads + Wait + Sync, K: Sink, G: Gate + Sync>(
    rt: &R,
    alloc: Global,
    form: Threaded,
    input: &[u8],
    script: Script,
    sink: &mut K,
    gate: &G,
) -> Ended
    requires bounds { IsThreaded form }
    requires reads { ReadsScript form }
    requires within { length input.now ≤ INPUT_LIMIT }
    requires read { texts.script input.now ≡ Ok script }
    requires valid { IsValid script }
    requires fields { HasFields script }
    // Whatever source had this input left.
    ensures ends { (old new : Option (List ℕ)) (before now : ℕ) → ReadsAll old new input.now → EndsRun form
        (record { left = old; read_faults = before; taken = K.taken sink.old; write_faults = K.faults sink.old })
        (record { left = new; read_faults = now; taken = K.taken sink.new; write_faults = K.faults sink.new })
        result.run result.status }
    ensures count { K.faults sink.old ≤ K.faults sink.new }
{
    match reported(rt, alloc, form, input, script, gate) {
        Ok((finished, text)) => with_run(finished, deliver(sink, Status::Ok, text.as_slice())),
        Err(_) => without_run(Status::OutOfMemory),
    }
}

/// `load N W`: runs the load script of N rounds, and writes the summary.
fn run_load<R: Threads + Wait + Sync, K: Sink, G: Gate + Sync>(
    rt: &R,
    alloc: Global,
    rounds: u32,
    workers: u32,
    sink: &mut K,
    gate: &G,
) -> Ended
    requires rounds { (1 ≤ rounds) × (rounds ≤ 400) }
    requires workers { (1 ≤ workers) × (workers ≤ 16) }
    // Whatever a source has left.
    ensures ends { (left : Option (List ℕ)) (faults : ℕ) → EndsRun (Threaded.Load rounds workers)
        (record { left = left; read_faults = faults; taken = K.taken sink.old; write_faults = K.faults sink.old })
        (record { left = left; read_faults = faults; taken = K.taken sink.new; write_faults = K.faults sink.new })
        result.run result.status }
    ensures count { K.faults sink.old ≤ K.faults sink.new }
{
    match summarized(rt, alloc, rounds, workers, gate) {
        Ok((finished, text)) => with_run(finished, deliver(sink, Status::Ok, text.as_slice())),
        Err(_) => without_run(Status::OutOfMemory),
    }
}

/// A run of the script, and its text. An error means out of memory.
fn reported<R: Threads + Wait + Sync, G: Gate + Sync>(
    rt: &R,
    alloc: Global,
    form: Threaded,
    input: &[u8],
    script: Script,
    gate: &G,
) -> Result<(Finished, Bytes), AllocError>
    requires bounds { IsThreaded form }
    requires reads { ReadsScript form }
    requires within { length input.now ≤ INPUT_LIMIT }
    requires read { texts.script input.now ≡ Ok script }
    requires valid { IsValid script }
    requires fields { HasFields script }
    ensures { IfOk result (λ r. ReportsRun form script r.0 r.1) }
{
    let finished = ran(rt, alloc, script, form.workers(), gate)?;
    let text = text_of(alloc, form, input, &finished)?;
    Ok((finished, text))
}

/// The text of a run. An error means out of memory.
fn text_of(
    alloc: Global,
    form: Threaded,
    input: &[u8],
    finished: &Finished,
) -> Result<Bytes, AllocError>
    requires bounds { IsThreaded form }
    requires reads { ReadsScript form }
    requires within { length input.now ≤ INPUT_LIMIT }
    requires read { texts.script input.now ≡ Ok finished.now.last.script }
    ensures { IfOk result (λ text. ReportsRun form finished.now.last.script finished.now text) }
{
    let outcome = outcome_of(alloc, finished)?;
    let text = report_of(alloc, form, input, &outcome)?;
    Ok(text)
}

/// The text of a run that came to this outcome. An error means out of memory.
fn report_of(
    alloc: Global,
    form: Threaded,
    input: &[u8],
    outcome: &Outcome,
) -> Result<Bytes, AllocError>
    requires bounds { IsThreaded form }
    requires reads { ReadsScript form }
    requires within { length input.now ≤ INPUT_LIMIT }
    requires read { IsHistoryOf input.now outcome.now.entries }
    requires made { IsWellMade outcome.now }
    ensures text { IfOk result (λ text. (s : ScriptValue) (calls : List Call) → texts.script input.now ≡ Ok s → AreCalls s outcome.now.entries calls
        → text ≡ report_text form s outcome.now calls) }
    ensures typed { OnOk result (IsTyped outcome.now) }
{
    match form {
        Threaded::Dirty { every, .. } => with_pages(alloc, every, input, outcome),
        _ => vi_report::text(alloc, outcome),
    }
}

/// The report, and below it the pages that were written. An error means out of memory.
fn with_pages(
    alloc: Global,
    every: u32,
    input: &[u8],
    outcome: &Outcome,
) -> Result<Bytes, AllocError>
    requires some { 1 ≤ every }
    requires within { length input.now ≤ INPUT_LIMIT }
    requires read { IsHistoryOf input.now outcome.now.entries }
    requires made { IsWellMade outcome.now }
    ensures text { IfOk result (λ text. (s : ScriptValue) (calls : List Call) → texts.script input.now ≡ Ok s → AreCalls s outcome.now.entries calls
        → text ≡ reports.text outcome.now ++ dirty_text every (start s.setup) calls) }
    ensures typed { OnOk result (IsTyped outcome.now) }
{
    let mut text = vi_report::text(alloc, outcome)?.into_vec();
    let pages = pages_of(alloc, every, input, outcome.entries.as_slice())?;
    text.extend_from_slice(pages.as_slice())?;
    Ok(Bytes::from_vec(text))
}

/// The pages that this history of the script wrote, as text. The script is read once more, since the run has taken it. An
/// error means out of memory.
fn pages_of(alloc: Global, every: u32, input: &[u8], entries: &[Entry]) -> Result<Bytes, AllocError>
    requires some { 1 ≤ every }
    requires within { length input.now ≤ INPUT_LIMIT }
    requires read { IsHistoryOf input.now entries.now }
    ensures { IfOk result (λ text. (s : ScriptValue) (calls : List Call) → texts.script input.now ≡ Ok s → AreCalls s entries.now calls
        → text ≡ dirty_text every (start s.setup) calls) }
{
    match vi_script::parse(alloc, input) {
        Ok(script) => vi_dirty::text(alloc, &script, entries, every),
        Err(ScriptFault::OutOfMemory) => Err(AllocError),
        Err(ScriptFault::Bad { .. }) => unreachable!(),
    }
}

/// A run of the load script of so many rounds, and its summary. An error means out of memory.
fn summarized<R: Threads + Wait + Sync, G: Gate + Sync>(
    rt: &R,
    alloc: Global,
    rounds: u32,
    workers: u32,
    gate: &G,
) -> Result<(Finished, Bytes), AllocError>
    requires rounds { (1 ≤ rounds) × (rounds ≤ 400) }
    requires workers { (1 ≤ workers) × (workers ≤ 16) }
    ensures { IfOk result (λ r. Summarizes rounds (Some r.0) r.1) }
{
    let finished = ran(rt, alloc, load_script(alloc, rounds)?, workers, gate)?;
    let line = summary_of(alloc, rounds, &finished)?;
    Ok((finished, line))
}

/// The load script of so many rounds. An error means out of memory.
fn load_script(alloc: Global, rounds: u32) -> Result<Script, AllocError>
    requires { (1 ≤ rounds) × (rounds ≤ 400) }
    ensures script { IfOk result (λ s. texts.script (load_script rounds) ≡ Ok s) }
    ensures valid { IfOk result IsValid }
    ensures fields { IfOk result HasFields }
{
    load_script_is_accepted();
    let text = make(alloc, rounds)?;
    match vi_script::parse(alloc, text.as_slice()) {
        Ok(script) => Ok(script),
        Err(ScriptFault::OutOfMemory) => Err(AllocError),
        Err(ScriptFault::Bad { .. }) => unreachable!(),
    }
}

/// The summary of a run of a load script. An error means out of memory.
fn summary_of(alloc: Global, rounds: u32, finished: &Finished) -> Result<Bytes, AllocError>
    ensures { IfOk result (λ line. SumsRun rounds finished.now.last.script finished.now line) }
{
    let outcome = outcome_of(alloc, finished)?;
    let line = summary(alloc, rounds, &outcome)?;
    Ok(line)
}

/// What a run came to. An error means out of memory.
fn outcome_of(alloc: Global, finished: &Finished) -> Result<Outcome, AllocError>
    ensures { IfOk result (λ o. RanTo finished.now.last.script finished.now o) }
{
    let outcome = finished.outcome(alloc)?;
    Ok(outcome)
}

/// A run of the script on so many workers. An error means out of memory.
fn ran<R: Threads + Wait + Sync, G: Gate + Sync>(
    rt: &R,
    alloc: Global,
    script: Script,
    workers: u32,
    gate: &G,
) -> Result<Finished, AllocError>
    requires valid { IsValid script }
    requires fields { HasFields script }
    requires workers { (1 ≤ workers) × (workers ≤ 16) }
    ensures { IfOk result (λ finished. finished.last.script ≡ script) }
{
    let opened = Opened::build(alloc, script)?;
    Ok(run(rt, opened, workers, gate))
}
