//! The work of each command on a script: from the bytes of its input to a status and a text.
ghost use Rattle.std.specs.Prelude.{◌≡◌, ◌≤◌, ℕ, List, IfOk, OnOk, MatchResult, Ok, length};
ghost use Rattle.vi_check.specs.Verdicts.{verdict};
ghost use Rattle.vi_check.specs.Texts.{verdict_text};
ghost use Rattle.vi_history.specs.Outcomes.{IsWellMade};
ghost use Rattle.vi_report.specs.Texts.{text};
ghost use Rattle.vi_report.specs.Types.{IsTyped};
ghost use Rattle.vi_lines.specs.Fields.{HasFields};
ghost use Rattle.vi_script.specs.Parsing.{Faults};
ghost use Rattle.vi_lines.specs.Valid.{IsValid};
ghost use Rattle.vi_commands.specs.Accepted.{accepts, limit_of};
ghost use Rattle.vi_commands.specs.Status.{status_text};
ghost use Rattle.vi_commands.specs.Top.{verdict_status};
ghost use Rattle.vi_commands.specs.Work.{Answers, Does};
ghost use Rattle.vi_commands.specs.declared.command.Task.{Task};
ghost use Rattle.vi_commands.specs.declared.top.TheConstants.{CHECK_LIMIT};

use crate::command::Task;
use crate::judged::{judged, report_in};
use crate::one::one_thread;
use crate::status::Status;
use std::alloc::{AllocError, Global};
use vi_bytes::Bytes;
use vi_check::{Verdict, check};
use vi_history::Outcome;
use vi_lines::Script;
use vi_report::ReportFault;
use vi_script::ScriptFault;

/// A status, and the whole text that is written with it.
#[derive(Debug, Drop)]
pub struct Answer {
    pub status: Status,
    pub text: Bytes,
}

/// Does the work on this input. An error means out of memory.
pub fn work(alloc: Global, task: Task, input: &[u8]) -> Result<Answer, AllocError>
    requires { length input.now ≤ limit_of task }
    ensures { IfOk result (λ answer. Does task input.now answer.status answer.text) }
{
    match accepted(alloc, task, input) {
        Ok(script) => answer_to(alloc, task, input, script),
        Err(ScriptFault::Bad { line, kind }) => refusal(alloc, Status::BadScript { line, kind }),
        Err(ScriptFault::OutOfMemory) => Err(AllocError),
    }
}

/// The script that is taken from the input, or why there is none.
fn accepted(alloc: Global, task: Task, input: &[u8]) -> Result<Script, ScriptFault>
    requires { length input.now ≤ limit_of task }
    ensures read { MatchResult result (λ s. accepts task input.now ≡ Ok s) (λ e. Faults e (accepts task input.now)) }
    ensures valid { IfOk result IsValid }
    ensures fields { IfOk result HasFields }
{
    match task {
        Task::Sim { .. } | Task::One => vi_script::parse(alloc, input),
        Task::Check => judged(alloc, input),
    }
}

/// What comes of a script. An error means out of memory.
fn answer_to(alloc: Global, task: Task, input: &[u8], script: Script) -> Result<Answer, AllocError>
    requires valid { IsValid script }
    requires fields { HasFields script }
    requires within { length input.now ≤ CHECK_LIMIT }
    ensures { IfOk result (λ answer. Answers task input.now script answer.status answer.text) }
{
    match task {
        Task::Sim {
            generator_seed,
            moves,
        } => sim(alloc, script, generator_seed, moves),
        Task::One => one(alloc, &script),
        Task::Check => judge(alloc, input, &script),
    }
}

/// Reads the report, and gives the verdict on it. An error means out of memory.
fn judge(alloc: Global, input: &[u8], script: &Script) -> Result<Answer, AllocError>
    requires valid { IsValid script.now }
    requires within { length input.now ≤ CHECK_LIMIT }
    ensures { IfOk result (λ answer. Answers Task.Check input.now script.now answer.status answer.text) }
{
    match vi_report::parse(alloc, report_in(input)) {
        Ok(report) => verdict_on(alloc, script, &report),
        Err(ReportFault::Bad { line }) => refusal(alloc, Status::BadReport { line }),
        Err(ReportFault::OutOfMemory) => Err(AllocError),
    }
}

/// The verdict on a report. An error means out of memory.
fn verdict_on(alloc: Global, script: &Script, report: &Outcome) -> Result<Answer, AllocError>
    requires valid { IsValid script.now }
    requires well_made { IsWellMade report.now }
    ensures status { IfOk result (λ answer. answer.status ≡ verdict_status (verdict script.now report.now)) }
    ensures text { IfOk result (λ answer. answer.text ≡ verdict_text (verdict script.now report.now)) }
{
    let verdict = check(alloc, script, report)?;
    Ok(Answer {
        status: status_of(&verdict),
        text: verdict.text(alloc)?,
    })
}

fn status_of(verdict: &Verdict) -> Status
    ensures { result ≡ verdict_status verdict.now }
{
    match verdict {
        Verdict::Legal => Status::Ok,
        _ => Status::Wrong,
    }
}

/// Runs the script under the schedule that is drawn from `generator_seed`, with so many drawn turns, and reports the
/// run. An error means out of memory.
fn sim(alloc: Global, script: Script, generator_seed: u64, moves: u32) -> Result<Answer, AllocError>
    requires valid { IsValid script }
    requires fields { HasFields script }
    ensures { (input : List ℕ) → IfOk result (λ answer. Answers (Task.Sim generator_seed moves) input script answer.status answer.text) }
{
    let outcome = vi_sim::sim(alloc, script, generator_seed, moves)?;
    report(alloc, &outcome)
}

/// Reports the replies of the one-thread device. An error means out of memory.
fn one(alloc: Global, script: &Script) -> Result<Answer, AllocError>
    requires { IsValid script.now }
    ensures { (input : List ℕ) → IfOk result (λ answer. Answers Task.One input script.now answer.status answer.text) }
{
    let outcome = one_thread(alloc, script)?;
    report(alloc, &outcome)
}

/// The report of an outcome. An error means out of memory.
fn report(alloc: Global, outcome: &Outcome) -> Result<Answer, AllocError>
    requires { IsWellMade outcome.now }
    ensures status { IfOk result (λ answer. answer.status ≡ Status.Ok) }
    ensures text { IfOk result (λ answer. answer.text ≡ text outcome.now) }
    ensures typed { OnOk result (IsTyped outcome.now) }
{
    Ok(Answer {
        status: Status::Ok,
        text: vi_report::text(alloc, outcome)?,
    })
}

/// A status with its own text. An error means out of memory.
pub fn refusal(alloc: Global, status: Status) -> Result<Answer, AllocError>
    ensures status { IfOk result (λ answer. answer.status ≡ status) }
    ensures text { IfOk result (λ answer. answer.text ≡ status_text status) }
{
    Ok(Answer {
        status,
        text: status.text(alloc)?,
    })
}
