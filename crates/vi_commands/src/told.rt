//! The work of each command on an input that has no script: from its bytes to a status and a text.
ghost use Rattle.std.specs.Prelude.{◌≡◌, ◌≤◌, ℕ, List, Ok, IfOk, length};
ghost use Rattle.vi_trace.specs.Traces.{trace};
ghost use Rattle.vi_commands.specs.Work.{TellsOf, finding_status};
ghost use Rattle.vi_commands.specs.declared.command.TextTask.{TextTask};
ghost use Rattle.vi_commands.specs.declared.top.TheConstants.{INPUT_LIMIT};

use crate::command::TextTask;
use crate::status::Status;
use crate::work::{Answer, refusal};
use std::alloc::{AllocError, Global};
use vi_trace::{Finding, Trace, TraceFault, judge, parse};

/// Does the work on this input. An error means out of memory.
pub fn tell(alloc: Global, task: TextTask, input: &[u8]) -> Result<Answer, AllocError>
    requires { length input.now ≤ INPUT_LIMIT }
    ensures { IfOk result (λ answer. TellsOf task input.now answer.status answer.text) }
{
    match task {
        TextTask::Trace => traced(alloc, input),
    }
}

/// Reads a trace, and gives the finding on it. An error means out of memory.
fn traced(alloc: Global, input: &[u8]) -> Result<Answer, AllocError>
    requires { length input.now ≤ INPUT_LIMIT }
    ensures { IfOk result (λ answer. TellsOf TextTask.Trace input.now answer.status answer.text) }
{
    match parse(alloc, input) {
        Ok(lines) => found(alloc, &lines),
        Err(TraceFault::Bad { line }) => refusal(alloc, Status::BadTrace { line }),
        Err(TraceFault::OutOfMemory) => Err(AllocError),
    }
}

/// The finding on a trace, whatever text it was read from. An error means out of memory.
fn found(alloc: Global, lines: &Trace) -> Result<Answer, AllocError>
    ensures { (input : List ℕ) → trace input ≡ Ok lines.now → IfOk result (λ answer. TellsOf TextTask.Trace input answer.status answer.text) }
{
    let finding = judge(alloc, lines)?;
    Ok(Answer {
        status: status_of(finding),
        text: finding.text(alloc)?,
    })
}

fn status_of(finding: Finding) -> Status
    ensures { result ≡ finding_status finding }
{
    match finding {
        Finding::Held => Status::Ok,
        Finding::Broken { .. } => Status::Wrong,
    }
}
