//! Traces are judged.
ghost use Rattle.std.specs.Prelude.{IfOk};
ghost use Rattle.vi_trace.specs.Rules.{Judges, nothing_known};

use crate::finding::Finding;
use crate::state::State;
use crate::trace::Trace;
use std::alloc::{AllocError, Global};

/// The first line at which a rule is broken, and its first rule, or that the trace holds. An error means out of memory.
pub fn judge(alloc: Global, trace: &Trace) -> Result<Finding, AllocError>
    ensures { IfOk result (λ f. Judges nothing_known trace.now f) }
{
    let mut state = State::new(alloc);
    for line in trace.lines() {
        if let Some(rule) = state.take(&line.event)? {
            return Ok(Finding::Broken {
                line: line.number,
                rule,
            });
        }
    }
    Ok(Finding::Held)
}
