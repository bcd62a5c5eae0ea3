//! What is left of a run.
ghost use Rattle.std.specs.Prelude.{◌≡◌, IfOk};
ghost use Rattle.vi_history.specs.Outcomes.{IsWellMade};
ghost use Rattle.vi_run.specs.Runs.{CameTo, IsRun};

use std::alloc::{AllocError, Global};
use std::marker::Model;
use vi_core::outcome_of;
use vi_history::Outcome;
use vi_log::{Log, merge};
use vi_turns::Closed;

/// What a run has come to: its shared object as it was closed, and the logs of the passes that were joined. Contracts see
/// the last view of pass 0, these logs, and the control.
#[derive(Drop)]
pub struct Finished {
    closed: Closed,
    logs: Vec<Log>,
}

impl Model for Finished {
    ghost use Rattle.vi_run.specs.Runs.{FinishedValue, IsRun};

    ghost Value = { FinishedValue };

    ghost view = { λ f. record { last = f.closed.last; logs = f.logs.items; control = f.closed.control } };

    ghost invariant = { λ f. IsRun (record { last = f.closed.last; logs = f.logs.items; control = f.closed.control }) };
}

impl Finished {
    ghost use Rattle.std.specs.Prelude.{◌≡◌, IfOk};
    ghost use Rattle.vi_history.specs.Outcomes.{IsWellMade};
    ghost use Rattle.vi_run.specs.Runs.{CameTo, IsRun};

    pub(crate) fn of(closed: Closed, logs: Vec<Log>) -> Finished
        requires { IsRun (record { last = closed.last; logs = logs.items; control = closed.control }) }
        ensures { result ≡ record { last = closed.last; logs = logs.items; control = closed.control } }
    {
        Finished { closed, logs }
    }

    /// What the run has come to: the entries of all logs by rising ticket, the fault records that were delivered and how many
    /// were dropped. Every line is finished. An error means out of memory.
    pub fn outcome(&self, alloc: Global) -> Result<Outcome, AllocError>
        ensures outcome { IfOk result (λ o. CameTo self.now o) }
        ensures made { IfOk result IsWellMade }
        ensures run { IsRun self.now }
    {
        let entries = merge(alloc, &self.logs)?;
        let control = &self.closed.control;
        outcome_of(alloc, entries, control.shown(), control.dropped())
    }
}
