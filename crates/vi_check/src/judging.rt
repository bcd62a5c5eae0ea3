//! The verdict on a report of a script.
ghost use Rattle.std.specs.Prelude.{◌≡◌, IfOk};
ghost use Rattle.vi_history.specs.Outcomes.{IsWellMade};
ghost use Rattle.vi_lines.specs.Valid.{IsValid};
ghost use Rattle.vi_check.specs.Laws.{LegalExactly};
ghost use Rattle.vi_check.specs.Verdicts.{verdict};

use crate::Verdict;
use crate::faults::bad_faults;
use crate::walk::Walk;
use std::alloc::{AllocError, Global};
use vi_history::Outcome;
use vi_lines::Script;

/// The verdict on a report of a script. The entries are gone through from the first on. One is `Extra` where it answers
/// no call of the script that is left, `Order` where its call isn't due or an awaited line isn't finished, and `Wrong`
/// where the one-thread device answers otherwise after the entries before it. Behind the entries a call that is left is
/// `Missing`, and then the fault records are compared with those of the entries. An error means out of memory.
pub fn check(alloc: Global, script: &Script, report: &Outcome) -> Result<Verdict, AllocError>
    requires valid { IsValid script.now }
    requires well_made { IsWellMade report.now }
    ensures verdict { IfOk result (λ v. v ≡ verdict script.now report.now) }
{
    let mut walk = Walk::new(alloc, script)?;
    if let Some(found) = walk.first_finding(alloc, script, report.entries.as_slice())? {
        return Ok(found);
    }
    if let Some(missing) = walk.first_missing(script) {
        return Ok(missing);
    }
    match bad_faults(script.setup.queue, walk.records(), report) {
        Some(at) => Ok(Verdict::Faults { at }),
        None => Ok(Verdict::Legal),
    }
}

/// The verdict is `Legal` exactly where the entries are in order, each answer is that of the one-thread device, and the
/// fault records are those of the entries.
pub fn legal_exactly()
    ensures { LegalExactly }
{}
