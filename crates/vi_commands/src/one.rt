//! The outcome of a script on the one-thread device.
ghost use Rattle.std.specs.Prelude.{◌≡◌, IfOk};
ghost use Rattle.vi_history.specs.Outcomes.{IsWellMade};
ghost use Rattle.vi_lines.specs.Valid.{IsValid};
ghost use Rattle.vi_commands.specs.OneThread.{one_thread};

use crate::counts::Counts;
use crate::course::Course;
use std::alloc::{AllocError, Global};
use vi_history::Outcome;
use vi_lines::Script;

/// Replies to the script's lines in the order of the text, without caches or threads, a transfer's parts up
/// to the first that faults. All records are shown. An error means out of memory.
#[tactic(auto, unfolding(crate::specs::OneThread::one_thread))]
pub fn one_thread(alloc: Global, script: &Script) -> Result<Outcome, AllocError>
    requires { IsValid script.now }
    ensures outcome { IfOk result (λ o. o ≡ one_thread script.now) }
    ensures made { IfOk result IsWellMade }
{
    let mut course = Course::new(alloc, &script.setup)?;
    let mut counts = Counts::new(alloc);
    for line in script.lines.as_slice() {
        let number = counts.next(line.caller)?;
        course.reply_to(alloc, line, number)?;
    }
    Ok(course.outcome())
}
