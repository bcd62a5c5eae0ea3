//! A back end's lines, copied from the script.
ghost use Rattle.std.specs.Prelude.{◌≡◌, ◌++◌, fold, IfOk, OnOk};
ghost use Rattle.std.specs.Option.{option_copied};
ghost use Rattle.vi_lines.specs.Calls.{lines_of};
ghost use Rattle.vi_backend.specs.Own.{awaited_of, listed, marked, marked_by};

use std::alloc::{AllocError, Global};
use vi_bytes::{Bytes, Items};
use vi_history::Caller;
use vi_lines::{Await, Job, Line, Script};

fn copied_job(alloc: Global, job: &Job) -> Result<Job, AllocError>
    ensures { IfOk result (λ copy. copy ≡ job.now) }
{
    match job {
        Job::Ask(request) => Ok(Job::Ask(*request)),
        Job::Raw { read, write } => {
            let read = Bytes::of(alloc, read.as_slice())?;
            Ok(Job::Raw {
                read,
                write: *write,
            })
        }
        Job::Bypass(on) => Ok(Job::Bypass(*on)),
        Job::Read { iova, len } => Ok(Job::Read {
            iova: *iova,
            len: *len,
        }),
        Job::Write { iova, bytes } => {
            let bytes = Bytes::of(alloc, bytes.as_slice())?;
            Ok(Job::Write { iova: *iova, bytes })
        }
    }
}

fn copied_line(alloc: Global, line: &Line) -> Result<Line, AllocError>
    ensures { IfOk result (λ copy. copy ≡ line.now) }
{
    let job = copied_job(alloc, &line.job)?;
    let awaits = Items::of(alloc, line.awaits.as_slice())?;
    Ok(Line {
        caller: line.caller,
        job,
        add: line.add,
        awaits,
    })
}

/// Adds a copy of the line, if there is one.
fn push_copy(alloc: Global, lines: &mut Vec<Line>, line: Option<&Line>) -> Result<(), AllocError>
    ensures { OnOk result (lines.new.items ≡ lines.old.items ++ listed (option_copied line.entry)) }
{
    if let Some(line) = line {
        lines.push(copied_line(alloc, line)?)?;
    }
    Ok(())
}

/// A copy of the caller's lines, in the script's order. An error means out of memory.
#[tactic(auto, using(crate::proofs::Copying::take_listed))]
pub fn copied_lines(alloc: Global, script: &Script, caller: Caller) -> Result<Vec<Line>, AllocError>
    ensures { IfOk result (λ lines. lines.items ≡ lines_of script.now caller) }
{
    let mut lines = Vec::new(alloc);
    for before in 0..script.count(caller) {
        push_copy(alloc, &mut lines, script.line(caller, before + 1))?;
    }
    Ok(lines)
}

/// Marks the line with this number, if the caller has so many lines.
fn mark(awaited: &mut Vec<bool>, line: u32)
    ensures { awaited.new.items ≡ marked line awaited.old.items }
{
    if line > 0 && line as usize <= awaited.len() {
        awaited[line as usize - 1] = true;
    }
}

/// Marks the caller's lines that these await.
fn mark_awaited(awaited: &mut Vec<bool>, awaits: &[Await], caller: Caller)
    ensures { awaited.new.items ≡ fold (marked_by caller) awaited.old.items awaits.now }
{
    for a in awaits {
        if a.caller == caller {
            mark(awaited, a.line);
        }
    }
}

/// Of each of the caller's first lines, so many, whether some line of the script awaits it. An error is want of
/// memory.
pub fn awaited_lines(
    alloc: Global,
    script: &Script,
    caller: Caller,
    count: u32,
) -> Result<Vec<bool>, AllocError>
    ensures { IfOk result (λ awaited. awaited.items ≡ awaited_of script.now caller count) }
{
    let mut awaited = vec![in alloc; false; count as usize]?;
    for line in script.lines.as_slice() {
        mark_awaited(&mut awaited, line.awaits.as_slice(), caller);
    }
    Ok(awaited)
}
