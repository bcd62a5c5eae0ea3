//! The history out of the logs of all threads.
ghost use Rattle.std.specs.Prelude.{◌≡◌, ℕ, fold, IfOk};
ghost use Rattle.vi_log.specs.Logs.{AreTicketed, IsMerged, blank, placed};

use crate::Log;
use std::alloc::{AllocError, Global};
use vi_bytes::Bytes;
use vi_history::{Caller, Entry, Kind, Mark};

/// The entries of the logs by rising ticket, where the tickets are 0, 1, 2 and so on, each once. An error
/// means out of memory.
pub fn merge(alloc: Global, logs: &[Log]) -> Result<Vec<Entry>, AllocError>
    requires { (n : ℕ) × AreTicketed n logs.now }
    ensures { IfOk result (λ history. IsMerged logs.now history.items) }
{
    let mut history = Vec::new(alloc);
    for log in logs {
        place_all(alloc, &mut history, log)?;
    }
    Ok(history)
}

// Puts each entry of the log in its place. An error means out of memory.
fn place_all(alloc: Global, history: &mut Vec<Entry>, log: &Log) -> Result<(), AllocError>
    ensures { IfOk result (λ _. history.new.items ≡ fold placed history.old.items log.now.entries) }
{
    for index in 0..log.len() {
        let (ticket, entry) = log.get(alloc, index)?;
        place(alloc, history, ticket as usize, entry)?;
    }
    Ok(())
}

// Puts the entry in its place: of a blank entry, or behind blank entries up to there. An error is want
// of memory.
fn place(
    alloc: Global,
    history: &mut Vec<Entry>,
    ticket: usize,
    entry: Entry,
) -> Result<(), AllocError>
    ensures { IfOk result (λ _. history.new.items ≡ placed history.old.items (record { ticket = ticket; entry = entry })) }
{
    if ticket < history.len() {
        history[ticket] = entry;
        return Ok(());
    }
    for _ in history.len()..ticket {
        history.push(blank(alloc))?;
    }
    history.push(entry)?;
    Ok(())
}

// What stands at a place until its entry comes.
fn blank(alloc: Global) -> Entry
    ensures { result ≡ blank }
{
    Entry {
        mark: Mark {
            caller: Caller::Driver(0),
            line: 0,
            part: 0,
            kind: Kind::Nothing,
            code: 0,
        },
        bytes: Bytes::new(alloc),
    }
}
