//! A tracker is led through entries of a script's history.
ghost use Rattle.std.specs.Prelude.{◌≡◌, IfOk, IfSome, OnOk};
ghost use Rattle.vi_lines.specs.Valid.{IsValid};
ghost use Rattle.vi_state.specs.Followed.{IsCarried};
ghost use Rattle.vi_dirty.specs.Led.{IsReady, called, led, maps_by, maps_in};

use crate::tracker::Tracker;
use std::alloc::{AllocError, Global};
use vi_history::{Call, Entry, Mark};
use vi_lines::Script;
use vi_state::maps_made;

/// The call of the script that the entry answers, if there is one. An error means out of memory.
fn call_of(alloc: Global, script: &Script, entry: &Entry) -> Result<Option<Call>, AllocError>
    requires { IsValid script.now }
    ensures call { IfOk result (λ call. call ≡ called script.now entry.now) }
    ensures carried { IfOk result (λ call. IfSome call IsCarried) }
{
    let Mark {
        caller,
        line,
        part,
        ..
    } = entry.mark;
    script.call(alloc, caller, line, part)
}

/// How many mappings the call of the entry made: one, if it is a MAP that took effect. An error means out of memory.
fn count_by(alloc: Global, script: &Script, entry: &Entry) -> Result<u32, AllocError>
    requires { IsValid script.now }
    ensures { IfOk result (λ maps. maps ≡ maps_by entry.now (called script.now entry.now)) }
{
    match call_of(alloc, script, entry)? {
        Some(call) => Ok(maps_made(&call, entry)),
        None => Ok(0),
    }
}

/// How many mappings the calls of the entries made. An error means out of memory: so many as no number has can't be kept.
pub fn count_maps(alloc: Global, script: &Script, entries: &[Entry]) -> Result<u32, AllocError>
    requires { IsValid script.now }
    ensures { IfOk result (λ maps. maps ≡ maps_in script.now entries.now) }
{
    let mut maps = 0u32;
    for entry in entries {
        let made = count_by(alloc, script, entry)?;
        let Some(sum) = maps.checked_add(made) else {
            return Err(AllocError);
        };
        maps = sum;
    }
    Ok(maps)
}

/// Leads the tracker through the entries. An error means out of memory.
pub fn feed_all(
    alloc: Global,
    script: &Script,
    tracker: &mut Tracker,
    entries: &[Entry],
) -> Result<(), AllocError>
    requires valid { IsValid script.now }
    requires ready { IsReady script.now tracker.old.one tracker.old.spare entries.now }
    ensures { OnOk result (tracker.new ≡ led script.now tracker.old entries.now) }
{
    for entry in entries {
        if let Some(call) = call_of(alloc, script, entry)? {
            tracker.feed(&call, entry);
        }
    }
    Ok(())
}
