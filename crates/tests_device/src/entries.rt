//! Entries that the tests make by hand.
ghost use Rattle.std.specs.Prelude.{◌≡◌, ◌+◌, ◌≤◌, All, OnOk, vec_len};
ghost use Rattle.vi_history.specs.Outcomes.{HasPart, HasBytes, IsEntry};

use std::alloc::{AllocError, Global};
use vi_bytes::Bytes;
use vi_history::{Caller, Entry, Kind, Mark};

/// Adds an entry that is made as declared.
pub(crate) fn add(
    alloc: Global,
    entries: &mut Vec<Entry>,
    caller: Caller,
    line: u32,
    part: u32,
    kind: Kind,
    code: u8,
    bytes: &[u8],
) -> Result<(), AllocError>
    requires part { HasPart caller part }
    requires line { 1 ≤ line }
    requires answer { HasBytes kind code bytes.now }
    requires entries { All IsEntry entries.old.items }
    ensures added { OnOk result (All IsEntry entries.new.items) }
    ensures count { OnOk result (vec_len entries.new ≡ vec_len entries.old + 1) }
{
    let mark = Mark {
        caller,
        line,
        part,
        kind,
        code,
    };
    let bytes = Bytes::of(alloc, bytes)?;
    entries.push(Entry { mark, bytes })?;
    Ok(())
}
