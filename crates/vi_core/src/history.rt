//! The history as it grows.
ghost use Rattle.std.specs.Prelude.{◌≡◌, ◌≤◌, length, IfOk};
ghost use Rattle.vi_core.specs.Histories.{EndsWithin, entry_in, no_entries, pushed};

use std::alloc::{AllocError, Global};
use std::marker::Model;
use vi_bytes::Bytes;
use vi_history::{Entry, Mark};

/// An entry, whose bytes stand among those of all entries.
#[derive(Clone, Copy, Debug)]
pub struct Kept {
    pub mark: Mark,
    /// Where its bytes begin.
    pub from: usize,
    /// How many bytes it has.
    pub len: usize,
}

/// The entries of a run in order, with room for more: no call but `with_room` and `entries` takes
/// memory.
#[derive(Debug, Drop)]
pub struct History {
    kept: Vec<Kept>,
    // The bytes of all entries, one after the other.
    bytes: Vec<u8>,
    // For how many more entries, and how many more bytes of theirs, there is room.
    spare_entries: u32,
    spare_bytes: u32,
}

impl Model for History {
    ghost use Rattle.std.specs.Prelude.{◌+◌, ◌≤◌, length, map, All, vec_len, vec_capacity};
    ghost use Rattle.vi_core.specs.Histories.{HistoryValue, EndsWithin, entry_in};

    ghost Value = { HistoryValue };

    ghost view = { λ h. record { entries = map (entry_in h.bytes.items) h.kept.items; spare_entries = h.spare_entries; spare_bytes = h.spare_bytes } };

    ghost invariant = { λ h. All (EndsWithin (length h.bytes.items)) h.kept.items
        × (vec_len h.kept + h.spare_entries ≤ vec_capacity h.kept)
        × (vec_len h.bytes + h.spare_bytes ≤ vec_capacity h.bytes) };
}

impl History {
    /// No entries, with room for so many and for so many bytes of theirs. An error means out of memory.
    pub fn with_room(alloc: Global, entries: u32, bytes: u32) -> Result<History, AllocError>
        ensures { IfOk result (λ h. h ≡ no_entries entries bytes) }
    {
        let kept = Vec::with_capacity(alloc, entries as usize)?;
        let all = Vec::with_capacity(alloc, bytes as usize)?;
        Ok(History {
            kept,
            bytes: all,
            spare_entries: entries,
            spare_bytes: bytes,
        })
    }

    /// Puts an entry behind the others. There is room for it and for its bytes. Takes no memory.
    pub fn push(&mut self, mark: Mark, bytes: &[u8])
        requires entry { 1 ≤ self.old.spare_entries }
        requires bytes { length bytes.now ≤ self.old.spare_bytes }
        ensures { self.new ≡ pushed (record { mark = mark; bytes = bytes.now }) self.old }
    {
        let from = self.bytes.len();
        let len = bytes.len();
        self.bytes.extend_from_slice(bytes).unwrap();
        self.spare_bytes -= len as u32;
        self.kept.push_reserved(Kept { mark, from, len });
        self.spare_entries -= 1;
    }

    /// A copy of the entries, in order. An error means out of memory.
    pub fn entries(&self, alloc: Global) -> Result<Vec<Entry>, AllocError>
        ensures { IfOk result (λ v. v.items ≡ self.now.entries) }
    {
        let mut entries = Vec::with_capacity(alloc, self.kept.len())?;
        for kept in &self.kept {
            entries.push(copied(alloc, &self.bytes, kept)?)?;
        }
        Ok(entries)
    }
}

// The entry that is kept so. An error means out of memory.
fn copied(alloc: Global, bytes: &[u8], kept: &Kept) -> Result<Entry, AllocError>
    requires { EndsWithin (length bytes.now) kept.now }
    ensures { IfOk result (λ e. e ≡ entry_in bytes.now kept.now) }
{
    let own = &bytes[kept.from..kept.from + kept.len];
    Ok(Entry {
        mark: kept.mark,
        bytes: Bytes::of(alloc, own)?,
    })
}
