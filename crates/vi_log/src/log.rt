//! The log that one thread keeps of its entries, until all are merged into the history.
ghost use Rattle.std.specs.Prelude.{◌≡◌, ◌↔◌, ◌<◌, ◌≤◌, [], Some, length, slice_get, IfOk, IsTrue};
ghost use Rattle.vi_log.specs.Logs.{EndsWithin, entry_in, no_entries, pushed};

use std::alloc::{AllocError, Global};
use std::marker::Model;
use vi_bytes::Bytes;
use vi_history::{Entry, Mark};

/// An entry of a log, whose bytes stand among those of all its entries.
#[derive(Clone, Copy, Debug)]
pub struct Logged {
    /// The place of the history that it was given, from 0.
    pub ticket: u64,
    pub mark: Mark,
    /// Where its bytes begin.
    pub from: usize,
    /// How many bytes it has.
    pub len: usize,
}

/// Entries in the order in which they were pushed, each with the ticket that was drawn for it, and room
/// for more: `push` takes no memory.
#[derive(Debug, Drop)]
pub struct Log {
    logged: Vec<Logged>,
    // The bytes of all entries, one after the other.
    bytes: Vec<u8>,
    // For how many more entries, and how many more bytes of theirs, there is room.
    spare_entries: u32,
    spare_bytes: u32,
}

impl Model for Log {
    ghost use Rattle.std.specs.Prelude.{◌+◌, ◌≤◌, length, map, All, vec_len, vec_capacity};
    ghost use Rattle.vi_log.specs.Logs.{LogValue, EndsWithin, entry_in};

    ghost Value = { LogValue };

    ghost view = { λ l. record { entries = map (entry_in l.bytes.items) l.logged.items; spare_entries = l.spare_entries; spare_bytes = l.spare_bytes } };

    ghost invariant = { λ l. All (EndsWithin (length l.bytes.items)) l.logged.items
        × (vec_len l.logged + l.spare_entries ≤ vec_capacity l.logged)
        × (vec_len l.bytes + l.spare_bytes ≤ vec_capacity l.bytes) };
}

impl Log {
    /// No entries, with room for so many and for so many bytes of theirs. An error means out of memory.
    pub fn with_room(alloc: Global, entries: u32, bytes: u32) -> Result<Log, AllocError>
        ensures { IfOk result (λ log. log ≡ no_entries entries bytes) }
    {
        let logged = Vec::with_capacity(alloc, entries as usize)?;
        let all = Vec::with_capacity(alloc, bytes as usize)?;
        Ok(Log {
            logged,
            bytes: all,
            spare_entries: entries,
            spare_bytes: bytes,
        })
    }

    /// Puts an entry with its ticket behind the others.
    pub fn push(&mut self, ticket: u64, mark: Mark, bytes: &[u8])
        requires entry { 1 ≤ self.old.spare_entries }
        requires bytes { length bytes.now ≤ self.old.spare_bytes }
        ensures { self.new ≡ pushed (record { ticket = ticket; entry = record { mark = mark; bytes = bytes.now } }) self.old }
    {
        let from = self.bytes.len();
        let len = bytes.len();
        self.bytes.extend_from_slice(bytes).unwrap();
        self.spare_bytes -= len as u32;
        self.logged.push_reserved(Logged {
            ticket,
            mark,
            from,
            len,
        });
        self.spare_entries -= 1;
    }

    /// How many entries there are.
    pub fn len(&self) -> usize
        ensures { result ≡ length self.now.entries }
    {
        self.logged.len()
    }

    /// Whether there are no entries.
    pub fn is_empty(&self) -> bool
        ensures { IsTrue result ↔ (self.now.entries ≡ []) }
    {
        self.logged.is_empty()
    }

    /// The ticket at this index, and a copy of its entry. An error means out of memory.
    pub fn get(&self, alloc: Global, index: usize) -> Result<(u64, Entry), AllocError>
        requires { index < length self.now.entries }
        ensures { IfOk result (λ r. slice_get self.now.entries index ≡ Some (record { ticket = r.0; entry = r.1 })) }
    {
        let logged = self.logged[index];
        let entry = copied(alloc, &self.bytes, &logged)?;
        Ok((logged.ticket, entry))
    }
}

// The entry that is kept so. An error means out of memory.
fn copied(alloc: Global, bytes: &[u8], logged: &Logged) -> Result<Entry, AllocError>
    requires { EndsWithin (length bytes.now) logged.now }
    ensures { IfOk result (λ e. e ≡ (entry_in bytes.now logged.now).entry) }
{
    let own = &bytes[logged.from..logged.from + logged.len];
    Ok(Entry {
        mark: logged.mark,
        bytes: Bytes::of(alloc, own)?,
    })
}
