//! A sink that keeps its bytes in memory, takes a few bytes a call and fails in listed calls.
ghost use Rattle.std.specs.Prelude.{◌≡◌, ◌+◌, ◌<◌, ◌≤◌, ◌==◌, ◌↔◌, ◌⊎◌, List, [], length, min, vec_len, vec_capacity, IsTrue, IsErr, IfOk};
ghost use Rattle.std.specs.List.{list_any};
ghost use Rattle.std.specs.Io.{WritesAtMost};
ghost use Rattle.std.specs.Io.KnownBytes.{WriteAppends};
ghost use Rattle.vi_commands.specs.Causes.{HasCause};

use crate::list_source::is_listed;
use crate::outside::{Failed, Sink};
use std::alloc::{AllocError, Global};
use vi_bytes::Items;

/// A sink that keeps what it took, at most `most` bytes in a call. The calls whose numbers, from
/// 1, stand in `fails` fail, and so does one whose bytes don't fit into the room. It tells what it
/// took.
#[derive(Debug, Drop)]
pub struct ListSink {
    pub taken: Vec<u8>,
    pub most: u32,
    pub fails: Items<u32>,
    room: u32,
    calls: u64,
    faults: u64,
    ghost takes_some: { 1 ≤ most },
    ghost within: { vec_len taken ≤ room },
    ghost reserved: { room ≤ vec_capacity taken },
}

impl ListSink {
    ghost use Rattle.vi_commands.specs.ListSink.{room_of, next_write, write_faults};

    /// A sink with room for so many bytes, which has taken nothing, with no call made and no
    /// fault. All its memory is taken here. An error means out of memory.
    pub fn with_room(
        alloc: Global,
        room: u32,
        most: u32,
        fails: Items<u32>,
    ) -> Result<ListSink, AllocError>
        requires { 1 ≤ most }
        ensures nothing { IfOk result (λ sink. sink.taken.items ≡ []) }
        ensures room { IfOk result (λ sink. room_of sink ≡ room) }
        ensures most { IfOk result (λ sink. sink.most ≡ most) }
        ensures fails { IfOk result (λ sink. sink.fails ≡ fails) }
        ensures first { IfOk result (λ sink. next_write sink ≡ 1) }
        ensures no_fault { IfOk result (λ sink. write_faults sink ≡ 0) }
    {
        Ok(ListSink {
            taken: Vec::with_capacity(alloc, room as usize)?,
            most,
            fails,
            room,
            calls: 0,
            faults: 0,
        })
    }

    /// The bytes that it took.
    pub fn taken(&self) -> &[u8]
        ensures { result.now ≡ self.now.taken.items }
    {
        self.taken.as_slice()
    }
}

impl Sink for ListSink {
    ghost use Rattle.std.specs.Prelude.{Some};
    ghost use Rattle.vi_commands.specs.ListSink.{room_of, next_write, write_faults, IsOneWriteLater};

    ghost taken = { λ sink. Some sink.taken.items };

    ghost faults = { write_faults };

    fn write(&mut self, piece: &[u8]) -> Result<usize, Failed>
        ensures bound { WritesAtMost result piece.now }
        ensures some { IfOk result (λ n. 0 < length piece.now → 0 < n) }
        ensures bytes { WriteAppends (Some self.old.taken.items) (Some self.new.taken.items)
            result piece.now }
        ensures cause { HasCause (write_faults self.old) (write_faults self.new) result }

        // Exactly the listed calls fail, and those whose bytes don't fit.
        ensures fails { IsErr result
            ↔ (IsTrue (list_any (λ k. k == next_write self.old) self.old.fails)
            ⊎ (room_of self.old
            < length self.old.taken.items + min (length piece.now) self.old.most)) }
        ensures count { IfOk result (λ n. n ≡ min (length piece.now) self.old.most) }
        ensures later { IsOneWriteLater self.old self.new }
    {
        self.calls = self.calls.saturating_add(1);
        let count = piece.len().min(self.most as usize);
        let listed = is_listed(self.fails.as_slice(), self.calls);
        if listed || count > self.room as usize - self.taken.len() {
            self.faults = self.faults.saturating_add(1);
            return Err(Failed);
        }
        self.taken.extend_from_slice(&piece[..count]).unwrap();
        Ok(count)
    }
}
