//! The event queue.
ghost use Rattle.std.specs.Prelude.{◌≡◌, ◌≤◌, ◌<◌, ◌+◌, ◌-◌, ◌^◌, ◌↔◌, [], drop, length, map, slice_get, option_map, IfOk, IsNone, Some};
ghost use Rattle.vi_vring.specs.Moves.{IsRingSize};
ghost use Rattle.vi_model.specs.Serves.{noted};
ghost use Rattle.vi_events.specs.Value.{no_events, without_oldest};
ghost use Rattle.vi_events.specs.Buffers.{AreHeld, lists_in};

use crate::buffers::Buffers;
use std::alloc::{AllocError, Global};
use std::marker::Model;
use vi_history::Shown;
use vi_vring::Ring;

/// The event queue (Virtio 1.2, 5.13.6.9): the fault records that were delivered, of which the last ones are
/// still in the driver's buffers until a reader takes them, and how many were dropped. Room for the records is
/// taken when it is built, and no later call takes memory.
#[derive(Drop)]
pub struct EventQueue {
    buffers: Buffers,
    shown: Vec<Shown>,
    // How many of the delivered records a reader has taken.
    taken: usize,
    // For how many more records there is room.
    room: u32,
    dropped: u32,
}

impl Model for EventQueue {
    ghost use Rattle.vi_events.specs.Value.{EventQueue};

    ghost Value = { EventQueue };

    ghost use Rattle.vi_events.specs.Queue.{queue_of, IsQueue};

    ghost view = { queue_of };

    ghost invariant = { IsQueue };
}

impl EventQueue {
    /// So many buffers, which the driver has offered, and room for so many records. No record was delivered or
    /// dropped yet. An error means out of memory. Condition: there are 16, 32, 64, 128 or 256 buffers.
    pub fn build(alloc: Global, buffers: u16, room: u32) -> Result<EventQueue, AllocError>
        requires { IsRingSize buffers }
        ensures { IfOk result (λ q. q ≡ record { buffers = buffers; events = no_events room }) }
    {
        let shown = Vec::with_capacity(alloc, room as usize)?;
        let buffers = Buffers::build(alloc, buffers)?;
        Ok(EventQueue {
            buffers,
            shown,
            taken: 0,
            room,
            dropped: 0,
        })
    }

    /// A fault's record of these bytes is written to the buffer that was offered first, or dropped where no
    /// buffer is free. Its number is that of its fault, from 1.
    pub fn note(&mut self, bytes: &[u8; 24])
        requires room { 1 ≤ self.old.events.room }
        requires few { length self.old.events.shown + self.old.events.dropped + 1 < 2 ^ 32 }
        ensures { self.new ≡ record self.old { events = noted self.old.buffers self.old.events bytes.now } }
    {
        if !self.buffers.put(bytes) {
            self.dropped += 1;
            return;
        }
        let entry = self.shown.len() as u32 + self.dropped + 1;
        self.shown.push_reserved(Shown {
            entry,
            bytes: *bytes,
        });
        self.room -= 1;
    }

    /// The oldest record that nobody has taken, read from its buffer, which is offered again; `None` where
    /// there is none, and then nothing changes.
    pub fn take(&mut self) -> Option<[u8; 24]>
        ensures oldest { result ≡ option_map (λ s. s.bytes) (slice_get self.old.events.waiting 0) }
        ensures none { IsNone result ↔ (self.old.events.waiting ≡ []) }
        ensures rest { self.new ≡ record self.old { events = without_oldest self.old.events } }
    {
        let bytes = self.buffers.take()?;
        self.taken += 1;
        Some(bytes)
    }

    /// The records that were delivered, in the order of their faults.
    pub fn shown(&self) -> &[Shown]
        ensures { result.now ≡ self.now.events.shown }
    {
        &self.shown
    }

    /// How many records were dropped.
    pub fn dropped(&self) -> u32
        ensures { result ≡ self.now.events.dropped }
    {
        self.dropped
    }

    /// The ring of the buffers: those that wait for a record are available, and the others used with their
    /// records, the oldest first.
    pub fn queue(&self) -> &Ring
        ensures size { result.now.size ≡ self.now.buffers }
        ensures known { result.now.lists ≡ Some (lists_in result.now) }
        ensures held { AreHeld (record { buffers = self.now.buffers; records = map (λ s. s.bytes) self.now.events.waiting }) (lists_in result.now) }
        ensures last { self.now.events.waiting ≡ drop (length self.now.events.shown - length self.now.events.waiting) self.now.events.shown }
    {
        self.buffers.ring()
    }
}
