//! The event queue (Virtio 1.2, 5.13.6.9): fault records go into buffers that the driver offered,
//! or are dropped where none is free, and a reader takes the oldest and gives its buffer back.
//! This is for an author of a device.
//!
//! Main calls:
//! - `EventQueue::note` writes a record into the buffer that was offered first, or drops it.
//! - `EventQueue::take` answers the oldest record that nobody has taken, or `None`.
//! - `EventQueue::shown` and `dropped` answer the records delivered, and how many were dropped.
//!
//! # Example
//!
//! A test of `tests_rings` runs this on an empty queue of 16 buffers. It gets `None`, then both
//! records in the order of their faults, then `None`:
//!
//! ```
//! fn taken(queue: &mut EventQueue) -> [Option<[u8; 24]>; 4]
//!     requires { queue.old ≡ record { buffers = 16; events = no_events 2 } }
//! {
//!     let before = queue.take();
//!     queue.note(&record(1));
//!     queue.note(&record(2));
//!     [before, queue.take(), queue.take(), queue.take()]
//! }
//! ```
//!
//! # Limits
//!
//! There are 16, 32, 64, 128 or 256 buffers of 24 bytes. `build` takes all room, with that for a
//! stated number of delivered records, and out of memory is its error. No later call takes memory.
//! `note` asks that room for one record is left, and that its number, from 1, is below 2^32.
//! `vi_fault` writes and reads the 24 bytes.
//!
//! # Source
//!
//! Virtio 1.2, 5.13.6.9 (fault reporting), over a split virtqueue (2.7, `vi_vring`).
#![tactic(auto)]

mod buffers;
mod queue;

pub use queue::EventQueue;
