//! What a run comes to: its history, and the fault records that were delivered.
use crate::Entry;
use vi_bytes::Items;

/// A fault record that was delivered.
#[derive(Clone, Copy, Debug, PartialEq, Eq)]
pub struct Shown {
    /// The number of its entry in the history, from 1.
    pub entry: u32,
    /// The record (Virtio 1.2, 5.13.6.9).
    pub bytes: [u8; 24],
}

/// The history of a run, the fault records that were delivered, and how many were dropped for want of
/// an event buffer.
#[derive(Debug, Drop)]
pub struct Outcome {
    pub entries: Items<Entry>,
    pub shown: Items<Shown>,
    pub dropped: u32,
}
