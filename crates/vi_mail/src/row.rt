//! The four lanes of one back end.
ghost use Rattle.std.specs.Prelude.{◌≡◌, ◌<◌, ◌≤◌, ◌↔◌, length, slice_get, IsTrue, IfSome, IfOk};
ghost use Rattle.vi_iotlb.specs.Frames.{IsSendable};
ghost use Rattle.vi_mail.specs.Lanes.{lane_of, bound_of, no_lanes, sent_in, taken_from, oldest_bytes};

use crate::queue::FrameQueue;
use std::alloc::{AllocError, Global};
use std::marker::Model;
use vi_iotlb::Frame;

/// A lane of a back end. Down is from the device to the back end, and up from it.
#[derive(Clone, Copy, Debug, PartialEq, Eq)]
pub enum Lane {
    /// Updates and invalidates.
    MainDown,
    /// Acknowledgements of invalidates.
    MainUp,
    /// Replies to misses and access fails.
    BackDown,
    /// Misses and access fails.
    BackUp,
}

/// The four lanes of one back end, with the bounds that `slots` gives them.
#[derive(Drop)]
pub struct Row {
    main_down: FrameQueue,
    main_up: FrameQueue,
    back_down: FrameQueue,
    back_up: FrameQueue,
    slots: u32,
}

impl Model for Row {
    ghost use Rattle.vi_mail.specs.Lanes.{SlottedLanes};

    ghost Value = { SlottedLanes };

    ghost use Rattle.vi_mail.specs.Inside.{row_lanes, HasBounds};

    ghost view = { row_lanes };

    ghost invariant = { HasBounds };
}

impl Row {
    /// Empty lanes. An error means out of memory.
    pub fn build(alloc: Global, slots: u32) -> Result<Row, AllocError>
        ensures { IfOk result (λ r. r ≡ record { lanes = no_lanes; slots = slots }) }
    {
        let main_down = FrameQueue::build(alloc, slots as usize + 1)?;
        let main_up = FrameQueue::build(alloc, slots as usize)?;
        let back_down = FrameQueue::build(alloc, 1)?;
        let back_up = FrameQueue::build(alloc, 1)?;
        Ok(Row {
            main_down,
            main_up,
            back_down,
            back_up,
            slots,
        })
    }

    /// Whether the lane has as many frames as it may.
    pub fn is_full(&self, lane: Lane) -> bool
        ensures full { IsTrue result ↔ (length (lane_of lane self.now.lanes) ≡ bound_of lane self.now.slots) }
        ensures bounded { length (lane_of lane self.now.lanes) ≤ bound_of lane self.now.slots }
    {
        match lane {
            Lane::MainDown => self.main_down.is_full(),
            Lane::MainUp => self.main_up.is_full(),
            Lane::BackDown => self.back_down.is_full(),
            Lane::BackUp => self.back_up.is_full(),
        }
    }

    /// The frame goes to the end of the lane.
    pub fn push(&mut self, lane: Lane, frame: &Frame)
        requires room { length (lane_of lane self.old.lanes) < bound_of lane self.old.slots }
        requires sendable { IsSendable frame.now }
        ensures { self.new ≡ record { lanes = sent_in lane frame.now self.old.lanes; slots = self.old.slots } }
    {
        match lane {
            Lane::MainDown => self.main_down.push(frame),
            Lane::MainUp => self.main_up.push(frame),
            Lane::BackDown => self.back_down.push(frame),
            Lane::BackUp => self.back_up.push(frame),
        }
    }

    /// The oldest frame of the lane, which leaves, or `None` where there is none.
    pub fn pop(&mut self, lane: Lane) -> Option<Frame>
        ensures oldest { result ≡ slice_get (lane_of lane self.old.lanes) 0 }
        ensures rest { self.new ≡ record { lanes = taken_from lane self.old.lanes; slots = self.old.slots } }
        ensures sendable { IfSome result IsSendable }
    {
        match lane {
            Lane::MainDown => self.main_down.pop(),
            Lane::MainUp => self.main_up.pop(),
            Lane::BackDown => self.back_down.pop(),
            Lane::BackUp => self.back_up.pop(),
        }
    }

    /// The bytes of the lane's oldest frame, or none where there is none.
    pub fn oldest(&self, lane: Lane) -> &[u8]
        ensures bytes { result.now ≡ oldest_bytes (lane_of lane self.now.lanes) }
        ensures sendable { IfSome (slice_get (lane_of lane self.now.lanes) 0) IsSendable }
    {
        match lane {
            Lane::MainDown => self.main_down.oldest(),
            Lane::MainUp => self.main_up.oldest(),
            Lane::BackDown => self.back_down.oldest(),
            Lane::BackUp => self.back_up.oldest(),
        }
    }
}
