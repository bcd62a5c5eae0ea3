//! A lane: frames in the order in which they were sent.
ghost use Rattle.std.specs.Prelude.{◌≡◌, ◌<◌, ◌≤◌, ◌↔◌, length, slice_get, IsTrue, IfSome, IfOk};
ghost use Rattle.vi_iotlb.specs.Frames.{IsSendable};
ghost use Rattle.vi_mail.specs.Lanes.{empty_queue, appended, without_oldest, oldest_bytes};

use crate::coded::Coded;
use std::alloc::{AllocError, Global};
use std::collections::VecDeque;
use std::marker::Model;
use vi_iotlb::Frame;

/// At most `bound` frames, first in, first out, as their bytes. All room is taken when it is made.
#[derive(Drop)]
pub struct FrameQueue {
    coded: VecDeque<Coded>,
    bound: usize,
}

impl Model for FrameQueue {
    ghost use Rattle.vi_mail.specs.Lanes.{Bounded};

    ghost Value = { Bounded };

    ghost use Rattle.std.specs.Prelude.{◌≤◌};
    ghost use Rattle.std.specs.VecDeque.{deque_len, deque_capacity};

    ghost view = { λ q. record { frames = q.coded.items; bound = q.bound } };

    ghost invariant = { λ q. (deque_len q.coded ≤ q.bound) × (q.bound ≤ deque_capacity q.coded) };
}

impl FrameQueue {
    /// No frames, and room for `bound`. An error means out of memory.
    pub fn build(alloc: Global, bound: usize) -> Result<FrameQueue, AllocError>
        ensures { IfOk result (λ q. q ≡ empty_queue bound) }
    {
        let coded = VecDeque::with_capacity(alloc, bound)?;
        Ok(FrameQueue { coded, bound })
    }

    /// Whether it has as many frames as it may.
    pub fn is_full(&self) -> bool
        ensures full { IsTrue result ↔ (length self.now.frames ≡ self.now.bound) }
        ensures bounded { length self.now.frames ≤ self.now.bound }
    {
        self.coded.len() == self.bound
    }

    /// The frame goes to the end.
    pub fn push(&mut self, frame: &Frame)
        requires room { length self.old.frames < self.old.bound }
        requires sendable { IsSendable frame.now }
        ensures { self.new ≡ appended frame.now self.old }
    {
        self.coded.push_back_reserved(Coded::of(frame));
    }

    /// The oldest frame, which leaves, or `None` where there is none.
    pub fn pop(&mut self) -> Option<Frame>
        ensures oldest { result ≡ slice_get self.old.frames 0 }
        ensures rest { self.new ≡ without_oldest self.old }
        ensures sendable { IfSome result IsSendable }
    {
        match self.coded.pop_front() {
            Some(coded) => Some(coded.frame()),
            None => None,
        }
    }

    /// The bytes of the oldest frame, or none where there is none.
    pub fn oldest(&self) -> &[u8]
        ensures bytes { result.now ≡ oldest_bytes self.now.frames }
        ensures sendable { IfSome (slice_get self.now.frames 0) IsSendable }
    {
        match self.coded.front() {
            Some(coded) => coded.as_bytes(),
            None => &[],
        }
    }
}
