//! The lanes of all back ends.
ghost use Rattle.std.specs.Prelude.{◌≡◌, ◌<◌, ◌≤◌, ◌↔◌, [], length, replicate, slice_get, IsTrue, is_err, IsNone, IfSome, IfOk, OnOk, OnErr};
ghost use Rattle.vi_iotlb.specs.Frames.{IsSendable};
ghost use Rattle.vi_mail.specs.Lanes.{lane_at, bound_of, no_lanes, sent, taken, oldest_bytes};

use crate::row::{Lane, Row};
use std::alloc::{AllocError, Global};
use std::error::Error;
use std::fmt;
use std::marker::Model;
use vi_iotlb::Frame;

/// A frame was not sent, because its lane has as many frames as it may.
#[derive(Clone, Copy, Debug, PartialEq, Eq)]
pub struct Full;

impl fmt::Display for Full {
    fn fmt<W: fmt::Write>(&self, f: &mut fmt::Formatter<W>) -> fmt::Result {
        write!(f, "the lane has as many frames as it may")
    }
}

impl Error for Full {}

/// Four lanes for each back end, by its place from 0. With `slots` as they were built for, the
/// bounds are `slots + 1` for `MainDown`, `slots` for `MainUp`, and 1 for the others. Each is first
/// in, first out. All room is taken when they are built, and no other call takes memory.
#[derive(Drop)]
pub struct Mail {
    rows: Vec<Row>,
    slots: u32,
}

impl Model for Mail {
    ghost use Rattle.vi_mail.specs.Lanes.{Lanes};

    ghost Value = { Lanes };

    ghost use Rattle.vi_mail.specs.Inside.{mail_lanes, HasSlots};

    ghost view = { mail_lanes };

    ghost invariant = { HasSlots };
}

impl Mail {
    /// Empty lanes for so many back ends. An error means out of memory.
    pub fn build(alloc: Global, backs: u32, slots: u32) -> Result<Mail, AllocError>
        ensures { IfOk result (λ m. m ≡ record { rows = replicate backs no_lanes; slots = slots }) }
    {
        let mut rows = Vec::with_capacity(alloc, backs as usize)?;
        for place in 0..backs {
            let row = Row::build(alloc, slots)?;
            rows.push_reserved(row);
        }
        Ok(Mail { rows, slots })
    }

    /// Sends the frame on this lane of the back end: it goes behind those that are there. `Full`
    /// where the lane has as many frames as it may, and then nothing changes.
    pub fn send(&mut self, place: u32, lane: Lane, frame: &Frame) -> Result<(), Full>
        requires place { place < length self.old.rows }
        requires sendable { IsSendable frame.now }
        ensures full { IsTrue (is_err result) ↔ (length (lane_at place lane self.old) ≡ bound_of lane self.old.slots) }
        ensures bounded { length (lane_at place lane self.old) ≤ bound_of lane self.old.slots }
        ensures sent { OnOk result (self.new ≡ sent place lane frame.now self.old) }
        ensures refused { OnErr result (self.new ≡ self.old) }
    {
        let row = &mut self.rows[place as usize];
        if row.is_full(lane) {
            return Err(Full);
        }
        row.push(lane, frame);
        Ok(())
    }

    /// The oldest frame of this lane of the back end, which leaves, or `None` where the lane is
    /// empty.
    pub fn take(&mut self, place: u32, lane: Lane) -> Option<Frame>
        requires { place < length self.old.rows }
        ensures oldest { result ≡ slice_get (lane_at place lane self.old) 0 }
        ensures none { IsNone result ↔ (lane_at place lane self.old ≡ []) }
        ensures rest { self.new ≡ taken place lane self.old }
        ensures sendable { IfSome result IsSendable }
    {
        let row = &mut self.rows[place as usize];
        row.pop(lane)
    }

    /// The bytes of the oldest frame of this lane of the back end, lent from it. They are empty
    /// exactly where the lane is.
    pub fn oldest(&self, place: u32, lane: Lane) -> &[u8]
        requires { place < length self.now.rows }
        ensures bytes { result.now ≡ oldest_bytes (lane_at place lane self.now) }
        ensures empty { (result.now ≡ []) ↔ (lane_at place lane self.now ≡ []) }
        ensures sendable { IfSome (slice_get (lane_at place lane self.now) 0) IsSendable }
    {
        let row = &self.rows[place as usize];
        row.oldest(lane)
    }
}
