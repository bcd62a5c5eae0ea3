//! What back ends do with the control.
ghost use Rattle.std.specs.Prelude.{◌≡◌, ◌<◌, length, IfSome};
ghost use Rattle.vi_iotlb.specs.Frames.{IsSendable};
ghost use Rattle.vi_lanes.specs.Frames.{next_frame, said};
ghost use Rattle.vi_model.specs.Control.{link_of, lanes_of};
ghost use Rattle.vi_control.specs.Asked.{asked_at};
ghost use Rattle.vi_control.specs.Value.{with_state};
ghost use Rattle.vi_control.specs.Calls.{MaySend, MayAsk, sent, asking, received};

use crate::Control;
use crate::question::{part_with, transfer_after};
use vi_bytes::Need;
use vi_iotlb::Frame;
use vi_lanes::Miss;

impl Control {
    /// The back end at this place sends a frame: a Miss or an AccessFail for a part of its first line after the posted
    /// ones, or an Ack.
    pub fn send(&mut self, place: u32, frame: &Frame)
        requires place { place < length self.old.plan.ids }
        requires may { MaySend self.old.plan place (link_of self.old.state place) frame.now }
        ensures { self.new ≡ with_state (sent self.old.plan place frame.now self.old.state) self.old }
    {
        match *frame {
            Frame::Miss { iova, len, need } => self.ask(place, iova, len, need, false),
            Frame::AccessFail { iova, len, need } => self.ask(place, iova, len, need, true),
            Frame::Ack => self.lanes.acknowledge(place),
            Frame::Update { .. } | Frame::Invalidate { .. } | Frame::Reply { .. } => {
                unreachable!()
            }
        }
    }

    // The question of the back end about an address of its first line after the posted ones.
    fn question(&self, place: u32, iova: u64, len: u32, need: Need, fail: bool) -> Miss
        requires place { place < length self.now.plan.ids }
        requires may { MayAsk self.now.plan place (link_of self.now.state place) iova len }
        ensures { said result ≡ asked_at self.now.plan place (link_of self.now.state place).posted iova len need fail }
    {
        let posted = self.posted[place as usize];
        let transfer = transfer_after(&self.transfers, place, posted);
        Miss {
            line: posted + 1,
            part: part_with(&transfer, iova),
            iova,
            len,
            need,
            fail,
        }
    }

    // The back end asks for a translation.
    fn ask(&mut self, place: u32, iova: u64, len: u32, need: Need, fail: bool)
        requires place { place < length self.old.plan.ids }
        requires may { MayAsk self.old.plan place (link_of self.old.state place) iova len }
        ensures { self.new ≡ with_state (asking place (asked_at self.old.plan place (link_of self.old.state place).posted iova len need fail) self.old.state) self.old }
    {
        let miss = self.question(place, iova, len, need, fail);
        self.lanes.ask(place, &miss);
    }

    /// The frame that the back end at this place receives next, which leaves: the oldest Update or Invalidate, or else
    /// the oldest Reply. `None` where none is under way.
    pub fn receive(&mut self, place: u32) -> Option<Frame>
        requires { place < length self.old.plan.ids }
        ensures frame { result ≡ next_frame (lanes_of (link_of self.old.state place)) }
        ensures rest { self.new ≡ with_state (received place self.old.state) self.old }
        ensures sendable { IfSome result IsSendable }
    {
        self.lanes.receive(place)
    }
}
