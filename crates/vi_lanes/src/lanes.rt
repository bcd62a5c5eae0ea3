//! The lanes of all back ends, and what is parked.
ghost use Rattle.std.specs.Prelude.{◌≡◌, ◌<◌, ◌≤◌, ◌↔◌, [], Some, None, length, map, replicate, slice_get, nat_lt, IsTrue, IfSome, IfOk};
ghost use Rattle.std.specs.Option.{option_map};
ghost use Rattle.vi_bytes.specs.Parts.{IsTransfer};
ghost use Rattle.vi_bytes.specs.Spans.{IsProper};
ghost use Rattle.vi_iotlb.specs.Fields.{IsGrant, IsPermission};
ghost use Rattle.vi_iotlb.specs.Frames.{IsSendable};
ghost use Rattle.vi_mail.specs.Lanes.{lane_at, bound_of, sent};
ghost use Rattle.vi_model.specs.Control.{no_lanes};
ghost use Rattle.vi_model.specs.Lanes.{Update, Invalidate};
ghost use Rattle.vi_model.specs.Tasks.{reach_between};
ghost use Rattle.vi_lanes.specs.Frames.{said, down_frame, lanes_frames, next_frame};
ghost use Rattle.vi_lanes.specs.Value.{lanes_at, parked_at, with_lanes, with_parked, told, acknowledged, asked, replied, without_ack, without_miss, received};

use crate::miss::{Miss, Origin, miss_in};
use std::alloc::{AllocError, Global};
use std::marker::Model;
use vi_bytes::{Lease, Span};
use vi_iotlb::Frame;
use vi_mail::{Lane, Mail};
use vi_parked::Parked;

/// How many acknowledgements a back end may have under way. Of updates and invalidates it may have
/// one more.
const SLOTS: u32 = 8;

/// For each back end, by its place from 0, the frames under way between it and the device, the
/// oldest first, and the miss that is parked, if one is. A back end has one open miss at the most:
/// under way or parked. All room is taken when it is built, and no other call takes memory.
#[derive(Drop)]
pub struct Lanes {
    mail: Mail,
    parked: Parked,
    /// The line and the part of each back end's open miss, which its frame doesn't say.
    origins: [Origin; 16],
}

impl Model for Lanes {
    ghost use Rattle.vi_lanes.specs.Value.{LanesValue};

    ghost Value = { LanesValue };

    ghost use Rattle.vi_lanes.specs.Inside.{seen, IsKept};

    ghost view = { seen };

    ghost invariant = { IsKept };
}

impl Lanes {
    /// Empty lanes for so many back ends, at most 16, and nothing is parked. An error is want of
    /// memory.
    pub fn build(alloc: Global, places: u32) -> Result<Lanes, AllocError>
        requires { places ≤ 16 }
        ensures { IfOk result (λ l. l ≡ record { mail = replicate places no_lanes; parked = replicate places None }) }
    {
        let mail = Mail::build(alloc, places, SLOTS)?;
        Ok(Lanes {
            mail,
            parked: Parked::new(),
            origins: [Origin { line: 0, part: 0 }; 16],
        })
    }

    /// A back end sends a miss up. It has none under way and none parked.
    pub fn ask(&mut self, place: u32, miss: &Miss)
        requires place { place < length self.old.mail }
        requires transfer { IsTransfer miss.now.iova miss.now.len }
        requires none { (lanes_at place self.old).up ≡ [] }
        requires free { parked_at place self.old ≡ None }
        ensures { self.new ≡ with_lanes place (asked (said miss.now) (lanes_at place self.old)) self.old }
    {
        send(&mut self.mail, place, Lane::BackUp, &miss.frame());
        self.origins[place as usize] = miss.origin();
    }

    /// A back end sends an acknowledgement up.
    pub fn acknowledge(&mut self, place: u32)
        requires place { place < length self.old.mail }
        requires room { (lanes_at place self.old).acks < 8 }
        ensures { self.new ≡ with_lanes place (acknowledged (lanes_at place self.old)) self.old }
    {
        send(&mut self.mail, place, Lane::MainUp, &Frame::Ack);
    }

    /// An update goes down: the back end may keep this lease.
    pub fn grant(&mut self, place: u32, lease: Lease)
        requires place { place < length self.old.mail }
        requires room { length (lanes_at place self.old).down ≤ 8 }
        requires grant { IsGrant lease.page lease.count lease.target }
        requires permission { IsPermission lease.perm }
        ensures { self.new ≡ with_lanes place (told (Update lease) (lanes_at place self.old)) self.old }
    {
        let Lease {
            page,
            count,
            target,
            perm,
        } = lease;
        let frame = Frame::Update {
            page,
            count,
            target,
            perm,
        };
        send(&mut self.mail, place, Lane::MainDown, &frame);
    }

    /// An invalidate goes down: the back end must forget what it keeps of these addresses.
    pub fn invalidate(&mut self, place: u32, span: &Span)
        requires place { place < length self.old.mail }
        requires room { length (lanes_at place self.old).down ≤ 8 }
        requires proper { IsProper span.now }
        ensures { self.new ≡ with_lanes place (told (Invalidate (reach_between span.now.first span.now.last)) (lanes_at place self.old)) self.old }
    {
        send(&mut self.mail, place, Lane::MainDown, &invalidating(*span));
    }

    /// A reply to a miss goes down: whether the access faults.
    pub fn reply(&mut self, place: u32, fault: bool)
        requires place { place < length self.old.mail }
        requires none { (lanes_at place self.old).replies ≡ [] }
        ensures { self.new ≡ with_lanes place (replied fault (lanes_at place self.old)) self.old }
    {
        send(
            &mut self.mail,
            place,
            Lane::BackDown,
            &Frame::Reply { fault },
        );
    }

    /// What the back end receives next, which leaves: the oldest update or invalidate, or else the
    /// oldest reply. `None` where neither is under way.
    pub fn receive(&mut self, place: u32) -> Option<Frame>
        requires { place < length self.old.mail }
        ensures frame { result ≡ next_frame (lanes_at place self.old) }
        ensures rest { self.new ≡ with_lanes place (received (lanes_at place self.old)) self.old }
        ensures sendable { IfSome result IsSendable }
    {
        if has_frames(&self.mail, place, Lane::MainDown) {
            self.mail.take(place, Lane::MainDown)
        } else {
            self.mail.take(place, Lane::BackDown)
        }
    }

    /// Whether an acknowledgement of this back end is under way.
    pub fn has_ack(&self, place: u32) -> bool
        requires { place < length self.now.mail }
        ensures some { IsTrue result ↔ (0 < (lanes_at place self.now).acks) }
        ensures test { result ≡ nat_lt 0 (lanes_at place self.now).acks }
    {
        has_frames(&self.mail, place, Lane::MainUp)
    }

    /// An acknowledgement of this back end is taken.
    pub fn take_ack(&mut self, place: u32)
        requires place { place < length self.old.mail }
        requires some { 0 < (lanes_at place self.old).acks }
        ensures { self.new ≡ with_lanes place (without_ack (lanes_at place self.old)) self.old }
    {
        let _ack = self.mail.take(place, Lane::MainUp);
    }

    /// Whether a miss of this back end is under way.
    pub fn has_miss(&self, place: u32) -> bool
        requires { place < length self.now.mail }
        ensures some { IsTrue result ↔ (0 < length (lanes_at place self.now).up) }
        ensures test { result ≡ nat_lt 0 (length (lanes_at place self.now).up) }
    {
        has_frames(&self.mail, place, Lane::BackUp)
    }

    /// The oldest miss of this back end that is under way, which leaves, or `None` where none is.
    /// Where there was one, none is under way or parked afterwards.
    pub fn take_miss(&mut self, place: u32) -> Option<Miss>
        requires { place < length self.old.mail }
        ensures oldest { option_map said result ≡ slice_get (lanes_at place self.old).up 0 }
        ensures transfer { IfSome result (λ m. IsTransfer m.iova m.len) }
        ensures rest { self.new ≡ with_lanes place (without_miss (lanes_at place self.old)) self.old }
        ensures alone { (lanes_at place self.new).up ≡ [] }
        ensures free { IfSome result (λ m. parked_at place self.new ≡ None) }
    {
        let frame = self.mail.take(place, Lane::BackUp)?;
        Some(miss_in(self.origins[place as usize], frame))
    }

    /// The miss of this back end that is parked, or `None` where none is.
    pub fn parked(&self, place: u32) -> Option<Miss>
        requires { place < length self.now.mail }
        ensures parked { option_map said result ≡ parked_at place self.now }
        ensures transfer { IfSome result (λ m. IsTransfer m.iova m.len) }
    {
        let frame = self.parked.peek(place)?;
        Some(miss_in(self.origins[place as usize], frame))
    }

    /// A miss of this back end is parked. It has none under way and none parked.
    pub fn park(&mut self, place: u32, miss: &Miss)
        requires place { place < length self.old.mail }
        requires transfer { IsTransfer miss.now.iova miss.now.len }
        requires none { (lanes_at place self.old).up ≡ [] }
        requires free { parked_at place self.old ≡ None }
        ensures { self.new ≡ with_parked place (Some (said miss.now)) self.old }
    {
        self.parked.park(place, miss.frame());
        self.origins[place as usize] = miss.origin();
    }

    /// The miss of this back end that is parked, or `None` where none is. None is afterwards.
    pub fn unpark(&mut self, place: u32) -> Option<Miss>
        requires { place < length self.old.mail }
        ensures parked { option_map said result ≡ parked_at place self.old }
        ensures transfer { IfSome result (λ m. IsTransfer m.iova m.len) }
        ensures rest { self.new ≡ with_parked place None self.old }
        ensures free { parked_at place self.new ≡ None }
        ensures alone { IfSome result (λ m. (lanes_at place self.new).up ≡ []) }
    {
        let frame = self.parked.take(place)?;
        Some(miss_in(self.origins[place as usize], frame))
    }

    /// The frames under way, as they are kept.
    pub fn mail(&self) -> &Mail
        ensures { result.now ≡ record { rows = map lanes_frames self.now.mail; slots = 8 } }
    {
        &self.mail
    }
}

/// The frame that takes these addresses back.
fn invalidating(span: Span) -> Frame
    requires { IsProper span }
    ensures frame { result ≡ down_frame (Invalidate (Some span)) }
    ensures sendable { IsSendable result }
{
    Frame::Invalidate { span }
}

/// Sends a frame on a lane that has room for it.
fn send(mail: &mut Mail, place: u32, lane: Lane, frame: &Frame)
    requires place { place < length mail.old.rows }
    requires room { length (lane_at place lane mail.old) < bound_of lane mail.old.slots }
    requires sendable { IsSendable frame.now }
    ensures { mail.new ≡ sent place lane frame.now mail.old }
{
    mail.send(place, lane, frame).unwrap();
}

/// Whether a frame is under way on a lane.
fn has_frames(mail: &Mail, place: u32, lane: Lane) -> bool
    requires { place < length mail.now.rows }
    ensures some { IsTrue result ↔ (0 < length (lane_at place lane mail.now)) }
    ensures test { result ≡ nat_lt 0 (length (lane_at place lane mail.now)) }
{
    !mail.oldest(place, lane).is_empty()
}
