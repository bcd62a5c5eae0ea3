//! A back end's question, and its frame.
ghost use Rattle.std.specs.Prelude.{◌≡◌};
ghost use Rattle.vi_bytes.specs.Parts.{IsTransfer};
ghost use Rattle.vi_iotlb.specs.Frames.{IsSendable};
ghost use Rattle.vi_parked.specs.Asking.{IsAsking};
ghost use Rattle.vi_lanes.specs.Frames.{said, miss_frame};
ghost use Rattle.vi_lanes.specs.Inside.{miss_of};

use vi_bytes::Need;
use vi_iotlb::Frame;

/// A back end asks for a translation of `len` bytes from the address `iova` on, for a part of one
/// of its lines. With `fail` it has a translation that doesn't permit what it needs.
#[derive(Clone, Copy, Debug, PartialEq, Eq)]
pub struct Miss {
    /// The line, from 1.
    pub line: u32,
    /// The part of the line, from 1.
    pub part: u32,
    pub iova: u64,
    pub len: u32,
    pub need: Need,
    pub fail: bool,
}

/// Where a miss comes from: what its frame doesn't say.
#[derive(Clone, Copy, Debug, PartialEq, Eq)]
pub struct Origin {
    pub line: u32,
    pub part: u32,
}

impl Miss {
    /// Its line and part.
    pub fn origin(&self) -> Origin
        ensures { result ≡ record { line = self.now.line; part = self.now.part } }
    {
        Origin {
            line: self.line,
            part: self.part,
        }
    }

    /// Its frame, a `Miss` or an `AccessFail`.
    pub fn frame(&self) -> Frame
        requires transfer { IsTransfer self.now.iova self.now.len }
        ensures frame { result ≡ miss_frame (said self.now) }
        ensures asking { IsAsking result }
        ensures sendable { IsSendable result }
    {
        let Miss {
            iova,
            len,
            need,
            ..
        } = *self;
        if self.fail {
            Frame::AccessFail { iova, len, need }
        } else {
            Frame::Miss { iova, len, need }
        }
    }
}

/// The miss of this line and part, by its frame.
pub fn miss_in(origin: Origin, frame: Frame) -> Miss
    requires asking { IsAsking frame }
    requires sendable { IsSendable frame }
    ensures miss { said result ≡ miss_of origin frame }
    ensures transfer { IsTransfer result.iova result.len }
{
    let Origin { line, part } = origin;
    match frame {
        Frame::Miss { iova, len, need } => Miss {
            line,
            part,
            iova,
            len,
            need,
            fail: false,
        },
        Frame::AccessFail { iova, len, need } => Miss {
            line,
            part,
            iova,
            len,
            need,
            fail: true,
        },
        Frame::Update { .. } | Frame::Invalidate { .. } | Frame::Ack | Frame::Reply { .. } => {
            unreachable!()
        }
    }
}
