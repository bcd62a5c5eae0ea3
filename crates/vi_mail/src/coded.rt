//! One frame as its bytes.
ghost use Rattle.std.specs.Prelude.{◌≡◌};
ghost use Rattle.vi_iotlb.specs.Frames.{IsSendable, frame_bytes};

use std::marker::Model;
use vi_iotlb::{Frame, decode, encode};

/// The bytes of a frame that can be sent, which contracts see as the frame.
#[derive(Drop)]
pub struct Coded {
    bytes: [u8; 44],
    len: usize,
}

impl Model for Coded {
    ghost use Rattle.vi_iotlb.specs.declared.frame.Frame.{Frame};

    ghost Value = { Frame };

    ghost use Rattle.vi_mail.specs.Inside.{coded_frame, IsCoded};

    ghost view = { coded_frame };

    ghost invariant = { IsCoded };
}

impl Coded {
    /// The frame's bytes.
    pub fn of(frame: &Frame) -> Coded
        requires { IsSendable frame.now }
        ensures { result ≡ frame.now }
    {
        let mut bytes = [0; 44];
        let len = encode(frame, &mut bytes);
        Coded { bytes, len }
    }

    /// The bytes, lent.
    pub fn as_bytes(&self) -> &[u8]
        ensures bytes { result.now ≡ frame_bytes self.now }
        ensures sendable { IsSendable self.now }
    {
        &self.bytes[..self.len]
    }

    /// The frame.
    pub fn frame(&self) -> Frame
        ensures frame { result ≡ self.now }
        ensures sendable { IsSendable result }
    {
        decode(self.as_bytes()).unwrap()
    }
}
