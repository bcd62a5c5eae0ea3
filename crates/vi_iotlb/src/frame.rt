//! The frames.
ghost use Rattle.std.specs.Prelude.{◌↔◌, IsTrue};
ghost use Rattle.vi_iotlb.specs.Fields.{IsGrant};
ghost use Rattle.vi_iotlb.specs.Frames.{IsSendable};

use vi_bytes::{Need, Span};

/// What is added to a guest physical address to make a user address.
pub const USER_BASE: u64 = 0x7f00_0000_0000;

/// A message about a back end's translations, or a reply to one. Pages have 4096 bytes, and `page`
/// and `target` are page numbers. The request, the flags and the type are those of the bytes.
#[derive(Clone, Copy, Debug, PartialEq, Eq)]
pub enum Frame {
    /// A back end has no translation for `len` bytes from the address `iova` on (request 1, flags
    /// 9, type 1).
    Miss {
        iova: u64,
        len: u32,
        need: Need,
    },
    /// A back end's translation doesn't permit what it needs (request 1, flags 9, type 4).
    AccessFail {
        iova: u64,
        len: u32,
        need: Need,
    },
    /// A back end may keep this: the pages `page` to `page + count - 1` go to those from `target`
    /// on. `perm` is 1 for reading, 2 for writing, 3 for both (request 22, flags 1, type 2).
    Update {
        page: u64,
        count: u32,
        target: u64,
        perm: u8,
    },
    /// A back end must forget what it keeps of these addresses (request 22, flags 9, type 3).
    Invalidate {
        span: Span,
    },
    /// A back end's answer to an `Invalidate`: it forgot (request 22, flags 5).
    Ack,
    /// The answer to a `Miss` or an `AccessFail`: whether the access faults (request 1, flags 5).
    Reply {
        fault: bool,
    },
}

impl Frame {
    /// Whether the frame can be sent. A `Miss` or an `AccessFail` has 1 to 65536 bytes, of which
    /// the last address is at most 2^64 - 1. An `Update` has 1 to 16 pages below 2^52 with the same
    /// number divided by 16, target pages below 16384, and a permission of 1, 2 or 3. The last
    /// address of an `Invalidate` is not below its first.
    pub fn is_sendable(&self) -> bool
        ensures { IsTrue result ↔ IsSendable self.now }
    {
        match *self {
            Frame::Miss { iova, len, .. } | Frame::AccessFail { iova, len, .. } => {
                1 <= len && len <= 65536 && u64::from(len) - 1 <= u64::MAX - iova
            }
            Frame::Update {
                page,
                count,
                target,
                perm,
            } => is_grant(page, count, target) && 1 <= perm && perm <= 3,
            Frame::Invalidate { span } => span.first <= span.last,
            Frame::Ack | Frame::Reply { .. } => true,
        }
    }
}

fn is_grant(page: u64, count: u32, target: u64) -> bool
    ensures { IsTrue result ↔ IsGrant page count target }
{
    let count = u64::from(count);
    page < 1 << 52
        && 1 <= count
        && count <= 16
        && page / 16 == (page + count - 1) / 16
        && target <= 16384 - count
}
