//! Bytes to frames.
ghost use Rattle.std.specs.Prelude.{◌≡◌, ◌≤◌, ◌+◌, ◌↔◌, length, Ok, Err, IfOk, IfErr, IfSome, IfNone, MatchResult};
ghost use Rattle.vi_bytes.specs.Fields.{field};
ghost use Rattle.vi_iotlb.specs.Fields.{ArePages, IsGrant, AreGrantFields};
ghost use Rattle.vi_iotlb.specs.Frames.{AsksHeader, UpdateHeader, InvalidateHeader, AckHeader, ReplyHeader, ReadAs};
ghost use Rattle.vi_iotlb.specs.Refusals.{RefusedAs};
ghost use Rattle.vi_iotlb.specs.Headers.{Begins};

use crate::wire::{
    ACCESS_FAIL, BACKEND_IOTLB_MSG, HEADER_SIZE, INVALIDATE, IOTLB_MSG, MESSAGE_PAYLOAD, MISS,
    NEED_REPLY, PLAIN, REPLY, REPLY_PAYLOAD, UPDATE,
};
use crate::{Frame, FrameFault, USER_BASE};
use byteorder::{ByteOrder, LittleEndian};
use vi_bytes::{Need, PAGE, Span};

// What the request and the flags say of a frame.
#[derive(Clone, Copy)]
enum Header {
    Asks,
    Update,
    Invalidate,
    Ack,
    Reply,
}

fn u32_at(bytes: &[u8], at: usize) -> u32
    requires { at + 4 ≤ length bytes.now }
    ensures { result ≡ field at 4 bytes.now }
{
    LittleEndian::read_u32(&bytes[at..])
}

fn u64_at(bytes: &[u8], at: usize) -> u64
    requires { at + 8 ≤ length bytes.now }
    ensures { result ≡ field at 8 bytes.now }
{
    LittleEndian::read_u64(&bytes[at..])
}

// The header of a whole frame, whose payload is there to the end of the bytes.
fn header_of(bytes: &[u8]) -> Result<Header, FrameFault>
    ensures { MatchResult result (λ header. Begins header bytes.now) (RefusedAs bytes.now) }
{
    if bytes.len() < HEADER_SIZE {
        return Err(FrameFault::Short);
    }
    let request = u32_at(bytes, 0);
    if request != BACKEND_IOTLB_MSG && request != IOTLB_MSG {
        return Err(FrameFault::Request(request));
    }
    let flags = u32_at(bytes, 4);
    let header = match (request, flags) {
        (BACKEND_IOTLB_MSG, REPLY) => Header::Reply,
        (BACKEND_IOTLB_MSG, NEED_REPLY) => Header::Asks,
        (IOTLB_MSG, PLAIN) => Header::Update,
        (IOTLB_MSG, REPLY) => Header::Ack,
        (IOTLB_MSG, NEED_REPLY) => Header::Invalidate,
        _ => return Err(FrameFault::Flags(flags)),
    };
    let size = u32_at(bytes, 8);
    let want = if flags == REPLY {
        REPLY_PAYLOAD
    } else {
        MESSAGE_PAYLOAD
    };
    if size != want || bytes.len() != HEADER_SIZE + want as usize {
        return Err(FrameFault::Size(size));
    }
    Ok(header)
}

// A miss or an access fail.
fn asked(bytes: &[u8]) -> Result<Frame, FrameFault>
    requires { AsksHeader bytes.now }
    ensures { MatchResult result (ReadAs bytes.now) (RefusedAs bytes.now) }
{
    let kind = bytes[37];
    if kind != MISS && kind != ACCESS_FAIL {
        return Err(FrameFault::Kind(kind));
    }
    let need = match bytes[36] {
        1 => Need::Read,
        2 => Need::Write,
        perm => return Err(FrameFault::Perm(perm)),
    };
    let iova = u64_at(bytes, 12);
    let size = u64_at(bytes, 20);
    if size == 0 || size > 65536 || iova > u64::MAX - (size - 1) {
        return Err(FrameFault::Field);
    }
    let len = size as u32;
    if kind == MISS {
        Ok(Frame::Miss { iova, len, need })
    } else {
        Ok(Frame::AccessFail { iova, len, need })
    }
}

fn invalidated(bytes: &[u8]) -> Result<Frame, FrameFault>
    requires { InvalidateHeader bytes.now }
    ensures { MatchResult result (ReadAs bytes.now) (RefusedAs bytes.now) }
{
    let kind = bytes[37];
    if kind != INVALIDATE {
        return Err(FrameFault::Kind(kind));
    }
    let first = u64_at(bytes, 12);
    let size = u64_at(bytes, 20);
    // The last address counted from the first: a size of 0 means 2^64.
    let reach = size.wrapping_sub(1);
    if first > u64::MAX - reach {
        return Err(FrameFault::Field);
    }
    let last = first + reach;
    Ok(Frame::Invalidate {
        span: Span { first, last },
    })
}

fn updated(bytes: &[u8]) -> Result<Frame, FrameFault>
    requires { UpdateHeader bytes.now }
    ensures { MatchResult result (ReadAs bytes.now) (RefusedAs bytes.now) }
{
    let kind = bytes[37];
    if kind != UPDATE {
        return Err(FrameFault::Kind(kind));
    }
    let perm = bytes[36];
    if perm == 0 || perm > 3 {
        return Err(FrameFault::Perm(perm));
    }
    match granted(u64_at(bytes, 12), u64_at(bytes, 20), u64_at(bytes, 28)) {
        Some((page, count, target)) => Ok(Frame::Update {
            page,
            count,
            target,
            perm,
        }),
        None => Err(FrameFault::Field),
    }
}

// The page, the count and the target that an update's fields stand for.
fn granted(iova: u64, size: u64, address: u64) -> Option<(u64, u32, u64)>
    ensures pages { IfSome result (λ g. ArePages g.0 g.1 g.2 iova size address) }
    ensures grant { IfSome result (λ g. IsGrant g.0 g.1 g.2) }
    ensures none { IfNone result (¬ AreGrantFields iova size address) }
{
    if address < USER_BASE {
        return None;
    }
    let memory = address - USER_BASE;
    if iova % PAGE != 0 || size % PAGE != 0 || memory % PAGE != 0 {
        return None;
    }
    let (page, count, target) = (iova / PAGE, size / PAGE, memory / PAGE);
    if count == 0 || count > 16 || target > 16384 - count {
        return None;
    }
    if page / 16 != (page + count - 1) / 16 {
        return None;
    }
    Some((page, count as u32, target))
}

fn read_frame(bytes: &[u8]) -> Result<Frame, FrameFault>
    ensures { MatchResult result (ReadAs bytes.now) (RefusedAs bytes.now) }
{
    match header_of(bytes)? {
        Header::Asks => asked(bytes),
        Header::Update => updated(bytes),
        Header::Invalidate => invalidated(bytes),
        Header::Ack if u64_at(bytes, 12) != 0 => Err(FrameFault::Field),
        Header::Ack => Ok(Frame::Ack),
        Header::Reply => Ok(Frame::Reply {
            fault: u64_at(bytes, 12) != 0,
        }),
    }
}

/// The frame that the bytes are, all of them. The reserved bytes of a message are ignored, and so
/// are its user address and permission where the frame has none. Any answer of a reply but 0 says
/// that the access faults. Takes no memory.
pub fn decode(bytes: &[u8]) -> Result<Frame, FrameFault>
    ensures accepted { (frame : Frame) → (result ≡ Ok frame) ↔ ReadAs bytes.now frame }
    ensures refused { (fault : FrameFault) → (result ≡ Err fault) ↔ RefusedAs bytes.now fault }
{
    read_frame(bytes)
}
