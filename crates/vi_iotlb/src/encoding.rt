//! Frames to bytes.
ghost use Rattle.std.specs.Prelude.{◌≡◌, ◌≤◌, ◌+◌, ◌*◌, ◌++◌, length, take, drop};
ghost use Rattle.vi_bytes.specs.declared.span.Span.{Span};
ghost use Rattle.vi_iotlb.specs.Fields.{permission_for, span_size, IsRange, IsGrant};
ghost use Rattle.vi_iotlb.specs.Frames.{IsSendable, frame_bytes, frame_length, message_bytes, reply_bytes, ReadAs};

use crate::wire::{
    ACCESS_FAIL, BACKEND_IOTLB_MSG, INVALIDATE, IOTLB_MSG, MESSAGE_PAYLOAD, MISS, NEED_REPLY,
    PLAIN, REPLY, REPLY_PAYLOAD, UPDATE,
};
use crate::{Frame, USER_BASE};
use byteorder::{ByteOrder, LittleEndian};
use vi_bytes::{Need, PAGE, Span};

// The fields of a message that are not 0 or the same in all.
#[derive(Clone, Copy)]
struct Message {
    request: u32,
    flags: u32,
    iova: u64,
    size: u64,
    address: u64,
    permission: u8,
    kind: u8,
}

fn message_of(m: Message) -> [u8; 44]
    ensures { result ≡ message_bytes m.request m.flags m.iova m.size m.address m.permission m.kind }
{
    let mut bytes = [0; 44];
    LittleEndian::write_u32(&mut bytes, m.request);
    LittleEndian::write_u32(&mut bytes[4..], m.flags);
    LittleEndian::write_u32(&mut bytes[8..], MESSAGE_PAYLOAD);
    LittleEndian::write_u64(&mut bytes[12..], m.iova);
    LittleEndian::write_u64(&mut bytes[20..], m.size);
    LittleEndian::write_u64(&mut bytes[28..], m.address);
    bytes[36] = m.permission;
    bytes[37] = m.kind;
    bytes
}

fn reply_of(request: u32, answer: u64) -> [u8; 20]
    ensures { result ≡ reply_bytes request answer }
{
    let mut bytes = [0; 20];
    LittleEndian::write_u32(&mut bytes, request);
    LittleEndian::write_u32(&mut bytes[4..], REPLY);
    LittleEndian::write_u32(&mut bytes[8..], REPLY_PAYLOAD);
    LittleEndian::write_u64(&mut bytes[12..], answer);
    bytes
}

fn permission(need: Need) -> u8
    ensures { result ≡ permission_for need }
{
    match need {
        Need::Read => 1,
        Need::Write => 2,
    }
}

// A miss or an access fail.
fn asking(kind: u8, iova: u64, len: u32, need: Need) -> [u8; 44]
    ensures { result ≡ message_bytes 1 9 iova len 0 (permission_for need) kind }
{
    message_of(Message {
        request: BACKEND_IOTLB_MSG,
        flags: NEED_REPLY,
        iova,
        size: u64::from(len),
        address: 0,
        permission: permission(need),
        kind,
    })
}

fn invalidating(span: Span) -> [u8; 44]
    requires { IsRange span }
    ensures { result ≡ message_bytes 22 9 span.first (span_size span) 0 0 3 }
{
    message_of(Message {
        request: IOTLB_MSG,
        flags: NEED_REPLY,
        iova: span.first,
        size: (span.last - span.first).wrapping_add(1),
        address: 0,
        permission: 0,
        kind: INVALIDATE,
    })
}

fn updating(page: u64, count: u32, target: u64, perm: u8) -> [u8; 44]
    requires { IsGrant page count target }
    ensures { result
        ≡ message_bytes 22 1 (page * 4096) (count * 4096) (target * 4096 + USER_BASE) perm 2 }
{
    message_of(Message {
        request: IOTLB_MSG,
        flags: PLAIN,
        iova: page * PAGE,
        size: u64::from(count) * PAGE,
        address: target * PAGE + USER_BASE,
        permission: perm,
        kind: UPDATE,
    })
}

// Writes the bytes at the front of `out`, and answers how many.
fn put(out: &mut [u8; 44], bytes: &[u8]) -> usize
    requires { length bytes.now ≤ 44 }
    ensures length { result ≡ length bytes.now }
    ensures bytes { out.new ≡ bytes.now ++ drop result out.old }
{
    out[..bytes.len()].copy_from_slice(bytes);
    bytes.len()
}

#[tactic(auto, unfolding(crate::specs::Frames::frame_bytes))]
fn write_frame(frame: &Frame, out: &mut [u8; 44]) -> usize
    requires { IsSendable frame.now }
    ensures length { result ≡ frame_length frame.now }
    ensures bytes { out.new ≡ frame_bytes frame.now ++ drop result out.old }
{
    match *frame {
        Frame::Miss { iova, len, need } => put(out, &asking(MISS, iova, len, need)),
        Frame::AccessFail { iova, len, need } => put(out, &asking(ACCESS_FAIL, iova, len, need)),
        Frame::Update {
            page,
            count,
            target,
            perm,
        } => put(out, &updating(page, count, target, perm)),
        Frame::Invalidate { span } => put(out, &invalidating(span)),
        Frame::Ack => put(out, &reply_of(IOTLB_MSG, 0)),
        Frame::Reply { fault } => put(out, &reply_of(BACKEND_IOTLB_MSG, u64::from(fault))),
    }
}

/// Writes the bytes of the frame at the front of `out`, and answers how many: 44 for a message and
/// 20 for a reply. The reserved bytes are 0, and so are the user address and the permission of a
/// message that has none. Takes no memory.
pub fn encode(frame: &Frame, out: &mut [u8; 44]) -> usize
    requires { IsSendable frame.now }
    ensures length { result ≡ frame_length frame.now }
    ensures fits { result ≤ 44 }
    ensures bytes { out.new ≡ frame_bytes frame.now ++ drop result out.old }
    ensures reads { ReadAs (take result out.new) frame.now }
{
    write_frame(frame, out)
}
