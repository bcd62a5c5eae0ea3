//! Bytes to requests.
ghost use Rattle.std.specs.Prelude.{◌≡◌, ◌≤◌, ◌<◌, ◌+◌, ◌-◌, ◌^◌, ◌↔◌, ℕ, length, drop, Ok, Err, All, IsTrue, MatchResult};
ghost use Rattle.vi_bytes.specs.Fields.{field, byte_at};
ghost use Rattle.vi_history.specs.Requests.{readable_size, reserved_bytes, reading, writable_size};
ghost use Rattle.vi_req.specs.Requests.{IsRequest};
ghost use Rattle.vi_req.specs.Refusals.{BeginsWith, HasHead, HasSize, RefusedAs, reading_as};

use crate::ReqFault;
use byteorder::{ByteOrder, LittleEndian};
use vi_history::{ATTACH, DETACH, MAP, PROBE, Request, UNMAP};

// A head: the type, and 3 reserved bytes.
const HEAD_SIZE: usize = 4;

fn u32_at(bytes: &[u8], at: usize) -> u32
    requires { at + 4 ≤ length bytes.now }
    ensures { result ≡ field at 4 bytes.now }
{
    LittleEndian::read_u32(&bytes[at..])
}

fn u64_at(bytes: &[u8], at: usize) -> u64
    requires { at + 8 ≤ length bytes.now }
    ensures { result ≡ field at 8 bytes.now }
{
    LittleEndian::read_u64(&bytes[at..])
}

// Whether all bytes from here on are 0.
fn are_zero_from(bytes: &[u8], at: usize) -> bool
    requires { at ≤ length bytes.now }
    ensures { IsTrue result ↔ All (λ b. b ≡ 0) (drop at bytes.now) }
{
    bytes[at..].iter().all(|byte| *byte == 0)
}

// Refuses any other size than this one of the type.
fn check_size(bytes: &[u8], want: u32) -> Result<(), ReqFault>
    requires few { length bytes.now < 2 ^ 32 - 1 }
    requires head { HasHead bytes.now }
    requires want { readable_size (byte_at 0 bytes.now) ≡ want }
    ensures { MatchResult result (λ _. HasSize bytes.now) (RefusedAs bytes.now) }
{
    let got = bytes.len() as u32;
    if got != want {
        return Err(ReqFault::Size { want, got });
    }
    Ok(())
}

// Refuses any other reserved byte than 0, which stand from here on.
fn check_reserved(bytes: &[u8], at: usize) -> Result<(), ReqFault>
    requires size { HasSize bytes.now }
    requires at { at ≤ length bytes.now }
    requires reserved { reserved_bytes (byte_at 0 bytes.now) bytes.now ≡ drop at bytes.now }
    ensures { MatchResult result (λ _. All (λ b. b ≡ 0) (drop at bytes.now)) (RefusedAs bytes.now) }
{
    if !are_zero_from(bytes, at) {
        return Err(ReqFault::Reserved);
    }
    Ok(())
}

fn attach(bytes: &[u8]) -> Result<Request, ReqFault>
    requires few { length bytes.now < 2 ^ 32 - 1 }
    requires kind { BeginsWith ATTACH bytes.now }
    ensures { MatchResult result (λ request. IsRequest request bytes.now) (RefusedAs bytes.now) }
{
    check_size(bytes, 20)?;
    check_reserved(bytes, 16)?;
    Ok(Request::Attach {
        domain: u32_at(bytes, 4),
        endpoint: u32_at(bytes, 8),
        flags: u32_at(bytes, 12),
    })
}

fn detach(bytes: &[u8]) -> Result<Request, ReqFault>
    requires few { length bytes.now < 2 ^ 32 - 1 }
    requires kind { BeginsWith DETACH bytes.now }
    ensures { MatchResult result (λ request. IsRequest request bytes.now) (RefusedAs bytes.now) }
{
    check_size(bytes, 20)?;
    check_reserved(bytes, 12)?;
    Ok(Request::Detach {
        domain: u32_at(bytes, 4),
        endpoint: u32_at(bytes, 8),
    })
}

fn map(bytes: &[u8]) -> Result<Request, ReqFault>
    requires few { length bytes.now < 2 ^ 32 - 1 }
    requires kind { BeginsWith MAP bytes.now }
    ensures { MatchResult result (λ request. IsRequest request bytes.now) (RefusedAs bytes.now) }
{
    check_size(bytes, 36)?;
    Ok(Request::Map {
        domain: u32_at(bytes, 4),
        first: u64_at(bytes, 8),
        last: u64_at(bytes, 16),
        target: u64_at(bytes, 24),
        flags: u32_at(bytes, 32),
    })
}

fn unmap(bytes: &[u8]) -> Result<Request, ReqFault>
    requires few { length bytes.now < 2 ^ 32 - 1 }
    requires kind { BeginsWith UNMAP bytes.now }
    ensures { MatchResult result (λ request. IsRequest request bytes.now) (RefusedAs bytes.now) }
{
    check_size(bytes, 28)?;
    check_reserved(bytes, 24)?;
    Ok(Request::Unmap {
        domain: u32_at(bytes, 4),
        first: u64_at(bytes, 8),
        last: u64_at(bytes, 16),
    })
}

fn probe(bytes: &[u8]) -> Result<Request, ReqFault>
    requires few { length bytes.now < 2 ^ 32 - 1 }
    requires kind { BeginsWith PROBE bytes.now }
    ensures { MatchResult result (λ request. IsRequest request bytes.now) (RefusedAs bytes.now) }
{
    check_size(bytes, 72)?;
    check_reserved(bytes, 8)?;
    Ok(Request::Probe {
        endpoint: u32_at(bytes, 4),
    })
}

fn read(bytes: &[u8]) -> Result<Request, ReqFault>
    requires { length bytes.now < 2 ^ 32 - 1 }
    ensures { MatchResult result (λ request. IsRequest request bytes.now) (RefusedAs bytes.now) }
{
    if bytes.len() < HEAD_SIZE {
        return Err(ReqFault::NoHead);
    }
    match bytes[0] {
        ATTACH => attach(bytes),
        DETACH => detach(bytes),
        MAP => map(bytes),
        UNMAP => unmap(bytes),
        PROBE => probe(bytes),
        kind => Err(ReqFault::UnknownType(kind)),
    }
}

/// The request that the device-readable part of a request (Virtio 1.2, 5.13.6) is, all of it. The 3
/// reserved bytes of the head are ignored, and those of the body have to be 0. Any value may stand in a
/// field. Takes no memory.
///
/// A device with enough room for the reply answers the bytes as this result says: refused ones that
/// have a known type are malformed, and other refused ones get no answer.
pub fn decode(bytes: &[u8]) -> Result<Request, ReqFault>
    requires { length bytes.now < 2 ^ 32 - 1 }
    ensures accepted { (request : Request) → (result ≡ Ok request) ↔ IsRequest request bytes.now }
    ensures refused { (fault : ReqFault) → (result ≡ Err fault) ↔ RefusedAs bytes.now fault }
    ensures answered { (write : ℕ) → writable_size (byte_at 0 bytes.now) ≤ write
        → reading bytes.now write ≡ reading_as (byte_at 0 bytes.now) result }
{
    read(bytes)
}
