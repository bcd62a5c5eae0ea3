//! Requests to bytes.
ghost use Rattle.std.specs.Prelude.{◌≡◌, IfOk};
ghost use Rattle.vi_history.specs.Fields.{FieldsFit};
ghost use Rattle.vi_history.specs.Requests.{request_bytes};
ghost use Rattle.vi_req.specs.Requests.{IsRequest};

use byteorder::{ByteOrder, LittleEndian};
use std::alloc::{AllocError, Global};
use vi_bytes::Bytes;
use vi_history::{ATTACH, DETACH, MAP, PROBE, Request, UNMAP};

// The bytes of each request. Its fields fit their bytes, as `fits` says, since they have Rust's types.

#[tactic(auto, unfolding(vi_history::specs::Requests::request_bytes))]
fn attach(domain: u32, endpoint: u32, flags: u32) -> [u8; 20]
    ensures bytes { result ≡ request_bytes (Request.Attach domain endpoint flags) }
    ensures fits { FieldsFit (Request.Attach domain endpoint flags) }
{
    let mut bytes = [0; 20];
    bytes[0] = ATTACH;
    LittleEndian::write_u32(&mut bytes[4..], domain);
    LittleEndian::write_u32(&mut bytes[8..], endpoint);
    LittleEndian::write_u32(&mut bytes[12..], flags);
    bytes
}

#[tactic(auto, unfolding(vi_history::specs::Requests::request_bytes))]
fn detach(domain: u32, endpoint: u32) -> [u8; 20]
    ensures bytes { result ≡ request_bytes (Request.Detach domain endpoint) }
    ensures fits { FieldsFit (Request.Detach domain endpoint) }
{
    let mut bytes = [0; 20];
    bytes[0] = DETACH;
    LittleEndian::write_u32(&mut bytes[4..], domain);
    LittleEndian::write_u32(&mut bytes[8..], endpoint);
    bytes
}

#[tactic(auto, unfolding(vi_history::specs::Requests::request_bytes))]
fn map(domain: u32, first: u64, last: u64, target: u64, flags: u32) -> [u8; 36]
    ensures bytes { result ≡ request_bytes (Request.Map domain first last target flags) }
    ensures fits { FieldsFit (Request.Map domain first last target flags) }
{
    let mut bytes = [0; 36];
    bytes[0] = MAP;
    LittleEndian::write_u32(&mut bytes[4..], domain);
    LittleEndian::write_u64(&mut bytes[8..], first);
    LittleEndian::write_u64(&mut bytes[16..], last);
    LittleEndian::write_u64(&mut bytes[24..], target);
    LittleEndian::write_u32(&mut bytes[32..], flags);
    bytes
}

#[tactic(auto, unfolding(vi_history::specs::Requests::request_bytes))]
fn unmap(domain: u32, first: u64, last: u64) -> [u8; 28]
    ensures bytes { result ≡ request_bytes (Request.Unmap domain first last) }
    ensures fits { FieldsFit (Request.Unmap domain first last) }
{
    let mut bytes = [0; 28];
    bytes[0] = UNMAP;
    LittleEndian::write_u32(&mut bytes[4..], domain);
    LittleEndian::write_u64(&mut bytes[8..], first);
    LittleEndian::write_u64(&mut bytes[16..], last);
    bytes
}

#[tactic(auto, unfolding(vi_history::specs::Requests::request_bytes))]
fn probe(endpoint: u32) -> [u8; 72]
    ensures bytes { result ≡ request_bytes (Request.Probe endpoint) }
    ensures fits { FieldsFit (Request.Probe endpoint) }
{
    let mut bytes = [0; 72];
    bytes[0] = PROBE;
    LittleEndian::write_u32(&mut bytes[4..], endpoint);
    bytes
}

/// The device-readable part of a request (Virtio 1.2, 5.13.6), its reserved bytes 0. An error is want
/// of memory.
pub fn encode(alloc: Global, request: &Request) -> Result<Bytes, AllocError>
    ensures bytes { IfOk result (λ b. b ≡ request_bytes request.now) }
    ensures reads { IfOk result (IsRequest request.now) }
{
    match *request {
        Request::Attach {
            domain,
            endpoint,
            flags,
        } => Bytes::of(alloc, &attach(domain, endpoint, flags)),
        Request::Detach { domain, endpoint } => Bytes::of(alloc, &detach(domain, endpoint)),
        Request::Map {
            domain,
            first,
            last,
            target,
            flags,
        } => Bytes::of(alloc, &map(domain, first, last, target, flags)),
        Request::Unmap {
            domain,
            first,
            last,
        } => Bytes::of(alloc, &unmap(domain, first, last)),
        Request::Probe { endpoint } => Bytes::of(alloc, &probe(endpoint)),
    }
}
