//! What a device makes of bytes.
ghost use Rattle.std.specs.Prelude.{◌≡◌, ◌<◌, ◌-◌, ◌^◌, length};
ghost use Rattle.vi_bytes.specs.Fields.{byte_at};
ghost use Rattle.vi_history.specs.Requests.{reading, writable_size};

use crate::{ReqFault, decode};
use vi_history::{PROBE, Reading};

// The type of a request's bytes.
fn type_of(bytes: &[u8]) -> u8
    ensures { result ≡ byte_at 0 bytes.now }
{
    match bytes.first() {
        None => 0,
        Some(kind) => *kind,
    }
}

// The size of the writable part that a request of this type needs.
fn writable_for(kind: u8) -> u32
    ensures { result ≡ writable_size kind }
{
    if kind == PROBE { 516 } else { 4 }
}

/// What these device-readable bytes come to, with so many device-writable ones for the answer
/// (Virtio 1.2, 5.13.6). Takes no memory.
pub fn read(bytes: &[u8], write: u32) -> Reading
    requires { length bytes.now < 2 ^ 32 - 1 }
    ensures { result ≡ reading bytes.now write }
{
    let kind = type_of(bytes);
    if write < writable_for(kind) {
        return Reading::Silent;
    }
    match decode(bytes) {
        Ok(request) => Reading::Asks(request),
        Err(ReqFault::NoHead | ReqFault::UnknownType(_)) => Reading::Silent,
        Err(ReqFault::Size { .. } | ReqFault::Reserved) => Reading::Malformed {
            probe: kind == PROBE,
        },
    }
}
