//! What the bytes of a request come to.
use crate::Request;

/// What device-readable bytes come to, with so many device-writable ones for the answer (Virtio 1.2,
/// 5.13.6).
#[derive(Clone, Copy, Debug, PartialEq, Eq)]
pub enum Reading {
    /// Nothing can be answered: they have no head, or there is too little room for the answer.
    Silent,
    /// They are no request, and the answer is INVAL, behind 512 zero bytes where the type is PROBE.
    Malformed { probe: bool },
    /// They ask for this request.
    Asks(Request),
}
