//! Calls of the device: what a driver asks, and the accesses of an endpoint.
use crate::Request;
use vi_bytes::{Bytes, Part};

/// Who makes a call.
#[derive(Clone, Copy, Debug, PartialEq, Eq)]
pub enum Caller {
    /// A driver, by its number from 0 to 7.
    Driver(u8),
    /// The back end of an endpoint, by the endpoint's id.
    Back(u32),
}

/// One call of the device.
#[derive(Debug, Drop)]
pub enum Call {
    /// A request, with a writable part of 4 bytes, or for a PROBE of 516.
    Ask(Request),
    /// A request of these device-readable bytes with so many writable bytes, whatever they read as.
    Raw {
        read: Bytes,
        write: u32,
    },
    /// The bypass field of the configuration space is set (Virtio 1.2, 5.13.4).
    Bypass(bool),
    /// The endpoint reads a part of a transfer, at least 1 byte within one page.
    Read {
        endpoint: u32,
        part: Part,
    },
    /// The endpoint writes these bytes, as many as the part has.
    Write {
        endpoint: u32,
        part: Part,
        bytes: Bytes,
    },
}
