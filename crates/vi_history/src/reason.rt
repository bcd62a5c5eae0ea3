//! The reasons of a fault (Virtio 1.2, 5.13.6.9).

/// The translation leads out of the memory.
pub const UNKNOWN: u8 = 0;
/// The endpoint is in no domain, and doesn't bypass the device.
pub const DOMAIN: u8 = 1;
/// The address isn't mapped for this need.
pub const MAPPING: u8 = 2;
