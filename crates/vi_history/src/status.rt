//! The statuses of a request that this device answers (Virtio 1.2, 5.13.6).

/// The request took effect.
pub const OK: u8 = 0;
/// The request is malformed, or asks for what can't be.
pub const INVAL: u8 = 4;
/// An address of the request is out of range or not aligned, or a mapping would have to be split.
pub const RANGE: u8 = 5;
/// The domain or the endpoint doesn't exist.
pub const NOENT: u8 = 6;
