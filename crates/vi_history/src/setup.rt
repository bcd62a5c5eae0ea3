//! What a device is made of before the first call.
use vi_bytes::{EndpointSetup, Items, Span};

/// The setup of a device and its surroundings.
#[derive(Debug, Drop)]
pub struct Setup {
    /// The size of the memory in pages of 4096 bytes, 1 to 16384.
    pub memory: u32,
    /// The size of the request and of the event queue: 16, 32, 64, 128 or 256.
    pub queue: u16,
    /// How many translations a back end caches, 1 to 64.
    pub cache: u32,
    /// The granule of mappings in bytes: 4096, 16384 or 65536.
    pub granule: u32,
    /// The input range: the addresses that can be mapped (Virtio 1.2, 5.13.4).
    pub input: Span,
    /// Whether the bypass field is set at first (Virtio 1.2, 5.13.4).
    pub bypass: bool,
    /// Whether somebody reads fault records and gives their buffers back.
    pub events: bool,
    /// The endpoints in declared order, no two with one id.
    pub endpoints: Items<EndpointSetup>,
}
