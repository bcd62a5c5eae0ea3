//! Requests of a driver (Virtio 1.2, 5.13.6).

/// The type of an ATTACH request, its first byte.
pub const ATTACH: u8 = 1;
/// The type of a DETACH request.
pub const DETACH: u8 = 2;
/// The type of a MAP request.
pub const MAP: u8 = 3;
/// The type of an UNMAP request.
pub const UNMAP: u8 = 4;
/// The type of a PROBE request.
pub const PROBE: u8 = 5;

/// A request with its fields as they were sent, so that any value may stand in them. `first`, `last`
/// and `target` are the standard's virt_start, virt_end and phys_start: `last` is the range's last
/// address.
#[derive(Clone, Copy, Debug, PartialEq, Eq)]
pub enum Request {
    /// The endpoint joins the domain. Flag bit 0 asks for a bypass domain (Virtio 1.2, 5.13.6.3).
    Attach {
        domain: u32,
        endpoint: u32,
        flags: u32,
    },
    /// The endpoint leaves the domain (Virtio 1.2, 5.13.6.4).
    Detach {
        domain: u32,
        endpoint: u32,
    },
    /// The addresses from `first` to `last` go to those from `target` on. Flag bit 0 permits reading
    /// and bit 1 writing (Virtio 1.2, 5.13.6.5).
    Map {
        domain: u32,
        first: u64,
        last: u64,
        target: u64,
        flags: u32,
    },
    /// All mappings that lie in the range are removed (Virtio 1.2, 5.13.6.6).
    Unmap {
        domain: u32,
        first: u64,
        last: u64,
    },
    /// The endpoint's properties are asked for (Virtio 1.2, 5.13.6.7).
    Probe {
        endpoint: u32,
    },
}
