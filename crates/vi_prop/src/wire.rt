//! The numbers of properties (Virtio 1.2, 5.13.6.8).

// The types.
pub const NONE: u16 = 0;

pub const RESV_MEM: u16 = 1;

/// The bytes of a RESV_MEM's value.
pub const RESV_MEM_SIZE: u16 = 20;

// The subtypes of a RESV_MEM.
pub const RESERVED: u8 = 0;

pub const MSI: u8 = 1;
