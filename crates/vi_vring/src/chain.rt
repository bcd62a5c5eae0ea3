//! Chains of descriptors, as the device and the driver name them.

/// The first descriptor of a chain that the driver added.
#[derive(Clone, Copy, Debug, PartialEq, Eq)]
pub struct Head(pub u16);

/// A chain that the device popped: its first descriptor, and how many bytes its readable and its
/// writable part have.
#[derive(Clone, Copy, Debug, PartialEq, Eq)]
pub struct Chain {
    pub head: u16,
    pub read: u32,
    pub write: u32,
}

/// What is wrong with a chain, the first of these in this order at each of its descriptors.
#[derive(Clone, Copy, Debug, PartialEq, Eq)]
pub enum Break {
    /// The available entry or a `next` is no descriptor of the table.
    Outside,
    /// The chain has more descriptors than the table.
    Loop,
    /// A descriptor has the flag INDIRECT.
    Indirect,
    /// A readable descriptor stands after a writable one.
    Mixed,
    /// The buffer of a descriptor passes the end of the area, or the readable or the writable part
    /// has more than 1024 bytes.
    Memory,
}

/// What the device finds at the available ring.
#[derive(Clone, Copy, Debug, PartialEq, Eq)]
pub enum Popped {
    Chain(Chain),
    /// No chain is available.
    Empty,
    /// The chain has a break. It is passed over, and its entry is returned as used with length 0.
    Broken(Break),
}

/// Fewer descriptors are free than the chain needs.
#[derive(Clone, Copy, Debug, PartialEq, Eq)]
pub struct Full;
