//! What a translation comes to.

/// Where an address leads for an endpoint and a need.
#[derive(Clone, Copy, Debug, PartialEq, Eq)]
pub enum Found {
    /// The guest physical address.
    At(u64),
    /// The reason of the fault.
    Fault(u8),
}
