//! Where an address leads.

/// Where an address leads, whatever the need.
pub enum Aim {
    /// To this target, which the flags of a MAP permit.
    Leads(u64, u32),
    /// Nowhere, for this reason.
    Nowhere(u8),
}
