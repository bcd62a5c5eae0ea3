//! Endpoints: the regions that they keep to themselves, and the domain that they are in.
use crate::{Items, Span};

/// The subtype of a reserved region (Virtio 1.2, 5.13.6.8.1).
#[derive(Clone, Copy, Debug, PartialEq, Eq)]
pub enum RegionKind {
    Reserved,
    Msi,
}

/// Addresses that can't be mapped for an endpoint (Virtio 1.2, 5.13.6.8.1).
#[derive(Clone, Copy, Debug, PartialEq, Eq)]
pub struct Region {
    pub kind: RegionKind,
    pub span: Span,
}

/// An endpoint as it is declared: its id and its regions, in declared order.
#[derive(Debug, Drop)]
pub struct EndpointSetup {
    pub id: u32,
    pub regions: Items<Region>,
}

/// The domain that an endpoint is attached to, by its id.
#[derive(Clone, Copy, Debug, PartialEq, Eq)]
pub enum Membership {
    Unattached,
    Member(u32),
}
