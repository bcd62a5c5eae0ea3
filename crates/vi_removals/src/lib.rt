//! The open removals of an IOMMU device with the drivers' calls that they belong to: ATTACH,
//! DETACH and UNMAP requests and settings of the bypass field that wait until back ends gave their
//! translations back. For an author of a device with caching back ends.
//!
//! Main calls:
//! - `Removals::begin` opens a removal that waits for the back ends set in `waits`.
//! - `Removals::acked` takes one acknowledgement, and answers the addresses it gives back.
//! - `Removals::take_ready` answers the first begun removal that waits for nobody, or `None`.
//!
//! # Example
//!
//! A test of `tests_rings` runs this with two open removals: an UNMAP that waits for both back
//! ends, and then a setting that waits for back end 1. The setting alone gets ready.
//!
//! ```
//! assert!(rt; !removals.is_full() && removals.waits_for(0) && removals.waits_for(1));
//! let oldest = removals.acked(1);
//! let ready = removals.is_ready();
//! assert!(rt; removals.take_ready().is_none());
//! assert!(rt; removals.waits_for(1));
//! let next = removals.acked(1);
//! let then = removals.is_ready();
//! ([oldest, next], [ready, then], removals.take_ready())
//! ```
//!
//! # Limits
//!
//! At most 8 removals are open, with at most 16 endpoints, by place from 0. `begin` asks that one
//! more fits and that it waits for someone. It takes an ATTACH or DETACH of a known endpoint, an
//! UNMAP of a range with an address, or the bypass field set to off. `acked` asks that a removal
//! waits for that back end. `closes` asks for a page below 2^52. No call takes memory.
//!
//! # Source
//!
//! Virtio 1.2, 5.13.6.3 (ATTACH), 5.13.6.4 (DETACH), 5.13.6.6 (UNMAP), 5.13.4 (the bypass field).
#![tactic(auto)]

pub mod laws;
mod removals;
mod taking;

pub use removals::{Ready, Removals};
