//! What every part of the device speaks of: addresses in pages and spans, transfers cut into parts,
//! translations and bytes. It is for every caller of the other crates. The layouts that several
//! codecs share are defined in this crate's `specs/`.
//!
//! Main calls:
//! - `Span::new`, `meets` and `covers`: a span of addresses with both ends; what two spans share.
//! - `parts` and `cut`: how many pages a transfer touches; its bytes in the k-th of them.
//! - `Bytes::of` and `Items::of`: owned bytes or elements, which contracts see as a list.
//!
//! # Example
//! A test of `tests_lists` runs this:
//! ```
//! assert_eq!(rt; Span::new(0x2000, 0x1fff), None);
//! let span = Span::new(0x1000, 0x1fff).ok_or("a span")?;
//! let next = Span::new(0x2000, u64::MAX).ok_or("a span")?;
//! let inner = Span::new(0x1fff, 0x1fff).ok_or("a span")?;
//! assert!(rt; span.contains(0x1fff));
//! assert!(rt; !span.contains(0x2000));
//! assert!(rt; !span.meets(&next));
//! assert!(rt; inner.meets(&span));
//! assert!(rt; span.covers(&inner));
//! assert!(rt; !inner.covers(&span));
//! ```
//!
//! # Limits
//! - A page has 4096 bytes (`PAGE`), whatever the granule. A span is in addresses of 64 bits.
//! - `parts` and `cut` ask for 1 to 65536 bytes that end by the address 2^64 - 1: at most 17 parts.
//! - `Span::new` answers `None` where the end is below the start. A lease has 1 to 16 pages of one
//!   block of 16.
//! - `Bytes::of` and `Items::of` take memory, and out of memory is their error. The others take
//!   none.
//!
//! # Source
//! Virtio 1.2, 5.13.6.8 (properties) and 5.13.6.9 (fault records), for the layouts in `specs/`.
#![tactic(auto)]

mod bytes;
mod items;
pub mod laws;
mod lease;
mod part;
mod region;
mod span;

pub use bytes::Bytes;
pub use items::Items;
pub use lease::{Lease, Mapping, Need, Over, Split};
pub use part::{Part, cut, parts};
pub use region::{EndpointSetup, Membership, Region, RegionKind};
pub use span::{PAGE, Span, aligned, page_of};
