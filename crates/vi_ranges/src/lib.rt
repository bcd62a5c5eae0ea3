//! The mappings of one domain as a sorted list, for an author of a device or of its tests. It is
//! the plain yardstick of `vi_tree`, which has the same contracts and is what the device keeps.
//!
//! Main calls:
//! - `insert` puts a mapping, or answers the lowest that shares an address with it.
//! - `find` answers the mapping that has an address, and `meeting` the lowest that meets a span.
//! - `unmap` removes all mappings within a span, or answers the lowest that it would cut.
//!
//! # Example
//! A test of `tests_lists` runs this, on a list with room for two:
//! ```
//! assert_eq!(rt; ranges.insert(high()), Ok(()));
//! ranges.reserve(2)?;
//! assert_eq!(rt; ranges.insert(low()), Ok(()));
//! ranges.reserve(2)?;
//! let over = ranges.insert(mapping(0x2fff, u64::MAX));
//! assert_eq!(rt; over, Err(Over { met: low() }));
//! ```
//!
//! # Limits
//! Addresses are of bytes, have 64 bits and need no alignment. A span's last address isn't below
//! its first. Mappings and room are fewer than 2^32 together. `insert` has the condition that there
//! is room. Only `with_room` and `reserve` take memory, and out of memory is an error that changes
//! nothing. Rights and targets aren't looked at.
//!
//! # Source
//! Virtio 1.2, 5.13.6.5 and 5.13.6.6: what a MAP may not meet and an UNMAP may not cut.
#![tactic(auto)]

mod ranges;

pub use ranges::Ranges;
