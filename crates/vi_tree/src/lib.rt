//! The mappings of one domain as a balanced search tree, whose nodes lie in a slab. It is for an
//! author of a device. Each call counts the nodes that it looks at.
//!
//! Main calls:
//! - `insert` puts a mapping, or answers the lowest that shares an address with it.
//! - `find` answers the mapping that has an address, and `meeting` the lowest that meets a span.
//! - `unmap` removes all mappings within a span, or answers the lowest that it would cut.
//!
//! # Example
//! A test of `tests_lists` runs this, where two nodes are counted for the first call:
//! ```
//! let mut steps = Steps::new();
//! let low = tree.find(0x2fff, &mut steps);
//! let counted = steps.count();
//! let free = tree.find(0x3000, &mut Steps::new());
//! let high = tree.meeting(&UPPER, &mut Steps::new());
//! ([low, free, high], counted)
//! ```
//!
//! # Limits
//! Addresses are of bytes, have 64 bits and need no alignment. A span's last address isn't below
//! its first. Mappings and room are fewer than 2^32 together. `insert` has the condition that there
//! is room. A count is at most 2^63 before a call, and `bound` says how far a call raises it. Only
//! `with_room` and `reserve` take memory, and out of memory is an error. Rights and targets aren't
//! looked at.
//!
//! # Source
//! Virtio 1.2, 5.13.6.5 and 5.13.6.6: what a MAP may not meet and an UNMAP may not cut.
#![tactic(auto)]

mod balance;
mod insert;
mod node;
mod nodes;
mod remove;
mod search;
mod steps;
mod tree;

pub use steps::Steps;
pub use tree::Tree;
