//! The one-thread device after a history whose answers are known. It is for whoever has a log of
//! calls and answers and wants the device and the memory at a place of it: for migration, for an
//! image, for a debugger.
//!
//! Main calls:
//! - `State::new` is the device before the first call, with room for so many mappings.
//! - `follow` takes the effect of a call that was answered so, and says which page it wrote.
//! - `maps_made` says how much room for mappings that takes.
//! - `page` and `device` show the bytes of a page and the device.
//!
//! # Example
//! A test of `tests_device` runs this. `both` asks the plain device and has the state follow its
//! answer. MAP leads from page 2 of the addresses to page 1, so that `page` is `Some(1)`:
//! ```
//! both(alloc, plain, state, &Call::Ask(ATTACH), write)?;
//! both(alloc, plain, state, &Call::Ask(MAP), write)?;
//! let page = both(alloc, plain, state, write, write)?;
//! ```
//!
//! # Limits
//! No answer is computed: that the entries are right is a condition of `follow`, and `vi_plain` is
//! the reference that answers. An access is by a declared endpoint and stays within one page. There
//! is room for the mappings that `new` was told of, in each of 16 domains. Each MAP that took
//! effect uses one up for good. `new` takes memory, and out of memory is its error. The other calls
//! take none, and refuse nothing.
//!
//! # Source
//! Virtio 1.2, 5.13.6, for what requests do.
#![tactic(auto)]

pub mod laws;
mod place;
mod state;

pub use state::{State, maps_made};
