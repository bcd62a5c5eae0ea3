//! Which pages of the memory were written, and a copy of the memory that follows. It is for live
//! migration: all pages are copied once, and then those that were written meanwhile. A page is that
//! of the memory, which an access reached, and not that of the address that it named.
//!
//! Main calls:
//! - `Tracker::feed` takes a call with its entry, and `take` the pages that were written since.
//! - `Replica::follow` takes the tracker's pages and copies their bytes.
//! - `text` answers the pages of a script's history, for each so many entries and for all.
//! - `replicas_follow` does nothing; its contract says that a replica has the memory of the device.
//!
//! # Example
//! A test of `tests_device` runs this. The law in front gives what `follow` asks for:
//! ```
//! replicas_follow();
//! tracker.feed(call, entry);
//! let pages = replica.follow(alloc, tracker)?;
//! Ok(pages)
//! ```
//!
//! # Limits
//! A tracker computes no answer: that the entries are right is a condition of `feed`. There is room
//! for the mappings that `Tracker::new` was told of, in each of 16 domains, and each MAP that took
//! effect uses one up for good. `feed` and `page` take no memory, and refuse nothing. The other
//! calls take memory, and out of memory is their error. Accesses of a processor aren't tracked.
//!
//! # Source
//! Virtio 1.2, 5.13.6, for what requests do.
#![tactic(auto)]

mod following;
mod replica;
mod rounds;
mod set;
mod tracker;

pub use replica::{Replica, replicas_follow};
pub use rounds::text;
pub use tracker::Tracker;
