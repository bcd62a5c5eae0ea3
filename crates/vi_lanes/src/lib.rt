//! The frames between the device and its back ends, by what they say: updates, invalidates and
//! replies on their way down, acknowledgements and misses on their way up, and at most one parked
//! miss for each back end. For an author of a device and of back ends in the same program.
//!
//! Main calls:
//! - `Lanes::ask` and `Lanes::take_miss` send a back end's miss up and take it.
//! - `Lanes::grant` and `Lanes::invalidate` tell a back end what it may keep and must forget.
//! - `Lanes::receive` answers what a back end receives next.
//!
//! # Example
//!
//! A test of `tests_rings` runs this. Back end 1 then receives the Update, the Invalidate and the
//! Reply, in this order: `receive` answers updates and invalidates before a reply.
//!
//! ```
//! let before = lanes.receive(1);
//! lanes.reply(1, true);
//! lanes.grant(1, LEASE);
//! lanes.invalidate(1, &ALL);
//! before
//! ```
//!
//! # Limits
//!
//! There are at most 16 back ends, by place from 0. A back end has at most 8 acknowledgements, 9
//! updates and invalidates, and one reply under way, and one miss under way or parked. Each call
//! asks for this room instead of refusing. Addresses are bytes; a lease counts pages of 4096
//! bytes. `Lanes::build` takes all room, and out of memory is its error; no other call takes
//! memory. A frame doesn't say the line and the part of a miss, so they are kept beside it.
//!
//! # Source
//!
//! The vhost-user protocol's IOTLB messages and REPLY_ACK, as `vi_iotlb` encodes them.
#![tactic(auto)]

mod lanes;
mod miss;

pub use lanes::Lanes;
pub use miss::Miss;
