//! The frames on their way between the device and its back ends: for each back end two lanes to it
//! and two from it, each first in, first out and with a bound. Frames are kept as their bytes. For
//! an author of a device whose back ends are in the same program.
//!
//! Main calls:
//! - `Mail::send` puts a frame behind those of a lane, or answers `Full`, and then nothing changes.
//! - `Mail::take` answers a lane's oldest frame, which leaves, or `None`.
//! - `Mail::oldest` lends that frame's bytes, which are empty exactly where the lane is.
//!
//! # Example
//!
//! A test of `tests_rings` runs this. `sent` sends an Invalidate and two Acks to back end 1, and
//! `taken` takes once for back end 0 and three times for back end 1:
//!
//! ```
//! let mut mail = Mail::build(rt.alloc(), 2, 1)?;
//! assert_eq!(rt; mail.oldest(1, Lane::MainDown).len(), 0);
//! let answers = [Ok(()), Ok(()), Err(Full)];
//! assert_eq!(rt; sent(&mut mail), answers, "slots and one");
//! assert_eq!(rt; decode(mail.oldest(1, Lane::MainDown)), Ok(INVALIDATE));
//! let frames = [None, Some(INVALIDATE), Some(Frame::Ack), None];
//! assert_eq!(rt; taken(&mut mail), frames, "each back end has its own");
//! ```
//!
//! # Limits
//!
//! With `slots` as given to `Mail::build`, a lane `MainDown` has at most `slots + 1` frames, a
//! `MainUp` at most `slots`, a `BackDown` or `BackUp` one. A back end's place is below the number
//! that was built, and a frame is one that `vi_iotlb` can write (at most 44 bytes): both are
//! asked. `Mail::build` takes all room, and out of memory is its error; no other call takes
//! memory.
//!
//! # Source
//!
//! The vhost-user protocol's IOTLB messages, as `vi_iotlb` encodes them.
#![tactic(auto)]

mod coded;
mod mail;
mod queue;
mod row;

pub use mail::{Full, Mail};
pub use row::Lane;
