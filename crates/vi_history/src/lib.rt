//! What a device is asked, what it answers, and the one-thread device that says which answers are
//! right. It is for authors and testers of a device who call the crates above, or read what they
//! promise. The definitions that everything else is measured by stand in this crate's `specs/`.
//!
//! Main calls:
//! - `Request` and `Call`, types: what a driver asks; that, a bypass setting or an access.
//! - `Entry` and `Outcome`, types: one answer; a history with its delivered fault records.
//! - `Kind::is_fault`: whether an answer is that of an access that faulted.
//!
//! # Example
//! A test of `tests_device` runs this, where `plain` is a one-thread device of `vi_plain`:
//! ```
//! let part = Part { iova, len: 2 };
//! let call = Call::Write {
//!     endpoint: 7,
//!     part,
//!     bytes: Bytes::of(alloc, &[1, 2])?,
//! };
//! plain.step(alloc, Caller::Back(7), 1, 1, &call)
//! ```
//!
//! # Limits
//! - The types refuse nothing: any value may stand in the fields of a `Request`. Which values make
//!   sense is said at each type, and `vi_plain::Plain::new`, for one, asks for it in its contract.
//! - `Setup::memory` is in pages of 4096 bytes, and the granule in bytes. A part lies within one
//!   page.
//! - Nothing here takes memory: `Bytes` and `Items` are handed in. The one-thread device is a
//!   definition; `vi_plain` computes it.
//!
//! # Source
//! Virtio 1.2, 5.13.4 (bypass) and 5.13.6 (requests, replies and fault reports).
#![tactic(auto)]

mod call;
mod entry;
mod found;
mod outcome;
mod reading;
pub mod reason;
mod request;
mod setup;
pub mod status;

pub use call::{Call, Caller};
pub use entry::{Entry, Kind, Mark};
pub use found::Found;
pub use outcome::{Outcome, Shown};
pub use reading::Reading;
pub use request::{ATTACH, DETACH, MAP, PROBE, Request, UNMAP};
pub use setup::Setup;
