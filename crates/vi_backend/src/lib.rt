//! A back end of an endpoint: its own lines of a script, how far it is with them, and the
//! translations that it caches. It is for authors of a back end, and for testers of the device's
//! side.
//!
//! Main calls:
//! - `Backend::next` answers what it wishes: an access, a translation, a frame, or nothing more.
//! - `Backend::got` takes a frame, and answers an Invalidate with the Ack.
//! - `Backend::access` does the current part on a page, and answers its mark and its bytes' place.
//!
//! # Example
//! A test of `tests_core` runs this. Nothing is cached yet, so where the first line writes, the
//! wish is `Wish::Ask` with a Miss for its first part.
//!
//! ```
//! let setup = &script.setup;
//! if setup.endpoints.len() != 1 || setup.cache < 1 || setup.cache > 64 {
//!     return None;
//! }
//! match Backend::new(alloc, script, 0) {
//!     Ok(back) => Some(back.next()),
//!     Err(_) => None,
//! }
//! ```
//!
//! # Limits
//! A cache has 1 to 64 leases. After 16 accesses without a receive it wishes to receive. A part
//! lies within one page of 4096 bytes, and one miss is open at most. Only `new` takes memory; its
//! error is out of memory. `access` wants the page that `next` named. It neither sends nor waits:
//! the caller moves frames.
//!
//! # Source
//! The vhost-user protocol's IOTLB messages, as the frames of `vi_iotlb`.
#![tactic(auto)]

mod backend;
pub mod laws;
mod lines;
mod part;
mod wish;

pub use backend::Backend;
pub use wish::{Done, Wish};
