//! The drivers' open calls, for an author of a device: the request queue as the bytes of a
//! virtqueue, the answers, the settings of the bypass field, and how far each driver is.
//!
//! Main calls:
//! - `Calls::submit` puts a driver's request at the end of the queue.
//! - `Calls::take` answers the first request and what its bytes come to, or `None`.
//! - `Calls::collect` answers a driver's lowest answered line, with its bytes in `out`.
//!
//! # Example
//!
//! A test of `tests_rings` runs this. Driver 3 collects INVAL in 4 bytes, and then `NotYet`:
//!
//! ```
//! calls.submit(3, 1, &DETACH, 4);
//! let Some(request) = calls.take() else {
//!     return None;
//! };
//! calls.answer(request.head, &Reply::Status(INVAL));
//! let mut out = [9; 1024];
//! let first = calls.collect(3, &mut out);
//! let again = calls.collect(3, &mut out);
//! Some(([first, again], [out[0], out[1], out[3], out[4]]))
//! ```
//!
//! # Limits
//!
//! There are drivers 0 to 7, and the queue has 16, 32, 64, 128 or 256 descriptors. `submit` asks
//! for fewer than 8 open calls, not counting settings that are left. A request has at most 1024
//! readable and 1024 writable bytes, and some. A driver leaves one setting at a time. `answer`
//! asks that the reply fits the request's writable part: 516 bytes for a PROBE, else 4 or none.
//! Only `build` takes memory; its error is out of memory.
//!
//! # Source
//!
//! Virtio 1.2, 5.13.6 (requests), 5.13.4 (the bypass field), 2.7 (split virtqueues, `vi_vring`).
#![tactic(auto)]

mod calls;
mod chains;
pub mod laws;
mod reply;
mod row;

pub use calls::{Calls, Collected, Request};
pub use reply::Reply;
pub use row::Setting;
