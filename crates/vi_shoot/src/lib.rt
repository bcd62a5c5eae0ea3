//! The open removals of a device with caching back ends, for its author: what is being taken from
//! endpoints, which pages that closes, and whose acknowledgement is still waited for.
//!
//! Main calls:
//! - `begin` opens a removal that waits for some back ends, and answers its number.
//! - `acked` takes a back end's acknowledgement for the oldest removal that waits for it.
//! - `ready` answers the number of the first that waits for nobody, and `close` takes it out.
//!
//! # Example
//! A test of `tests_lists` runs this behind two calls of `begin`:
//! ```
//! fn acknowledged(rt: &impl Abort, ops: &mut Ops) -> ([(u32, Reach); 2], Option<u32>) {
//!     assert!(rt; ops.waits_for(1) && ops.waits_for(2) && !ops.waits_for(3));
//!     let oldest = ops.acked(1);
//!     let ready = ops.ready();
//!     assert!(rt; ops.waits_for(1));
//!     let next = ops.acked(1);
//!     ([oldest, next], ready)
//! }
//!
//! fn closed(ops: &mut Ops) -> (Option<u32>, Option<(What, Token)>) {
//!     match ops.ready() {
//!         Some(number) => (Some(number), Some(ops.close(number))),
//!         None => (None, None),
//!     }
//! }
//! ```
//!
//! # Limits
//! At most 8 removals are open, and places are below 16. `begin` wants room and somebody to wait
//! for, `acked` a removal that waits for the back end, `close` one that is ready. A page of 4096
//! bytes with one address of an UNMAP is closed. No call takes memory.
//!
//! # Source
//! Virtio 1.2, 5.13.6.3, 5.13.6.4 and 5.13.6.6: what ATTACH, DETACH and UNMAP take from endpoints.
#![tactic(auto)]

pub mod laws;
mod ops;
mod waiting;
mod what;

pub use ops::{Op, Ops, Token};
pub use waiting::Waiting;
pub use what::{Reach, What};
