//! What the device, its drivers and its back ends share, for authors of a VMM who schedule these
//! themselves: the device, both virtqueues, frames under way, grants, open removals, parked misses
//! and posted numbers. Each call is a part of a turn of the model in `vi_model`.
//!
//! Main calls:
//! - `Control::build` answers the control of a script in which nothing has happened.
//! - `Control::next` answers the device's next work, or `Idle`; `start`, `serve`, `finish` do it.
//! - `Control::submit` and `collect` are a driver's calls, `send` and `receive` a back end's.
//!
//! # Example
//! A test of `tests_core` runs this. For drivers 3 and 2 it answers 5 and 0.
//!
//! ```
//! fn posted(control: &mut Control) -> [u32; 2] {
//!     control.post(Caller::Driver(3), 5);
//!     let other = control.posted(Caller::Driver(2));
//!     [control.posted(Caller::Driver(3)), other]
//! }
//!
//! /// The same of a control before any turn.
//! fn posted_first(alloc: Global, script: &Script) -> Result<[u32; 2], AllocError>
//!     requires { IsValid script.now }
//! {
//!     let mut control = Control::build(alloc, script)?;
//!     Ok(posted(&mut control))
//! }
//! ```
//!
//! # Limits
//! Drivers are numbered 0 to 7. At most 8 calls are open, a request has at most 1024 readable and
//! 1024 writable bytes, and one byte at least. `start`, `serve` and `finish` want the work that
//! `next` answered. Only `build` takes memory; its error is out of memory.
//!
//! # Source
//! Virtio 1.2, 5.13.2 (queues), 5.13.4 (configuration space), 5.13.6 (requests and fault records).
#![tactic(auto)]

mod acks;
mod answers;
mod awaiting;
mod back_ends;
mod control;
mod counts;
mod drivers;
mod granting;
mod ids;
pub mod laws;
mod lent;
mod misses;
mod next;
mod opening;
mod parts;
mod places;
mod question;
mod serve;
mod start;
mod transfer;
mod work;

pub use control::Control;
pub use transfer::Transfer;
pub use vi_calls::Collected;
pub use work::Work;
