//! A script's run on threads, for authors of a VMM and testers. Its actors take turns at the object
//! of `vi_turns`, each with a pass of its own. Where `run` returns, the history is legal and in
//! order, whatever the interleaving of atomic steps.
//!
//! Main calls:
//! - `Opened::build` answers a run before its first turn; `parts` gives its actors to your threads.
//! - `Actor::turn` takes one turn, or answers `Busy` where somebody else has what it needs.
//! - `run` takes all turns on so many workers, and `Finished::outcome` answers what came of it.
//!
//! # Example
//! A test of `tests_core` runs this on an actor of `parts`, with a gate that counts held pages.
//!
//! ```
//! fn access(shared: &Shared, actor: &mut Actor) -> (Ran, u64)
//!     requires { IsPassOf shared.now actor.old.pass }
//!     ensures { IsSame shared.now actor.old actor.new }
//! {
//!     let held = Held {
//!         pages: AtomicU64::new(0),
//!     };
//!     let ran = actor.turn(shared, &held);
//!     (ran, held.pages.load(Ordering::SeqCst))
//! }
//! ```
//!
//! # Limits
//! `run` has 1 to 16 workers. `build` takes the room for mappings, frames and entries, and
//! `outcome` takes memory; their error is out of memory. No turn takes memory or waits. `run` may
//! wait, and what is said of it is so where it returns. A gate is called on the thread that takes
//! the turn.
#![tactic(auto)]

mod actor;
mod backs;
mod device;
mod drivers;
mod finished;
mod opened;
mod ran;
mod reader;
mod role;
mod running;
mod waiting;

pub use actor::Actor;
pub use finished::Finished;
pub use opened::Opened;
pub use ran::Ran;
pub use role::Role;
pub use running::run;
pub use vi_core::{Free, Gate, Point};
pub use waiting::{Round, Waiting};
