//! A script's run under a schedule that is stated beforehand, for testers who replay one
//! interleaving. The script's own turns come first, then turns of actors that a generator draws,
//! and then rounds until every line is finished.
//!
//! Main calls:
//! - `sim` answers the outcome: the history, the delivered fault records, how many were dropped.
//! - `next_draw` answers the generator's number behind this one.
//!
//! # Example
//! A test of `tests_core` runs this: two requests and a read are three entries.
//!
//! ```
//! /// The counts of a run with this draw and so many drawn turns.
//! fn simulated(
//!     alloc: Global,
//!     script: Script,
//!     draw: u64,
//!     moves: u32,
//! ) -> Result<(usize, usize, u32), AllocError>
//!     requires { IsPlayable script }
//! {
//!     Ok(counted(&sim(alloc, script, draw, moves)?))
//! }
//! ```
//! ```
//! fn a_read_comes_to_its_end(rt: HostRuntime) -> Result<(), Fail> {
//!     let script = script_of(rt.alloc(), READ)?;
//!     assert_eq!(rt; simulated(rt.alloc(), script, 42, 20)?, (3, 0, 0));
//!     Ok(())
//! }
//! ```
//!
//! # Limits
//! A seed is below 2^64, and the drawn turns below 2^32. It wants a script as `vi_script` reads it.
//! `sim` takes memory; its error is out of memory.
#![tactic(auto)]

mod draw;
mod schedule;

pub use draw::next_draw;
pub use schedule::sim;
