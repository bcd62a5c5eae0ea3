//! The program as one call, `top`, for those who embed it: every command of `plain_top`, and those
//! that run a script's actors on threads. The gate is called at four moments of turns.
//!
//! Main calls:
//! - `top` does what the words say, and answers the status, with the run whose text was written.
//! - `Threaded::parse` answers the form `run W` or `load N W` that the words are, or `None`.
//!
//! # Example
//! A test of `tests_program` runs this; `status_of` takes the status out of the `Ended`.
//!
//! ```
//! fn called<R: Threads + Wait + Sync, G: Gate + Sync>(
//!     rt: &R,
//!     alloc: Global,
//!     words: &[String],
//!     source: &mut ListSource,
//!     sink: &mut ListSink,
//!     gate: &G,
//! ) -> Status {
//!     status_of(top(rt, alloc, words, source, sink, gate))
//! }
//! ```
//!
//! # Limits
//! W is 1 to 16 and N 1 to 400; words that are no form are `Usage`. A script has at most 1,048,576
//! bytes. `top` takes memory for the input, the run and the text; out of memory is a status. It may
//! wait: what its clauses say is so where it returns.
#![tactic(auto)]

mod running;
mod threaded;

pub use running::{Ended, top};
pub use threaded::{MOST_WORKERS, Threaded};
