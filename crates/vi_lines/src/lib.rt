//! Scripts as values: what drivers ask and back ends transfer, who waits for whom, and which
//! histories are in order. For a tester who runs a script over a device or judges a history. How a
//! text becomes a script is `vi_script`'s.
//!
//! Main calls:
//! - `Script::line` answers a caller's line by its number, from 1, or `None`.
//! - `Script::call` answers the call of a part of that line: a request, a setting or an access.
//! - `Script::count` says how many lines a caller has.
//!
//! # Example
//!
//! A test of `tests_device` runs this. Its script has three turns, two lines of driver 0, and one
//! line of endpoint 7's back end, whose transfer has one part:
//!
//! ```
//! let back = Caller::Back(7);
//! let calls = [
//!     script.line(back, 1).is_some(),
//!     matches!(script.call(alloc, back, 1, 1), Ok(Some(_))),
//!     matches!(script.call(alloc, back, 1, 2), Ok(None)),
//! ];
//! (script.turns.len(), script.count(Caller::Driver(0)), calls)
//! ```
//!
//! # Limits
//!
//! A script has fewer than 2^32 lines. `Script::call` asks that each transfer has 1 to 65,536
//! bytes and a last address of at most 2^64 - 1. A transfer has one part for each page of 4096
//! bytes that it touches, counted from 1; a driver's line is the one part 0. Nothing is judged
//! here. That a script that was read is valid is a clause of `vi_script` (`valid`). `Script::new`
//! and `Script::call` take memory, and their only error is out of memory.
#![tactic(auto)]

mod index;
mod job;
mod line;
mod script;

pub use index::{Row, add_place, count_of};
pub use job::Job;
pub use line::{Await, Line, Who};
pub use script::Script;
