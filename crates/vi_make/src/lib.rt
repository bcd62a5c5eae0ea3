//! The load script, by which programs are measured, and the summary of its run. It is for a tester
//! who wants a long script at hand.
//!
//! Main calls:
//! - `make` answers the load script of so many rounds.
//! - `summary` answers one line of counts and sums of an outcome.
//! - `load_script_is_accepted` does nothing; its contract says that `make` writes scripts.
//!
//! # Example
//! A test of `tests_device` runs this:
//! ```
//! let script = make(rt.alloc(), 2)?;
//! let text = script.as_slice();
//! assert_eq!(rt; text.iter().filter(|byte| **byte == b'\n').count(), 51);
//! assert!(rt; text.starts_with(b"memory 64\nqueue 64\ncache 8\nendpoint 1\n"));
//! assert!(rt;
//!     text.ends_with(
//!         b"d3 map 4 1052672 1056767 200704 rw after b4.3\n\
//!         b4 write 1052672 00000007 after d3.4\n\
//!         b4 read 1052672 4\n\
//!         d3 unmap 4 1052672 1056767 after b4.5\n\
//!         b4 read 1052672 4 after d3.5\n"
//!     )
//! );
//! load_script_is_accepted();
//! ```
//!
//! # Limits
//! There are 1 to 400 rounds, and a script of N rounds has 20 N + 11 lines. The outcome of
//! `summary` is well made, and needn't be of a load script. Both calls take memory, and out of
//! memory is an error. Nothing is run or measured here.
#![tactic(auto)]

mod counts;
mod laws;
mod load;
mod turn;

pub use counts::summary;
pub use laws::load_script_is_accepted;
pub use load::make;
