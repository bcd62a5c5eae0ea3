//! The logs that threads keep of their entries, each with the ticket that was drawn for it, and the
//! history that they come to. It is for an author of a run whose threads answer side by side.
//!
//! Main calls:
//! - `Log::with_room`: an empty log with room for so many entries, and so many bytes of theirs.
//! - `Log::push` and `get`: puts an entry behind the others; the ticket and the entry at an index.
//! - `merge`: the entries of all logs by rising ticket: their one history (`laws::merged_once`).
//!
//! # Example
//! A test of `tests_device` runs this. The first log has `a` with the ticket 0 and `c` with 2, and
//! the second has `b` with 1:
//! ```
//! let logs = two_logs(rt.alloc())?;
//! let history = merge(rt.alloc(), &logs)?;
//! assert_eq!(rt; history.len(), 3);
//! assert_eq!(rt; history[0].bytes.as_slice(), b"a".as_slice());
//! assert_eq!(rt; history[1].bytes.as_slice(), b"b".as_slice());
//! assert_eq!(rt; history[1].mark.line, 2);
//! assert_eq!(rt; history[2].bytes.as_slice(), b"c".as_slice());
//! ```
//!
//! # Limits
//! - The room of a log is below 2^32 entries and 2^32 bytes. `push` asks for room that is left, and
//!   takes no memory. A log doesn't grow.
//! - `merge` asks that the tickets of the logs are 0, 1, 2 and so on, each once. It doesn't draw
//!   them.
//! - `with_room`, `get` and `merge` take memory, and out of memory is their error.
#![tactic(auto)]

pub mod laws;
mod log;
mod merging;

pub use log::Log;
pub use merging::merge;
