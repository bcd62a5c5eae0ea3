//! The program on one thread, as a call that a tester or a harness embeds. `plain_top` reads words
//! and a source, and writes one text to a sink. Commands that run threads are `vi_threaded`'s.
//!
//! Main calls:
//! - `plain_top` does `one`, `check`, `sim S T`, `make N` or `trace`, and answers the `Status`.
//! - `one_thread` answers the one-thread device's replies to a script.
//! - `read_input` and `write_text` read a source up to a limit, and write a whole text.
//!
//! # Example
//! A test of `tests_program` runs this. There, `called` is `plain_top` with the same arguments.
//!
//! ```
//! pub(crate) fn ran(
//!     alloc: Global,
//!     line: &str,
//!     input: &[u8],
//!     read_fails: &[u32],
//!     room: u32,
//!     write_fails: &[u32],
//! ) -> Result<(Status, Vec<u8>), Fail> {
//!     let words = split(alloc, line)?;
//!     let (mut source, mut sink) = outside(alloc, input, read_fails, room, write_fails)?;
//!     let status = called(alloc, &words, &mut source, &mut sink);
//!     Ok((status, Vec::from_slice(alloc, sink.taken())?))
//! }
//! ```
//!
//! # Limits
//! A script or trace has at most 1,048,576 bytes, the input of `check` 67,108,864; more is
//! `TooLong`. T is at most 1,000,000, N is 1 to 400. Other words are `Usage`. It takes memory for
//! the input and the work; out of memory is a status. A source or sink that fails has to count its
//! faults.
//!
//! # Source
//! Virtio 1.2, 5.13.6, as replies of `one`; `docs/FORMATS.md` has the texts.
#![tactic(auto)]

mod command;
mod counts;
mod course;
mod delivery;
mod input;
mod judged;
mod list_sink;
mod list_source;
mod one;
mod output;
mod outside;
mod standard;
mod status;
mod told;
mod top;
mod work;

pub use command::{Command, MOST_MOVES, Task, TextTask};
pub use delivery::deliver;
pub use input::{InputFault, read_input};
pub use list_sink::ListSink;
pub use list_source::ListSource;
pub use one::one_thread;
pub use output::write_text;
pub use outside::{Failed, Sink, Source};
pub use standard::{Reading, Writing};
pub use status::{Status, TOO_LONG, USAGE};
pub use top::{CHECK_LIMIT, INPUT_LIMIT, plain_top};
