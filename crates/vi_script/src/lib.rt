//! The reader of scripts, for a tester who writes one as a text: the text is judged line by line,
//! each by what the lines above it say. It is accepted exactly where the definition accepts it,
//! and each other text is refused at its first bad line (`read`).
//!
//! Main calls:
//! - `parse` answers the script that a text is, or a `ScriptFault` with the first bad line.
//! - `BadKind::text` answers the word for what is wrong with that line.
//!
//! # Example
//!
//! A test of `tests_device` runs this. A queue has 16, 32, 64, 128 or 256 descriptors, so the
//! second line is refused:
//!
//! ```
//! let fault = parse(rt.alloc(), b"memory 1\nqueue 17").err();
//! assert_eq!(rt;
//!     fault,
//!     Some(ScriptFault::Bad {
//!         line: 2,
//!         kind: BadKind::Limit,
//!     })
//! );
//! ```
//!
//! # Limits
//!
//! `parse` asks for fewer than 2^32 - 1 bytes. It refuses bytes other than 32 to 126 within a
//! line, and the 10,001st line. A script has at most 16 endpoints with 16 regions each, 8 drivers,
//! 65,536 bytes in one transfer and 16,777,216 in all. A line awaits at most 16 others. The
//! drivers' longest batches have at most 8 lines together. `docs/FORMATS.md` lists every statement
//! and every refusal. `parse` takes memory, and out of memory is a `ScriptFault`.
//! `BadKind::Report` is for the command `check`.
#![tactic(auto)]

mod deed;
mod draft;
mod fault;
mod form;
mod name;
mod reading;
mod settings;
mod statement;
mod tally;

pub use fault::{BadKind, ScriptFault};
pub use reading::parse;
