//! Were the recorded IOTLB messages obeyed? A trace is the log of one back end's main channel: the
//! frames that went to it and came from it, in order, and its uses of addresses between them. This
//! crate is for authors of back ends, who print such a log in their tests, for authors of the
//! device's side of the channel, and for fuzzers.
//!
//! Main calls:
//! - `parse`: the trace of lines `down HEX`, `up HEX`, `use A r`, `use A w`, or the first bad line.
//! - `judge`: that a trace holds, or the first line at which a rule is broken, and which one.
//! - `Finding::text`: the line `held` or `breaks L RULE` that says so.
//!
//! Where a trace holds, no cache that is built lawfully from its frames has a page of an
//! acknowledged span before a later Update of the page. Each use was permitted by an Update that no
//! Ack had taken back (`laws`).
//!
//! # Example
//! A test of `tests_codecs` runs this, where `text` is a trace of its table:
//! ```
//! match parse(alloc, text) {
//!     Ok(trace) => Ok(judge(alloc, &trace)?.text(alloc)?),
//!     Err(fault) => {
//!         let said = format!(in alloc; "{fault}\n")?;
//!         Ok(Bytes::from_vec(said.into_bytes()))
//!     }
//! }
//! ```
//!
//! # Limits
//! - A text has fewer than 2^32 - 1 bytes. Addresses are in bytes, and pages have 4096 bytes.
//! - The frames are those of `vi_iotlb`, with one form of flags each and Updates within a block of
//!   16 pages. The log of another implementation is rewritten into these first.
//! - Only Updates, Invalidates and Acks are taken: a Miss, an AccessFail or a Reply breaks a rule.
//! - Each of the three calls takes memory, and out of memory is an error of it.
//!
//! # Source
//! The vhost-user protocol, for the frames.
#![tactic(auto)]

mod cache;
mod finding;
mod judging;
pub mod laws;
mod reading;
mod state;
mod trace;

pub use finding::{Finding, Rule};
pub use judging::judge;
pub use reading::{TraceFault, parse};
pub use trace::{Event, Trace, TraceLine};
