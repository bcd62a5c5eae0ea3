//! The report of an outcome: the text that the programs print, and reading it back. It is for a
//! tester who prints or reads histories.
//!
//! Main calls:
//! - `text` answers the report of an outcome.
//! - `parse` answers the outcome whose report the bytes are, or the first line that doesn't fit.
//! - `push_name` and `push_answer` add a call's name and an answer, as reports spell them.
//!
//! # Example
//! A test of `tests_device` runs this, on a report of one entry:
//! ```
//! let outcome = parse(alloc, report)?;
//! assert_eq!(rt; outcome.dropped, 2);
//! assert_eq!(rt; outcome.entries.len(), 1);
//! assert_eq!(rt; text(alloc, &outcome)?.as_slice(), report.as_slice());
//! parse_reads_reports();
//! ```
//!
//! # Limits
//! `parse` takes fewer than 2^32 - 1 bytes, and no other spelling than that of `text`. It holds
//! neither the count of faults nor the records against the entries: that is for `vi_check`. `text`
//! wants a well made outcome, such as `parse` answers. All these calls take memory, and out of
//! memory is an error.
//!
//! # Source
//! Virtio 1.2, 5.13.6.9, for the 24 bytes of a fault record.
#![tactic(auto)]

mod fault;
mod line;
mod reading;
mod report;

pub use fault::ReportFault;
pub use line::{push_answer, push_name};
pub use reading::{parse, parse_reads_reports};
pub use report::{text, text_is_unambiguous};
