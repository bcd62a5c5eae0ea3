//! Whether a report is one of a script: the verdict on its entries and its fault records. It is for
//! a tester of a device or of back ends, who has a script and a report.
//!
//! Main calls:
//! - `check` answers the verdict: `Legal`, or the first thing that is wrong.
//! - `Verdict::text` answers its line, for example `wrong 7 want fault 2 got wrote`.
//! - `legal_exactly` does nothing; its contract says when the verdict is `Legal`.
//!
//! # Example
//! A test of `tests_device` runs this, of a write behind an UNMAP's answer. Its `verdict` reads the
//! script, calls `check` and answers the text:
//! ```
//! let mut all = before_removal(alloc)?;
//! add(alloc, &mut all, Driver(0), 4, 0, Status, 0, b"")?;
//! add(alloc, &mut all, Back(6), 2, 1, Wrote, 0, b"")?;
//! add(alloc, &mut all, Back(5), 2, 1, Fault, 2, b"")?;
//! let text = verdict(alloc, REMOVAL, all, &[record(8)], 0)?;
//! assert_eq!(rt;
//!     text.as_slice(),
//!     b"wrong 7 want fault 2 got wrote\n".as_slice()
//! );
//! ```
//!
//! # Limits
//! The script is valid, as `vi_script::parse` answers it, and the report well made, as
//! `vi_report::parse` does. One verdict is given, on what is found first; entries and record lines
//! count from 1. Both `check` and `text` take memory, and out of memory is an error. `Legal` says
//! nothing on how the report was made.
#![tactic(auto)]

mod driver;
mod faults;
mod judging;
mod progress;
mod verdict;
mod walk;

pub use judging::{check, legal_exactly};
pub use verdict::Verdict;
