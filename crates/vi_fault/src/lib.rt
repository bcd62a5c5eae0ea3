//! Fault reports of the IOMMU device as bytes: what the event queue carries. It is for an author of
//! a device, who writes them, and of a guest driver or a tester, who reads them.
//!
//! Main calls:
//! - `FaultRecord::encode`: the 24 bytes of a report.
//! - `decode`: the report that the bytes are, or what is wrong with them first.
//!
//! # Example
//! A test of `tests_codecs` runs this, where `READ` and `WRITE` are the bytes of two reports:
//! ```
//! let write = FaultRecord {
//!     reason: 2,
//!     write: true,
//!     endpoint: 7,
//!     address: 0x1004,
//! };
//! for (record, bytes) in [(read, READ), (write, WRITE)] {
//!     assert_eq!(rt; record.encode(), bytes);
//!     assert_eq!(rt; decode(&bytes), Ok(record));
//! }
//! ```
//!
//! # Limits
//! - A report has 24 bytes, no more and no fewer. `address` is the access's first one.
//! - `decode` refuses another size, then a reason above 2, then flags other than 0x101 (a read) and
//!   0x102 (a write). So a report without the flag ADDRESS is refused. Reserved bytes are ignored.
//! - `encode` asks for a reason of 0 to 2, and writes reserved bytes as 0.
//! - Neither call takes memory.
//!
//! # Source
//! Virtio 1.2, 5.13.6.9.
#![tactic(auto)]

mod record;
mod refusal;

pub use record::{FaultRecord, decode};
pub use refusal::FaultFault;
