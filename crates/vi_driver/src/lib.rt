//! A driver of the IOMMU: what it asks for next, over its own lines of a script. It is for testers
//! who drive a device by a script, over queues of their own.
//!
//! Main calls:
//! - `Driver::next` answers what it wishes: to submit, to collect, to await lines, or to rest.
//! - `Driver::readable` and `writable` answer the next request's bytes and its writable size.
//! - `Driver::collected` closes the call of a line, and answers how many first lines are finished.
//!
//! # Example
//! A test of `tests_core` runs this for drivers whose first lines differ. One whose line awaits
//! another wishes `Await`, one without lines `Rest`.
//!
//! ```
//! fn first_wish(alloc: Global, script: &Script, number: u8) -> Option<(u8, DriverWish, bool)> {
//!     match Driver::new(alloc, script, number) {
//!         Ok(driver) => Some((driver.number(), driver.next(), driver.open())),
//!         Err(_) => None,
//!     }
//! }
//! ```
//!
//! # Limits
//! Only `new` takes memory, for copies of the driver's lines; its error is out of memory. At most 8
//! calls are open, and all are of one batch. `readable`, `writable`, `setting` and `awaits` want a
//! line that is left to submit. It moves no bytes: the caller puts requests into a queue and takes
//! answers out.
//!
//! # Source
//! Virtio 1.2, 5.13.6: the bytes of requests; 5.13.4: the bypass field.
#![tactic(auto)]

mod batch;
mod driver;
pub mod laws;
mod own;
mod wish;

pub use driver::Driver;
pub use wish::DriverWish;
