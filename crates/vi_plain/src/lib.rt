//! The one-thread device over plain lists, with its memory: a reference, which a reader can check
//! against the rules of the standard line by line. It is for a tester of a device.
//!
//! Main calls:
//! - `Plain::new` answers the setup's device before the first call.
//! - `step` answers a driver's or a back end's call as an entry, and takes its effect.
//!
//! # Example
//! A test of `tests_device` runs this: the back end of endpoint 7 writes two bytes.
//! ```
//! let call = Call::Write {
//!     endpoint: 7,
//!     part,
//!     bytes: Bytes::of(alloc, &[1, 2])?,
//! };
//! plain.step(alloc, Caller::Back(7), 1, 1, &call)
//! ```
//!
//! # Limits
//! The granule is whole pages of 4096 bytes, and an endpoint has at most 16 regions. An access has
//! at least one byte and stays within one page; a raw request has fewer than 2^32 - 1 bytes. Both
//! calls take memory. Out of memory is an error, and with `step` it changes nothing. There are no
//! caches, no threads and no event queue: a fault is an answer, not a record.
//!
//! # Source
//! Virtio 1.2, 5.13.2, 5.13.4 and 5.13.6.3 to 5.13.6.9.
#![tactic(auto)]

mod answer;
mod device;
mod domain;
mod endpoint;
mod page;
mod plain;
mod spans;

pub use plain::Plain;
