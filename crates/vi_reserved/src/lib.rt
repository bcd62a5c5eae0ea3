//! The addresses that endpoints keep to themselves, for an author of a device, who asks which of an
//! endpoint's regions meets a span or has an address.
//!
//! Main calls:
//! - `Reserved::new` takes the regions of all endpoints, and `regions` answers those of one.
//! - `first_meeting` answers the endpoint's first region that shares an address with a span.
//! - `first_with` answers its first region that has an address.
//!
//! # Example
//! A test of `tests_lists` runs this. `meeting` and `with_an_address` make the calls named so:
//! ```
//! let high = region(0x8000);
//! let low = region(0x1000);
//! let setups = [
//!     endpoint(rt.alloc(), high, low)?,
//!     endpoint(rt.alloc(), low, low)?,
//! ];
//! let reserved = Reserved::new(rt.alloc(), &setups)?;
//! assert_eq!(rt; reserved.len(), 2);
//! assert_eq!(rt; reserved.regions(0), [high, low].as_slice());
//! let met = [Some(high), Some(low), None, Some(low)];
//! assert_eq!(rt; meeting(&reserved), met);
//! assert_eq!(rt; with_an_address(&reserved), [Some(high), None]);
//! ```
//!
//! # Limits
//! First is by declared order, not by address, and regions may share addresses. An endpoint is
//! named by its place from 0, which has to be there. Each region has an address. Only `new` takes
//! memory, and out of memory is an error. The kind of a region isn't looked at.
//!
//! # Source
//! Virtio 1.2, 5.13.6.8.1, where an endpoint's properties tell its regions.
#![tactic(auto)]

mod reserved;

pub use reserved::Reserved;
