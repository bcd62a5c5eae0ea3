//! The state of the device: its endpoints, its domains and their mappings, what a request makes of
//! it, and where an address of an endpoint leads. It is for an author of a VMM or of a device.
//!
//! Main calls:
//! - `commit` answers the status of a request, and takes its effect if that is OK.
//! - `translate` answers where an access leads, or the reason of its fault.
//! - `lease` and `run` answer what a back end may cache of a page, alone and with those beside it.
//!
//! # Example
//! A test of `tests_device` runs this, and the statuses are NOENT, OK, OK and INVAL. The test goes
//! on with `translate`, `lease`, `run`, and two UNMAPs by `commit`.
//! ```
//! fn mapped(device: &mut Device) -> ([u8; 4], [bool; 4]) {
//!     let early = device.status(&MAP);
//!     let attached = device.commit(&ATTACH);
//!     let exists = device.has_domain(1);
//!     let room = device.has_room(&MAP);
//!     let added = if room { device.commit(&MAP) } else { u8::MAX };
//!     let again = device.status(&MAP);
//!     let fits = [exists, room, device.has_domain(1), device.has_room(&MAP)];
//!     ([early, attached, added, again], fits)
//! }
//! ```
//!
//! # Limits
//! There are at most 16 endpoints, of distinct ids and with at most 16 regions each. Each of 16
//! domains has room for `maps` mappings. `commit` has the condition that `has_room` holds. An
//! endpoint is named by its place from 0, which has to be there. Addresses have 64 bits, and pages
//! of 4096 bytes have numbers below 2^52. Only `new` takes memory, and out of memory is an error.
//! The device makes no access itself, and tells no back end of a removal.
//!
//! # Source
//! Virtio 1.2, 5.13.2, 5.13.4 and 5.13.6.3 to 5.13.6.9.
#![tactic(auto)]

mod aim;
mod device;
mod domains;
mod effects;
mod endpoints;
mod held;
mod run;
mod seat;
mod statuses;
mod table;
mod translation;

pub use device::Device;
pub use vi_history::Found;
