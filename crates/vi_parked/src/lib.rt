//! What a back end asks about while its page is closed: at most one miss or access fail for each
//! back end is kept until it can be served. For an author of a device with back ends that ask.
//!
//! Main calls:
//! - `Parked::park` keeps a miss or an access fail at a back end's place.
//! - `Parked::peek` answers what is parked there, or `None`.
//! - `Parked::take` answers the same, and nothing is parked there afterwards.
//!
//! # Example
//!
//! A test of `tests_rings` runs this:
//!
//! ```
//! let mut parked = Parked::new();
//! assert_eq!(rt; parked.peek(3), None);
//! parked.park(3, MISS);
//! let seen = [parked.peek(3), parked.peek(2)];
//! assert_eq!(rt; seen, [Some(MISS), None]);
//! let taken = [parked.take(2), parked.take(3), parked.take(3)];
//! assert_eq!(rt; taken, [None, Some(MISS), None], "it is taken once");
//! ```
//!
//! # Limits
//!
//! There are 16 places, 0 to 15. `park` asks that nothing is parked at the place, and that the
//! frame is a Miss or an AccessFail. When a parked frame can be served isn't decided here: that is
//! `vi_control`'s. No call takes memory.
//!
//! # Source
//!
//! The vhost-user protocol's IOTLB messages (miss and access fail). Parking is this project's own.
#![tactic(auto)]

mod parked;

pub use parked::Parked;
