//! What a device granted to its back ends: which translations they may still have cached. It is for
//! an author of a device, who asks it whom an invalidation concerns.
//!
//! Main calls:
//! - `add` grants a lease to a back end for a page, in the place of the page's former grant.
//! - `meets` answers whether a grant of a back end has an address of a span.
//! - `take_span` takes those grants out, each as a whole, and answers how many.
//!
//! # Example
//! A test of `tests_lists` runs this, where each of two back ends has room for one grant:
//! ```
//! assert!(rt; grants.has_room(1, 17));
//! grants.add(1, 17, two_pages());
//! let empty = [grants.is_empty(1), grants.is_empty(0)];
//! let other = grants.has_room(1, 16);
//! assert!(rt; grants.has_room(1, 17));
//! grants.add(1, 17, two_pages());
//! [empty[0], empty[1], other]
//! ```
//!
//! # Limits
//! A back end is named by its place from 0, which has to be there. It has one grant a page that was
//! asked for, and a grant's lease is 1 to 16 pages of 4096 bytes with that page. `add` has the
//! condition that `has_room` holds. Only `with_room` takes memory, and out of memory is an error.
//! Whether a back end caches what it was granted isn't known here.
#![tactic(auto)]

mod grants;
mod marks;
mod row;

pub use grants::Grants;
pub use row::Grant;
