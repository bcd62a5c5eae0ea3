//! A back end's cache of translations, most recent first, for an author of a back end.
//!
//! Main calls:
//! - `put` puts a lease in front, takes out what shares a page, and answers the one without room.
//! - `look` and `peek` answer the lease that has a page; `look` makes it the most recent.
//! - `drop_span` removes, as a whole, each lease with an address of the span: an invalidation.
//!
//! # Example
//! A test of `tests_lists` runs this. Leases are put, one is invalidated, then all:
//! ```
//! fn four_between(cache: &mut Cache) -> u32 {
//!     cache.put(page(15));
//!     cache.put(FOUR);
//!     cache.put(page(20));
//!     cache.drop_span(&LAST_BYTE)
//! }
//!
//! fn emptied(cache: &mut Cache) -> (u32, Option<Lease>) {
//!     let dropped = cache.drop_span(&ALL);
//!     (dropped, cache.peek(15))
//! }
//! ```
//! ```
//! fn a_span_removes_whole_leases(rt: HostRuntime) {
//!     let mut cache = Cache::new(64);
//!     assert_eq!(rt; four_between(&mut cache), 1);
//!     assert_eq!(rt; cache.leases(), [page(20), page(15)].as_slice());
//!     assert_eq!(rt; emptied(&mut cache), (2, None));
//! }
//! ```
//!
//! # Limits
//! A cache has room for 1 to 64 leases, each of 1 to 16 pages of 4096 bytes. No call takes memory,
//! asks a device or tells it anything. Whether a lease permits an access is for the caller to look
//! at.
#![tactic(auto)]

mod cache;
mod entries;

pub use cache::Cache;
