//! The object that the threads of a run share: the ticket, the control and the memory's pages, each
//! value under a lock word. It is for authors of a VMM with threads of their own. Between any two
//! atomic steps there is a sound world with each value at home or with one pass, so the history is
//! legal.
//!
//! Main calls:
//! - `Shared::try_control` and `try_page` win a value, or answer `Busy`: a word, what it held.
//! - `Shared::stamp` draws the ticket of an entry, which is its place in the history.
//! - `Shared::close` ends the object, and answers its values and the log of pass 0.
//!
//! # Example
//! A test of `tests_core` runs this. The first pass wins the control; the other gets a `Busy`.
//!
//! ```
//! fn contended(shared: &Shared, one: &mut Pass, two: &mut Pass) -> (bool, Option<Busy>)
//!     requires one { (one.old.table ≡ shared.now.table) × (one.old.view.held ≡ None) }
//!     requires two { (two.old.table ≡ shared.now.table) × (two.old.view.held ≡ None) }
//! {
//!     let won = shared.try_control(one).is_ok();
//!     (won, shared.try_control(two).err())
//! }
//! ```
//!
//! # Limits
//! A page has 4096 bytes. No call waits, and only `build` takes memory; its error is out of memory.
//! A pass holds one value at a time, and has room in its log for what it stamps. `close` wants
//! every other pass joined.
#![tactic(auto)]

mod closed;
mod control_box;
mod emptied;
mod filled;
mod pass;
mod rule;
mod shared;
mod slot;
mod view;

pub use closed::Closed;
pub use control_box::ControlBox;
pub use pass::Pass;
pub use shared::{Busy, Shared};
pub use slot::Slot;
pub use view::View;
