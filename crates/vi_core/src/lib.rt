//! The core of a run, for authors of a VMM or a tester who take turns in an order of their own.
//! Drivers, back ends, the device and the event reader take turns in a `World`. Each turn is the
//! model's, so every world is sound and its history legal, whatever the order (clauses of
//! `World::turn`).
//!
//! Main calls:
//! - `World::turn` takes one actor's turn, and answers whether it moved, waits or rests.
//! - `World::finished` answers whether every line is finished; then the history is in order.
//! - `World::outcome` answers the history with the fault records that were delivered.
//!
//! # Example
//! A test of `tests_core` runs this on worlds that `World::build` made of a script.
//!
//! ```
//! /// Twenty rounds: whether every line is finished, before and after.
//! fn finished_by(world: &mut World) -> [bool; 2] {
//!     let round = [Who::Driver(0), Who::Back(7), Who::Device, Who::Events];
//!     let before = world.finished();
//!     for _round in 0..20 {
//!         world.run(&round);
//!     }
//!     [before, world.finished()]
//! }
//! ```
//!
//! # Limits
//! A script has at most 10,000 lines; a transfer has 1 to 65536 bytes, and all have at most
//! 16,777,216. `build` takes all room, and `actors`, `outcome` and `outcome_of` take memory; their
//! error is out of memory. No turn takes any. A turn of a driver or a back end that the script
//! doesn't have changes nothing.
#![tactic(auto)]

mod conversing;
mod driving;
mod gate;
mod history;
pub mod laws;
mod opening;
mod outcome;
mod posted;
mod reader;
mod room;
mod round;
mod serving;
mod turned;
mod world;

pub use conversing::{converse, reach};
pub use driving::drive;
pub use gate::{Free, Gate, Point};
pub use outcome::outcome_of;
pub use reader::read_event;
pub use room::{byte_room, entry_room};
pub use round::actors;
pub use serving::{Served, serve};
pub use turned::Turned;
pub use world::World;
