//! The core as definitions: the control that device, drivers and back ends share, the turns of all
//! actors on it, and when a world is sound. For an author of a device, a driver or a back end who
//! proves that code does these turns. That every turn keeps a world sound is proved in `vi_sound`.
//!
//! Main calls: there are none. The one type of code is `Task`, what a driver's call comes to:
//! - `Task::Reads`: a request's bytes come to this reading.
//! - `Task::Sets`: the bypass field of the configuration is set to this.
//!
//! # How it is used
//!
//! A contract of a crate above names a definition. In `crates/vi_removals/src/removals.rt`
//! `Removals::acked` has this clause, where `acked` is that of
//! `crates/vi_model/specs/Removals.antt`:
//! `ensures removals { removals_of self.new ≡ acked place (removals_of self.old) }`
//!
//! # Limits
//!
//! The model has drivers 0 to 7, a back end for each endpoint that the script declares, the
//! device, and one reader of fault records. One turn follows another: threads come with
//! `vi_turns`. Its request queue is a list of calls and its lanes are lists of what frames say:
//! `vi_control` has them as bytes. Nothing here runs or takes memory.
//!
//! # Source
//!
//! Virtio 1.2, 5.13.6 (requests) and 5.13.4 (the bypass field). Caches, grants and invalidation
//! are this project's own, with the messages of the vhost-user protocol (IOTLB).
#![tactic(auto)]

mod task;

pub use task::Task;
