//! Laws of histories, each as the contract of a function that does nothing: when a history is in
//! order, and that nothing goes through what was unmapped. For an author of proofs on a device or
//! on a checker of histories.
//!
//! Main calls:
//! - `ordered_one_by_one`: a history is in order exactly where all was due and no call is left.
//! - `unmaps_hold`: in a legal history an access to what was unmapped faults, unless mapped again.
//!
//! # How it is used
//!
//! `crates/vi_threaded/proofs/RunLemmas.antt` cites the law for the history of a run on threads:
//! `unmapped = unmaps_hold s o.entries lawful;`. Here `s` is the script, `o` the outcome, and
//! `lawful` says that its entries are a legal history.
//!
//! # Limits
//!
//! `ordered_one_by_one` asks for a valid script, `unmaps_hold` for a legal history of any script.
//! `unmaps_hold` speaks of an UNMAP that was answered with OK, and of accesses after it. The
//! access's part begins at an address of the UNMAP's range, and no MAP of the domain that took
//! effect between them has the address. The endpoint is in that domain then, and it is no bypass
//! domain. That a history is legal is no matter of this crate: see `vi_sound` and `vi_check`. No
//! function here runs code or takes memory.
//!
//! # Source
//!
//! Virtio 1.2, 5.13.6.6 (UNMAP). What is in order is this project's own definition (`vi_lines`).
#![tactic(auto)]

ghost use Rattle.vi_order.specs.Laws.{IsOrderedOneByOne, UnmapsHold};

/// A history is in order, each back end's lines block by block and each driver's batch by batch, exactly where each of
/// its entries was due in its place and no caller has a call left.
pub fn ordered_one_by_one()
    ensures { IsOrderedOneByOne }
{}

/// In a legal history an access to an address that was unmapped faults, unless a MAP has brought the address back
/// (Virtio 1.2, 5.13.6.6).
pub fn unmaps_hold()
    ensures { UnmapsHold }
{}
