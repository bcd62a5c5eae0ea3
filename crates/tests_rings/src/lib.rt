//! Tests of the queues between a device and those that it serves: of `vi_vring`, `vi_mail`,
//! `vi_parked`, `vi_events`, `vi_calls`, `vi_lanes` and `vi_removals`, by public calls alone.
//!
//! Each crate has a module of its name without `vi_`. A test builds a structure, hands it to a
//! small function that makes the calls and returns what they answer, and compares that with what
//! is wanted. Where a call asks for something, that function states it as its own `requires`,
//! often the structure's first value, so that the prover sees the calls permitted.
#![tactic(auto)]

#[cfg(test)]
mod calls;
#[cfg(test)]
mod events;
#[cfg(test)]
mod lanes;
#[cfg(test)]
mod mail;
#[cfg(test)]
mod parked;
#[cfg(test)]
mod removals;
#[cfg(test)]
mod vring;
