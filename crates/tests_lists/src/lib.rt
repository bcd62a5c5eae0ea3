//! Tests of the plain values, and of the structures that are lists, rows and maps to their callers:
//! `vi_bytes`, `vi_words`, `vi_ranges`, `vi_tree`, `vi_reserved`, `vi_memory`, `vi_cache`,
//! `vi_grants`, `vi_shoot` and `vi_iova`. The module `values` tests `vi_bytes`.
//!
//! A test is a `#[test]` function that makes the structure and compares answers by `assert_eq!`.
//! Calls stand in functions beside it, with a `requires` where a call has a condition.
#![tactic(auto)]

#[cfg(test)]
mod cache;
#[cfg(test)]
mod grants;
#[cfg(test)]
mod memory;
#[cfg(test)]
mod ranges;
#[cfg(test)]
mod reserved;
#[cfg(test)]
mod shoot;
#[cfg(test)]
mod space;
#[cfg(test)]
mod tree;
#[cfg(test)]
mod values;
#[cfg(test)]
mod words;
