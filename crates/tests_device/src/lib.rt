//! Tests of the device by itself and of what stands around it: `vi_device`, `vi_plain`, `vi_state`,
//! `vi_dirty`, `vi_script` with `vi_lines`, `vi_log`, `vi_report`, `vi_make` and `vi_check`. Each
//! module but `entries` tests one of these. A test is a `#[test]` function that makes a small setup
//! or text and compares answers by `assert_eq!`. Calls stand in functions beside it, with a
//! `requires` where a call has a condition. Entries that a test makes by hand are added by
//! `entries::add`.
#![tactic(auto)]

#[cfg(test)]
mod check;
#[cfg(test)]
mod device;
#[cfg(test)]
mod dirty;
#[cfg(test)]
mod entries;
#[cfg(test)]
mod log;
#[cfg(test)]
mod making;
#[cfg(test)]
mod plain;
#[cfg(test)]
mod report;
#[cfg(test)]
mod script;
#[cfg(test)]
mod state;
