//! Tests of `plain_top` and `top` as a user meets them, with faults of source and sink. Most tests
//! are a command line, an input and the expected status and text: `ran` calls `plain_top`, and
//! `ended` calls `top` with a gate. Scripts with their reports stand in `cases.rt` and
//! `sim_cases.rt`: a line `case`, the script, a line `writes`, and the text. In `faults.rt` each
//! read and each write fails in turn.
#![tactic(auto)]

#[cfg(test)]
mod cases;
#[cfg(test)]
mod dirty_tests;
#[cfg(test)]
mod faults;
#[cfg(test)]
mod run_tests;
#[cfg(test)]
mod sim_cases;
#[cfg(test)]
mod tests;
#[cfg(test)]
mod trace_tests;
