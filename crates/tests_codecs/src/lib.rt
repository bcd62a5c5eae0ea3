//! Tests of the codecs and of traces: bytes to records, and back. A file each for `vi_fault`,
//! `vi_config`, `vi_iotlb`, `vi_prop`, `vi_req` and `vi_trace`.
//!
//! A test goes through rows of a value and its bytes, written by hand after the standard's layout:
//! as literals, or as hexadecimal digits (`digits::bytes_of`). It makes public calls alone. Each
//! refusal of a codec stands in a row, and so does its printed text.
#![tactic(auto)]

#[cfg(test)]
mod config;
#[cfg(test)]
mod digits;
#[cfg(test)]
mod fault;
#[cfg(test)]
mod iotlb;
#[cfg(test)]
mod prop;
#[cfg(test)]
mod req;
#[cfg(test)]
mod trace;
