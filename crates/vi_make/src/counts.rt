//! The summary of a run of the load script.
ghost use Rattle.std.specs.Prelude.{◌≡◌, ◌≤◌, ◌<◌, ◌^◌, ◌*◌, sum, sum_by, length, count_by, All, IfOk, OnOk};
ghost use Rattle.vi_history.specs.Outcomes.{IsWellMade, IsEntry};
ghost use Rattle.vi_make.specs.LoadScript.{Adds};
ghost use Rattle.vi_make.specs.Summaries.{succeeded, faulted, read_sum, summary_line};

use std::alloc::{AllocError, Global};
use vi_bytes::Bytes;
use vi_history::{Entry, Kind, Outcome};

/// The line `load N entries K ok S faults F sum X` and LF: N is the number of rounds, K that of the
/// outcome's entries, S that of its Status entries with status 0, F that of its faults, and X is the
/// sum of all bytes that were read. An error means out of memory.
pub fn summary(alloc: Global, rounds: u32, outcome: &Outcome) -> Result<Bytes, AllocError>
    requires { IsWellMade outcome.now }
    ensures written { IfOk result (λ line. line ≡ summary_line rounds outcome.now.entries) }
{
    let mut out = String::new(alloc);
    push_summary(&mut out, rounds, outcome.entries.as_slice())?;
    Ok(Bytes::from_vec(out.into_bytes()))
}

/// Adds the summary of entries.
#[tactic(auto, unfolding(crate::specs::Summaries::summary_line))]
fn push_summary(out: &mut String, rounds: u32, entries: &[Entry]) -> Result<(), AllocError>
    requires few { length entries.now < 2 ^ 32 }
    requires made { All IsEntry entries.now }
    ensures { OnOk result (Adds out.old out.new (summary_line rounds entries.now)) }
{
    let count = entries.len();
    let succeeded = count_succeeded(entries);
    let faults = count_faults(entries);
    let sum = sum_read(entries);
    write!(out, "load {rounds} entries {count}")?;
    writeln!(out, " ok {succeeded} faults {faults} sum {sum}")
}

/// How many requests were answered with the status OK.
fn count_succeeded(entries: &[Entry]) -> usize
    ensures { result ≡ count_by succeeded entries.now }
{
    entries.iter().filter(|entry| has_succeeded(entry)).count()
}

/// How many accesses faulted.
fn count_faults(entries: &[Entry]) -> usize
    ensures { result ≡ count_by faulted entries.now }
{
    entries
        .iter()
        .filter(|entry| entry.mark.kind.is_fault())
        .count()
}

/// Whether a request was answered with the status OK.
fn has_succeeded(entry: &Entry) -> bool
    ensures { result ≡ succeeded entry.now }
{
    match entry.mark.kind {
        Kind::Status => entry.mark.code == 0,
        Kind::Probed | Kind::Nothing | Kind::Set | Kind::Read | Kind::Wrote | Kind::Fault => false,
    }
}

/// The sum of all bytes that were read.
fn sum_read(entries: &[Entry]) -> u64
    requires few { length entries.now < 2 ^ 32 }
    requires made { All IsEntry entries.now }
    ensures { result ≡ sum_by read_sum entries.now }
{
    let mut sum = 0;
    for entry in entries {
        sum += sum_of(entry);
    }
    sum
}

/// The sum of the bytes that an entry read.
fn sum_of(entry: &Entry) -> u64
    requires { IsEntry entry.now }
    ensures value { result ≡ read_sum entry.now }
    ensures most { result ≤ 256 * 4096 }
{
    match entry.mark.kind {
        Kind::Read => sum_bytes(entry.bytes.as_slice()),
        Kind::Status | Kind::Probed | Kind::Nothing | Kind::Set | Kind::Wrote | Kind::Fault => 0,
    }
}

/// The sum of bytes.
fn sum_bytes(bytes: &[u8]) -> u64
    requires { length bytes.now ≤ 4096 }
    ensures value { result ≡ sum bytes.now }
    ensures most { result ≤ 256 * 4096 }
{
    let mut sum = 0;
    for byte in bytes {
        sum += u64::from(*byte);
    }
    sum
}
