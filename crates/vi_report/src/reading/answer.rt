//! The answers of calls in a report.
ghost use Rattle.std.specs.Prelude.{◌≡◌, []};
ghost use Rattle.vi_report.specs.Lines.{answer_at, code_at, kind_at, properties_at, read_at};
ghost use Rattle.vi_report.specs.Parsing.{Finds, Reads};

use crate::fault::Refusal;
use crate::reading::field::{after, read_bytes, read_number, read_sized};
use std::alloc::Global;
use vi_bytes::Bytes;
use vi_history::Kind;

/// Statuses and reasons are below this number.
const CODES: u64 = 256;

/// The number of a PROBE's property bytes.
const PROPERTIES: usize = 512;

/// The most bytes that one access reads.
const MOST_READ: usize = 4096;

/// An answer to a call.
#[derive(Debug, Drop)]
pub struct Answer {
    pub kind: Kind,
    /// The status or the reason, and 0 where the kind has none.
    pub code: u8,
    /// The property bytes or those that were read, and none otherwise.
    pub bytes: Bytes,
}

/// An answer, which begins with the word of its kind.
#[tactic(auto, unfolding(crate::specs::Lines::answer_at))]
pub fn read_answer(alloc: Global, bytes: &[u8]) -> Result<(Answer, &[u8]), Refusal>
    ensures { Reads (λ x. (x.0, x.1.now)) result (answer_at bytes.now) }
{
    let (kind, rest) = read_kind(bytes).ok_or(Refusal::Unfit)?;
    match kind {
        Kind::Status | Kind::Fault => read_code(alloc, kind, rest).ok_or(Refusal::Unfit),
        Kind::Probed => read_properties(alloc, rest),
        Kind::Nothing | Kind::Set | Kind::Wrote => Ok((bare(alloc, kind), rest)),
        Kind::Read => read_access(alloc, rest),
    }
}

/// The kind whose word stands at the front.
#[tactic(auto, unfolding(crate::specs::Lines::kind_at))]
fn read_kind(bytes: &[u8]) -> Option<(Kind, &[u8])>
    ensures { Finds (λ x. (x.0, x.1.now)) result (kind_at bytes.now) }
{
    if let Some(rest) = after(b"status ", bytes) {
        return Some((Kind::Status, rest));
    }
    if let Some(rest) = after(b"probed ", bytes) {
        return Some((Kind::Probed, rest));
    }
    if let Some(rest) = after(b"nothing", bytes) {
        return Some((Kind::Nothing, rest));
    }
    if let Some(rest) = after(b"set", bytes) {
        return Some((Kind::Set, rest));
    }
    if let Some(rest) = after(b"read ", bytes) {
        return Some((Kind::Read, rest));
    }
    if let Some(rest) = after(b"wrote", bytes) {
        return Some((Kind::Wrote, rest));
    }
    let rest = after(b"fault ", bytes)?;
    Some((Kind::Fault, rest))
}

/// The answer of a kind that has neither code nor bytes.
fn bare(alloc: Global, kind: Kind) -> Answer
    ensures { result ≡ record { kind = kind; code = 0; bytes = [] } }
{
    let bytes = Bytes::new(alloc);
    Answer {
        kind,
        code: 0,
        bytes,
    }
}

/// The answer of a kind that has a status or a reason alone.
#[tactic(auto, unfolding(crate::specs::Lines::code_at))]
fn read_code(alloc: Global, kind: Kind, bytes: &[u8]) -> Option<(Answer, &[u8])>
    ensures { Finds (λ x. (x.0, x.1.now)) result (code_at kind bytes.now) }
{
    let (code, rest) = read_number(CODES, bytes)?;
    let code = code as u8;
    let bytes = Bytes::new(alloc);
    Some((Answer { kind, code, bytes }, rest))
}

/// The status and the property bytes of a PROBE.
#[tactic(auto, unfolding(crate::specs::Lines::properties_at))]
fn read_properties(alloc: Global, bytes: &[u8]) -> Result<(Answer, &[u8]), Refusal>
    ensures { Reads (λ x. (x.0, x.1.now)) result (properties_at bytes.now) }
{
    let (code, rest) = read_number(CODES, bytes).ok_or(Refusal::Unfit)?;
    let rest = after(b" ", rest).ok_or(Refusal::Unfit)?;
    let (bytes, rest) = read_sized(alloc, PROPERTIES, rest)?;
    let kind = Kind::Probed;
    let code = code as u8;
    Ok((Answer { kind, code, bytes }, rest))
}

/// The bytes that an access read.
#[tactic(auto, unfolding(crate::specs::Lines::read_at))]
fn read_access(alloc: Global, bytes: &[u8]) -> Result<(Answer, &[u8]), Refusal>
    ensures { Reads (λ x. (x.0, x.1.now)) result (read_at bytes.now) }
{
    let (bytes, rest) = read_bytes(alloc, bytes)?;
    if bytes.is_empty() || bytes.len() > MOST_READ {
        return Err(Refusal::Unfit);
    }
    let kind = Kind::Read;
    let code = 0;
    Ok((Answer { kind, code, bytes }, rest))
}
