//! The report of an outcome.
ghost use Rattle.std.specs.Prelude.{◌≡◌, IfOk, OnOk};
ghost use Rattle.vi_history.specs.Outcomes.{IsWellMade};
ghost use Rattle.vi_report.specs.Laws.{IsUnambiguous, IsReadAgain};
ghost use Rattle.vi_report.specs.Texts as texts;
ghost use Rattle.vi_report.specs.Types.{IsTyped};

use crate::line::{push_entries, push_faults, push_head, push_records};
use std::alloc::{AllocError, Global};
use vi_bytes::Bytes;
use vi_history::Outcome;

/// The report of an outcome as text, made in one pass. Each line ends with LF, and words are
/// separated by one space:
///
/// - `viommu history K`, with the number of entries;
/// - for each entry its number from 1, the name of its call and its answer. A call's name is `dJ.L`
///   for line L of driver J, and `bE.L.P` for part P of line L of the back end of endpoint E;
/// - `faults F shown S dropped D`: S fault records (Virtio 1.2, 5.13.6.9) were delivered and D
///   dropped, and F is their sum;
/// - for each delivered record the number of its entry and its 24 bytes as lower-case digits;
/// - `end`.
///
/// An error means out of memory.
#[tactic(auto, unfolding(crate::specs::Texts::text))]
pub fn text(alloc: Global, outcome: &Outcome) -> Result<Bytes, AllocError>
    requires { IsWellMade outcome.now }
    ensures written { IfOk result (λ report. report ≡ texts.text outcome.now) }

    // The outcome is of its types, so that its report determines it, as `text_is_unambiguous` says.
    ensures typed { OnOk result (IsTyped outcome.now) }
{
    let entries = outcome.entries.as_slice();
    let shown = outcome.shown.as_slice();
    let mut out = String::new(alloc);
    push_head(&mut out, entries.len())?;
    push_entries(alloc, &mut out, entries)?;
    push_faults(&mut out, shown.len(), outcome.dropped)?;
    push_records(alloc, &mut out, shown)?;
    out.push_str("end\n")?;
    Ok(Bytes::from_vec(out.into_bytes()))
}

/// The report says all of its outcome. Two outcomes with one report have the same entries, the same
/// delivered records in the same order, and the same count of dropped ones. Reading the report of
/// an outcome gives that outcome.
pub fn text_is_unambiguous()
    ensures unambiguous { IsUnambiguous }
    ensures read_again { IsReadAgain }
{}
