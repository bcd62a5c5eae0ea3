//! The outcome of a run.
ghost use Rattle.std.specs.Prelude.{◌≡◌, ◌<◌, ◌^◌, [], ◌∷◌, ◌++◌, length, map, if◌then◌else◌, IfOk, OnOk};
ghost use Rattle.vi_history.specs.Kinds.{is_fault};
ghost use Rattle.vi_core.specs.Outcomes.{fault_numbers, named_by};

use std::alloc::{AllocError, Global};
use vi_bytes::Items;
use vi_history::{Entry, Kind, Outcome, Shown};

/// The outcome of a run with these entries in order, these delivered records, which have the numbers of their
/// faults, and so many that were dropped: each record gets the number of its entry. An error is want
/// of memory.
pub fn outcome_of(
    alloc: Global,
    entries: Vec<Entry>,
    shown: &[Shown],
    dropped: u32,
) -> Result<Outcome, AllocError>
    requires { length entries.items < 2 ^ 32 }
    ensures { IfOk result (λ o. o ≡ record { entries = entries.items; shown = map (named_by (fault_numbers 1 entries.items)) shown.now; dropped = dropped }) }
{
    let numbers = fault_numbers(alloc, &entries)?;
    let shown = named(alloc, &numbers, shown)?;
    Ok(Outcome {
        entries: Items::from_vec(entries),
        shown: Items::from_vec(shown),
        dropped,
    })
}

// The numbers of the entries that are faults, from 1.
fn fault_numbers(alloc: Global, entries: &[Entry]) -> Result<Vec<u32>, AllocError>
    requires { length entries.now < 2 ^ 32 }
    ensures { IfOk result (λ v. v.items ≡ fault_numbers 1 entries.now) }
{
    let mut numbers = Vec::new(alloc);
    let mut number = 0;
    for entry in entries {
        number += 1;
        push_fault(&mut numbers, number, entry.mark.kind)?;
    }
    Ok(numbers)
}

fn push_fault(numbers: &mut Vec<u32>, number: u32, kind: Kind) -> Result<(), AllocError>
    ensures { OnOk result (numbers.new.items ≡ numbers.old.items ++ (if is_fault kind then number ∷ [] else [])) }
{
    if kind.is_fault() {
        numbers.push(number)?;
    }
    Ok(())
}

fn named(alloc: Global, numbers: &[u32], shown: &[Shown]) -> Result<Vec<Shown>, AllocError>
    ensures { IfOk result (λ v. v.items ≡ map (named_by numbers.now) shown.now) }
{
    let mut all = Vec::with_capacity(alloc, shown.len())?;
    for delivered in shown {
        all.push(named_by(numbers, delivered))?;
    }
    Ok(all)
}

// The record with the number of its entry, where it has that of its fault.
fn named_by(numbers: &[u32], delivered: &Shown) -> Shown
    ensures { result ≡ named_by numbers.now delivered.now }
{
    let fault = delivered.entry.saturating_sub(1) as usize;
    Shown {
        entry: numbers.get(fault).copied().unwrap_or(0),
        bytes: delivered.bytes,
    }
}
