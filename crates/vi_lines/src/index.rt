//! Where the lines of each caller stand among all lines.
ghost use Rattle.std.specs.Prelude.{◌≡◌, ◌^◌, ◌<◌, ◌++◌, length, IfOk, OnOk, position, slice_get};
ghost use Rattle.std.specs.Option.{option_copied};
ghost use Rattle.std.specs.List.{find};
ghost use Rattle.vi_history.specs.declared.call.Caller.{Caller};
ghost use Rattle.vi_lines.specs.Calls.{same_caller};
ghost use Rattle.vi_lines.specs.Index.{AreRows, row_places, added};

use crate::Line;
use std::alloc::{AllocError, Global};
use vi_history::Caller;

/// A caller and the places of its lines among all lines, from 0, rising.
#[derive(Debug, Drop)]
pub struct Row {
    pub caller: Caller,
    pub places: Vec<u32>,
}

impl Row {
    /// Whether these are the caller's lines.
    fn is_of(&self, caller: Caller) -> bool
        ensures { result ≡ same_caller self.now.caller caller }
    {
        self.caller == caller
    }
}

/// The place of the caller's row, if it has one.
fn row_of(rows: &[Row], caller: Caller) -> Option<usize>
    ensures { result ≡ position (λ r. same_caller r.caller caller) rows.now }
{
    rows.iter().position(|row| row.is_of(caller))
}

/// The caller's row, if it has one.
fn found_row(rows: &[Row], caller: Caller) -> Option<&Row>
    ensures { option_copied result ≡ find (λ r. same_caller r.caller caller) rows.now }
{
    rows.iter().find(|row| row.is_of(caller))
}

/// How many lines the caller has.
pub fn count_of(rows: &[Row], caller: Caller) -> usize
    ensures { result ≡ length (row_places caller rows.now) }
{
    match found_row(rows, caller) {
        Some(row) => row.places.len(),
        None => 0,
    }
}

/// Where the caller's line with so many lines before it stands, if there is one.
pub fn place_of(rows: &[Row], caller: Caller, before: usize) -> Option<u32>
    ensures { result ≡ slice_get (row_places caller rows.now) before }
{
    match found_row(rows, caller) {
        Some(row) => row.places.get(before).copied(),
        None => None,
    }
}

/// The rows of all callers that have lines.
pub fn rows_of(alloc: Global, lines: &[Line]) -> Result<Vec<Row>, AllocError>
    requires { length lines.now < 2 ^ 32 }
    ensures { IfOk result (λ rows. AreRows lines.now rows.items) }
{
    let mut rows = Vec::new(alloc);
    for (place, line) in lines.iter().enumerate() {
        add_place(alloc, &mut rows, line.caller, place as u32)?;
    }
    Ok(rows)
}

/// Adds a place behind the others of the caller.
pub fn add_place(
    alloc: Global,
    rows: &mut Vec<Row>,
    caller: Caller,
    place: u32,
) -> Result<(), AllocError>
    ensures { OnOk result ((c : Caller) → row_places c rows.new.items ≡ row_places c rows.old.items ++ added caller place c) }
{
    match row_of(rows, caller) {
        Some(at) => {
            let row = &mut rows[at];
            row.places.push(place)?;
        }
        None => {
            let mut places = Vec::new(alloc);
            places.push(place)?;
            rows.push(Row { caller, places })?;
        }
    }
    Ok(())
}
