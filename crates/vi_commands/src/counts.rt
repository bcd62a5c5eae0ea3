//! How many lines each caller has had.
ghost use Rattle.std.specs.Prelude.{◌≡◌, ◌+◌, ◌-◌, ◌^◌, ◌<◌, [], if◌then◌else◌, IfOk, OnOk, position};
ghost use Rattle.vi_history.specs.declared.call.Caller.{Caller};
ghost use Rattle.vi_lines.specs.Calls.{same_caller};
ghost use Rattle.vi_commands.specs.Counts.{number_for};

use std::alloc::{AllocError, Global};
use std::marker::Model;
use vi_history::Caller;

/// A caller, and how many of its lines there were.
#[derive(Debug, Drop)]
pub struct Count {
    pub caller: Caller,
    pub lines: u32,
}

/// A row for each caller that had a line.
#[derive(Debug, Drop)]
pub struct Counts {
    rows: Vec<Count>,
}

impl Model for Counts {
    ghost use Rattle.std.specs.Prelude.{List};
    ghost use Rattle.vi_commands.specs.declared.counts.Count.{Count};

    ghost Value = { List Count };

    ghost view = { λ c. c.rows.items };
}

impl Counts {
    /// No caller had a line.
    pub fn new(alloc: Global) -> Counts
        ensures { result ≡ [] }
    {
        Counts {
            rows: Vec::new(alloc),
        }
    }

    /// The number of the caller's next line, from 1, which counts from now on. An error means out of memory.
    pub fn next(&mut self, caller: Caller) -> Result<u32, AllocError>
        requires { number_for self.old caller < 2 ^ 32 - 1 }
        ensures number { IfOk result (λ n. n ≡ number_for self.old caller + 1) }
        ensures counted { OnOk result ((c : Caller) → number_for self.new c ≡ number_for self.old c + (if same_caller caller c then 1 else 0)) }
    {
        match row_of(&self.rows, caller) {
            Some(at) => {
                let row = &mut self.rows[at];
                row.lines += 1;
                Ok(row.lines)
            }
            None => {
                self.rows.push(Count { caller, lines: 1 })?;
                Ok(1)
            }
        }
    }
}

/// The place of the caller's row, if it has one.
fn row_of(rows: &[Count], caller: Caller) -> Option<usize>
    ensures { result ≡ position (λ row. same_caller row.caller caller) rows.now }
{
    rows.iter().position(|row| is_of(row, caller))
}

fn is_of(row: &Count, caller: Caller) -> bool
    ensures { result ≡ same_caller row.now.caller caller }
{
    row.caller == caller
}
