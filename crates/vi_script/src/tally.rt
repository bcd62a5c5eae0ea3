//! The lines of a text so far, and what they count.
ghost use Rattle.std.specs.Prelude.{◌≡◌, ◌+◌, ◌<◌, ◌≤◌, true, nat_lt, [], ◌∷◌, ◌++◌, length, sum_by, All, IfOk};
ghost use Rattle.vi_history.specs.declared.call.Caller.TheVariants.{Driver, Back};
ghost use Rattle.vi_lines.specs.Rules.{count_lines};
ghost use Rattle.vi_lines.specs.Limits.{transferred, bytes_in, open_calls, is_driver};
ghost use Rattle.vi_script.specs.Names.{named};
ghost use Rattle.vi_lines.specs.declared.line.Line.{Line};
ghost use Rattle.vi_script.specs.Tallies.{grown, grown_table, is_caller};

use crate::name::Name;
use std::alloc::{AllocError, Global};
use std::marker::Model;
use vi_history::Caller;
use vi_lines::{Line, Row, add_place, count_of};

/// How many drivers there can be.
const DRIVERS: usize = 8;

/// The batches of one driver's lines.
#[derive(Clone, Copy, Default)]
pub struct Batch {
    /// How many lines the driver's open batch has.
    pub current: u32,
    /// How many lines its longest batch has, the open one included.
    pub longest: u32,
}

impl Batch {
    /// The batches with one more line behind them, an `add` line or one that ends its batch.
    fn with(self, add: bool) -> Batch
        requires { self.current < 100000 }
        ensures { result ≡ grown add self }
    {
        let current = self.current + 1;
        Batch {
            current: if add { current } else { 0 },
            longest: self.longest.max(current),
        }
    }
}

/// The batches of all drivers with one more line of this caller.
fn with_line(mut batches: [Batch; DRIVERS], caller: Name, add: bool) -> [Batch; DRIVERS]
    requires driver { is_driver (named caller) ≡ true }
    requires few { All (λ b. b.current < 100000) batches }
    ensures { result ≡ grown_table (named caller) add batches }
{
    if let Name::Driver(number) = caller {
        let batch = batches[number as usize];
        batches[number as usize] = batch.with(add);
    }
    batches
}

/// The sum of the lengths of all drivers' longest batches.
fn calls_in(batches: &[Batch; DRIVERS]) -> u64
    ensures { result ≡ sum_by (λ b. b.longest) batches.now }
{
    let mut calls = 0;
    for batch in batches {
        calls += u64::from(batch.longest);
    }
    calls
}

/// Lines in their order, with the counts that the next line is judged by, so that no line is looked at again.
#[derive(Drop)]
pub struct Tally {
    lines: Vec<Line>,
    rows: Vec<Row>,
    /// How many bytes the lines transfer.
    transferred: u64,
    /// The batches of each driver, by its number.
    batches: [Batch; DRIVERS],
}

impl Model for Tally {
    ghost use Rattle.std.specs.Prelude.{List};
    ghost use Rattle.vi_lines.specs.declared.line.Line.{Line};

    ghost Value = { List Line };

    ghost use Rattle.vi_script.specs.Tallies.{IsTally};

    ghost view = { λ t. t.lines.items };

    ghost invariant = { IsTally };
}

impl Tally {
    /// No lines, with no memory taken.
    pub fn new(alloc: Global) -> Tally
        ensures { result ≡ [] }
    {
        Tally {
            lines: Vec::new(alloc),
            rows: Vec::new(alloc),
            transferred: 0,
            batches: [Batch {
                current: 0,
                longest: 0,
            }; DRIVERS],
        }
    }

    /// Whether there is a line.
    pub fn has_lines(&self) -> bool
        ensures { result ≡ nat_lt 0 (length self.now) }
    {
        self.lines.len() > 0
    }

    /// How many lines the caller of this name has.
    pub fn count(&self, caller: Name) -> u64
        ensures lines { result ≡ count_lines self.now (named caller) }
        ensures few { result ≤ 10000 }
    {
        match caller {
            Name::Driver(number) => self.count_driver(number),
            Name::Back(id) => self.count_back(id),
        }
    }

    /// How many lines the back end of the endpoint of this id has.
    fn count_back(&self, id: u64) -> u64
        ensures lines { result ≡ count_lines self.now (Back id) }
        ensures few { result ≤ 10000 }
    {
        if id < 1 << 32 {
            count_of(&self.rows, Caller::Back(id as u32)) as u64
        } else {
            0
        }
    }

    /// How many lines the driver of this number has.
    fn count_driver(&self, number: u64) -> u64
        ensures lines { result ≡ count_lines self.now (Driver number) }
        ensures few { result ≤ 10000 }
    {
        if number < DRIVERS as u64 {
            count_of(&self.rows, Caller::Driver(number as u8)) as u64
        } else {
            0
        }
    }

    /// How many bytes the lines transfer.
    pub fn transferred(&self) -> u64
        ensures bytes { result ≡ bytes_in self.now }
        ensures most { result ≤ 16777216 }
    {
        self.transferred
    }

    /// The sum of the lengths of the drivers' longest batches, once a line of this caller, a driver from 0 to
    /// 7 or a back end, stands behind the lines.
    pub fn open_calls_with(&self, caller: Name, add: bool) -> u64
        requires { is_driver (named caller) ≡ true }
        ensures { (l : Line) → l.caller ≡ named caller → l.add ≡ add → result ≡ open_calls (self.now ++ l ∷ []) }
    {
        calls_in(&with_line(self.batches, caller, add))
    }

    /// These lines and one more. An error means out of memory.
    pub fn with(self, alloc: Global, line: Line) -> Result<Tally, AllocError>
        requires room { length self < 10000 }
        requires within { bytes_in self + transferred line.job ≤ 16777216 }
        requires caller { is_caller line.caller ≡ true }
        ensures { IfOk result (λ tally. tally ≡ self ++ line ∷ []) }
    {
        let Tally {
            mut lines,
            mut rows,
            transferred,
            batches,
        } = self;
        let place = lines.len() as u32;
        add_place(alloc, &mut rows, line.caller, place)?;
        let transferred = transferred + line.job.transferred();
        let batches = with_line(batches, Name::of(line.caller), line.add);
        lines.push(line)?;
        Ok(Tally {
            lines,
            rows,
            transferred,
            batches,
        })
    }

    /// The lines alone.
    pub fn into_lines(self) -> Vec<Line>
        ensures lines { result.items ≡ self }
        ensures few { length result.items ≤ 10000 }
    {
        let Tally { lines, .. } = self;
        lines
    }
}
