//! A script as it was read, with its lines found by their caller.
ghost use Rattle.std.specs.Prelude.{◌≡◌, ◌^◌, ◌<◌, length, IfOk, Some};
ghost use Rattle.std.specs.Option.{option_copied};
ghost use Rattle.vi_lines.specs.Calls.{HasTransfers, line_of, lines_of, call_of};
ghost use Rattle.vi_lines.specs.Index.{AreRows};

use crate::index::{Row, count_of, place_of, rows_of};
use crate::{Line, Who};
use std::alloc::{AllocError, Global};
use std::marker::Model;
use vi_bytes::Items;
use vi_history::{Call, Caller, Setup};

/// A script: the setup, the turns that it asks of the simulator, and the lines of drivers and back ends in
/// the order of the text.
#[derive(Debug, Drop)]
pub struct Script {
    pub setup: Setup,
    pub turns: Items<Who>,
    pub lines: Items<Line>,
    rows: Vec<Row>,
}

impl Model for Script {
    ghost use Rattle.std.specs.Prelude.{◌<◌, ◌^◌, length};
    ghost use Rattle.vi_lines.specs.Value.{ScriptValue};

    ghost Value = { ScriptValue };

    ghost use Rattle.vi_lines.specs.Index.{AreRows};

    ghost view = { λ s. record { setup = s.setup; turns = s.turns; lines = s.lines } };

    ghost invariant = { λ s. AreRows s.lines s.rows.items × (length s.lines < 2 ^ 32) };
}

impl Script {
    /// A script of these parts. Its lines are found by their caller from then on. An error means out of memory.
    pub fn new(
        alloc: Global,
        setup: Setup,
        turns: Items<Who>,
        lines: Items<Line>,
    ) -> Result<Script, AllocError>
        requires { length lines < 2 ^ 32 }
        ensures { IfOk result (λ s. s ≡ record { setup = setup; turns = turns; lines = lines }) }
    {
        let rows = rows_of(alloc, lines.as_slice())?;
        Ok(Script {
            setup,
            turns,
            lines,
            rows,
        })
    }

    /// How many lines the caller has.
    pub fn count(&self, caller: Caller) -> u32
        ensures { result ≡ length (lines_of self.now caller) }
    {
        count_of(&self.rows, caller) as u32
    }

    /// The caller's line of this number, counted from 1, if it has so many.
    pub fn line(&self, caller: Caller, line: u32) -> Option<&Line>
        ensures { option_copied result ≡ line_of self.now caller line }
    {
        if line == 0 {
            return None;
        }
        match place_of(&self.rows, caller, line as usize - 1) {
            Some(place) => self.lines.get(place as usize),
            None => None,
        }
    }
    /// The call of the caller's line of this number, counted from 1, and of its part: 0 for a driver, 1 up to
    /// the number of pages that the transfer touches for a back end. `None` where the script has no such
    /// call. The transfers of the script's lines have 1 to 65536 bytes, and their last addresses are at most
    /// 2^64 - 1. An error means out of memory.
    pub fn call(
        &self,
        alloc: Global,
        caller: Caller,
        line: u32,
        part: u32,
    ) -> Result<Option<Call>, AllocError>
        requires { HasTransfers self.now }
        ensures { IfOk result (λ call. call ≡ call_of self.now caller line part) }
    {
        match self.line(caller, line) {
            Some(found) => found.call(alloc, part),
            None => Ok(None),
        }
    }
}
