//! Which lines of a driver have an entry.
ghost use Rattle.std.specs.Prelude.{◌≡◌, ◌+◌, ◌-◌, ◌^◌, ◌≤◌, ◌<◌, false, true, length, get_or, set, drop, replicate, IfOk};
ghost use Rattle.vi_check.specs.Seen.{done_first};

use std::alloc::{AllocError, Global};
use std::marker::Model;

/// The lines of a driver, which contracts see as whether each has an entry.
#[derive(Debug, Drop)]
pub struct Entered {
    entered: Vec<bool>,
    done: usize,
}

impl Model for Entered {
    ghost use Rattle.std.specs.Prelude.{◌≡◌, Bool, List};
    ghost use Rattle.vi_check.specs.Seen.{done_first};

    ghost Value = { List Bool };

    ghost view = { λ e. e.entered.items };

    ghost invariant = { λ e. e.done ≡ done_first e.entered.items };
}

impl Entered {
    /// So many lines, none with an entry. An error means out of memory.
    pub fn none(alloc: Global, count: u32) -> Result<Entered, AllocError>
        ensures { IfOk result (λ e. e ≡ replicate count false) }
    {
        let mut entered = Vec::new(alloc);
        for _line in 0..count {
            entered.push(false)?;
        }
        Ok(Entered { entered, done: 0 })
    }

    /// How many of the first lines all have an entry.
    pub fn done_first(&self) -> usize
        ensures done { result ≡ done_first self.now }
        ensures most { result ≤ length self.now }
    {
        self.done
    }

    /// Whether the line of this number, counted from 1, has an entry.
    pub fn has(&self, line: u32) -> bool
        requires { 1 ≤ line }
        ensures { result ≡ get_or self.now (line - 1) false }
    {
        match self.entered.get(line as usize - 1) {
            Some(entered) => *entered,
            None => false,
        }
    }

    /// The line of this number, counted from 1, has an entry from now on.
    pub fn enter(&mut self, line: u32)
        requires first { 1 ≤ line }
        requires last { line ≤ length self.old }
        ensures { self.new ≡ set self.old (line - 1) true }
    {
        self.entered[line as usize - 1] = true;
        self.done += done_from(&self.entered, self.done);
    }
}

// How many of the first lines from this place on all have an entry.
fn done_from(entered: &[bool], from: usize) -> usize
    requires { from ≤ length entered.now }
    ensures done { result ≡ done_first (drop from entered.now) }
    ensures most { from + result ≤ length entered.now }
{
    done(&entered[from..])
}

// How many of the first lines all have an entry.
fn done(entered: &[bool]) -> usize
    ensures done { result ≡ done_first entered.now }
    ensures most { result ≤ length entered.now }
{
    entered.iter().take_while(|e| **e).count()
}
