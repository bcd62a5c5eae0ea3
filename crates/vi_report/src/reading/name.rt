//! The names of calls in a report.
ghost use Rattle.vi_report.specs.Lines.{back_at, driver_at, name_at};
ghost use Rattle.vi_report.specs.Parsing.{Finds};

use crate::reading::field::{after, read_count, read_number};
use vi_history::Caller;

/// Drivers have the numbers below this one.
const DRIVERS: u64 = 8;

/// Endpoints, lines and parts have numbers below this one.
pub const LIMIT: u64 = 1 << 32;

/// What a call's name says.
#[derive(Clone, Copy, Debug, PartialEq, Eq)]
pub struct Name {
    pub caller: Caller,
    /// The place of the call's line among the caller's own lines, from 1.
    pub line: u32,
    /// The part of a transfer, from 1; 0 for a driver.
    pub part: u32,
}

/// The name of a call: `dJ.L` for a driver's line, `bE.L.P` for a part of a back end's line.
pub fn read_name(bytes: &[u8]) -> Option<(Name, &[u8])>
    ensures { Finds (λ x. (x.0, x.1.now)) result (name_at bytes.now) }
{
    match read_driver(bytes) {
        Some(found) => Some(found),
        None => read_back(bytes),
    }
}

/// The name of a driver's line.
#[tactic(auto, unfolding(crate::specs::Lines::driver_at))]
fn read_driver(bytes: &[u8]) -> Option<(Name, &[u8])>
    ensures { Finds (λ x. (x.0, x.1.now)) result (driver_at bytes.now) }
{
    let rest = after(b"d", bytes)?;
    let (number, rest) = read_number(DRIVERS, rest)?;
    let rest = after(b".", rest)?;
    let (line, rest) = read_count(LIMIT, rest)?;
    let caller = Caller::Driver(number as u8);
    let line = line as u32;
    let part = 0;
    Some((Name { caller, line, part }, rest))
}

/// The name of a part of a back end's line.
#[tactic(auto, unfolding(crate::specs::Lines::back_at))]
fn read_back(bytes: &[u8]) -> Option<(Name, &[u8])>
    ensures { Finds (λ x. (x.0, x.1.now)) result (back_at bytes.now) }
{
    let rest = after(b"b", bytes)?;
    let (endpoint, rest) = read_number(LIMIT, rest)?;
    let rest = after(b".", rest)?;
    let (line, rest) = read_count(LIMIT, rest)?;
    let rest = after(b".", rest)?;
    let (part, rest) = read_count(LIMIT, rest)?;
    let caller = Caller::Back(endpoint as u32);
    let line = line as u32;
    let part = part as u32;
    Some((Name { caller, line, part }, rest))
}
