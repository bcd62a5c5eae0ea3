//! What is left of the shared object.
ghost use Rattle.std.specs.Prelude.{◌≡◌};
ghost use Rattle.vi_turns.specs.Ended.{IsWhole};

use crate::slot::Slot;
use crate::view::View;
use atomic_table::Seat;
use std::marker::Model;
use vi_control::Control;
use vi_log::Log;
use vi_memory::Page;

/// The shared object's values at its end, and the log of pass 0. `Shared::close` alone makes one: its last part is
/// private, and contracts see it as pass 0's last view, in which are the script and the logs of all passes.
#[derive(Drop)]
pub struct Closed {
    pub control: Control,
    pub pages: Vec<Page>,
    pub log: Log,
    last: Last,
}

impl Closed {
    pub(crate) fn of(control: Control, pages: Vec<Page>, log: Log, last: Last) -> Closed
        ensures parts { (result.control ≡ control) × (result.pages.items ≡ pages.items) × (result.log ≡ log) }
        ensures last { result.last ≡ last }
    {
        Closed {
            control,
            pages,
            log,
            last,
        }
    }

    /// It does nothing: its clause says of every `Closed` that the tickets of all logs are 0, 1, 2 and so on, each once, and
    /// that their entries are a legal history of the script, in order so far.
    pub fn is_whole(&self)
        ensures { IsWhole self.now.last }
    {
        self.last.is_whole()
    }
}

/// The last view of pass 0.
#[derive(Drop)]
pub struct Last {
    seat: Seat<Slot, View>,
}

impl Model for Last {
    ghost use Rattle.vi_turns.specs.Holding.{Last as LastView};
    ghost use Rattle.vi_turns.specs.Views.{remembered};
    ghost use Rattle.vi_turns.specs.Ended.{IsWhole};

    ghost Value = { LastView };

    ghost view = { λ l. remembered l.seat.me.0.remembers };

    ghost invariant = { λ l. IsWhole (remembered l.seat.me.0.remembers) };
}

impl Last {
    ghost use Rattle.std.specs.Prelude.{◌≡◌};
    ghost use Rattle.vi_turns.specs.Views.{remembered};
    ghost use Rattle.vi_turns.specs.Ended.{IsWhole};

    pub(crate) fn of(seat: Seat<Slot, View>) -> Last
        requires { IsWhole (remembered seat.me.0.remembers) }
        ensures { result ≡ remembered seat.me.0.remembers }
    {
        Last { seat }
    }

    fn is_whole(&self)
        ensures { IsWhole self.now }
    {
        let _ = &self.seat;
    }
}
