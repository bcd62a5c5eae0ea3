//! What a pass knows.
ghost use Rattle.std.specs.Prelude.{ℕ, Bool, List, Option};
ghost use Rattle.std.specs.Borrow.{ftrue};
ghost use Rattle.vi_log.specs.Logs.{Ticketed};
ghost use Rattle.vi_lines.specs.Value.{ScriptValue};
ghost use Rattle.vi_model.specs.Actors.{Actor};
ghost use Rattle.vi_model.specs.Control.{Control};
ghost use Rattle.vi_turns.specs.Holding.{Held, Last, Loss, Taken};

use std::marker::Model;

/// What a pass knows, of which contracts speak. No value of it is made.
pub struct View {
    /// The script that its table is of.
    pub ghost script: { ScriptValue },
    /// It is a pass: it hasn't ended, and isn't what outlives the table.
    pub ghost live: { Bool },
    /// Its number: 0 is the first pass, and the others act for the script's actors in order.
    pub ghost number: { ℕ },
    /// How many passes were split from it.
    pub ghost made: { ℕ },
    /// The entries that it stamped, with their tickets.
    pub ghost log: { List Ticketed },
    /// The passes that it took in as they ended.
    pub ghost taken: { List Taken },
    /// What its actor has for itself: the leases that it caches, and how far it is.
    pub ghost actor: { Actor },
    /// The value that it holds, as it records it.
    pub ghost held: { Option Held },
    /// It has stamped since it won that value.
    pub ghost stamped: { Bool },
    /// All tickets below this number were drawn when it last looked.
    pub ghost seen: { ℕ },
    /// How often it won the control.
    pub ghost control_turns: { ℕ },
    /// The exchange that it lost last.
    pub ghost lost: { Option Loss },
    /// The control as it was when it last won it.
    pub ghost won: { Option Control },
    /// What a seat that outlives the table remembers.
    pub ghost remembers: { Option Last },
}

impl Model for View {
    ghost also_owns = { λ _. ftrue };
}
