//! A pass: what a thread steps with.
use crate::slot::Slot;
use crate::view::View;
use atomic_table::Seat;
use std::marker::Model;
use vi_log::Log;

/// A seat at the table, with the log of the entries that it stamped. Pass 0 acts for nobody, and the i-th that is split
/// from it for the i-th actor of the script. Contracts see its view, and for how much its log has room.
#[derive(Drop)]
pub struct Pass {
    pub(crate) seat: Seat<Slot, View>,
    pub(crate) log: Log,
    pub(crate) number: u64,
    // How many passes were split from it.
    pub(crate) made: u64,
}

impl Model for Pass {
    ghost use Rattle.std.specs.Prelude.{◌≡◌, ◌≤◌, ◌^◌, true};
    ghost use Rattle.vi_turns.specs.Passes.{PassValue, slots_of};

    ghost Value = { PassValue };

    ghost view = { λ p. record { table = p.seat.table_id; seat = p.seat.id; view = p.seat.me.0; spare_entries = p.log.spare_entries; spare_bytes = p.log.spare_bytes } };

    ghost invariant = { λ p. (p.seat.me.1 ≡ slots_of p.seat.me.0.held) × (p.seat.me.0.live ≡ true) × (p.log.entries ≡ p.seat.me.0.log)
        × (p.number ≡ p.seat.me.0.number) × (p.made ≡ p.seat.me.0.made) × (p.number ≤ 2 ^ 32) × (p.made ≤ 2 ^ 32) };
}
