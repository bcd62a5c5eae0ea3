//! What a table that was closed had.
ghost use Rattle.std.specs.Prelude.{◌≡◌, ◌+◌, ◌≤◌, vec_len, vec_capacity};
ghost use Rattle.std.specs.Mem.Slots.{slots_items, slots_len, IsFull};
ghost use Rattle.vi_turns.specs.Ended.{IsShelf, shelf};

use crate::slot::Slot;
use atomic_table::Closed;
use std::alloc::Global;
use vi_control::Control;
use vi_memory::Page;

/// Takes the control and the pages out of the slots. There is room for the pages.
pub(crate) fn emptied(mut closed: Closed<Slot, Global>, mut room: Vec<Page>) -> (Control, Vec<Page>)
    requires full { IsFull closed.slots }
    requires shelf { IsShelf (slots_items closed.slots) }
    requires room { (vec_len room ≡ 0) × (slots_len closed.slots ≤ vec_capacity room + 1) }
    ensures { shelf result.0 result.1.items ≡ slots_items closed.slots }
{
    let first = closed.take(0);
    let count = closed.slot_count();
    for i in 1..count {
        let Slot::Page(page) = closed.take(i) else {
            unreachable!()
        };
        room.push_reserved(page);
    }
    closed.free();
    let Slot::Control(control) = first else {
        unreachable!()
    };
    (control.into_inner(), room)
}
