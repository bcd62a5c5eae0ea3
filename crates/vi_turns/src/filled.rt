//! What a new table begins with.
ghost use Rattle.std.specs.Prelude.{◌≡◌, ◌+◌, ◌≤◌, ◌++◌, [], length, replicate, vec_len, vec_capacity, IfOk};
ghost use Rattle.atomic_table.specs.Table.{opening};
ghost use Rattle.vi_turns.specs.declared.slot.Slot.TheVariants as slot;
ghost use Rattle.vi_turns.specs.Ended.{page_slots, shelf};
ghost use Rattle.vi_turns.specs.Order.{IsInOrder};
ghost use Rattle.vi_turns.specs.Views.{first};

use crate::control_box::ControlBox;
use crate::rule::InOrder;
use crate::slot::Slot;
use crate::view::View;
use atomic_table::{Seat, Table};
use std::alloc::{AllocError, Global};
use vi_control::Control;
use vi_lines::Script;
use vi_memory::Page;

// So many words of 0. An error means out of memory.
fn zeros(alloc: Global, count: usize) -> Result<Vec<u64>, AllocError>
    ensures { IfOk result (λ words. words.items ≡ replicate count 0) }
{
    let mut words = Vec::new(alloc);
    words.resize(count, 0u64)?;
    Ok(words)
}

/// The slots of the control and of these pages, and room for as many pages once they are out of the table. An error is want
/// of memory.
pub(crate) fn filled(
    alloc: Global,
    control: Control,
    pages: Vec<Page>,
) -> Result<(Vec<Slot>, Vec<Page>), AllocError>
    ensures slots { IfOk result (λ r. r.0.items ≡ shelf control pages.items) }
    ensures room { IfOk result (λ r. (vec_len r.1 ≡ 0) × (vec_len pages ≤ vec_capacity r.1)) }
{
    let boxed = ControlBox::build(alloc, control)?;
    let room = Vec::with_capacity(alloc, pages.len())?;
    let mut slots = Vec::with_capacity(alloc, pages.len() + 1)?;
    slots.push_reserved(Slot::Control(boxed));
    fill(&mut slots, pages);
    Ok((slots, room))
}

/// A table with so many words of 0 and these slots, and its first seat. An error means out of memory.
pub(crate) fn laid(
    alloc: Global,
    script: &Script,
    words: usize,
    slots: Vec<Slot>,
) -> Result<(Table<Slot, View, Script, InOrder, Global>, Seat<Slot, View>), AllocError>
    requires { IsInOrder script.now (opening (replicate words 0) slots.items (first script.now)) }
    ensures table { IfOk result (λ t. (t.0.shared.table_id.words ≡ words) × (t.0.shared.table_id.slots ≡ length slots.items) × (t.0.shared.key ≡ script.now)) }
    ensures seat { IfOk result (λ t. (t.1.table_id ≡ t.0.shared.table_id) × (t.1.id ≡ 0) × (t.1.me ≡ (first script.now, []))) }
{
    let all = zeros(alloc, words)?;
    match Table::new(alloc, all.as_slice(), slots, script) {
        Ok(made) => Ok(made),
        Err(_) => Err(AllocError),
    }
}

// Puts the pages behind the other slots, for which there is room.
fn fill(slots: &mut Vec<Slot>, pages: Vec<Page>)
    requires { vec_len slots.old + vec_len pages ≤ vec_capacity slots.old }
    ensures { slots.new.items ≡ slots.old.items ++ page_slots pages.items }
{
    for page in pages {
        slots.push_reserved(Slot::Page(page));
    }
}
