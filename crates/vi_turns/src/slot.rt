//! What the slots of the table have.
use crate::control_box::ControlBox;
use vi_memory::Page;

/// What a slot of the table has.
#[derive(Drop)]
pub enum Slot {
    /// The control, in the first slot.
    Control(ControlBox),
    /// A page of the memory, in the slots behind it.
    Page(Page),
    /// The value is with the pass that holds it.
    Out,
}
