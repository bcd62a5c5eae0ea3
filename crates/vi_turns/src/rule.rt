//! The rule of the table, and the names of its steps.
ghost use Rattle.vi_turns.specs.Order.{IsInOrder};
ghost use Rattle.vi_turns.specs.Views.{first, itself, joined, keepsake, spent, split_left, split_right};
ghost use Rattle.vi_turns.specs.Steps.{Fronts, Gives, Stamps, TriesControl, TriesPage};

use crate::slot::Slot;
use crate::view::View;
use atomic_table::{Join, Play, Split, TableRule};
use vi_lines::Script;

/// Between any two steps the table is in order.
pub struct InOrder;

impl TableRule<Slot, View, Script> for InOrder {
    ghost holds = { IsInOrder };

    ghost first = { first };
}

/// An exchange on the control's word.
pub(crate) struct TryControl;

impl Play<Slot, View> for TryControl {
    ghost then = { TriesControl };
}

/// An exchange on a page's word.
pub(crate) struct TryPage;

impl Play<Slot, View> for TryPage {
    ghost then = { TriesPage };
}

/// A store of 0 on the word of what is held.
pub(crate) struct Give;

impl Play<Slot, View> for Give {
    ghost then = { Gives };
}

/// A ticket is drawn.
pub(crate) struct Stamp;

impl Play<Slot, View> for Stamp {
    ghost then = { Stamps };
}

/// A look at the ticket word.
pub(crate) struct Front;

impl Play<Slot, View> for Front {
    ghost then = { Fronts };
}

/// A pass is split from the first one.
pub(crate) struct Cut;

impl Split<View> for Cut {
    ghost left = { split_left };

    ghost right = { split_right };
}

/// A pass ends in another.
pub(crate) struct Glue;

impl Join<View> for Glue {
    ghost both = { joined };

    ghost spent = { spent };
}

/// A seat that remembers the view of the last pass.
pub(crate) struct Keep;

impl Split<View> for Keep {
    ghost left = { itself };

    ghost right = { keepsake };
}
