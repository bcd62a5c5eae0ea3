//! Laws of a driver's own lines, each as the contract of a function that does nothing.
ghost use Rattle.vi_driver.specs.Laws.{OwnLinesSuffice};

/// A driver needs no more than its own lines to know its next line, and whether its open lines are of that
/// line's batch.
pub fn own_lines_suffice()
    ensures { OwnLinesSuffice }
{}
