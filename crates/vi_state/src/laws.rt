//! What holds of any calls, as the contract of a function that does nothing.
ghost use Rattle.vi_state.specs.Laws.{StaysFollowed};

/// A call that a state can follow, it can follow after any other call too.
pub fn stays_followed()
    ensures { StaysFollowed }
{}
