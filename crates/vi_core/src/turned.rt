//! What a turn comes to.

/// What a turn of an actor did.
#[derive(Clone, Copy, Debug, PartialEq, Eq)]
pub enum Turned {
    /// It made a move.
    Moved,
    /// It waits for another actor.
    Waiting,
    /// It has nothing left to do.
    Rest,
}
