//! What a turn on the shared object answers.
use vi_core::Turned;
use vi_turns::Busy;

/// What became of a turn.
#[derive(Clone, Copy, Debug, PartialEq, Eq)]
pub enum Ran {
    /// It was taken: the actor moved, waits or rests.
    Turned(Turned),
    /// Somebody else had what it needs, and nothing was changed.
    Busy(Busy),
}
