//! Moments of actors' turns at which somebody can look on.
use vi_lines::Who;

/// A moment of an actor's turn.
#[derive(Clone, Copy, Debug, PartialEq, Eq)]
pub enum Point {
    /// A back end has won the page that it accesses.
    PageHeld,
    /// A back end's access was stamped, and the page was given back.
    Stamped,
    /// A back end has carried an Invalidate out, and holds the control. The acknowledgement isn't sent yet.
    Dropped,
    /// The device has begun a removal that waits for back ends, and holds the control.
    OpOpen,
}

/// What is called at these moments, on the thread that takes the turn.
pub trait Gate {
    /// The actor is at this moment of its turn, and goes on when the call returns.
    fn pass(&self, who: Who, point: Point);
}

/// The gate that does nothing.
#[derive(Clone, Copy, Debug)]
pub struct Free;

impl Gate for Free {
    fn pass(&self, _who: Who, _point: Point) {}
}
