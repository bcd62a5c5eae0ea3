//! What holds of every space that calls come to, as the contract of a function that does nothing.
ghost use Rattle.vi_iova.specs.Reached.{SpansStayApart};

/// No address is in two live spans, or in a live span and a region, whatever was given out and
/// taken back.
pub fn spans_stay_apart()
    ensures { SpansStayApart }
{}
