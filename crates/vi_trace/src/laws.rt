//! What a finding says of a trace, each as the contract of a function that does nothing.
ghost use Rattle.vi_trace.specs.Laws.{JudgedOnce, NothingOutlivesItsAck, UsesAreGranted};

/// A trace has one finding at most.
pub fn judged_once()
    ensures { JudgedOnce }
{}

/// Where a trace holds, no lawful cache outlives an Ack, and every use was granted.
pub fn held_is_obeyed()
    ensures outlives { NothingOutlivesItsAck }
    ensures granted { UsesAreGranted }
{}
