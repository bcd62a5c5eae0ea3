//! Laws of the history, each as the contract of a function that does nothing.
ghost use Rattle.vi_log.specs.Logs.{MergedOnce};

/// Logs have one history: two histories of the same logs are the same.
pub fn merged_once()
    ensures { MergedOnce }
{}
