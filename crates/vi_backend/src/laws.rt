//! Laws of a back end that goes by its own lines, each as the contract of a function that does nothing: it does what
//! the core's turns say of the whole script.
ghost use Rattle.vi_backend.specs.Laws.{AccessesAgree, AllIsAll, AsksAgree, AwaitsAgree, FramesAgree, HeardAgrees, RepliesAgree, WishesAgree};

/// A back end's wish is that of the back end at its place of the script.
pub fn wishes_agree()
    ensures { WishesAgree }
{}

/// So are the lines that it awaits.
pub fn awaits_agree()
    ensures { AwaitsAgree }
{}

/// So is its access.
pub fn accesses_agree()
    ensures { AccessesAgree }
{}

/// So is its seat after it asked.
pub fn asks_agree()
    ensures { AsksAgree }
{}

/// So is its seat after it took an Update or an Invalidate.
pub fn frames_agree()
    ensures { FramesAgree }
{}

/// So is its seat after it took a Reply.
pub fn replies_agree()
    ensures { RepliesAgree }
{}

/// So is its seat after it received no frame.
pub fn heard_agrees()
    ensures { HeardAgrees }
{}

/// Cached leases have pages below 2^52, so an Invalidate of all addresses drops every one.
pub fn all_is_all()
    ensures { AllIsAll }
{}
