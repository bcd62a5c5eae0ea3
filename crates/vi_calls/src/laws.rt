//! Laws of the calls, one after another, each as the contract of a function that does nothing.
ghost use Rattle.vi_calls.specs.Laws.{AnsweredAtOnce, OthersStay, TakenIsFound};

/// A request that was taken is found by its head.
pub fn taken_is_found()
    ensures { TakenIsFound }
{}

/// A request that is answered as soon as it is taken has left the queue, its driver has the answer, and nothing else
/// changed.
pub fn answered_at_once()
    ensures { AnsweredAtOnce }
{}

/// Taking one chain and answering one leave those with other heads.
pub fn others_stay()
    ensures { OthersStay }
{}
