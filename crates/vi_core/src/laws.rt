//! What is so of every sound world, each as the contract of a function that does nothing: an actor's turn finds the
//! room that its conditions ask for.
ghost use Rattle.vi_core.specs.Laws.{ConversesFit, DrivesFit, PagesAreThere};

/// In a sound world a driver's turn finds its room.
pub fn drives_fit()
    ensures { DrivesFit }
{}

/// In a sound world a back end's turn under control finds its room.
pub fn converses_fit()
    ensures { ConversesFit }
{}

/// In a sound world the page of the memory that a back end's wish accesses is there.
pub fn pages_are_there()
    ensures { PagesAreThere }
{}
