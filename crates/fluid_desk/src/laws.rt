//! What holds of a desk at the end of a run. Each is the contract of a function that does nothing.
ghost use Rattle.fluid_desk.specs.Laws.{DesksComeBack, FaultsAreCounted};

/// Where all documents are closed, the shelves tell the documents of the world for which the desk stood.
pub fn desks_come_back()
    ensures { DesksComeBack }
{}

/// A keeper's fault that ended a run is in the count of the shelves that come back.
pub fn faults_are_counted()
    ensures { FaultsAreCounted }
{}
