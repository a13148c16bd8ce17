// Runs worked out from the definitions. Each is the contract of a function that does nothing.
ghost use Rattle.fluid_outbox.specs.Examples.{CameBack, Losses, LostBehindSending, LeftBeforeLoss};

/// Three edits, with a loss at each point of sending and hearing them.
pub fn losses()
    ensures { Losses }
{}

/// Three edits, of which two were sent under an id whose connection is lost.
pub fn lost_behind_sending()
    ensures { LostBehindSending }
{}

/// The leave is heard before the connection is lost.
pub fn left_before_loss()
    ensures { LeftBeforeLoss }
{}

/// A whole run beside its ledger: of two edits one stands when the connection is lost, and the other is sent again.
pub fn came_back()
    ensures { CameBack }
{}
