//! What holds of what is heard, said by functions that do nothing.
ghost use Rattle.fluid_connection.specs.Hearing.{ConnectedAsk, OthersAsk};

/// A text of one that is connected asks for one thing alone, or for submissions.
pub fn connected_ones_ask()
    ensures { ConnectedAsk }
{}

/// A text of one that isn't asks for one reply or one connect, or for nothing.
pub fn others_ask()
    ensures { OthersAsk }
{}
