//! What a kept content comes back as.
ghost use Rattle.fluid_document.specs.Laws.{RecordsAreFolded, KeptIsLoaded, CheckpointIsLoaded, CheckpointsAreCounted};

use fluid_readback::blobs_of_messages_are_read_back;

/// The records of a legal ledger behind another one are folded to both together: none is refused.
pub fn records_are_folded()
    ensures { RecordsAreFolded }
{}

/// Over what is kept for a ledger a reading gives what the ledger says, and nothing is refused: from the first record on, and
/// from each checkpoint.
pub fn kept_is_loaded()
    ensures first { KeptIsLoaded }
    ensures checkpoints { CheckpointIsLoaded }
{
    blobs_of_messages_are_read_back();
}

/// A checkpoint that was stored behind so many entries is read as these: exactly the records behind them are read then.
pub fn checkpoints_are_counted()
    ensures { CheckpointsAreCounted }
{
    blobs_of_messages_are_read_back();
}
