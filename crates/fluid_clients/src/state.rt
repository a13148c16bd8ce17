// What a sequencer is made of.
use crate::table::Clients;
use std::marker::Model;

/// The parts of a sequencer, as a checkpoint has them.
#[derive(Drop)]
pub struct SequencerState {
    /// The last sequence number, 0 before the first message.
    pub sequence: u64,
    /// The minimum of the last message, 0 before the first.
    pub minimum: u64,
    pub clients: Clients,
}

impl Model for SequencerState {
    ghost use Rattle.fluid_clients.specs.Table.{Parts, parts_code};

    ghost Value = { Parts };

    ghost coded = { parts_code };

    ghost view = { λ s. record { sequence = s.sequence; minimum = s.minimum; rows = s.clients.rows } };
}
