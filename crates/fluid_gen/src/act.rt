//! What is done in a workload.

/// An act of a workload. Clients are counted from 0. A container of the document's own, the first one, has the map
/// and the counter that the clients change.
#[derive(Clone, Copy, Debug, PartialEq, Eq)]
pub enum Act {
    /// The first container loads an empty document, attaches a map and a counter, and takes in all messages.
    Begin,
    /// This client joins, with all scopes.
    Join(u32),
    /// It collects all messages up to the last one.
    Collect(u32),
    /// It submits a noop without contents, under its first number and with the last number that it collected as
    /// reference.
    Noop(u32),
    /// It submits once more what was its last submission to be sequenced or absorbed.
    Again(u32),
    /// It submits an op without contents under its last number plus 2.
    Gap(u32),
    /// It submits an op that sets this key of the map.
    Set { client: u32, key: u32, value: u32 },
    /// It submits an op that deletes this key of the map.
    Delete { client: u32, key: u32 },
    /// It submits an op that increments the counter by this much.
    Increment { client: u32, amount: i64 },
    /// The first container takes in all messages and summarizes, the scribe takes a step, a checkpoint is stored, and
    /// the document's lane restarts from it.
    Round,
    /// A second container loads the document, from its latest summary where there is one, and the first one takes in
    /// all messages.
    Finish,
}
