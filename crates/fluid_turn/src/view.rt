//! What a seat knows, as the table's rule sees it.
use std::collections::LinkedList;

/// An entry with the number of the seat that entered it. An entry with which the turn began has none.
pub struct Numbered<E> {
    pub number: Option<u64>,
    pub entry: E,
}

// Where a seat is: it makes the turn, has no ticket, waits with one, or has the turn by it.
pub enum Stage {
    Opening,
    Idle,
    Waiting(u64),
    Holding(u64),
}

// No value of it is made.
pub struct View<E> {
    // The entries that the seat has seen, and its own among them.
    pub seen: LinkedList<Numbered<E>>,
    pub mine: LinkedList<E>,
    pub stage: Stage,
    // In its turn, the whole list.
    pub all: LinkedList<Numbered<E>>,
    // Lists that it was told of since its last note.
    pub told: LinkedList<LinkedList<Numbered<E>>>,
}
