// What is to be done about a summary.

use fluid_tree::{Id, Node};

/// What is to be done about the pending summarize.
#[derive(Drop)]
pub struct Job {
    /// The number of the summarize.
    pub summary: u64,
    /// The id of the tree that it asks to be `.app`; None exactly where its contents are malformed.
    pub app: Option<Id>,
    /// The tree that is to be `.protocol`: the order's state at the summarize's reference.
    pub protocol: Node,
    /// The reference of the summarize.
    pub reference: u64,
    /// Whether the answer depends on what is stored: false exactly where it is a summaryNack whatever is found.
    pub needs_storage: bool,
}
