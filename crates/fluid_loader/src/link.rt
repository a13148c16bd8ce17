//! How a container reaches its document.
ghost use Rattle.std.specs.Prelude.{◌≡◌, ◌<◌, ◌≤◌, ◌^◌, List, option_map};
ghost use Rattle.std.specs.Borrow.{GName};
ghost use Rattle.fluid_io.specs.Causes.{Tells};
ghost use Rattle.fluid_loader.specs.Link.{Linked, IsDocument, Fits, Picks, Gets, Fetches, Submits, Uploads};

use fluid_json::Bytes;
use fluid_tree::{Id, Node, SummaryRef};
use fluid_types::{ClientId, Messages, Nack, Submission};
use std::alloc::Global;

/// Which summary a container is loaded from.
#[derive(Clone, Copy)]
pub enum Pick {
    /// None: from number 0.
    Empty,
    /// The last acknowledged one.
    Latest,
    /// The last acknowledged one with this handle.
    Handle(Id),
}

/// What became of a submission.
#[derive(Drop)]
pub enum Given {
    /// It was sequenced, dropped as one that came before, or absorbed.
    Taken,
    Nacked(Nack),
}

/// Why a call on a link failed.
#[derive(Drop)]
pub enum LinkFault {
    /// Its count of faults rose in the call.
    Failed,
    /// Other bytes are held under the id of the new ones. Its count of refusals rose in the call.
    Clash { id: Id, kept: Bytes, new: Bytes },
    NoMemory,
}

/// One client's way to a document. Whether a link tells the document, and its ledger, never changes.
pub trait Link {
    /// What it tells, its counts, and what was fetched and taken.
    ghost seen: { Self → Linked };

    /// The names of the references that it holds, which stay.
    ghost lent: { Self → List GName };

    /// The client's id.
    fn id(&self) -> &ClientId
        ensures id { result.now ≡ (seen self.now).client }
        ensures document { Tells (seen self.now).told IsDocument };

    /// The acknowledged summary that is picked, with its number; none where there is none.
    fn summary(&mut self, alloc: Global, pick: &Pick) -> Result<Option<SummaryRef>, LinkFault>
        ensures lent { lent self.new ≡ lent self.old }
        ensures does { Picks pick.now (seen self.old) (seen self.new) result };

    /// The bytes that are held under the id.
    fn object(&mut self, alloc: Global, id: &Id) -> Result<Option<Bytes>, LinkFault>
        ensures lent { lent self.new ≡ lent self.old }
        ensures does { Gets id.now (seen self.old) (seen self.new) result };

    /// All messages from this number on.
    fn deltas(&mut self, alloc: Global, from: u64) -> Result<Messages, LinkFault>
        requires above { 0 < from }
        requires fits { from ≤ 2 ^ 53 }
        ensures lent { lent self.new ≡ lent self.old }
        ensures does { Fetches from (seen self.old) (seen self.new) result };

    /// Submits it as this client. A full document refuses it by a nack of the rule `Full`.
    fn submit(&mut self, alloc: Global, submission: Submission) -> Result<Given, LinkFault>
        requires { Fits (seen self.old).client submission }
        ensures lent { lent self.new ≡ lent self.old }
        ensures does { Submits submission (seen self.old) (seen self.new) result };

    /// Puts the objects of a summary tree, and answers its id. A handle stands for what its path leads to in the earlier tree
    /// with the id `base`.
    fn upload(&mut self, alloc: Global, tree: &Node, base: Option<&Id>) -> Result<Id, LinkFault>
        ensures lent { lent self.new ≡ lent self.old }
        ensures does { Uploads tree.now (option_map (λ id. id.now) base.entry) (seen self.old) (seen self.new) result };

    /// How many faults were counted. The count stands still at `u64::MAX`.
    fn faults(&self) -> u64
        ensures { result ≡ (seen self.now).faults };
}
