// Who takes part in a document, and which values its clients have proposed and approved.
ghost use Rattle.std.specs.Prelude.{◌≡◌, IfOk};

use crate::ClientId;
use crate::words::Word;
use fluid_json::{Json, NoMemory, Text};
use fluid_table::Entry;
use std::alloc::Global;

/// A client that has joined and hasn't left.
#[derive(Drop)]
pub struct Member {
    pub id: ClientId,
    /// What its join said of it.
    pub detail: Json,
    /// The sequence number of its join.
    pub number: u64,
}

impl Member {
    pub fn copy(&self, alloc: Global) -> Result<Member, NoMemory>
        ensures { IfOk result (λ copy. copy ≡ self.now) }
    {
        let id = self.id.copy(alloc)?;
        let detail = self.detail.copy(alloc)?;
        Ok(Member {
            id,
            detail,
            number: self.number,
        })
    }
}

/// A member is found by its id.
impl Entry for Member {
    type Value = Member;

    ghost key_of = { λ member. member.id };

    ghost value_of = { λ member. member };

    fn key(&self) -> &str {
        self.id.as_str()
    }
}

/// A value that a client proposed for a key.
#[derive(Drop)]
pub struct Proposal {
    /// The sequence number of the propose.
    pub number: u64,
    pub key: Text,
    pub value: Json,
}

impl Proposal {
    pub fn copy(&self, alloc: Global) -> Result<Proposal, NoMemory>
        ensures { IfOk result (λ copy. copy ≡ self.now) }
    {
        let key = self.key.copy(alloc)?;
        let value = self.value.copy(alloc)?;
        Ok(Proposal {
            number: self.number,
            key,
            value,
        })
    }
}

/// The value of a key: that of a proposal which every client has seen.
#[derive(Drop)]
pub struct Accepted {
    /// The sequence number of the propose.
    pub number: u64,
    /// The sequence number of the message with which the minimum reached the propose's number.
    pub approval: u64,
    pub value: Json,
}

impl Accepted {
    pub fn copy(&self, alloc: Global) -> Result<Accepted, NoMemory>
        ensures { IfOk result (λ copy. copy ≡ self.now) }
    {
        let value = self.value.copy(alloc)?;
        Ok(Accepted {
            number: self.number,
            approval: self.approval,
            value,
        })
    }
}

/// The blobs in which a summary keeps a quorum.
#[derive(Clone, Copy, Debug, PartialEq, Eq)]
pub enum QuorumBlob {
    Attributes,
    Members,
    Proposals,
    Values,
}

impl QuorumBlob {
    /// In the order in which they stand, which is the byte order of their names.
    pub const ALL: [QuorumBlob; 4] = [
        QuorumBlob::Attributes,
        QuorumBlob::Members,
        QuorumBlob::Proposals,
        QuorumBlob::Values,
    ];
}

/// The names of the blobs.
impl Word for QuorumBlob {
    ghost use Rattle.fluid_types.specs.Words.{blob_word};

    ghost word_of = { blob_word };

    fn word(self) -> &'static str {
        match self {
            QuorumBlob::Attributes => "attributes",
            QuorumBlob::Members => "quorumMembers",
            QuorumBlob::Proposals => "quorumProposals",
            QuorumBlob::Values => "quorumValues",
        }
    }
}
