// The four blobs in which a summary keeps a quorum.
ghost use Rattle.std.specs.Prelude.{◌≡◌, ◌++◌, [], ◌∷◌, IfOk, OnOk, IsUtf8, map};
ghost use Rattle.fluid_json.specs.Tree.{text};
ghost use Rattle.fluid_tree.specs.Summary.{blob as leaf};
ghost use Rattle.fluid_json.specs.Tokens.{tokens_of};
ghost use Rattle.fluid_json.specs.Printed.{printed};
ghost use Rattle.fluid_types.specs.Printed.{row, count_tree};
ghost use Rattle.fluid_types.specs.Words.{blob_word};
ghost use Rattle.fluid_types.specs.Blobs.{attributes_tree, member_tree, proposal_tree, value_tree, list_tree};
ghost use Rattle.fluid_table.specs.Keyed.{pairs_of};
ghost use Rattle.fluid_quorum.specs.Rows.{row_tokens, place_tokens};
ghost use Rattle.fluid_quorum.specs.Node.{node_of, AreTexts};
ghost use Rattle.fluid_quorum.specs.Places.{held};

use crate::accepting::KeyValue;
use crate::quorum::Quorum;
use fluid_json::{Bytes, Json, NoMemory, Printer, Text};
use fluid_tree::{Entries, Node};
use fluid_types::{Accepted, Field, Member, Proposal, QuorumBlob, Word};
use std::alloc::Global;
use std::collections::{BTreeMap, VecDeque};

impl Quorum {
    /// The tree of the four blobs, in the order of their names.
    pub fn to_blobs(&self, alloc: Global) -> Result<Node, NoMemory>
        ensures node { IfOk result (λ node. node ≡ node_of self.now) }
        ensures texts { IfOk result (λ _. AreTexts self.now) }
    {
        let attributes = print_attributes(alloc, self.minimum, self.number)?;
        let members = print_member_places(alloc, &self.members)?;
        let proposals = print_proposals(alloc, &self.pending)?;
        let values = print_value_places(alloc, &self.values)?;
        let mut entries = Entries::new(alloc);
        put_blob(alloc, &mut entries, QuorumBlob::Attributes, attributes)?;
        put_blob(alloc, &mut entries, QuorumBlob::Members, members)?;
        put_blob(alloc, &mut entries, QuorumBlob::Proposals, proposals)?;
        put_blob(alloc, &mut entries, QuorumBlob::Values, values)?;
        Ok(Node::tree(entries))
    }
}

// Puts a blob of this text behind the entries.
fn put_blob(
    alloc: Global,
    entries: &mut Entries,
    blob: QuorumBlob,
    content: Text,
) -> Result<(), NoMemory>
    ensures entries { OnOk result (entries.new ≡ entries.old ++ (blob_word blob, leaf content) ∷ []) }
    ensures text { OnOk result (IsUtf8 content) }
{
    let name = Text::copied(alloc, blob.word())?;
    let node = Node::blob(Bytes::new(content.into_string().into_bytes()));
    entries.push(name, node)?;
    Ok(())
}

// ---- texts

pub(crate) fn print_attributes(alloc: Global, minimum: u64, number: u64) -> Result<Text, NoMemory>
    ensures { IfOk result (λ s. s ≡ printed (attributes_tree minimum number)) }
{
    let mut out = Printer::new(alloc);
    out.begin_object()?;
    put_count(&mut out, Field::MinimumSequenceNumber, minimum)?;
    put_count(&mut out, Field::SequenceNumber, number)?;
    out.end_object()?;
    Ok(out.into_text())
}

pub(crate) fn print_members(alloc: Global, members: &[Member]) -> Result<Text, NoMemory>
    ensures { IfOk result (λ s. s ≡ printed (list_tree member_tree members.now)) }
{
    let mut out = Printer::new(alloc);
    out.begin_list()?;
    for member in members {
        put_member(&mut out, member)?;
    }
    out.end_list()?;
    Ok(out.into_text())
}

pub(crate) fn print_proposals(
    alloc: Global,
    proposals: &VecDeque<Proposal>,
) -> Result<Text, NoMemory>
    ensures { IfOk result (λ s. s ≡ printed (list_tree proposal_tree proposals.now.items)) }
{
    let mut out = Printer::new(alloc);
    out.begin_list()?;
    for index in 0..proposals.len() {
        put_proposal(&mut out, &proposals[index])?;
    }
    out.end_list()?;
    Ok(out.into_text())
}

pub(crate) fn print_values(alloc: Global, values: &[KeyValue]) -> Result<Text, NoMemory>
    ensures { IfOk result (λ s. s ≡ printed (list_tree value_tree (pairs_of (λ v. v.key) (λ v. v.accepted) values.now))) }
{
    let mut out = Printer::new(alloc);
    out.begin_list()?;
    for value in values {
        put_value(&mut out, value.key.as_str(), &value.accepted)?;
    }
    out.end_list()?;
    Ok(out.into_text())
}

fn print_member_places(
    alloc: Global,
    places: &BTreeMap<String, Option<Member>>,
) -> Result<Text, NoMemory>
    ensures { IfOk result (λ s. s ≡ printed (list_tree (λ e. member_tree e.1) (held places.now.entries))) }
{
    let mut out = Printer::new(alloc);
    out.begin_list()?;
    for (_key, place) in places {
        put_member_place(&mut out, place)?;
    }
    out.end_list()?;
    Ok(out.into_text())
}

fn print_value_places(
    alloc: Global,
    places: &BTreeMap<String, Option<Accepted>>,
) -> Result<Text, NoMemory>
    ensures { IfOk result (λ s. s ≡ printed (list_tree value_tree (held places.now.entries))) }
{
    let mut out = Printer::new(alloc);
    out.begin_list()?;
    for (key, place) in places {
        put_value_place(&mut out, key.as_str(), place)?;
    }
    out.end_list()?;
    Ok(out.into_text())
}

// ---- objects

fn put_member(out: &mut Printer, member: &Member) -> Result<(), NoMemory>
    ensures before { out.new.before ≡ out.old.before }
    ensures tokens { OnOk result (out.new.tokens ≡ out.old.tokens ++ tokens_of (member_tree member.now)) }
{
    out.begin_object()?;
    put_text(out, Field::ClientId, member.id.as_str())?;
    put_json(out, Field::Detail, &member.detail)?;
    put_count(out, Field::SequenceNumber, member.number)?;
    out.end_object()?;
    Ok(())
}

fn put_proposal(out: &mut Printer, proposal: &Proposal) -> Result<(), NoMemory>
    ensures before { out.new.before ≡ out.old.before }
    ensures tokens { OnOk result (out.new.tokens ≡ out.old.tokens ++ tokens_of (proposal_tree proposal.now)) }
{
    out.begin_object()?;
    put_text(out, Field::Key, proposal.key.as_str())?;
    put_count(out, Field::SequenceNumber, proposal.number)?;
    put_json(out, Field::Value, &proposal.value)?;
    out.end_object()?;
    Ok(())
}

fn put_member_place(out: &mut Printer, place: &Option<Member>) -> Result<(), NoMemory>
    ensures before { out.new.before ≡ out.old.before }
    ensures tokens { OnOk result (out.new.tokens ≡ out.old.tokens ++ place_tokens member_tree place.now) }
{
    match place {
        Some(member) => {
            put_member(out, member)?;
            Ok(())
        }
        None => Ok(()),
    }
}

fn put_value_place(out: &mut Printer, key: &str, place: &Option<Accepted>) -> Result<(), NoMemory>
    ensures before { out.new.before ≡ out.old.before }
    ensures tokens { OnOk result (out.new.tokens ≡ out.old.tokens ++ place_tokens (λ a. value_tree (key.now, a)) place.now) }
{
    match place {
        Some(accepted) => {
            put_value(out, key, accepted)?;
            Ok(())
        }
        None => Ok(()),
    }
}

fn put_value(out: &mut Printer, key: &str, accepted: &Accepted) -> Result<(), NoMemory>
    ensures before { out.new.before ≡ out.old.before }
    ensures tokens { OnOk result (out.new.tokens ≡ out.old.tokens ++ tokens_of (value_tree (key.now, accepted.now))) }
{
    out.begin_object()?;
    put_count(out, Field::ApprovalSequenceNumber, accepted.approval)?;
    put_text(out, Field::Key, key)?;
    put_count(out, Field::SequenceNumber, accepted.number)?;
    put_json(out, Field::Value, &accepted.value)?;
    out.end_object()?;
    Ok(())
}

// ---- members of objects

#[tactic(auto, unfolding(crate::specs::Rows::row_tokens))]
fn put_text(out: &mut Printer, field: Field, string: &str) -> Result<(), NoMemory>
    ensures before { out.new.before ≡ out.old.before }
    ensures tokens { OnOk result (out.new.tokens ≡ out.old.tokens ++ row_tokens (row field (text string.now))) }
{
    out.key(field.name())?;
    out.text(string)?;
    Ok(())
}

#[tactic(auto, unfolding(crate::specs::Rows::row_tokens))]
fn put_count(out: &mut Printer, field: Field, number: u64) -> Result<(), NoMemory>
    ensures before { out.new.before ≡ out.old.before }
    ensures tokens { OnOk result (out.new.tokens ≡ out.old.tokens ++ row_tokens (row field (count_tree number))) }
{
    out.key(field.name())?;
    out.count(number)?;
    Ok(())
}

#[tactic(auto, unfolding(crate::specs::Rows::row_tokens))]
fn put_json(out: &mut Printer, field: Field, value: &Json) -> Result<(), NoMemory>
    ensures before { out.new.before ≡ out.old.before }
    ensures tokens { OnOk result (out.new.tokens ≡ out.old.tokens ++ row_tokens (row field value.now)) }
{
    out.key(field.name())?;
    out.value(value)?;
    Ok(())
}
