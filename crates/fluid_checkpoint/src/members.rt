// The members of a checkpoint.
ghost use Rattle.std.specs.Prelude.{◌≡◌, ◌∷◌, ◌++◌, [], IfOk, OnOk};
ghost use Rattle.std.specs.Result.{result_ok};
ghost use Rattle.std.specs.Ordering.{nat_cmp};
ghost use Rattle.std.specs.FinMap.{is_sorted};
ghost use Rattle.fluid_table.specs.Table.{byte_order};
ghost use Rattle.fluid_types.specs.Words.{blob_word};
ghost use Rattle.fluid_types.specs.declared.quorum.QuorumBlob.TheVariants as blob;
ghost use Rattle.fluid_tree.specs.Summary.{blob as leaf};
ghost use Rattle.fluid_quorum.specs.Node.{tree_of};
ghost use Rattle.fluid_quorum.specs.Reading.{answer};
ghost use Rattle.fluid_checkpoint.specs.Reading.{are_numbered, only_if, blob_of};

use crate::forms::{Shape, listed};
use crate::heard::Moments;
use crate::items::{Ack, Change, Client, Heard, Moment, Summarize};
use crate::trimming::own_text;
use fluid_clients::Row;
use fluid_json::{Bytes, Json, NoMemory, Text};
use fluid_quorum::{Acks, Minima, Quorum};
use fluid_tree::{Entries, Node, SummaryRef};
use fluid_types::{BlobFault, ClientId, Message, Messages, QuorumBlob, Word};
use std::alloc::Global;
use std::marker::Model;

#[derive(Drop)]
pub(crate) struct AcksForm;

impl Shape for AcksForm {
    type Value = Acks;

    ghost use Rattle.fluid_checkpoint.specs.Reading.{acks};

    ghost reads = { λ _. acks };

    fn read(&self, alloc: Global, value: &Json) -> Result<Option<Acks>, NoMemory> {
        let Some(acks) = listed(alloc, value, &Ack)? else {
            return Ok(None);
        };
        Ok(Some(Acks::new(acks)))
    }
}

/// Clients with their rows, in byte order of their ids.
#[derive(Drop)]
pub(crate) struct Rows {
    vec: Vec<(ClientId, Row)>,
}

impl Model for Rows {
    ghost use Rattle.std.specs.Prelude.{ℕ, List};
    ghost use Rattle.std.specs.Coded.{coded×, coded_ℕ, coded_list};
    ghost use Rattle.fluid_clients.specs.declared.table.Row.{Row as ARow};
    ghost use Rattle.fluid_clients.specs.Table.{row_code};

    ghost Value = { List (List ℕ × ARow) };

    ghost coded = { coded_list (coded× (coded_list coded_ℕ) row_code) };

    ghost view = { λ r. r.vec.items };
}

impl Rows {
    pub(crate) fn new(vec: Vec<(ClientId, Row)>) -> Rows
        ensures { result ≡ vec.items }
    {
        Rows { vec }
    }

    pub(crate) fn into_vec(self) -> Vec<(ClientId, Row)>
        ensures { result.items ≡ self }
    {
        let Rows { vec } = self;
        vec
    }
}

#[derive(Drop)]
pub(crate) struct ClientsForm;

impl Shape for ClientsForm {
    type Value = Rows;

    ghost use Rattle.fluid_checkpoint.specs.Reading.{clients};

    ghost reads = { λ _. clients };

    #[tactic(auto, unfolding(crate::specs::Reading::clients))]
    fn read(&self, alloc: Global, value: &Json) -> Result<Option<Rows>, NoMemory> {
        let Some(rows) = listed(alloc, value, &Client)? else {
            return Ok(None);
        };
        if are_in_order(&rows) {
            Ok(Some(Rows::new(rows)))
        } else {
            Ok(None)
        }
    }
}

#[derive(Drop)]
pub(crate) struct MomentsForm;

impl Shape for MomentsForm {
    type Value = Moments;

    ghost use Rattle.fluid_checkpoint.specs.Reading.{moments};

    ghost reads = { λ _. moments };

    #[tactic(auto, unfolding(crate::specs::Reading::moments))]
    fn read(&self, alloc: Global, value: &Json) -> Result<Option<Moments>, NoMemory> {
        let Some(moments) = listed(alloc, value, &Moment)? else {
            return Ok(None);
        };
        if are_in_order(&moments) {
            Ok(Some(Moments::new(moments)))
        } else {
            Ok(None)
        }
    }
}

// Whether the ids strictly rise.
fn are_in_order<T>(pairs: &[(ClientId, T)]) -> bool
    ensures { result ≡ is_sorted byte_order pairs.now }
{
    pairs.is_sorted_by(|a, b| a.0.cmp(&b.0).is_lt())
}

#[derive(Drop)]
pub(crate) struct MinimaForm;

impl Shape for MinimaForm {
    type Value = Minima;

    ghost use Rattle.fluid_checkpoint.specs.Reading.{minima};

    ghost reads = { λ _. minima };

    #[tactic(auto, unfolding(crate::specs::Reading::minima))]
    fn read(&self, alloc: Global, value: &Json) -> Result<Option<Minima>, NoMemory> {
        let Some(changes) = listed(alloc, value, &Change)? else {
            return Ok(None);
        };
        if are_rising(&changes) {
            Ok(Some(Minima::new(changes)))
        } else {
            Ok(None)
        }
    }
}

fn are_rising(changes: &[(u64, u64)]) -> bool
    ensures { result ≡ is_sorted nat_cmp changes.now }
{
    changes.is_sorted_by(|a, b| a.0.cmp(&b.0).is_lt())
}

#[derive(Drop)]
pub(crate) struct BehindForm;

impl Shape for BehindForm {
    type Value = Messages;

    ghost use Rattle.fluid_checkpoint.specs.Reading.{behind};

    ghost reads = { λ _. behind };

    #[tactic(auto, unfolding(crate::specs::Reading::messages))]
    fn read(&self, alloc: Global, value: &Json) -> Result<Option<Messages>, NoMemory> {
        let Some(messages) = listed(alloc, value, &Heard)? else {
            return Ok(None);
        };
        Ok(numbered(messages))
    }
}

#[derive(Drop)]
pub(crate) struct PendingForm;

impl Shape for PendingForm {
    type Value = Messages;

    ghost use Rattle.fluid_checkpoint.specs.Reading.{pending};

    ghost reads = { λ _. pending };

    #[tactic(auto, unfolding(crate::specs::Reading::messages))]
    fn read(&self, alloc: Global, value: &Json) -> Result<Option<Messages>, NoMemory> {
        let Some(messages) = listed(alloc, value, &Summarize)? else {
            return Ok(None);
        };
        Ok(numbered(messages))
    }
}

// The messages, where their numbers strictly rise.
fn numbered(messages: Vec<Message>) -> Option<Messages>
    ensures { result ≡ only_if are_numbered messages.items }
{
    if are_numbered(&messages) {
        Some(Messages::new(messages))
    } else {
        None
    }
}

fn are_numbered(messages: &[Message]) -> bool
    ensures { result ≡ are_numbered messages.now }
{
    messages.is_sorted_by(|a, b| a.number.cmp(&b.number).is_lt())
}

/// The quorum at the base.
#[derive(Drop)]
pub(crate) struct BaseForm;

impl Shape for BaseForm {
    type Value = Quorum;

    ghost use Rattle.fluid_checkpoint.specs.Reading.{base};

    ghost reads = { λ _. base };

    #[tactic(auto, unfolding(crate::specs::Reading::base))]
    fn read(&self, alloc: Global, value: &Json) -> Result<Option<Quorum>, NoMemory> {
        let Some(attributes) = blob_of(alloc, value, QuorumBlob::Attributes)? else {
            return Ok(None);
        };
        let Some(members) = blob_of(alloc, value, QuorumBlob::Members)? else {
            return Ok(None);
        };
        let Some(proposals) = blob_of(alloc, value, QuorumBlob::Proposals)? else {
            return Ok(None);
        };
        let Some(values) = blob_of(alloc, value, QuorumBlob::Values)? else {
            return Ok(None);
        };
        let node = node_of(alloc, attributes, members, proposals, values)?;
        quorum_of(alloc, &node)
    }
}

// The value of a blob, as its name and its text.
fn blob_of(alloc: Global, value: &Json, blob: QuorumBlob) -> Result<Option<(Text, Text)>, NoMemory>
    ensures { IfOk result (λ found. found ≡ blob_of blob value.now) }
{
    let Some(value) = value.member(blob.word()) else {
        return Ok(None);
    };
    let name = Text::copied(alloc, blob.word())?;
    let text = own_text(alloc, value, blob)?;
    Ok(Some((name, text)))
}

// The tree of four blobs.
fn node_of(
    alloc: Global,
    attributes: (Text, Text),
    members: (Text, Text),
    proposals: (Text, Text),
    values: (Text, Text),
) -> Result<Node, NoMemory>
    ensures { IfOk result (λ node. node ≡ tree_of (attributes ∷ members ∷ proposals ∷ values ∷ [])) }
{
    let mut entries = Entries::new(alloc);
    push(&mut entries, attributes)?;
    push(&mut entries, members)?;
    push(&mut entries, proposals)?;
    push(&mut entries, values)?;
    Ok(Node::tree(entries))
}

fn push(entries: &mut Entries, blob: (Text, Text)) -> Result<(), NoMemory>
    ensures { OnOk result (entries.new ≡ entries.old ++ (blob.0, leaf blob.1) ∷ []) }
{
    let (name, text) = blob;
    entries.push(
        name,
        Node::blob(Bytes::new(text.into_string().into_bytes())),
    )?;
    Ok(())
}

// The quorum that the blobs of a tree say.
fn quorum_of(alloc: Global, node: &Node) -> Result<Option<Quorum>, NoMemory>
    ensures { IfOk result (λ found. found ≡ result_ok (answer node.now)) }
{
    match Quorum::from_blobs(alloc, node) {
        Ok(quorum) => Ok(Some(quorum)),
        Err(BlobFault::BadBlob(_)) => Ok(None),
        Err(BlobFault::NoMemory) => Err(NoMemory),
    }
}
