// Reading a quorum from the blobs of a summary.
ghost use Rattle.std.specs.Prelude.{◌≡◌, ◌⊎◌, IfOk, IfSome, option_map, map};
ghost use Rattle.std.specs.Result.{result_ok};
ghost use Rattle.std.specs.Ordering.{nat_cmp};
ghost use Rattle.std.specs.FinMap.{is_sorted};
ghost use Rattle.fluid_json.specs.Unless.{IsUnless};
ghost use Rattle.fluid_json.specs.Tree.{Tree, trees};
ghost use Rattle.fluid_json.specs.Spelled.{answer_stored};
ghost use Rattle.fluid_tree.specs.Summary.{children};
ghost use Rattle.fluid_types.specs.declared.fault.BlobFault.TheVariants.{NoMemory as no_memory};
ghost use Rattle.fluid_quorum.specs.Lists.{IsInIdOrder, IsInKeyOrder, AreRising, AreUpTo, members_of as table_of_members, values_of};
ghost use Rattle.fluid_quorum.specs.Places.{table_at, AreOrdered, HavePlaces};
ghost use Rattle.fluid_quorum.specs.Reading.{as_utf8, find_child, text_in, within, count_at, text_at, attributes_form, member_form, proposal_form, value_form, each, members_form, proposals_form, values_form, attributes_in, number_in, members_in, proposals_in, values_in, bad, answer};

use crate::accepting::KeyValue;
use crate::places::{make_place, put};
use crate::quorum::Quorum;
use crate::saying::{id_in, key_in};
use crate::writing::{print_attributes, print_members, print_proposals, print_values};
use fluid_json::{Json, JsonFault, LARGEST, NoMemory, Text, read_stored};
use fluid_table::is_in_order;
use fluid_tree::Node;
use fluid_types::{Accepted, BlobFault, Field, Member, Proposal, QuorumBlob, Word};
use std::alloc::Global;
use std::collections::{BTreeMap, VecDeque};

impl Quorum {
    /// The quorum that the blobs of a tree say.
    #[tactic(auto, unfolding(crate::specs::Reading::answer))]
    pub fn from_blobs(alloc: Global, tree: &Node) -> Result<Quorum, BlobFault>
        ensures { IsUnless BlobFault.NoMemory result (answer tree.now) }
    {
        let Some((minimum, number)) = read_attributes(alloc, tree)? else {
            return Err(bad_blob(alloc, QuorumBlob::Attributes));
        };
        let Some(members) = read_members(alloc, tree, number)? else {
            return Err(bad_blob(alloc, QuorumBlob::Members));
        };
        let Some(pending) = read_proposals(alloc, tree, number)? else {
            return Err(bad_blob(alloc, QuorumBlob::Proposals));
        };
        let Some(values) = read_values(alloc, tree, number)? else {
            return Err(bad_blob(alloc, QuorumBlob::Values));
        };
        let members = of_members(alloc, members)?;
        let values = placed(alloc, values, &pending)?;
        Ok(Quorum {
            number,
            minimum,
            members,
            pending,
            values,
        })
    }
}

/// The number that the attributes among the blobs of a tree say; None where they are missing or outside their form. It is that of
/// the quorum, where the blobs say one (`laws::attributes_are_read`).
pub fn number_in(alloc: Global, tree: &Node) -> Result<Option<u64>, NoMemory>
    ensures { IfOk result (λ number. number ≡ number_in tree.now) }
{
    let attributes = read_attributes(alloc, tree)?;
    Ok(attributes.map(|(_, number)| number))
}

// The fault that names a blob.
fn bad_blob(alloc: Global, blob: QuorumBlob) -> BlobFault
    ensures { (result ≡ no_memory) ⊎ (result ≡ bad blob) }
{
    match Text::copied(alloc, blob.word()) {
        Ok(name) => BlobFault::BadBlob(name),
        Err(_) => BlobFault::NoMemory,
    }
}

// ---- the text of a blob

/// The text of one of the four blobs of a tree, where the tree has it and it is UTF-8. Takes no memory.
#[tactic(auto, unfolding(crate::specs::Reading::text_in))]
pub fn text_in(tree: &Node, blob: QuorumBlob) -> Option<&str>
    ensures { option_map (λ s. s.now) result ≡ text_in tree.now blob }
{
    let entries = tree.as_tree()?;
    let node = find_child(entries, blob.word())?;
    let content = node.as_blob()?;
    as_utf8(content)
}

fn as_utf8(content: &[u8]) -> Option<&str>
    ensures { option_map (λ s. s.now) result ≡ as_utf8 content.now }
{
    match str::from_utf8(content) {
        Ok(text) => Some(text),
        Err(_) => None,
    }
}

fn find_child<'a>(entries: &'a [(Text, Node)], name: &str) -> Option<&'a Node>
    ensures { option_map (λ node. node.now) result ≡ find_child name.now (children entries.now) }
{
    for (own, node) in entries {
        if own.as_str() == name {
            return Some(node);
        }
    }
    None
}

// The value that a text spells.
fn value_in(alloc: Global, text: &str) -> Result<Option<Json>, NoMemory>
    ensures { IfOk result (λ value. value ≡ result_ok (answer_stored text.now)) }
{
    match read_stored(alloc, text) {
        Ok(value) => Ok(Some(value)),
        Err(JsonFault::NoMemory) => Err(NoMemory),
        Err(_) => Ok(None),
    }
}

// ---- forms of values

fn within(low: u64, high: u64, number: i64) -> Option<u64>
    ensures { result ≡ within low high number }
{
    let Ok(number) = u64::try_from(number) else {
        return None;
    };
    if low <= number && number <= high {
        Some(number)
    } else {
        None
    }
}

fn count_at(value: &Json, field: Field, low: u64, high: u64) -> Option<u64>
    ensures { result ≡ count_at field low high value.now }
{
    let member = value.member(field.name())?;
    let number = member.as_whole()?;
    within(low, high, number)
}

fn attributes_of(value: &Json) -> Option<(u64, u64)>
    ensures { result ≡ attributes_form value.now }
{
    let number = count_at(value, Field::SequenceNumber, 0, LARGEST)?;
    let most = if number == 0 { 0 } else { LARGEST };
    let minimum = count_at(value, Field::MinimumSequenceNumber, 0, most)?;
    Some((minimum, number))
}

/// A form of the items of a list.
trait Form {
    type Value;

    ghost use Rattle.std.specs.Prelude.{◌≡◌, Option, IfOk};
    ghost use Rattle.fluid_json.specs.Tree.{Tree};

    ghost reads: { Self → Tree → Option Self.Value };

    fn read(&self, alloc: Global, item: Json) -> Result<Option<Self::Value>, NoMemory>
        ensures { IfOk result (λ value. value ≡ reads self.now item) };
}

#[derive(Drop)]
struct MemberForm {
    last: u64,
}

impl Form for MemberForm {
    type Value = Member;

    ghost use Rattle.fluid_quorum.specs.Reading.{member_form};

    ghost reads = { λ form. member_form form.last };

    fn read(&self, alloc: Global, item: Json) -> Result<Option<Member>, NoMemory> {
        let Some(id) = id_in(alloc, &item)? else {
            return Ok(None);
        };
        let Some(number) = count_at(&item, Field::SequenceNumber, 1, self.last) else {
            return Ok(None);
        };
        let Some(detail) = item.into_member(Field::Detail.name()) else {
            return Ok(None);
        };
        Ok(Some(Member { id, detail, number }))
    }
}

#[derive(Drop)]
struct ProposalForm {
    last: u64,
}

impl Form for ProposalForm {
    type Value = Proposal;

    ghost use Rattle.fluid_quorum.specs.Reading.{proposal_form};

    ghost reads = { λ form. proposal_form form.last };

    fn read(&self, alloc: Global, item: Json) -> Result<Option<Proposal>, NoMemory> {
        let Some(key) = key_in(alloc, &item)? else {
            return Ok(None);
        };
        let Some(number) = count_at(&item, Field::SequenceNumber, 1, self.last) else {
            return Ok(None);
        };
        let Some(value) = item.into_member(Field::Value.name()) else {
            return Ok(None);
        };
        Ok(Some(Proposal { number, key, value }))
    }
}

#[derive(Drop)]
struct ValueForm {
    last: u64,
}

impl Form for ValueForm {
    type Value = KeyValue;

    ghost use Rattle.fluid_quorum.specs.Reading.{value_form};

    ghost reads = { λ form. value_form form.last };

    fn read(&self, alloc: Global, item: Json) -> Result<Option<KeyValue>, NoMemory> {
        let Some(approval) = count_at(&item, Field::ApprovalSequenceNumber, 1, self.last) else {
            return Ok(None);
        };
        let Some(key) = key_in(alloc, &item)? else {
            return Ok(None);
        };
        let Some(number) = count_at(&item, Field::SequenceNumber, 1, self.last) else {
            return Ok(None);
        };
        let Some(value) = item.into_member(Field::Value.name()) else {
            return Ok(None);
        };
        let accepted = Accepted {
            number,
            approval,
            value,
        };
        Ok(Some(KeyValue { key, accepted }))
    }
}

// Each item in its form; none where one isn't.
fn each<F: Form>(
    alloc: Global,
    form: &F,
    items: Vec<Json>,
) -> Result<Option<Vec<F::Value>>, NoMemory>
where
    F::Value: Drop,
    ensures { IfOk result (λ values. option_map (λ v. v.items) values ≡ each (F.reads form.now) (trees items.items)) }
{
    let mut values = Vec::with_capacity(alloc, items.len())?;
    for item in items {
        let Some(value) = form.read(alloc, item)? else {
            return Ok(None);
        };
        values.push(value)?;
    }
    Ok(Some(values))
}

// ---- lists

fn members_of(alloc: Global, last: u64, value: Json) -> Result<Option<Vec<Member>>, NoMemory>
    ensures form { IfOk result (λ ms. option_map (λ v. v.items) ms ≡ members_form last value) }
    ensures kept { IfOk result (λ ms. IfSome ms (λ v. IsInIdOrder v.items)) }
{
    let Some(items) = value.into_list() else {
        return Ok(None);
    };
    let Some(members) = each(alloc, &MemberForm { last }, items.into_vec())? else {
        return Ok(None);
    };
    if is_in_order(&members) {
        Ok(Some(members))
    } else {
        Ok(None)
    }
}

fn proposals_of(
    alloc: Global,
    last: u64,
    value: Json,
) -> Result<Option<VecDeque<Proposal>>, NoMemory>
    ensures form { IfOk result (λ ps. option_map (λ v. v.items) ps ≡ proposals_form last value) }
    ensures kept { IfOk result (λ ps. IfSome ps (λ v. AreRising v.items × AreUpTo last v.items)) }
{
    let Some(items) = value.into_list() else {
        return Ok(None);
    };
    let Some(proposals) = each(alloc, &ProposalForm { last }, items.into_vec())? else {
        return Ok(None);
    };
    if are_rising(&proposals) {
        Ok(Some(VecDeque::from_vec(proposals)))
    } else {
        Ok(None)
    }
}

fn are_rising(proposals: &[Proposal]) -> bool
    ensures { result ≡ is_sorted nat_cmp (map (λ p. (p.number, p)) proposals.now) }
{
    proposals.is_sorted_by(|a, b| a.number.cmp(&b.number).is_lt())
}

fn values_of(alloc: Global, last: u64, value: Json) -> Result<Option<Vec<KeyValue>>, NoMemory>
    ensures form { IfOk result (λ vs. option_map (λ v. v.items) vs ≡ values_form last value) }
    ensures kept { IfOk result (λ vs. IfSome vs (λ v. IsInKeyOrder v.items)) }
{
    let Some(items) = value.into_list() else {
        return Ok(None);
    };
    let Some(values) = each(alloc, &ValueForm { last }, items.into_vec())? else {
        return Ok(None);
    };
    if is_in_order(&values) {
        Ok(Some(values))
    } else {
        Ok(None)
    }
}

// The values in places, and places for the keys of these proposals.
fn placed(
    alloc: Global,
    values: Vec<KeyValue>,
    pending: &VecDeque<Proposal>,
) -> Result<BTreeMap<String, Option<Accepted>>, NoMemory>
    requires { IsInKeyOrder values.items }
    ensures order { IfOk result AreOrdered }
    ensures values { IfOk result (λ places. table_at places ≡ values_of values.items) }
    ensures places { IfOk result (λ places. HavePlaces places pending.now.items) }
{
    let mut places = of_values(alloc, values)?;
    for index in 0..pending.len() {
        make_place(alloc, &mut places, pending[index].key.as_str())?;
    }
    Ok(places)
}

fn of_values(
    alloc: Global,
    values: Vec<KeyValue>,
) -> Result<BTreeMap<String, Option<Accepted>>, NoMemory>
    requires { IsInKeyOrder values.items }
    ensures order { IfOk result AreOrdered }
    ensures values { IfOk result (λ places. table_at places ≡ values_of values.items) }
{
    let mut places = BTreeMap::new(alloc);
    for value in values {
        let KeyValue { key, accepted } = value;
        put(&mut places, key.into_string(), Some(accepted))?;
    }
    Ok(places)
}

fn of_members(
    alloc: Global,
    members: Vec<Member>,
) -> Result<BTreeMap<String, Option<Member>>, NoMemory>
    requires { IsInIdOrder members.items }
    ensures order { IfOk result AreOrdered }
    ensures members { IfOk result (λ places. table_at places ≡ table_of_members members.items) }
{
    let mut places = BTreeMap::new(alloc);
    for member in members {
        let key = String::from_str(alloc, member.id.as_str())?;
        put(&mut places, key, Some(member))?;
    }
    Ok(places)
}

// ---- the blobs: each is in its form where its text is the printed one of what it says

#[tactic(auto, unfolding(crate::specs::Reading::attributes_in, crate::specs::Reading::said_by))]
fn read_attributes(alloc: Global, tree: &Node) -> Result<Option<(u64, u64)>, NoMemory>
    ensures { IfOk result (λ found. found ≡ attributes_in tree.now) }
{
    let Some(text) = text_in(tree, QuorumBlob::Attributes) else {
        return Ok(None);
    };
    let Some(value) = value_in(alloc, text)? else {
        return Ok(None);
    };
    let Some((minimum, number)) = attributes_of(&value) else {
        return Ok(None);
    };
    let printed = print_attributes(alloc, minimum, number)?;
    if printed.as_str() == text {
        Ok(Some((minimum, number)))
    } else {
        Ok(None)
    }
}

#[tactic(auto, unfolding(crate::specs::Reading::members_in, crate::specs::Reading::said_by))]
fn read_members(alloc: Global, tree: &Node, last: u64) -> Result<Option<Vec<Member>>, NoMemory>
    ensures blob { IfOk result (λ found. option_map (λ v. v.items) found ≡ members_in last tree.now) }
    ensures kept { IfOk result (λ found. IfSome found (λ v. IsInIdOrder v.items)) }
{
    let Some(text) = text_in(tree, QuorumBlob::Members) else {
        return Ok(None);
    };
    let Some(value) = value_in(alloc, text)? else {
        return Ok(None);
    };
    let Some(members) = members_of(alloc, last, value)? else {
        return Ok(None);
    };
    let printed = print_members(alloc, &members)?;
    if printed.as_str() == text {
        Ok(Some(members))
    } else {
        Ok(None)
    }
}

#[tactic(auto, unfolding(crate::specs::Reading::proposals_in, crate::specs::Reading::said_by))]
fn read_proposals(
    alloc: Global,
    tree: &Node,
    last: u64,
) -> Result<Option<VecDeque<Proposal>>, NoMemory>
    ensures blob { IfOk result (λ found. option_map (λ v. v.items) found ≡ proposals_in last tree.now) }
    ensures kept { IfOk result (λ found. IfSome found (λ v. AreRising v.items × AreUpTo last v.items)) }
{
    let Some(text) = text_in(tree, QuorumBlob::Proposals) else {
        return Ok(None);
    };
    let Some(value) = value_in(alloc, text)? else {
        return Ok(None);
    };
    let Some(proposals) = proposals_of(alloc, last, value)? else {
        return Ok(None);
    };
    let printed = print_proposals(alloc, &proposals)?;
    if printed.as_str() == text {
        Ok(Some(proposals))
    } else {
        Ok(None)
    }
}

#[tactic(auto, unfolding(crate::specs::Reading::values_in, crate::specs::Reading::said_by))]
fn read_values(alloc: Global, tree: &Node, last: u64) -> Result<Option<Vec<KeyValue>>, NoMemory>
    ensures blob { IfOk result (λ found. option_map (λ v. v.items) found ≡ values_in last tree.now) }
    ensures kept { IfOk result (λ found. IfSome found (λ v. IsInKeyOrder v.items)) }
{
    let Some(text) = text_in(tree, QuorumBlob::Values) else {
        return Ok(None);
    };
    let Some(value) = value_in(alloc, text)? else {
        return Ok(None);
    };
    let Some(values) = values_of(alloc, last, value)? else {
        return Ok(None);
    };
    let printed = print_values(alloc, &values)?;
    if printed.as_str() == text {
        Ok(Some(values))
    } else {
        Ok(None)
    }
}
