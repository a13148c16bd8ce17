// Orders of messages.
use fluid_codec::print_message;
use fluid_io::FaultPlan;
use fluid_json::{Json, Text, read};
use fluid_loader::{ListLink, Order};
use fluid_quorum::Quorum;
use fluid_runtime::{ChannelKind, Edit};
use fluid_store::{MemoryObjects, upload};
use fluid_tree::{Entries, Id, Node};
use fluid_types::{Address, ClientId, Kind, Message};
use std::alloc::Global;
use std::collections::VecDeque;

/// A link over no messages and no objects.
pub(crate) fn new_link(alloc: Global) -> Option<ListLink> {
    Some(ListLink {
        client: ClientId::of_entry(alloc, 0).ok()?,
        order: Order::new(alloc),
        objects: MemoryObjects::new(alloc, Vec::new(alloc)),
        answers: VecDeque::new(alloc),
        plan: FaultPlan::new(Vec::new(alloc)),
        refusals: 0,
        messages: Vec::new(alloc),
        fetched: Vec::new(alloc),
        handles: Vec::new(alloc),
        taken: Vec::new(alloc),
    })
}

// The next message, of nobody.
fn push(
    alloc: Global,
    order: &mut Order,
    kind: Kind,
    reference: i64,
    contents: Json,
) -> Option<()> {
    let message = Message {
        client: None,
        client_number: -1,
        reference,
        number: order.as_slice().len() as u64 + 1,
        minimum: 0,
        kind,
        contents,
        system: None,
        metadata: None,
        moment: 0,
    };
    let pushed = push_message(alloc, order, &message);
    drop(message);
    pushed
}

fn push_message(alloc: Global, order: &mut Order, message: &Message) -> Option<()> {
    let text = print_message(alloc, message).ok()?;
    match order.push(alloc, text.as_str()) {
        Ok(true) => Some(()),
        _ => None,
    }
}

fn push_edit(alloc: Global, order: &mut Order, edit: &Edit) -> Option<()> {
    let contents = edit.to_json(alloc).ok()?;
    push(alloc, order, Kind::Op, -1, contents)
}

fn address(alloc: Global, channel: u64) -> Option<Address> {
    let name = format!(in alloc; "map{channel}").ok()?;
    Address::read(alloc, name.as_str()).ok()
}

fn key(alloc: Global, number: u64) -> Option<Text> {
    let name = format!(in alloc; "key{number}").ok()?;
    Some(Text::new(name))
}

/// Another client attaches a map.
pub(crate) fn attach(alloc: Global, order: &mut Order, channel: u64) -> Option<()> {
    let edit = Edit::Attach(address(alloc, channel)?, ChannelKind::Map);
    let pushed = push_edit(alloc, order, &edit);
    drop(edit);
    pushed
}

/// Another client sets a key of a map.
pub(crate) fn set(
    alloc: Global,
    order: &mut Order,
    channel: u64,
    number: u64,
    value: i64,
) -> Option<()> {
    let address = address(alloc, channel)?;
    let edit = Edit::Set(address, key(alloc, number)?, Json::whole(value));
    let pushed = push_edit(alloc, order, &edit);
    drop(edit);
    pushed
}

/// So many sets over so many keys of a map.
pub(crate) fn set_many(
    alloc: Global,
    order: &mut Order,
    channel: u64,
    sets: u64,
    keys: u64,
) -> Option<()> {
    let keys = keys.max(1);
    for number in 0..sets {
        let value = i64::try_from(number).unwrap_or(0);
        set(alloc, order, channel, number % keys, value)?;
    }
    Some(())
}

/// So many maps, each with so many keys.
pub(crate) fn attach_many(
    alloc: Global,
    order: &mut Order,
    channels: u64,
    keys: u64,
) -> Option<()> {
    for channel in 0..channels {
        attach(alloc, order, channel)?;
        set_many(alloc, order, channel, keys, keys)?;
    }
    Some(())
}

/// Messages that say nothing, up to so many in all.
pub(crate) fn fill(alloc: Global, order: &mut Order, messages: u64) -> Option<()> {
    let standing = order.as_slice().len() as u64;
    for _ in standing..messages {
        push(alloc, order, Kind::Noop, -1, Json::null())?;
    }
    Some(())
}

// ---- an acknowledged summary

/// The version with this app tree at the end of the order is put and acknowledged.
pub(crate) fn acknowledge(alloc: Global, link: &mut ListLink, app: Node) -> Option<()> {
    let number = link.order.as_slice().len() as u64;
    let reference = i64::try_from(number).unwrap_or(0);
    let id = put(alloc, link, app)?;
    push(
        alloc,
        &mut link.order,
        Kind::Summarize,
        reference,
        Json::null(),
    )?;
    push_ack(alloc, &mut link.order, &id, number + 1)
}

// The summaryAck of the summarize with this number.
fn push_ack(alloc: Global, order: &mut Order, id: &Id, number: u64) -> Option<()> {
    let digits = id.print(alloc).ok()?;
    let digits = digits.as_str();
    let contents = format!(in alloc;
        r#"{{"handle":"{digits}","summaryProposal":{{"summarySequenceNumber":{number}}}}}"#
    );
    let contents = read(alloc, contents.ok()?.as_str()).ok()?;
    push(alloc, order, Kind::SummaryAck, -1, contents)
}

fn put(alloc: Global, link: &mut ListLink, app: Node) -> Option<Id> {
    let version = version(alloc, app, link.order.as_slice())?;
    let id = upload(alloc, &mut link.objects, &version, None).ok();
    drop(version);
    id
}

fn version(alloc: Global, app: Node, messages: &[Message]) -> Option<Node> {
    let mut entries = Entries::new(alloc);
    push_entry(alloc, &mut entries, ".app", app)?;
    push_entry(alloc, &mut entries, ".protocol", protocol(alloc, messages)?)?;
    Some(Node::tree(entries))
}

fn push_entry(alloc: Global, entries: &mut Entries, name: &str, node: Node) -> Option<()> {
    let name = Text::copied(alloc, name).ok()?;
    entries.push(name, node).ok()
}

// The blobs of the quorum behind these messages.
fn protocol(alloc: Global, messages: &[Message]) -> Option<Node> {
    let mut quorum = Quorum::new(alloc);
    let node = match apply_all(alloc, &mut quorum, messages) {
        Some(()) => quorum.to_blobs(alloc).ok(),
        None => None,
    };
    drop(quorum);
    node
}

fn apply_all(alloc: Global, quorum: &mut Quorum, messages: &[Message]) -> Option<()> {
    for message in messages {
        if quorum.number().checked_add(1) != Some(message.number) {
            return None;
        }
        quorum.apply(alloc, message).ok()?;
    }
    Some(())
}
