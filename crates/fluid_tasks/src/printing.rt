// The text of queues and tasks.
ghost use Rattle.std.specs.Prelude.{◌≡◌, ◌++◌, OnOk, map, pos, string_cmp};
ghost use Rattle.std.specs.BTreeMap.{IsOrdered};
ghost use Rattle.fluid_json.specs.Tree.{object, members, text, whole};
ghost use Rattle.fluid_json.specs.Tokens.{tokens_of};
ghost use Rattle.fluid_tasks.specs.Printed.{list_of, held_item, queue_value, is_any};
ghost use Rattle.fluid_tasks.specs.Shown.{queue_shown, task_shown, shown_in, tokens_under, IsFoundEach};

use crate::queues::Queue;
use crate::standing::Candidates;
use fluid_json::{NoMemory, Printer};
use fluid_types::ClientId;
use std::collections::BTreeMap;

/// The object of the queues that have an item which is free or held.
pub(crate) fn put_queues(
    out: &mut Printer,
    queues: &BTreeMap<String, Queue>,
) -> Result<(), NoMemory>
    ensures before { out.new.before ≡ out.old.before }
    ensures tokens { OnOk result (out.new.tokens ≡ out.old.tokens ++ tokens_of (object (members (shown_in queue_shown queues.now.entries)))) }
    ensures ordered { OnOk result (IsOrdered string_cmp queues.now) }
    ensures found { OnOk result (IsFoundEach queues.now) }
{
    out.begin_object()?;
    for (name, queue) in queues {
        put_queue(out, name.as_str(), queue)?;
    }
    out.end_object()?;
    Ok(())
}

fn put_queue(out: &mut Printer, name: &str, queue: &Queue) -> Result<(), NoMemory>
    ensures before { out.new.before ≡ out.old.before }
    ensures tokens { OnOk result (out.new.tokens ≡ out.old.tokens ++ tokens_under name.now (queue_shown queue.now)) }
{
    if queue.line.free().is_empty() && queue.held.is_empty() {
        return Ok(());
    }
    out.key(name)?;
    put_items(out, queue)
}

fn put_items(out: &mut Printer, queue: &Queue) -> Result<(), NoMemory>
    ensures before { out.new.before ≡ out.old.before }
    ensures tokens { OnOk result (out.new.tokens ≡ out.old.tokens ++ tokens_of (queue_value queue.now.line.free queue.now.held.entries)) }
{
    out.begin_object()?;
    out.key("free")?;
    put_free(out, queue.line.free())?;
    out.key("held")?;
    put_held(out, &queue.held)?;
    out.end_object()?;
    Ok(())
}

fn put_free(out: &mut Printer, items: &[u64]) -> Result<(), NoMemory>
    ensures before { out.new.before ≡ out.old.before }
    ensures tokens { OnOk result (out.new.tokens ≡ out.old.tokens ++ tokens_of (list_of (λ n. whole (pos n)) items.now)) }
{
    out.begin_list()?;
    for item in items {
        out.count(*item)?;
    }
    out.end_list()?;
    Ok(())
}

fn put_held(out: &mut Printer, held: &BTreeMap<u64, ClientId>) -> Result<(), NoMemory>
    ensures before { out.new.before ≡ out.old.before }
    ensures tokens { OnOk result (out.new.tokens ≡ out.old.tokens ++ tokens_of (list_of held_item held.now.entries)) }
{
    out.begin_list()?;
    for (item, client) in held {
        put_held_item(out, *item, client)?;
    }
    out.end_list()?;
    Ok(())
}

fn put_held_item(out: &mut Printer, item: u64, client: &ClientId) -> Result<(), NoMemory>
    ensures before { out.new.before ≡ out.old.before }
    ensures tokens { OnOk result (out.new.tokens ≡ out.old.tokens ++ tokens_of (held_item (item, client.now))) }
{
    out.begin_object()?;
    out.key("by")?;
    out.text(client.as_str())?;
    out.key("item")?;
    out.count(item)?;
    out.end_object()?;
    Ok(())
}

/// The object of the tasks that have a candidate.
pub(crate) fn put_tasks(
    out: &mut Printer,
    tasks: &BTreeMap<String, Candidates>,
) -> Result<(), NoMemory>
    ensures before { out.new.before ≡ out.old.before }
    ensures tokens { OnOk result (out.new.tokens ≡ out.old.tokens ++ tokens_of (object (members (shown_in task_shown tasks.now.entries)))) }
    ensures ordered { OnOk result (IsOrdered string_cmp tasks.now) }
    ensures found { OnOk result (IsFoundEach tasks.now) }
{
    out.begin_object()?;
    for (name, candidates) in tasks {
        put_task(out, name.as_str(), candidates)?;
    }
    out.end_object()?;
    Ok(())
}

fn put_task(out: &mut Printer, name: &str, candidates: &Candidates) -> Result<(), NoMemory>
    ensures before { out.new.before ≡ out.old.before }
    ensures tokens { OnOk result (out.new.tokens ≡ out.old.tokens ++ tokens_under name.now (task_shown candidates.now)) }
{
    if candidates.is_empty() {
        return Ok(());
    }
    out.key(name)?;
    put_clients(out, candidates)
}

fn put_clients(out: &mut Printer, candidates: &Candidates) -> Result<(), NoMemory>
    ensures before { out.new.before ≡ out.old.before }
    ensures tokens { OnOk result (out.new.tokens ≡ out.old.tokens ++ tokens_of (list_of text (map (λ e. e.1) candidates.now.entries))) }
{
    out.begin_list()?;
    for (_number, client) in candidates {
        out.text(client.as_str())?;
    }
    out.end_list()?;
    Ok(())
}
