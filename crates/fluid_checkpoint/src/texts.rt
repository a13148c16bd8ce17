// The texts of what stands in the lists of a checkpoint.
ghost use Rattle.std.specs.Prelude.{◌≡◌, ◌++◌, IfOk, OnOk, map, string_bytes};
ghost use Rattle.fluid_json.specs.Tree.{list, trees};
ghost use Rattle.fluid_json.specs.Tokens.{tokens_of};
ghost use Rattle.fluid_json.specs.Printed.{printed, printed_items, printed_more_items};
ghost use Rattle.fluid_types.specs.Blobs.{list_tree};
ghost use Rattle.fluid_types.specs.Printed.{scope_words, scopes_tree, word_if};
ghost use Rattle.fluid_codec.specs.Rows.{texts_tokens};

use crate::items::{Ack, Change, Client, Moment};
use fluid_clients::Row;
use fluid_codec::print_message;
use fluid_json::{NoMemory, Printer, Text};
use fluid_tree::SummaryRef;
use fluid_types::{ClientId, Message, Scopes};
use std::alloc::Global;

/// What an item of a list is printed as.
pub(crate) trait Prints {
    type Item;

    ghost use Rattle.std.specs.Prelude.{◌≡◌, IfOk};
    ghost use Rattle.fluid_json.specs.Tree.{Tree};
    ghost use Rattle.fluid_json.specs.Printed.{printed};

    ghost tree: { Self.Item → Tree };

    fn text(&self, alloc: Global, item: &Self::Item) -> Result<Text, NoMemory>
        ensures { IfOk result (λ s. s ≡ printed (tree item.now)) };
}

/// The text of a list.
pub(crate) fn list_text<P: Prints>(
    alloc: Global,
    prints: &P,
    items: &[P::Item],
) -> Result<Text, NoMemory>
    ensures { IfOk result (λ s. s ≡ printed (list_tree P.tree items.now)) }
{
    let mut out = String::from_str(alloc, "[")?;
    put_items(alloc, &mut out, prints, items)?;
    out.push_str("]")?;
    Ok(Text::new(out))
}

fn put_items<P: Prints>(
    alloc: Global,
    out: &mut String,
    prints: &P,
    items: &[P::Item],
) -> Result<(), NoMemory>
    ensures { OnOk result (string_bytes out.new ≡ string_bytes out.old ++ printed_items (trees (map P.tree items.now))) }
{
    let Some((first, more)) = items.split_first() else {
        return Ok(());
    };
    put_item(alloc, out, prints, first)?;
    put_more(alloc, out, prints, more)
}

// Items behind the first, each behind a comma.
fn put_more<P: Prints>(
    alloc: Global,
    out: &mut String,
    prints: &P,
    items: &[P::Item],
) -> Result<(), NoMemory>
    ensures { OnOk result (string_bytes out.new ≡ string_bytes out.old ++ printed_more_items (trees (map P.tree items.now))) }
{
    for item in items {
        out.push_str(",")?;
        put_item(alloc, out, prints, item)?;
    }
    Ok(())
}

fn put_item<P: Prints>(
    alloc: Global,
    out: &mut String,
    prints: &P,
    item: &P::Item,
) -> Result<(), NoMemory>
    ensures { OnOk result (string_bytes out.new ≡ string_bytes out.old ++ printed (P.tree item.now)) }
{
    let text = prints.text(alloc, item)?;
    out.push_str(text.as_str())?;
    Ok(())
}

/// Messages.
#[derive(Drop)]
pub(crate) struct Kept;

impl Prints for Kept {
    type Item = Message;

    ghost use Rattle.fluid_types.specs.Printed.{message_tree};

    ghost tree = { message_tree };

    fn text(&self, alloc: Global, item: &Message) -> Result<Text, NoMemory> {
        print_message(alloc, item)
    }
}

impl Prints for Ack {
    type Item = SummaryRef;

    ghost use Rattle.fluid_checkpoint.specs.Text.{ack_tree};

    ghost tree = { ack_tree };

    fn text(&self, alloc: Global, item: &SummaryRef) -> Result<Text, NoMemory> {
        let digits = item.handle.print(alloc)?;
        let mut out = Printer::new(alloc);
        out.begin_object()?;
        out.key("handle")?;
        out.text(digits.as_str())?;
        out.key("number")?;
        out.count(item.number)?;
        out.end_object()?;
        Ok(out.into_text())
    }
}

impl Prints for Client {
    type Item = (ClientId, Row);

    ghost use Rattle.fluid_checkpoint.specs.Text.{client_tree};

    ghost tree = { client_tree };

    fn text(&self, alloc: Global, item: &(ClientId, Row)) -> Result<Text, NoMemory> {
        let (id, row) = item;
        let mut out = Printer::new(alloc);
        out.begin_object()?;
        out.key("id")?;
        out.text(id.as_str())?;
        out.key("last")?;
        out.count(row.last)?;
        out.key("nacked")?;
        out.boolean(row.nacked)?;
        out.key("reference")?;
        out.count(row.reference)?;
        out.key("scopes")?;
        put_scopes(&mut out, row.scopes)?;
        out.end_object()?;
        Ok(out.into_text())
    }
}

#[tactic(auto, using(fluid_codec::proofs::Objects::texts_behind))]
fn put_scopes(out: &mut Printer, scopes: Scopes) -> Result<(), NoMemory>
    ensures before { out.new.before ≡ out.old.before }
    ensures tokens { OnOk result (out.new.tokens ≡ out.old.tokens ++ tokens_of (scopes_tree scopes)) }
{
    out.begin_list()?;
    put_words(out, scopes)?;
    out.end_list()?;
    Ok(())
}

#[tactic(auto, using(fluid_codec::proofs::Objects::words_behind))]
fn put_words(out: &mut Printer, scopes: Scopes) -> Result<(), NoMemory>
    ensures before { out.new.before ≡ out.old.before }
    ensures tokens { OnOk result (out.new.tokens ≡ out.old.tokens ++ texts_tokens (scope_words scopes)) }
{
    put_word_if(out, scopes.read, Scopes::READ)?;
    put_word_if(out, scopes.write, Scopes::WRITE)?;
    put_word_if(out, scopes.summary, Scopes::SUMMARY)?;
    Ok(())
}

fn put_word_if(out: &mut Printer, held: bool, word: &str) -> Result<(), NoMemory>
    ensures before { out.new.before ≡ out.old.before }
    ensures tokens { OnOk result (out.new.tokens ≡ out.old.tokens ++ texts_tokens (word_if held word.now)) }
{
    if held { out.text(word) } else { Ok(()) }
}

impl Prints for Moment {
    type Item = (ClientId, u64);

    ghost use Rattle.fluid_checkpoint.specs.Text.{moment_tree};

    ghost tree = { moment_tree };

    fn text(&self, alloc: Global, item: &(ClientId, u64)) -> Result<Text, NoMemory> {
        let (id, moment) = item;
        let mut out = Printer::new(alloc);
        out.begin_object()?;
        out.key("id")?;
        out.text(id.as_str())?;
        out.key("moment")?;
        out.count(*moment)?;
        out.end_object()?;
        Ok(out.into_text())
    }
}

impl Prints for Change {
    type Item = (u64, u64);

    ghost use Rattle.fluid_checkpoint.specs.Text.{change_tree};

    ghost tree = { change_tree };

    fn text(&self, alloc: Global, item: &(u64, u64)) -> Result<Text, NoMemory> {
        let (number, minimum) = item;
        let mut out = Printer::new(alloc);
        out.begin_list()?;
        out.count(*number)?;
        out.count(*minimum)?;
        out.end_list()?;
        Ok(out.into_text())
    }
}
