// Printing: what has a JSON value, and the members of objects.
ghost use Rattle.std.specs.Prelude.{◌≡◌, ◌∷◌, [], ◌++◌, OnOk, OnErr, IfOk, option_map};
ghost use Rattle.fluid_json.specs.Printed.{printed};
ghost use Rattle.fluid_types.specs.Printed.{row, row_if_any, scope_words, word_if};
ghost use Rattle.fluid_json.specs.Tree.{object, members, list, trees};
ghost use Rattle.fluid_json.specs.Tokens.{tokens_of};
ghost use Rattle.fluid_codec.specs.Rows.{row_tokens, rows_tokens, texts_tokens, item_tokens};

use fluid_json::{Json, NoMemory, Printer, Text};
use fluid_types::{ClientId, DocName, Field, Scopes};
use std::alloc::Global;
use std::mem::replace;

/// What is printed as one JSON value.
pub(crate) trait Print {
    ghost use Rattle.std.specs.Prelude.{◌≡◌, ◌++◌, OnOk};
    ghost use Rattle.fluid_json.specs.Tree.{Tree};
    ghost use Rattle.fluid_json.specs.Tokens.{tokens_of};

    ghost tree: { Self → Tree };

    fn print(&self, alloc: Global, out: &mut Printer) -> Result<(), NoMemory>
        ensures before { out.new.before ≡ out.old.before }
        ensures tokens { OnOk result (out.new.tokens ≡ out.old.tokens ++ tokens_of (tree self.now)) };
}

// For so many bytes there is room when a text begins: most texts of a document grow no more.
const ROOM: usize = 320;

/// The text of a value.
pub(crate) fn print_text<P: Print>(alloc: Global, value: &P) -> Result<Text, NoMemory>
    ensures { IfOk result (λ s. s ≡ printed (P.tree value.now)) }
{
    let bytes = Vec::with_capacity(alloc, ROOM)?;
    let mut out = Printer::behind(bytes);
    value.print(alloc, &mut out)?;
    Ok(out.into_text())
}

/// Puts the text of a value behind these bytes. Where memory runs out they stay as they were.
pub(crate) fn push_text<P: Print>(
    alloc: Global,
    bytes: &mut Vec<u8>,
    value: &P,
) -> Result<(), NoMemory>
    ensures ok { OnOk result (bytes.new.items ≡ bytes.old.items ++ printed (P.tree value.now)) }
    ensures err { OnErr result (bytes.new.items ≡ bytes.old.items) }
{
    let mut out = Printer::behind(replace(bytes, Vec::new(alloc)));
    match value.print(alloc, &mut out) {
        Ok(()) => {
            *bytes = out.into_vec();
            Ok(())
        }
        Err(NoMemory) => {
            *bytes = out.abandon();
            Err(NoMemory)
        }
    }
}

/// What is printed as the members of an object.
pub(crate) trait Members {
    ghost use Rattle.std.specs.Prelude.{◌≡◌, ◌++◌, List, OnOk};
    ghost use Rattle.fluid_types.specs.Printed.{Row};
    ghost use Rattle.fluid_codec.specs.Rows.{rows_tokens};

    ghost rows: { Self → List Row };

    fn print_members(&self, alloc: Global, out: &mut Printer) -> Result<(), NoMemory>
        ensures before { out.new.before ≡ out.old.before }
        ensures tokens { OnOk result (out.new.tokens ≡ out.old.tokens ++ rows_tokens (rows self.now)) };
}

/// An object.
#[tactic(auto, using(crate::proofs::Objects::object_behind))]
pub(crate) fn print_object<M: Members>(
    alloc: Global,
    out: &mut Printer,
    value: &M,
) -> Result<(), NoMemory>
    ensures before { out.new.before ≡ out.old.before }
    ensures tokens { OnOk result (out.new.tokens ≡ out.old.tokens ++ tokens_of (object (members (M.rows value.now)))) }
{
    out.begin_object()?;
    value.print_members(alloc, out)?;
    out.end_object()?;
    Ok(())
}

/// What is printed as the items of a list.
pub(crate) trait Items {
    ghost use Rattle.std.specs.Prelude.{◌≡◌, ◌++◌, List, OnOk};
    ghost use Rattle.fluid_json.specs.Tree.{Tree};
    ghost use Rattle.fluid_codec.specs.Rows.{items_tokens};

    ghost trees_of: { Self → List Tree };

    fn print_items(&self, alloc: Global, out: &mut Printer) -> Result<(), NoMemory>
        ensures before { out.new.before ≡ out.old.before }
        ensures tokens { OnOk result (out.new.tokens ≡ out.old.tokens ++ items_tokens (trees_of self.now)) };
}

/// A list.
#[tactic(auto, using(crate::proofs::Objects::list_behind))]
pub(crate) fn print_list<I: Items>(
    alloc: Global,
    out: &mut Printer,
    value: &I,
) -> Result<(), NoMemory>
    ensures before { out.new.before ≡ out.old.before }
    ensures tokens { OnOk result (out.new.tokens ≡ out.old.tokens ++ tokens_of (list (trees (I.trees_of value.now)))) }
{
    out.begin_list()?;
    value.print_items(alloc, out)?;
    out.end_list()?;
    Ok(())
}

/// An item.
#[tactic(auto, unfolding(crate::specs::Rows::item_tokens))]
pub(crate) fn print_item<P: Print>(
    alloc: Global,
    out: &mut Printer,
    value: &P,
) -> Result<(), NoMemory>
    ensures before { out.new.before ≡ out.old.before }
    ensures tokens { OnOk result (out.new.tokens ≡ out.old.tokens ++ item_tokens (P.tree value.now)) }
{
    value.print(alloc, out)
}

/// A member.
#[tactic(auto, unfolding(crate::specs::Rows::row_tokens))]
pub(crate) fn member<P: Print>(
    alloc: Global,
    out: &mut Printer,
    field: Field,
    value: &P,
) -> Result<(), NoMemory>
    ensures before { out.new.before ≡ out.old.before }
    ensures tokens { OnOk result (out.new.tokens ≡ out.old.tokens ++ row_tokens (row field (P.tree value.now))) }
{
    out.key(field.name())?;
    value.print(alloc, out)?;
    Ok(())
}

/// A member that stands only where there is a value.
pub(crate) fn member_if_any<P: Print>(
    alloc: Global,
    out: &mut Printer,
    field: Field,
    value: &Option<P>,
) -> Result<(), NoMemory>
    ensures before { out.new.before ≡ out.old.before }
    ensures tokens { OnOk result (out.new.tokens ≡ out.old.tokens ++ rows_tokens (row_if_any field (option_map P.tree value.now))) }
{
    match value {
        Some(value) => {
            member(alloc, out, field, value)?;
            Ok(())
        }
        None => Ok(()),
    }
}

impl Print for Json {
    ghost tree = { λ value. value };

    fn print(&self, _alloc: Global, out: &mut Printer) -> Result<(), NoMemory> {
        out.value(self)
    }
}

impl Print for Text {
    ghost use Rattle.fluid_json.specs.Tree.{text};

    ghost tree = { text };

    fn print(&self, _alloc: Global, out: &mut Printer) -> Result<(), NoMemory> {
        out.text(self.as_str())
    }
}

impl Print for ClientId {
    ghost use Rattle.fluid_json.specs.Tree.{text};

    ghost tree = { text };

    fn print(&self, _alloc: Global, out: &mut Printer) -> Result<(), NoMemory> {
        out.text(self.as_str())
    }
}

impl Print for DocName {
    ghost use Rattle.fluid_json.specs.Tree.{text};

    ghost tree = { text };

    fn print(&self, _alloc: Global, out: &mut Printer) -> Result<(), NoMemory> {
        out.text(self.as_str())
    }
}

impl Print for &str {
    ghost use Rattle.fluid_json.specs.Tree.{text};

    ghost tree = { λ s. text s.now };

    fn print(&self, _alloc: Global, out: &mut Printer) -> Result<(), NoMemory> {
        out.text(*self)
    }
}

impl Print for u64 {
    ghost use Rattle.fluid_types.specs.Printed.{count_tree};

    ghost tree = { count_tree };

    fn print(&self, _alloc: Global, out: &mut Printer) -> Result<(), NoMemory> {
        out.count(*self)
    }
}

impl Print for i64 {
    ghost use Rattle.fluid_json.specs.Tree.{whole};

    ghost tree = { whole };

    fn print(&self, _alloc: Global, out: &mut Printer) -> Result<(), NoMemory> {
        out.whole(*self)
    }
}

impl Print for bool {
    ghost use Rattle.fluid_json.specs.Tree.{boolean};

    ghost tree = { boolean };

    fn print(&self, _alloc: Global, out: &mut Printer) -> Result<(), NoMemory> {
        out.boolean(*self)
    }
}

/// Null stands for a missing value.
impl<P: Print> Print for Option<P> {
    ghost use Rattle.fluid_types.specs.Printed.{or_null};

    ghost tree = { or_null P.tree };

    fn print(&self, alloc: Global, out: &mut Printer) -> Result<(), NoMemory> {
        match self {
            Some(value) => value.print(alloc, out),
            None => out.null(),
        }
    }
}

impl Print for u32 {
    ghost use Rattle.fluid_types.specs.Printed.{count_tree};

    ghost tree = { count_tree };

    fn print(&self, _alloc: Global, out: &mut Printer) -> Result<(), NoMemory> {
        out.count(u64::from(*self))
    }
}

/// The list of the words of the held scopes.
impl Print for Scopes {
    ghost use Rattle.fluid_types.specs.Printed.{scopes_tree};

    ghost tree = { scopes_tree };

    #[tactic(auto, using(crate::proofs::Objects::texts_behind))]
    fn print(&self, _alloc: Global, out: &mut Printer) -> Result<(), NoMemory> {
        out.begin_list()?;
        print_scopes(out, self)?;
        out.end_list()?;
        Ok(())
    }
}

#[tactic(auto, using(crate::proofs::Objects::words_behind))]
fn print_scopes(out: &mut Printer, scopes: &Scopes) -> Result<(), NoMemory>
    ensures before { out.new.before ≡ out.old.before }
    ensures tokens { OnOk result (out.new.tokens ≡ out.old.tokens ++ texts_tokens (scope_words scopes.now)) }
{
    print_word_if(out, scopes.read, Scopes::READ)?;
    print_word_if(out, scopes.write, Scopes::WRITE)?;
    print_word_if(out, scopes.summary, Scopes::SUMMARY)?;
    Ok(())
}

fn print_word_if(out: &mut Printer, held: bool, word: &str) -> Result<(), NoMemory>
    ensures before { out.new.before ≡ out.old.before }
    ensures tokens { OnOk result (out.new.tokens ≡ out.old.tokens ++ texts_tokens (word_if held word.now)) }
{
    if held { out.text(word) } else { Ok(()) }
}
