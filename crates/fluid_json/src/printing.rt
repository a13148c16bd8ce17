ghost use Rattle.std.specs.Prelude.{◌≡◌, ◌≤◌, ℕ, List, [], ◌∷◌, ◌++◌, pos, IfOk, OnOk};
ghost use Rattle.std.specs.Fmt.{signed_decimal};
ghost use Rattle.json.specs.Token.{begin_object, end_object, begin_array, end_array, key};
ghost use Rattle.fluid_json.specs.Tree.{Tree, depth, null, boolean, whole, text, trees, members};
ghost use Rattle.fluid_json.specs.Printed.{printed};
ghost use Rattle.fluid_json.specs.Spelled.{answer};
ghost use Rattle.fluid_json.specs.Tokens.{tokens_of, trees_tokens, members_tokens};

use crate::memory::NoMemory;
use crate::owned::Text;
use crate::value::{Json, Node};
use json::Writer;
use std::alloc::Global;
use std::marker::Model;

/// The one text of a value: compact, the members of each object in byte order of their keys.
pub fn print(alloc: Global, value: &Json) -> Result<Text, NoMemory>
    ensures text { IfOk result (λ s. s ≡ printed value.now) }
    ensures reads_back { IfOk result (λ s. depth value.now ≤ 100 → answer s ≡ Ok value.now) }
{
    value.canonical();
    let mut out = Printer::new(alloc);
    out.value(value)?;
    Ok(out.into_text())
}

/// Prints JSON a token at a time, with no tree of it. It sets the commas and the colons, and leaves it to its caller that the
/// tokens are those of one value. Where a call answers want of memory, `abandon` gives what stood before.
#[derive(Drop)]
pub struct Printer {
    out: Writer,
    start: usize,
}

impl Model for Printer {
    ghost use Rattle.fluid_json.specs.Tokens.{Printing, printing_code};

    ghost Value = { Printing };

    ghost coded = { printing_code };

    ghost view = { λ p. record { before = p.out.before; tokens = p.out.tokens } };

    ghost use Rattle.std.specs.Prelude.{◌≡◌, length};

    ghost invariant = { λ p. p.start ≡ length p.out.before };
}

impl Printer {
    /// Begins a text of its own.
    pub fn new(alloc: Global) -> Printer
        ensures before { result.before ≡ [] }
        ensures tokens { result.tokens ≡ [] }
    {
        Printer::behind(Vec::new(alloc))
    }

    /// Goes on behind these bytes.
    pub fn behind(bytes: Vec<u8>) -> Printer
        ensures before { result.before ≡ bytes.items }
        ensures tokens { result.tokens ≡ [] }
    {
        let start = bytes.len();
        Printer {
            out: Writer::new(bytes),
            start,
        }
    }

    /// The bytes that stood before, and the text of the value.
    pub fn into_vec(self) -> Vec<u8>
        ensures { (t : Tree) → self.tokens ≡ tokens_of t → result.items ≡ self.before ++ printed t }
    {
        let Printer { out, .. } = self;
        out.into_inner()
    }

    /// The text of the value.
    pub fn into_text(self) -> Text
        requires { self.before ≡ [] }
        ensures { (t : Tree) → self.tokens ≡ tokens_of t → result ≡ printed t }
    {
        let Printer { out, .. } = self;
        let bytes = out.into_inner();
        Text::new(String::from_utf8(bytes).unwrap())
    }

    /// Gives up: the bytes that stood before, and nothing behind them.
    pub fn abandon(self) -> Vec<u8>
        ensures { result.items ≡ self.before }
    {
        let Printer { out, start } = self;
        let mut bytes = out.into_inner();
        bytes.truncate(start);
        bytes
    }

    pub fn begin_object(&mut self) -> Result<(), NoMemory>
        ensures before { self.new.before ≡ self.old.before }
        ensures tokens { OnOk result (self.new.tokens ≡ self.old.tokens ++ begin_object ∷ []) }
    {
        self.out.begin_object()?;
        Ok(())
    }

    pub fn end_object(&mut self) -> Result<(), NoMemory>
        ensures before { self.new.before ≡ self.old.before }
        ensures tokens { OnOk result (self.new.tokens ≡ self.old.tokens ++ end_object ∷ []) }
    {
        self.out.end_object()?;
        Ok(())
    }

    pub fn begin_list(&mut self) -> Result<(), NoMemory>
        ensures before { self.new.before ≡ self.old.before }
        ensures tokens { OnOk result (self.new.tokens ≡ self.old.tokens ++ begin_array ∷ []) }
    {
        self.out.begin_array()?;
        Ok(())
    }

    pub fn end_list(&mut self) -> Result<(), NoMemory>
        ensures before { self.new.before ≡ self.old.before }
        ensures tokens { OnOk result (self.new.tokens ≡ self.old.tokens ++ end_array ∷ []) }
    {
        self.out.end_array()?;
        Ok(())
    }

    /// A member's key, behind which its value comes.
    pub fn key(&mut self, name: &str) -> Result<(), NoMemory>
        ensures before { self.new.before ≡ self.old.before }
        ensures tokens { OnOk result (self.new.tokens ≡ self.old.tokens ++ key name.now ∷ []) }
    {
        self.out.key(name)?;
        Ok(())
    }

    pub fn null(&mut self) -> Result<(), NoMemory>
        ensures before { self.new.before ≡ self.old.before }
        ensures tokens { OnOk result (self.new.tokens ≡ self.old.tokens ++ tokens_of null) }
    {
        self.out.null()?;
        Ok(())
    }

    pub fn boolean(&mut self, truth: bool) -> Result<(), NoMemory>
        ensures before { self.new.before ≡ self.old.before }
        ensures tokens { OnOk result (self.new.tokens ≡ self.old.tokens ++ tokens_of (boolean truth)) }
    {
        self.out.boolean(truth)?;
        Ok(())
    }

    pub fn whole(&mut self, number: i64) -> Result<(), NoMemory>
        ensures before { self.new.before ≡ self.old.before }
        ensures tokens { OnOk result (self.new.tokens ≡ self.old.tokens ++ tokens_of (whole number)) }
    {
        self.out.i64(number)?;
        Ok(())
    }

    /// A number that is never below 0.
    pub fn count(&mut self, number: u64) -> Result<(), NoMemory>
        ensures before { self.new.before ≡ self.old.before }
        ensures tokens { OnOk result (self.new.tokens ≡ self.old.tokens ++ tokens_of (whole (pos number))) }
    {
        self.out.u64(number)?;
        Ok(())
    }

    pub fn text(&mut self, string: &str) -> Result<(), NoMemory>
        ensures before { self.new.before ≡ self.old.before }
        ensures tokens { OnOk result (self.new.tokens ≡ self.old.tokens ++ tokens_of (text string.now)) }
    {
        self.out.string(string)?;
        Ok(())
    }

    pub fn value(&mut self, value: &Json) -> Result<(), NoMemory>
        ensures before { self.new.before ≡ self.old.before }
        ensures tokens { OnOk result (self.new.tokens ≡ self.old.tokens ++ tokens_of value.now) }
    {
        print_value(self, value)
    }
}

#[cycle(print)]
fn print_value(out: &mut Printer, value: &Json) -> Result<(), NoMemory>
    ensures before { out.new.before ≡ out.old.before }
    ensures tokens { OnOk result (out.new.tokens ≡ out.old.tokens ++ tokens_of value.now) }
{
    match &value.node {
        Node::Null => out.null(),
        Node::Bool(truth) => out.boolean(*truth),
        Node::Whole(number) => out.whole(*number),
        Node::Text(string) => out.text(string.as_str()),
        Node::List(items) => print_items(out, items.as_slice()),
        Node::Object(pairs) => print_pairs(out, pairs.as_slice()),
    }
}

#[cycle(print)]
fn print_items(out: &mut Printer, items: &[Json]) -> Result<(), NoMemory>
    ensures before { out.new.before ≡ out.old.before }
    ensures tokens { OnOk result (out.new.tokens ≡ out.old.tokens ++ begin_array ∷ trees_tokens (trees items.now)) }
{
    out.begin_list()?;
    for item in items {
        print_value(out, item)?;
    }
    out.end_list()
}

#[cycle(print)]
fn print_pairs(out: &mut Printer, pairs: &[(Text, Json)]) -> Result<(), NoMemory>
    ensures before { out.new.before ≡ out.old.before }
    ensures tokens { OnOk result (out.new.tokens ≡ out.old.tokens ++ begin_object ∷ members_tokens (members pairs.now)) }
{
    out.begin_object()?;
    for (name, value) in pairs {
        out.key(name.as_str())?;
        print_value(out, value)?;
    }
    out.end_object()
}
