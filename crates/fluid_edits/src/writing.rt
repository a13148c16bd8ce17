// The contents of an edit's op.
ghost use Rattle.std.specs.Prelude.{◌≡◌, ◌++◌, [], ◌∷◌, IfOk, OnOk, codes};
ghost use Rattle.fluid_json.specs.Tree.{text, members, AreAscending};
ghost use Rattle.fluid_edits.specs.Forms.{contents_of, to_channel};

use crate::edit::{ChannelKind, Edit};
use crate::reading::Verb;
use fluid_json::{Json, NoMemory, Pairs, Text};
use fluid_types::{Address, Word};
use std::alloc::Global;

impl Edit {
    /// The contents of the op that a client submits for this edit.
    #[tactic(auto, unfolding(crate::specs::Forms::contents_of))]
    pub fn to_json(&self, alloc: Global) -> Result<Json, NoMemory>
        ensures { IfOk result (λ json. json ≡ contents_of self.now) }
    {
        match self {
            Edit::Attach(address, kind) => attach(alloc, address, *kind),
            Edit::Set(address, key, value) => set(alloc, address, key, value),
            Edit::Delete(address, key) => delete(alloc, address, key),
            Edit::Clear(address) => {
                let mut pairs = Pairs::new(alloc);
                put_text(alloc, &mut pairs, "type", Verb::Clear.word())?;
                to_channel(alloc, address, pairs)
            }
            Edit::Increment(address, amount) => {
                let mut pairs = Pairs::new(alloc);
                put(alloc, &mut pairs, "incrementAmount", Json::whole(*amount))?;
                put_text(alloc, &mut pairs, "type", Verb::Increment.word())?;
                to_channel(alloc, address, pairs)
            }
        }
    }
}

#[tactic(auto, unfolding(crate::specs::Forms::contents_of))]
fn attach(alloc: Global, address: &Address, kind: ChannelKind) -> Result<Json, NoMemory>
    ensures { IfOk result (λ json. json ≡ contents_of (Edit.Attach address.now kind)) }
{
    let mut pairs = Pairs::new(alloc);
    put_text(alloc, &mut pairs, "address", address.as_str())?;
    put_text(alloc, &mut pairs, "kind", kind.word())?;
    put_text(alloc, &mut pairs, "type", "attach")?;
    Ok(Json::object(pairs))
}

#[tactic(auto, unfolding(crate::specs::Forms::contents_of))]
fn set(alloc: Global, address: &Address, key: &Text, value: &Json) -> Result<Json, NoMemory>
    ensures { IfOk result (λ json. json ≡ contents_of (Edit.Set address.now key.now value.now)) }
{
    let mut plain = Pairs::new(alloc);
    put_text(alloc, &mut plain, "type", "Plain")?;
    let value = value.copy(alloc)?;
    put(alloc, &mut plain, "value", value)?;
    let mut pairs = Pairs::new(alloc);
    put_text(alloc, &mut pairs, "key", key.as_str())?;
    put_text(alloc, &mut pairs, "type", Verb::Set.word())?;
    put(alloc, &mut pairs, "value", Json::object(plain))?;
    to_channel(alloc, address, pairs)
}

#[tactic(auto, unfolding(crate::specs::Forms::contents_of))]
fn delete(alloc: Global, address: &Address, key: &Text) -> Result<Json, NoMemory>
    ensures { IfOk result (λ json. json ≡ contents_of (Edit.Delete address.now key.now)) }
{
    let mut pairs = Pairs::new(alloc);
    put_text(alloc, &mut pairs, "key", key.as_str())?;
    put_text(alloc, &mut pairs, "type", Verb::Delete.word())?;
    to_channel(alloc, address, pairs)
}

// The op that says these contents to a channel.
fn to_channel(alloc: Global, address: &Address, contents: Pairs) -> Result<Json, NoMemory>
    ensures { IfOk result (λ json. json ≡ to_channel address.now contents) }
{
    let mut pairs = Pairs::new(alloc);
    put_text(alloc, &mut pairs, "address", address.as_str())?;
    put(alloc, &mut pairs, "contents", Json::object(contents))?;
    Ok(Json::object(pairs))
}

// ---- members

// Puts a member behind others.
fn put(alloc: Global, pairs: &mut Pairs, name: &str, value: Json) -> Result<(), NoMemory>
    requires { AreAscending (members (pairs.old ++ (name.now, value) ∷ [])) }
    ensures { OnOk result (pairs.new ≡ pairs.old ++ (name.now, value) ∷ []) }
{
    let name = Text::copied(alloc, name)?;
    pairs.push(name, value)?;
    Ok(())
}

fn put_text(alloc: Global, pairs: &mut Pairs, name: &str, word: &str) -> Result<(), NoMemory>
    requires { AreAscending (members (pairs.old ++ (name.now, text word.now) ∷ [])) }
    ensures { OnOk result (pairs.new ≡ pairs.old ++ (name.now, text word.now) ∷ []) }
{
    let word = Text::copied(alloc, word)?;
    put(alloc, pairs, name, Json::text(word))
}
