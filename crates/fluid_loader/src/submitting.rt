//! The submissions of a container.
ghost use Rattle.std.specs.Prelude.{◌≡◌, ◌<◌, ◌^◌, [], ◌∷◌, ◌++◌, IfOk, OnOk};
ghost use Rattle.fluid_json.specs.Tree.{list, trees, members, AreAscending};
ghost use Rattle.fluid_loader.specs.Submitting.{numbered, head_text, parents_of, summarize_tree};

use fluid_json::{Items, Json, NoMemory, Pairs, Text};
use fluid_tree::Id;
use fluid_types::{Offered, Submission};
use std::alloc::Global;

/// A submission with this client number, at this reference.
pub(crate) fn numbered(number: u64, reference: u64, kind: Offered, contents: Json) -> Submission
    requires { reference < 2 ^ 63 }
    ensures { result ≡ numbered number reference kind contents }
{
    Submission {
        client_number: number,
        reference: reference as i64,
        kind,
        contents,
        metadata: None,
    }
}

/// The contents of a summarize for the tree with this id, at the container's number.
pub(crate) fn summarize(
    alloc: Global,
    app: &Id,
    head: &Option<Id>,
    number: u64,
) -> Result<Json, NoMemory>
    ensures { IfOk result (λ json. json ≡ summarize_tree app.now head.now number) }
{
    let handle = app.print(alloc)?;
    let own = head_text(alloc, head)?;
    let message = format!(in alloc; "summary at {number}")?;
    let parents = parents_of(alloc, head)?;
    let mut pairs = Pairs::with_capacity(alloc, 4)?;
    put(alloc, &mut pairs, "handle", Json::text(handle))?;
    put(alloc, &mut pairs, "head", Json::text(own))?;
    put(alloc, &mut pairs, "message", Json::text(Text::new(message)))?;
    put(alloc, &mut pairs, "parents", parents)?;
    Ok(Json::object(pairs))
}

// The head as a text: nothing where there is none.
fn head_text(alloc: Global, head: &Option<Id>) -> Result<Text, NoMemory>
    ensures { IfOk result (λ text. text ≡ head_text head.now) }
{
    match head {
        Some(handle) => handle.print(alloc),
        None => Ok(Text::new(String::new(alloc))),
    }
}

// The list of the head, where there is one.
fn parents_of(alloc: Global, head: &Option<Id>) -> Result<Json, NoMemory>
    ensures { IfOk result (λ json. json ≡ list (trees (parents_of head.now))) }
{
    let mut items = Items::new(alloc);
    if let Some(handle) = head {
        let text = handle.print(alloc)?;
        items.push(Json::text(text))?;
    }
    Ok(Json::list(items))
}

// Puts a member behind others.
fn put(alloc: Global, pairs: &mut Pairs, name: &str, value: Json) -> Result<(), NoMemory>
    requires { AreAscending (members (pairs.old ++ (name.now, value) ∷ [])) }
    ensures { OnOk result (pairs.new ≡ pairs.old ++ (name.now, value) ∷ []) }
{
    let name = Text::copied(alloc, name)?;
    pairs.push(name, value)?;
    Ok(())
}
