//! The names of a workload, and the edits of its clients.
ghost use Rattle.std.specs.Prelude.{◌≡◌, pos, IfOk};
ghost use Rattle.fluid_json.specs.Tree.{whole};
ghost use Rattle.fluid_edits.specs.declared.edit.Edit.TheVariants as edit;
ghost use Rattle.fluid_types.specs.Names.{IsName};
ghost use Rattle.fluid_steps.specs.Names.{IsScriptName};
ghost use Rattle.fluid_turns.specs.Saying.{IsShort};
ghost use Rattle.fluid_workload.specs.Working.{work as the_work, m, n, p, q, named, key_of};

use fluid_edits::Edit;
use fluid_json::{Json, NoMemory, Text};
use fluid_steps::ScriptName;
use fluid_types::{Address, DocName, NameFault};
use std::alloc::Global;

/// The document.
pub fn work(alloc: Global) -> Result<DocName, NoMemory>
    ensures { IfOk result (λ name. name ≡ the_work) }
{
    match DocName::read(alloc, "work") {
        Ok(name) => Ok(name),
        Err(fault) => Err(wanting(fault)),
    }
}

/// The first container.
#[tactic(auto, using(crate::proofs::Naming::p_is_name))]
pub fn first(alloc: Global) -> Result<ScriptName, NoMemory>
    ensures { IfOk result (λ name. name ≡ p) }
{
    script_name(alloc, "p")
}

/// The one that is loaded at the end.
#[tactic(auto, using(crate::proofs::Naming::q_is_name))]
pub fn last(alloc: Global) -> Result<ScriptName, NoMemory>
    ensures { IfOk result (λ name. name ≡ q) }
{
    script_name(alloc, "q")
}

/// A client's connection.
pub fn named(alloc: Global, client: u32) -> Result<ScriptName, NoMemory>
    ensures { IfOk result (λ name. name ≡ named client) }
{
    let text = format!(in alloc; "{client}")?;
    script_name(alloc, text.as_str())
}

fn script_name(alloc: Global, text: &str) -> Result<ScriptName, NoMemory>
    requires { IsScriptName text.now }
    ensures { IfOk result (λ name. name ≡ text.now) }
{
    match ScriptName::read(alloc, text) {
        Ok(name) => Ok(name),
        Err(fault) => Err(wanting(fault)),
    }
}

/// The address of the map.
#[tactic(auto, using(crate::proofs::Naming::m_is_name))]
pub fn map(alloc: Global) -> Result<Address, NoMemory>
    ensures { IfOk result (λ address. address ≡ m) }
{
    address(alloc, "m")
}

/// The address of the counter.
#[tactic(auto, using(crate::proofs::Naming::n_is_name))]
pub fn counter(alloc: Global) -> Result<Address, NoMemory>
    ensures { IfOk result (λ address. address ≡ n) }
{
    address(alloc, "n")
}

fn address(alloc: Global, text: &str) -> Result<Address, NoMemory>
    requires { IsName text.now }
    ensures { IfOk result (λ address. address ≡ text.now) }
{
    match Address::read(alloc, text) {
        Ok(address) => Ok(address),
        Err(fault) => Err(wanting(fault)),
    }
}

// Each text is a name.
fn wanting(fault: NameFault) -> NoMemory
    requires { fault ≡ NameFault.NoMemory }
{
    match fault {
        NameFault::BadName => unreachable!(),
        NameFault::NoMemory => NoMemory,
    }
}

/// Sets a key of the map to a number.
pub fn set(alloc: Global, key: u32, value: u32) -> Result<Edit, NoMemory>
    ensures made { IfOk result (λ made. made ≡ edit.Set m (key_of key) (whole (pos value))) }
    ensures short { IfOk result IsShort }
{
    let map = map(alloc)?;
    let key = key_text(alloc, key)?;
    Ok(Edit::Set(map, key, Json::whole(i64::from(value))))
}

/// Deletes a key of the map.
pub fn delete(alloc: Global, key: u32) -> Result<Edit, NoMemory>
    ensures made { IfOk result (λ made. made ≡ edit.Delete m (key_of key)) }
    ensures short { IfOk result IsShort }
{
    let map = map(alloc)?;
    let key = key_text(alloc, key)?;
    Ok(Edit::Delete(map, key))
}

/// Adds an amount to the counter.
pub fn increment(alloc: Global, amount: i64) -> Result<Edit, NoMemory>
    ensures made { IfOk result (λ made. made ≡ edit.Increment n amount) }
    ensures short { IfOk result IsShort }
{
    let counter = counter(alloc)?;
    Ok(Edit::Increment(counter, amount))
}

fn key_text(alloc: Global, key: u32) -> Result<Text, NoMemory>
    ensures { IfOk result (λ text. text ≡ key_of key) }
{
    let text = format!(in alloc; "k{key}")?;
    Ok(Text::new(text))
}
