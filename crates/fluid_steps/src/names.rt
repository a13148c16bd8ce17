//! The names of a script's connections, containers and roamers, which share one space.
ghost use Rattle.std.specs.Prelude.{◌≡◌, IfOk};
ghost use Rattle.std.specs.List.{list_all};
ghost use Rattle.fluid_json.specs.Unless.{IsUnless};
ghost use Rattle.fluid_steps.specs.Names.{is_script_byte, is_script_name, IsScriptName, read_script_name};

use fluid_json::NoMemory;
use fluid_types::NameFault;
use std::alloc::Global;
use std::marker::Model;

/// The most bytes that a name has.
const LONGEST: usize = 16;

/// The name of a connection, a container or a roamer: 1 to 16 bytes of `a-z` and `0-9`. Contracts see its bytes.
#[derive(Drop)]
pub struct ScriptName {
    text: String,
}

impl Model for ScriptName {
    ghost use Rattle.std.specs.Prelude.{List, ℕ, string_bytes};
    ghost use Rattle.fluid_steps.specs.Names.{IsScriptName};

    ghost Value = { List ℕ };

    ghost view = { λ name. string_bytes name.text };

    ghost invariant = { λ name. IsScriptName (string_bytes name.text) };
}

impl ScriptName {
    /// A text that is such a name.
    pub fn read(alloc: Global, text: &str) -> Result<ScriptName, NameFault>
        ensures { IsUnless NameFault.NoMemory result (read_script_name text.now) }
    {
        if !is_script_name(text.as_bytes()) {
            return Err(NameFault::BadName);
        }
        let text = String::from_str(alloc, text)?;
        Ok(ScriptName { text })
    }

    pub fn as_str(&self) -> &str
        ensures bytes { result.now ≡ self.now }
        ensures name { IsScriptName self.now }
    {
        self.text.as_str()
    }

    pub fn copy(&self, alloc: Global) -> Result<ScriptName, NoMemory>
        ensures { IfOk result (λ copy. copy ≡ self.now) }
    {
        let text = String::from_str(alloc, self.text.as_str())?;
        Ok(ScriptName { text })
    }
}

#[tactic(auto, unfolding(crate::specs::Names::is_script_name))]
fn is_script_name(text: &[u8]) -> bool
    ensures { result ≡ is_script_name text.now }
{
    1 <= text.len() && text.len() <= LONGEST && are_script_bytes(text)
}

fn are_script_bytes(text: &[u8]) -> bool
    ensures { result ≡ list_all is_script_byte text.now }
{
    text.iter().all(|byte| is_script_byte(*byte))
}

fn is_script_byte(byte: u8) -> bool
    ensures { result ≡ is_script_byte byte }
{
    matches!(byte, b'a'..=b'z' | b'0'..=b'9')
}
