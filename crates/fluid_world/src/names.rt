//! The names that were given in a script.
ghost use Rattle.std.specs.Prelude.{◌≡◌, ◌≤◌, ◌<◌, IsSome, OnOk, None, Some, true, false, not, is_some};
ghost use Rattle.std.specs.FinMap.{empty, get, insert};
ghost use Rattle.fluid_world.specs.declared.named.Named.TheVariants as a;
ghost use Rattle.fluid_world.specs.Naming.{connection_refusal, container_refusal, new_refusal, lost_refusal, refused_if_other, roamer_refusal, sender_refusal, shown_refusal};

use crate::named::{NameKey, Named};
use fluid_containers::Holder;
use fluid_json::NoMemory;
use fluid_roamers::Roamer;
use fluid_steps::{LineWhy, ScriptName};
use fluid_table::SortedMap;
use fluid_voice::Voice;
use std::alloc::Global;

/// The names that were given, with what each stands for.
#[derive(Drop)]
pub struct Names {
    pub table: SortedMap<NameKey, Named>,
}

impl Names {
    /// No name was given.
    pub fn new(alloc: Global) -> Names
        ensures { result.table.values ≡ empty }
    {
        Names {
            table: SortedMap::new(alloc),
        }
    }

    /// Why a name isn't one for a connection, which may be new.
    pub fn refusal_to_send(&self, name: &ScriptName) -> Option<LineWhy>
        ensures { result ≡ sender_refusal (get self.now.table.values name.now) }
    {
        match self.table.get(name.as_str()) {
            None => None,
            Some(Named::Connection(_)) => None,
            Some(Named::Container(_)) => Some(LineWhy::UnknownName),
            Some(Named::Roamer(_)) => Some(LineWhy::UnknownName),
            Some(Named::Used) => Some(LineWhy::UnknownName),
        }
    }

    /// Why a name isn't a connection's.
    pub fn refusal_as_connection(&self, name: &ScriptName) -> Option<LineWhy>
        ensures { result ≡ connection_refusal (get self.now.table.values name.now) }
    {
        match self.table.get(name.as_str()) {
            None => Some(LineWhy::UnknownName),
            Some(Named::Connection(_)) => None,
            Some(Named::Container(_)) => Some(LineWhy::UnknownName),
            Some(Named::Roamer(_)) => Some(LineWhy::UnknownName),
            Some(Named::Used) => Some(LineWhy::UnknownName),
        }
    }

    /// Why a name isn't a container's.
    pub fn refusal_as_container(&self, name: &ScriptName) -> Option<LineWhy>
        ensures { result ≡ container_refusal (get self.now.table.values name.now) }
    {
        match self.table.get(name.as_str()) {
            None => Some(LineWhy::UnknownName),
            Some(Named::Connection(_)) => Some(LineWhy::UnknownName),
            Some(Named::Container(_)) => None,
            Some(Named::Roamer(_)) => Some(LineWhy::UnknownName),
            Some(Named::Used) => Some(LineWhy::UnknownName),
        }
    }

    /// Why a name isn't a roamer's.
    pub fn refusal_as_roamer(&self, name: &ScriptName) -> Option<LineWhy>
        ensures { result ≡ roamer_refusal (get self.now.table.values name.now) }
    {
        match self.table.get(name.as_str()) {
            None => Some(LineWhy::UnknownName),
            Some(Named::Connection(_)) => Some(LineWhy::UnknownName),
            Some(Named::Container(_)) => Some(LineWhy::UnknownName),
            Some(Named::Roamer(_)) => None,
            Some(Named::Used) => Some(LineWhy::UnknownName),
        }
    }

    /// Why a name isn't that of a roamer which is lost, where such a one is wanted, or which isn't.
    pub fn refusal_as_lost(&self, name: &ScriptName, wanted: bool) -> Option<LineWhy>
        ensures { result ≡ lost_refusal wanted (get self.now.table.values name.now) }
    {
        match self.table.get(name.as_str()) {
            None => Some(LineWhy::UnknownName),
            Some(Named::Connection(_)) => Some(LineWhy::UnknownName),
            Some(Named::Container(_)) => Some(LineWhy::UnknownName),
            Some(Named::Roamer(roamer)) => refusal_if_other(wanted, roamer.is_lost()),
            Some(Named::Used) => Some(LineWhy::UnknownName),
        }
    }

    /// Why nothing is shown under a name.
    pub fn refusal_to_show(&self, name: &ScriptName) -> Option<LineWhy>
        ensures { result ≡ shown_refusal (get self.now.table.values name.now) }
    {
        match self.table.get(name.as_str()) {
            None => Some(LineWhy::UnknownName),
            Some(Named::Connection(_)) => Some(LineWhy::UnknownName),
            Some(Named::Container(_)) => None,
            Some(Named::Roamer(_)) => None,
            Some(Named::Used) => Some(LineWhy::UnknownName),
        }
    }

    /// Why a name may not be given.
    pub fn refusal_as_new(&self, name: &ScriptName) -> Option<LineWhy>
        ensures { result ≡ new_refusal (get self.now.table.values name.now) }
    {
        match self.table.get(name.as_str()) {
            None => None,
            Some(_) => Some(LineWhy::NameInUse),
        }
    }

    /// Makes room for one more name.
    pub fn reserve(&mut self) -> Result<(), NoMemory>
        ensures same { self.new.table.values ≡ self.old.table.values }
        ensures room { OnOk result (0 < self.new.table.spare) }
    {
        self.table.reserve(1)
    }

    /// Gives a name, for which there is room. Takes no memory.
    pub fn give(&mut self, name: ScriptName, named: Named)
        requires { 0 < self.old.table.spare }
        ensures { self.new.table.values ≡ insert self.old.table.values name named }
    {
        self.table.insert(NameKey { name }, named);
    }

    /// The container of a name that is one's.
    pub fn holder(&self, name: &ScriptName) -> &Holder
        requires { container_refusal (get self.now.table.values name.now) ≡ None }
        ensures { get self.now.table.values name.now ≡ Some (a.Container result.now) }
    {
        match self.table.get(name.as_str()) {
            None => unreachable!(),
            Some(Named::Connection(_)) => unreachable!(),
            Some(Named::Container(holder)) => holder,
            Some(Named::Roamer(_)) => unreachable!(),
            Some(Named::Used) => unreachable!(),
        }
    }

    /// The connection of a name that is one's.
    pub fn voice(&self, name: &ScriptName) -> &Voice
        requires { connection_refusal (get self.now.table.values name.now) ≡ None }
        ensures { get self.now.table.values name.now ≡ Some (a.Connection result.now) }
    {
        match self.table.get(name.as_str()) {
            None => unreachable!(),
            Some(Named::Connection(voice)) => voice,
            Some(Named::Container(_)) => unreachable!(),
            Some(Named::Roamer(_)) => unreachable!(),
            Some(Named::Used) => unreachable!(),
        }
    }

    /// Takes the container of a name that is one's. Until one is put back the name is used up.
    pub fn take_holder(&mut self, name: &ScriptName) -> Holder
        requires { container_refusal (get self.old.table.values name.now) ≡ None }
        ensures there { get self.old.table.values name.now ≡ Some (a.Container result) }
        ensures left { self.new.table.values ≡ insert self.old.table.values name.now a.Used }
    {
        match self.table.replace(name.as_str(), Named::Used) {
            None => unreachable!(),
            Some(Named::Connection(_)) => unreachable!(),
            Some(Named::Container(holder)) => holder,
            Some(Named::Roamer(_)) => unreachable!(),
            Some(Named::Used) => unreachable!(),
        }
    }

    /// Takes the connection of a name that is one's. Until one is put back the name is used up.
    pub fn take_voice(&mut self, name: &ScriptName) -> Voice
        requires { connection_refusal (get self.old.table.values name.now) ≡ None }
        ensures there { get self.old.table.values name.now ≡ Some (a.Connection result) }
        ensures left { self.new.table.values ≡ insert self.old.table.values name.now a.Used }
    {
        match self.table.replace(name.as_str(), Named::Used) {
            None => unreachable!(),
            Some(Named::Connection(voice)) => voice,
            Some(Named::Container(_)) => unreachable!(),
            Some(Named::Roamer(_)) => unreachable!(),
            Some(Named::Used) => unreachable!(),
        }
    }

    /// Takes the roamer of a name that is one's. Until one is put back the name is used up.
    pub fn take_roamer(&mut self, name: &ScriptName) -> Roamer
        requires { roamer_refusal (get self.old.table.values name.now) ≡ None }
        ensures there { get self.old.table.values name.now ≡ Some (a.Roamer result) }
        ensures left { self.new.table.values ≡ insert self.old.table.values name.now a.Used }
    {
        match self.table.replace(name.as_str(), Named::Used) {
            None => unreachable!(),
            Some(Named::Connection(_)) => unreachable!(),
            Some(Named::Container(_)) => unreachable!(),
            Some(Named::Roamer(roamer)) => roamer,
            Some(Named::Used) => unreachable!(),
        }
    }

    /// The roamer of a name that is one's.
    pub fn roamer(&self, name: &ScriptName) -> &Roamer
        requires { roamer_refusal (get self.now.table.values name.now) ≡ None }
        ensures { get self.now.table.values name.now ≡ Some (a.Roamer result.now) }
    {
        match self.table.get(name.as_str()) {
            None => unreachable!(),
            Some(Named::Connection(_)) => unreachable!(),
            Some(Named::Container(_)) => unreachable!(),
            Some(Named::Roamer(roamer)) => roamer,
            Some(Named::Used) => unreachable!(),
        }
    }

    /// Whether a name is a roamer's.
    pub fn is_roamer(&self, name: &ScriptName) -> bool
        ensures { result ≡ not (is_some (roamer_refusal (get self.now.table.values name.now))) }
    {
        match self.table.get(name.as_str()) {
            None => false,
            Some(Named::Connection(_)) => false,
            Some(Named::Container(_)) => false,
            Some(Named::Roamer(_)) => true,
            Some(Named::Used) => false,
        }
    }

    /// What a name that was given stands for from now on. Takes no memory.
    pub fn put(&mut self, name: &ScriptName, named: Named)
        requires { IsSome (get self.old.table.values name.now) }
        ensures { self.new.table.values ≡ insert self.old.table.values name.now named }
    {
        drop(self.table.replace(name.as_str(), named));
    }

    /// Whether a name was given.
    pub fn is_given(&self, name: &ScriptName) -> bool
        ensures given { result ≡ true → IsSome (get self.now.table.values name.now) }
        ensures new { result ≡ false → get self.now.table.values name.now ≡ None }
    {
        match self.table.get(name.as_str()) {
            None => false,
            Some(_) => true,
        }
    }
}

// Whether a roamer is lost has to be as is wanted.
fn refusal_if_other(wanted: bool, lost: bool) -> Option<LineWhy>
    ensures { result ≡ refused_if_other wanted lost }
{
    if wanted {
        if lost {
            return None;
        }
        return Some(LineWhy::UnknownName);
    }
    if lost {
        return Some(LineWhy::UnknownName);
    }
    None
}
