//! What a name stands for.
use fluid_containers::{Holder, Loaded};
use fluid_roamers::Roamer;
use fluid_steps::ScriptName;
use fluid_table::Key;
use fluid_voice::Voice;

/// What a name stands for.
#[derive(Drop)]
pub enum Named {
    Connection(Voice),
    Container(Holder),
    Roamer(Roamer),
    /// Nothing any more.
    Used,
}

/// A name as a key.
#[derive(Drop)]
pub struct NameKey {
    pub name: ScriptName,
}

impl Key for NameKey {
    ghost text_of = { λ key. key.name };

    fn text(&self) -> &str {
        self.name.as_str()
    }
}
