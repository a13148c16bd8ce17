//! A quorum that may find no memory for the last message.
ghost use Rattle.std.specs.Prelude.{◌≡◌, None, OnOk, OnErr};
ghost use Rattle.fluid_loader.specs.Container.{IsOwed, brought_abreast};

use fluid_json::NoMemory;
use fluid_quorum::Quorum;
use fluid_types::Message;
use std::alloc::Global;

/// The quorum behind some messages, and the next one, where the quorum has found no memory for it yet.
#[derive(Drop)]
pub(crate) struct Following {
    pub(crate) quorum: Quorum,
    pub(crate) owed: Option<Message>,
}

impl Following {
    /// The quorum takes the message that it is owed. After `NoMemory` it is still owed.
    pub(crate) fn settle(&mut self, alloc: Global) -> Result<(), NoMemory>
        requires { IsOwed self.old.quorum self.old.owed }
        ensures settled { OnOk result (self.new ≡ record { quorum = brought_abreast self.old.quorum self.old.owed; owed = None }) }
        ensures unchanged { OnErr result (self.new ≡ self.old) }
    {
        let Some(message) = &self.owed else {
            return Ok(());
        };
        self.quorum.apply(alloc, message)?;
        self.owed = None;
        Ok(())
    }
}
