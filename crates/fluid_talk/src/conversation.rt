//! A connection as its session sees it.
ghost use Rattle.std.specs.Prelude.{◌≡◌, ◌≤◌, false, length};
ghost use Rattle.fluid_types.specs.Forms.{largest};
ghost use Rattle.fluid_readback.specs.Laws.{longest_text};
ghost use Rattle.fluid_voice.specs.States.{is_used};
ghost use Rattle.fluid_talk.specs.Talking.{Talking, IsSound};
ghost use Rattle.fluid_talk.specs.Hearing.{Hears};
ghost use Rattle.fluid_talk.specs.Collecting.{Collects};
ghost use Rattle.fluid_talk.specs.Leaving.{Leaves};

use crate::Heard;
use fluid_ends::TalkFault;
use fluid_feed::Feed;
use fluid_store::Objects;
use fluid_voice::VoiceState;
use std::alloc::Global;
use std::sync::Wait;

/// One connection to a service, without its wire.
pub trait Conversation {
    /// What opens documents for it.
    type Service;

    /// What is known of it.
    ghost seen: { Self → Talking };

    /// Its key is one of this service.
    ghost belongs: { Self → Self.Service → Type 0 };

    /// Where it stands. Takes no memory.
    fn state(&self) -> &VoiceState
        ensures { result.now ≡ (seen self.now).voice };

    /// Tells a proof what holds of every connection. It does nothing else.
    fn know(&self)
        ensures { IsSound (seen self.now) };

    /// Hears a text at a moment, in milliseconds: does what it asks for, and gives the replies.
    fn hear<R: Wait, O: Objects>(
        &mut self,
        rt: &R,
        alloc: Global,
        service: &Self::Service,
        objects: &mut O,
        text: &str,
        moment: u64,
    ) -> Heard
        requires service { belongs self.old service.now }
        requires unused { is_used (seen self.old).voice ≡ false }
        requires short { length text.now ≤ longest_text }
        requires moment { moment ≤ largest }
        ensures service { (x : Self.Service) → belongs self.old x → belongs self.new x }
        ensures does { Hears (seen self.old) (seen self.new) (O.seen objects.old) (O.seen objects.new) text.now moment result };

    /// The messages that weren't delivered, in op events that are printed, up to the last number.
    fn collect<R: Wait>(&mut self, rt: &R, alloc: Global) -> Result<Feed, TalkFault>
        ensures service { (x : Self.Service) → belongs self.old x → belongs self.new x }
        ensures does { Collects (seen self.old) (seen self.new) result };

    /// Ends the connection: who writes enters a leave. It hears nothing any more, unless that failed.
    fn leave<R: Wait>(&mut self, rt: &R, alloc: Global, moment: u64) -> Result<(), TalkFault>
        requires { moment ≤ largest }
        ensures service { (x : Self.Service) → belongs self.old x → belongs self.new x }
        ensures does { Leaves (seen self.old) (seen self.new) moment result };
}
