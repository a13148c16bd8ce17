// One cycle of a session.
ghost use Rattle.std.specs.Prelude.{◌≡◌, ◌<◌, ◌≤◌, false, length, OnOk, if◌then◌else◌};
ghost use Rattle.fluid_types.specs.Forms.{largest};
ghost use Rattle.fluid_readback.specs.Laws.{longest_text};
ghost use Rattle.fluid_store.specs.Storing.{Storing};
ghost use Rattle.fluid_lines.specs.Wires.{Wiring, ReceivesText, Stays};
ghost use Rattle.fluid_voice.specs.States.{is_used};
ghost use Rattle.fluid_voice.specs.Replies.{has_front_nack};
ghost use Rattle.fluid_session.specs.declared.tally.Tally.{Tally as Counts};
ghost use Rattle.fluid_session.specs.Ends.{end_of, wire_end, behind_text, most_unread};
ghost use Rattle.fluid_session.specs.Events.{IsReached};
ghost use Rattle.fluid_session.specs.Running.{FeedsOnce, HearsOnce, CyclesOnce};

use crate::report::SessionEnd;
use crate::sending::{send_all, send_feed};
use crate::tally::{MOST_UNREAD, Tally};
use fluid_codec::Reply;
use fluid_deltas::DeltaFault;
use fluid_ends::TalkFault;
use fluid_io::Clock;
use fluid_lane::LaneFault;
use fluid_lines::{Recv, Wire, WireFault};
use fluid_store::{Objects, StoreFault};
use fluid_talk::{Conversation, Heard};
use fluid_voice::{VoiceState, has_front_nack, is_connected};
use std::alloc::Global;
use std::sync::Wait;

/// One cycle of a session: it collects and sends what wasn't delivered, receives once, hears the text that came in and sends the replies.
/// Where the wire is quiet, nothing more is done. It waits in the wire, for its document, for a shelf and for the store. Behind an Err the session
/// is concluded.
pub fn cycle<R: Wait, T: Conversation, O: Objects, W: Wire, C: Clock>(
    rt: &R,
    alloc: Global,
    service: &T::Service,
    objects: &mut O,
    wire: &mut W,
    clock: &C,
    talk: &mut T,
    tally: &mut Tally,
) -> Result<(), SessionEnd>
    requires service { T.belongs talk.old service.now }
    requires unused { is_used (T.seen talk.old).voice ≡ false }
    requires few { tally.old.unread < most_unread }
    ensures service { T.belongs talk.new service.now }
    ensures unused { is_used (T.seen talk.new).voice ≡ false }
    ensures does { CyclesOnce (record { talk = T.seen talk.old; store = O.seen objects.old }) (record { talk = T.seen talk.new; store = O.seen objects.new }) (W.seen wire.old) (W.seen wire.new) tally.old tally.new result }
{
    match feed(rt, alloc, talk, wire) {
        Ok(()) => {}
        Err(end) => return Err(end),
    }
    match wire.recv(rt, alloc) {
        Ok(Recv::Text(text)) => {
            let moment = clock.now();
            answer(
                rt,
                alloc,
                service,
                objects,
                wire,
                talk,
                tally,
                text.as_str(),
                moment,
            )
        }
        Ok(Recv::Quiet) => Ok(()),
        Ok(Recv::End) => Err(SessionEnd::Closed),
        Ok(Recv::TooLong(size)) => Err(SessionEnd::TooLong(size)),
        Err(WireFault::Failed) => Err(SessionEnd::WireFault),
        Err(WireFault::NoMemory) => Err(SessionEnd::NoMemory),
    }
}

// Collects what wasn't delivered, and sends it.
fn feed<R: Wait, T: Conversation, W: Wire>(
    rt: &R,
    alloc: Global,
    talk: &mut T,
    wire: &mut W,
) -> Result<(), SessionEnd>
    requires { is_used (T.seen talk.old).voice ≡ false }
    ensures service { (x : T.Service) → T.belongs talk.old x → T.belongs talk.new x }
    ensures unused { is_used (T.seen talk.new).voice ≡ false }
    ensures reached { OnOk result (IsReached (T.seen talk.new)) }
    ensures does { (store : Storing) (tally : Counts) → tally.unread < most_unread → FeedsOnce (record { talk = T.seen talk.old; store = store }) (record { talk = T.seen talk.new; store = store }) (W.seen wire.old) (W.seen wire.new) tally tally result }
{
    let events = match talk.collect(rt, alloc) {
        Ok(events) => events,
        Err(fault) => return Err(end_of(fault)),
    };
    talk.know();
    match send_feed(rt, alloc, wire, events.as_slice()) {
        Ok(()) => Ok(()),
        Err(fault) => Err(wire_end(fault)),
    }
}

// Hears a text that came in, and sends the replies. A wire learns which document a connection was connected to.
fn answer<R: Wait, T: Conversation, O: Objects, W: Wire>(
    rt: &R,
    alloc: Global,
    service: &T::Service,
    objects: &mut O,
    wire: &mut W,
    talk: &mut T,
    tally: &mut Tally,
    text: &str,
    moment: u64,
) -> Result<(), SessionEnd>
    requires service { T.belongs talk.old service.now }
    requires unused { is_used (T.seen talk.old).voice ≡ false }
    requires reached { IsReached (T.seen talk.old) }
    requires short { length text.now ≤ longest_text }
    requires moment { moment ≤ largest }
    requires few { tally.old.unread < most_unread }
    ensures service { T.belongs talk.new service.now }
    ensures unused { is_used (T.seen talk.new).voice ≡ false }
    ensures does { (w : Wiring) → ReceivesText w (W.seen wire.old) text.now → Stays w (W.seen wire.old) → HearsOnce (record { talk = T.seen talk.old; store = O.seen objects.old }) (record { talk = T.seen talk.new; store = O.seen objects.new }) w (W.seen wire.new) tally.old tally.new result }
{
    let apart = !is_connected(talk.state());
    let Heard {
        replies,
        sequenced,
        dropped,
        nacked,
        absorbed,
        fault,
    } = talk.hear(rt, alloc, service, objects, text, moment);
    talk.know();
    let unread = unread_in(replies.as_slice());
    tally.add(Tally {
        sequenced,
        dropped,
        nacked,
        absorbed,
        unread,
    });
    follow(rt, wire, apart, talk.state());
    let sent = send_all(rt, alloc, wire, replies.as_slice());
    behind_text(fault, sent, tally.unread)
}

// 1 where a front's nack is among the replies.
fn unread_in(replies: &[Reply]) -> u64
    ensures { result ≡ (if has_front_nack replies.now then 1 else 0) }
{
    if has_front_nack(replies) { 1 } else { 0 }
}

// A wire follows the document to which its connection, which was apart, is connected now.
fn follow<R: Wait, W: Wire>(rt: &R, wire: &mut W, apart: bool, state: &VoiceState)
    ensures { W.seen wire.new ≡ W.seen wire.old }
{
    if !apart {
        return;
    }
    match state {
        VoiceState::Fresh => {}
        VoiceState::Reading(name, _) => wire.follow(rt, name.as_str()),
        VoiceState::Writing(name, _, _) => wire.follow(rt, name.as_str()),
        VoiceState::Used => {}
    }
}

fn behind_text(
    fault: Option<TalkFault>,
    sent: Result<(), WireFault>,
    unread: u64,
) -> Result<(), SessionEnd>
    ensures { result ≡ behind_text fault sent unread }
{
    if let Some(fault) = fault {
        return Err(end_of(fault));
    }
    match sent {
        Ok(()) => below_most(unread),
        Err(fault) => Err(wire_end(fault)),
    }
}

fn below_most(unread: u64) -> Result<(), SessionEnd>
    ensures { result ≡ behind_text None (Ok tt) unread }
{
    if unread >= MOST_UNREAD {
        return Err(SessionEnd::Abused(unread));
    }
    Ok(())
}

fn wire_end(fault: WireFault) -> SessionEnd
    ensures { result ≡ wire_end fault }
{
    match fault {
        WireFault::Failed => SessionEnd::WireFault,
        WireFault::NoMemory => SessionEnd::NoMemory,
    }
}

/// A fault of the connection, as an end.
pub(crate) fn end_of(fault: TalkFault) -> SessionEnd
    ensures { result ≡ end_of fault }
{
    match fault {
        TalkFault::Door(fault) => SessionEnd::Other(TalkFault::Door(fault)),
        TalkFault::Lane(fault) => lane_end(fault),
        TalkFault::Delta(fault) => delta_end(fault),
        TalkFault::Store(fault) => store_end(fault),
        TalkFault::NoMemory => SessionEnd::NoMemory,
    }
}

fn lane_end(fault: LaneFault) -> SessionEnd
    ensures { result ≡ end_of (TalkFault.Lane fault) }
{
    match fault {
        LaneFault::LogFailed(note) => SessionEnd::LogFault(note),
        LaneFault::DeltaFailed(note) => SessionEnd::DeltaFault(note),
        other => SessionEnd::Other(TalkFault::Lane(other)),
    }
}

fn delta_end(fault: DeltaFault) -> SessionEnd
    ensures { result ≡ end_of (TalkFault.Delta fault) }
{
    match fault {
        DeltaFault::DeltaFailed(note) => SessionEnd::DeltaFault(note),
        other => SessionEnd::Other(TalkFault::Delta(other)),
    }
}

fn store_end(fault: StoreFault) -> SessionEnd
    ensures { result ≡ end_of (TalkFault.Store fault) }
{
    match fault {
        StoreFault::StoreFailed(note) => SessionEnd::StoreFault(note),
        other => SessionEnd::Other(TalkFault::Store(other)),
    }
}
