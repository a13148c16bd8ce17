// A session over any connection and any wire.
ghost use Rattle.std.specs.Prelude.{◌≡◌, ◌<◌, ◌≤◌, false, Err};
ghost use Rattle.fluid_types.specs.Forms.{largest};
ghost use Rattle.fluid_voice.specs.States.{is_used};
ghost use Rattle.fluid_session.specs.Counted.{nothing};
ghost use Rattle.fluid_session.specs.Ends.{with_fault, unless_refused, most_unread};
ghost use Rattle.fluid_session.specs.Running.{Runs};
ghost use Rattle.fluid_session.specs.Whole.{Concludes, Serves, Ends};

use crate::cycling::{cycle, end_of};
use crate::report::{Report, SessionEnd};
use crate::tally::Tally;
use fluid_ends::TalkFault;
use fluid_io::Clock;
use fluid_lines::Wire;
use fluid_store::Objects;
use fluid_talk::Conversation;
use std::alloc::Global;
use std::sync::Wait;

/// Runs a connection over a wire, from its first text to its end, and then tries one leave.
pub fn converse<R: Wait, T: Conversation, O: Objects, W: Wire, C: Clock>(
    rt: &R,
    alloc: Global,
    service: &T::Service,
    objects: &mut O,
    wire: &mut W,
    clock: &C,
    talk: &mut T,
) -> Report
    requires service { T.belongs talk.old service.now }
    requires unused { is_used (T.seen talk.old).voice ≡ false }
    ensures service { T.belongs talk.new service.now }
    ensures does { Serves (T.seen talk.old) (T.seen talk.new) (O.seen objects.old) (O.seen objects.new) (W.seen wire.old) (W.seen wire.new) result }
{
    let mut tally = Tally::new();
    let end = run(rt, alloc, service, objects, wire, clock, talk, &mut tally);
    conclude(rt, alloc, clock, talk, tally, end)
}

/// Tries one leave behind the cycle that ended a session, and reports.
pub fn conclude<R: Wait, T: Conversation, C: Clock>(
    rt: &R,
    alloc: Global,
    clock: &C,
    talk: &mut T,
    tally: Tally,
    end: SessionEnd,
) -> Report
    ensures service { (x : T.Service) → T.belongs talk.old x → T.belongs talk.new x }
    ensures does { Concludes (T.seen talk.old) (T.seen talk.new) tally end result }
{
    let moment = clock.now();
    let end = leave(rt, alloc, talk, moment, end);
    let Tally {
        sequenced,
        dropped,
        nacked,
        absorbed,
        unread,
    } = tally;
    Report {
        end,
        sequenced,
        dropped,
        nacked,
        absorbed,
        unread,
    }
}

// Cycles until one of them ends the session.
fn run<R: Wait, T: Conversation, O: Objects, W: Wire, C: Clock>(
    rt: &R,
    alloc: Global,
    service: &T::Service,
    objects: &mut O,
    wire: &mut W,
    clock: &C,
    talk: &mut T,
    tally: &mut Tally,
) -> SessionEnd
    requires service { T.belongs talk.old service.now }
    requires unused { is_used (T.seen talk.old).voice ≡ false }
    requires few { tally.old.unread < most_unread }
    ensures service { T.belongs talk.new service.now }
    ensures does { Runs (record { talk = T.seen talk.old; store = O.seen objects.old }) (record { talk = T.seen talk.new; store = O.seen objects.new }) (W.seen wire.old) (W.seen wire.new) tally.old tally.new (Err result) }
{
    'cycles: for _ in rt.forever() {
        match cycle(rt, alloc, service, objects, wire, clock, talk, tally) {
            Ok(()) => {}
            Err(end) => return end,
        }
    }
    unreachable!()
}

// Tries one leave, and says how the session ended then.
fn leave<R: Wait, T: Conversation>(
    rt: &R,
    alloc: Global,
    talk: &mut T,
    moment: u64,
    end: SessionEnd,
) -> SessionEnd
    requires { moment ≤ largest }
    ensures service { (x : T.Service) → T.belongs talk.old x → T.belongs talk.new x }
    ensures ends { Ends (T.seen talk.old) (T.seen talk.new) moment end result }
{
    let left = talk.leave(rt, alloc, moment);
    talk.know();
    match left {
        Ok(()) => end,
        Err(fault) => with_fault(end, fault),
    }
}

fn with_fault(end: SessionEnd, fault: TalkFault) -> SessionEnd
    ensures { result ≡ with_fault end fault }
{
    match end {
        SessionEnd::Closed => end_of(fault),
        SessionEnd::Abused(_) => end_of(fault),
        SessionEnd::WireFault => unless_refused(SessionEnd::WireFault, &fault),
        SessionEnd::TooLong(size) => unless_refused(SessionEnd::TooLong(size), &fault),
        SessionEnd::LogFault(note) => unless_refused(SessionEnd::LogFault(note), &fault),
        SessionEnd::DeltaFault(note) => unless_refused(SessionEnd::DeltaFault(note), &fault),
        SessionEnd::StoreFault(note) => unless_refused(SessionEnd::StoreFault(note), &fault),
        SessionEnd::Other(first) => unless_refused(SessionEnd::Other(first), &fault),
        SessionEnd::NoMemory => SessionEnd::NoMemory,
    }
}

fn unless_refused(end: SessionEnd, fault: &TalkFault) -> SessionEnd
    ensures { result ≡ unless_refused end fault.now }
{
    match fault {
        TalkFault::Door(_) => end,
        TalkFault::Lane(_) => end,
        TalkFault::Delta(_) => end,
        TalkFault::Store(_) => end,
        TalkFault::NoMemory => SessionEnd::NoMemory,
    }
}
