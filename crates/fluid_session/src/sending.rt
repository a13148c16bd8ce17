// Replies on the wire.
ghost use Rattle.std.specs.Prelude.{◌≡◌};
ghost use Rattle.fluid_session.specs.Sending.{SendsOne, SendsAll};

use fluid_codec::{Reply, print_event};
use fluid_feed::EventText;
use fluid_lines::{Wire, WireFault};
use std::alloc::Global;
use std::sync::Wait;

/// Sends the replies in their order, up to the first that can't be sent.
pub(crate) fn send_all<R: Wait, W: Wire>(
    rt: &R,
    alloc: Global,
    wire: &mut W,
    replies: &[Reply],
) -> Result<(), WireFault>
    ensures { SendsAll (W.seen wire.old) (W.seen wire.new) replies.now result }
{
    for reply in replies {
        send(rt, alloc, wire, reply)?;
    }
    Ok(())
}

/// Sends op events in their order, up to the first that can't be sent.
pub(crate) fn send_feed<R: Wait, W: Wire>(
    rt: &R,
    alloc: Global,
    wire: &mut W,
    events: &[EventText],
) -> Result<(), WireFault>
    ensures { SendsAll (W.seen wire.old) (W.seen wire.new) events.now result }
{
    for event in events {
        send_event(rt, alloc, wire, event)?;
    }
    Ok(())
}

fn send_event<R: Wait, W: Wire>(
    rt: &R,
    alloc: Global,
    wire: &mut W,
    event: &EventText,
) -> Result<(), WireFault>
    ensures { SendsOne (W.seen wire.old) (W.seen wire.new) event.now result }
{
    wire.send(rt, alloc, event.as_str())
}

fn send<R: Wait, W: Wire>(
    rt: &R,
    alloc: Global,
    wire: &mut W,
    reply: &Reply,
) -> Result<(), WireFault>
    ensures { SendsOne (W.seen wire.old) (W.seen wire.new) reply.now result }
{
    let text = print_event(alloc, reply)?;
    wire.send(rt, alloc, text.as_str())
}
