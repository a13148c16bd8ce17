// What containers take over such orders.
use crate::orders::{acknowledge, attach, attach_many, fill, new_link, set, set_many};
use fluid_loader::{Container, Link, ListLink, Pick};
use fluid_tree::Node;
use std::alloc::Global;
use std::time::{Clock, Instant};

/// The container's number at the end, and the microseconds that were taken.
#[derive(Clone, Copy)]
pub(crate) struct Taken {
    pub(crate) number: u64,
    pub(crate) first: u64,
    pub(crate) later: u64,
}

// The microseconds since then.
fn since<C: Clock>(clock: &C, start: Instant) -> Option<u64> {
    let elapsed = start.elapsed(clock).ok()?;
    u64::try_from(elapsed.as_micros()).ok()
}

// ---- summaries

/// The first summary of so many maps, and the later ones, before each of which one map has changed.
pub(crate) fn time_summaries(
    rt: &HostRuntime,
    channels: u64,
    keys: u64,
    rounds: u64,
) -> Option<Taken> {
    let mut link = new_link(rt.alloc())?;
    let taken = summarize_maps(rt, &mut link, channels, keys, rounds);
    drop(link);
    taken
}

fn summarize_maps(
    rt: &HostRuntime,
    link: &mut ListLink,
    channels: u64,
    keys: u64,
    rounds: u64,
) -> Option<Taken> {
    attach_many(rt.alloc(), &mut link.order, channels, keys)?;
    let mut container = Container::load(rt.alloc(), link, &Pick::Empty).ok()?;
    let taken = summarize_often(rt, &mut container, link, rounds);
    drop(container);
    taken
}

fn summarize_often(
    rt: &HostRuntime,
    container: &mut Container,
    link: &mut ListLink,
    rounds: u64,
) -> Option<Taken> {
    let first = time_summary(rt, container, link)?;
    let mut later = u64::MAX;
    for _ in 0..rounds {
        set(rt.alloc(), &mut link.order, 0, 0, 1)?;
        container.pump(rt.alloc(), link).ok()?;
        later = later.min(time_summary(rt, container, link)?);
    }
    Some(Taken {
        number: container.seq(),
        first,
        later,
    })
}

fn time_summary(rt: &HostRuntime, container: &mut Container, link: &mut ListLink) -> Option<u64> {
    if !container.has_numbers() {
        return None;
    }
    link.id().as_str();
    let start = Instant::now(rt).ok()?;
    container.summarize(rt.alloc(), link).ok()?;
    since(rt, start)
}

// ---- loads

/// Loads from one summary.
pub(crate) fn time_loads(
    rt: &HostRuntime,
    before: u64,
    keys: u64,
    behind: u64,
    rounds: u64,
) -> Option<Taken> {
    let mut link = new_link(rt.alloc())?;
    let taken = match make_summary(rt.alloc(), &mut link, before, keys, behind) {
        Some(()) => load_often(rt, &mut link, rounds),
        None => None,
    };
    drop(link);
    taken
}

// A map of so many keys, acknowledged behind so many messages, and sets of it behind the summary.
fn make_summary(
    alloc: Global,
    link: &mut ListLink,
    before: u64,
    keys: u64,
    behind: u64,
) -> Option<()> {
    attach_many(alloc, &mut link.order, 1, keys)?;
    fill(alloc, &mut link.order, before)?;
    let app = tree(alloc, link)?;
    acknowledge(alloc, link, app)?;
    set_many(alloc, &mut link.order, 0, behind, keys)
}

// The tree of the channels behind the whole order.
fn tree(alloc: Global, link: &mut ListLink) -> Option<Node> {
    let container = Container::load(alloc, link, &Pick::Empty).ok()?;
    let tree = container.tree(alloc).ok();
    drop(container);
    tree
}

fn load_often(rt: &HostRuntime, link: &mut ListLink, rounds: u64) -> Option<Taken> {
    let mut least = Taken {
        number: 0,
        first: u64::MAX,
        later: u64::MAX,
    };
    for _ in 0..rounds {
        let (number, taken) = time_load(rt, link)?;
        let taken = least.first.min(taken);
        least = Taken {
            number,
            first: taken,
            later: taken,
        };
    }
    Some(least)
}

// The container's number, and the microseconds.
fn time_load(rt: &HostRuntime, link: &mut ListLink) -> Option<(u64, u64)> {
    let start = Instant::now(rt).ok()?;
    let container = Container::load(rt.alloc(), link, &Pick::Latest).ok()?;
    let taken = since(rt, start);
    let number = container.seq();
    drop(container);
    Some((number, taken?))
}

// ---- messages

/// One pump of so many sets.
pub(crate) fn time_pump(rt: &HostRuntime, messages: u64, keys: u64) -> Option<Taken> {
    let mut link = new_link(rt.alloc())?;
    let taken = pump_from_nothing(rt, &mut link, messages, keys);
    drop(link);
    taken
}

fn pump_from_nothing(
    rt: &HostRuntime,
    link: &mut ListLink,
    messages: u64,
    keys: u64,
) -> Option<Taken> {
    let mut container = Container::load(rt.alloc(), link, &Pick::Empty).ok()?;
    let taken = time_sets(rt, &mut container, link, messages, keys);
    drop(container);
    taken
}

fn time_sets(
    rt: &HostRuntime,
    container: &mut Container,
    link: &mut ListLink,
    messages: u64,
    keys: u64,
) -> Option<Taken> {
    attach(rt.alloc(), &mut link.order, 0)?;
    set_many(rt.alloc(), &mut link.order, 0, messages, keys)?;
    let start = Instant::now(rt).ok()?;
    let number = container.pump(rt.alloc(), link).ok()?;
    let taken = since(rt, start)?;
    Some(Taken {
        number,
        first: taken,
        later: taken,
    })
}
