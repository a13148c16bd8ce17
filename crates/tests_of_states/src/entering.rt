// Sequencer and scribe together: two summaries, from their summarize messages to their answers.
use crate::texts::{Entry, PROPOSAL, message, record};
use fluid_codec::{read_message, read_raw};
use fluid_core::{Core, CoreParts};
use fluid_quorum::Minima;
use fluid_tree::Id;
use fluid_types::{Kind, Messages, Raw, Verdict};
use std::alloc::Global;
use std::process::Abort;

// The id of the version at reference 3, as Git computes it.
const VERSION: &str = "bd68040e94df41e8e3d8ba9dbbabace616548f73";

// The kind, the number and the minimum of what is sequenced.
type Shown = Option<(Kind, u64, u64)>;

// The number and the reference of the pending summarize, and whether its answer depends on what is stored.
type Pending = Option<(u64, u64, bool)>;

fn what_shows(verdict: &Verdict) -> Shown {
    match verdict {
        Verdict::Sequenced(message) => Some((message.kind, message.number, message.minimum)),
        Verdict::Nacked(_) | Verdict::Dropped | Verdict::Absorbed => None,
    }
}

// What would come of an entry, which isn't entered.
fn left(rt: &impl Abort, alloc: Global, core: &mut Core, raw: &Raw) -> Shown {
    assert!(rt; core.seq() < 1000 && raw.is_in_range());
    let ready = core.prepare(alloc, raw).expect(rt, "memory");
    let shown = what_shows(ready.verdict());
    drop(ready);
    shown
}

fn committed(rt: &impl Abort, alloc: Global, core: &mut Core, raw: &Raw) -> Shown {
    assert!(rt; core.seq() < 1000 && raw.is_in_range());
    let ready = core.prepare(alloc, raw).expect(rt, "memory");
    let verdict = core.commit(ready);
    let shown = what_shows(&verdict);
    drop(verdict);
    shown
}

fn assert_entered(rt: &impl Abort, alloc: Global, core: &mut Core, entry: &Entry, wanted: Shown) {
    let text = record(rt, alloc, entry);
    let raw = read_raw(alloc, text.as_str()).expect(rt, "a record");
    assert!(rt;
        left(rt, alloc, core, &raw) == wanted,
        "left, in place of {wanted:?}"
    );
    assert!(rt;
        committed(rt, alloc, core, &raw) == wanted,
        "in place of {wanted:?}"
    );
    drop(raw);
}

fn pending(rt: &impl Abort, alloc: Global, core: &mut Core) -> Pending {
    let job = core.job(alloc).expect(rt, "memory");
    let numbers = match &job {
        Some(job) => Some((job.summary, job.reference, job.needs_storage)),
        None => None,
    };
    drop(job);
    numbers
}

// The handle and the number of each acknowledgement, where there is one at most.
fn acknowledged(rt: &impl Abort, core: &Core) -> Option<(Id, u64)> {
    assert!(rt; core.acks().len() < 2);
    let ack = core.acks().first()?;
    Some((ack.handle, ack.number))
}

// Entries, what is sequenced of them, and what is pending behind them.
const STORY: &[(Entry, Shown, Pending)] = &[
    (Entry::Summarizer("A"), Some((Kind::Join, 1, 0)), None),
    (Entry::Report(1, true), None, None),
    (
        Entry::Summarize("A", 1, 1),
        Some((Kind::Summarize, 2, 1)),
        Some((2, 1, true)),
    ),
    (
        Entry::Report(2, false),
        Some((Kind::SummaryNack, 3, 1)),
        None,
    ),
    (Entry::Report(2, true), None, None),
    (
        Entry::Summarize("A", 2, 3),
        Some((Kind::Summarize, 4, 3)),
        Some((4, 3, true)),
    ),
    (Entry::Report(1, true), None, Some((4, 3, true))),
    (Entry::Report(4, true), Some((Kind::SummaryAck, 5, 3)), None),
    (Entry::Report(4, true), None, None),
    (Entry::Leave("A"), Some((Kind::Leave, 6, 6)), None),
];

// Takes a core apart and puts it together again.
fn renew(rt: &impl Abort, alloc: Global, core: &mut Core) {
    let CoreParts { sequencer, scribe } = core.parts(alloc).expect(rt, "memory");
    *core = Core::of_parts(sequencer, scribe);
}

fn enter_all(rt: &impl Abort, alloc: Global, core: &mut Core, renews: bool) {
    for (entry, wanted, waits) in STORY {
        if renews {
            renew(rt, alloc, core);
        }
        assert_entered(rt, alloc, core, entry, *wanted);
        assert!(rt; pending(rt, alloc, core) == *waits, "behind {wanted:?}");
    }
}

#[test]
fn a_pending_summarize_is_answered_once(rt: HostRuntime) {
    let alloc = rt.alloc();
    let mut core = Core::new(alloc);
    assert!(rt; core.seq() == 0 && core.min() == 0 && acknowledged(&rt, &core).is_none());
    enter_all(&rt, alloc, &mut core, true);
    core = Core::new(alloc);
    enter_all(&rt, alloc, &mut core, false);
    assert!(rt; core.seq() == 6 && core.min() == 6 && core.clients().count() == 0);
    let version = Id::read(VERSION).expect(&rt, "an id");
    assert!(rt; acknowledged(&rt, &core) == Some((version, 3)));
    drop(core);
}

// The numbers with which a core is put together behind the summarize at 2, which refers to 1 as its client does; the minimum that it
// keeps then, the document's, and what is pending.
const AHEAD: &[(u64, u64, u64, u64, Pending)] = &[
    (2, 1, 1, 1, Some((2, 1, true))),
    (2, 3, 0, 1, Some((2, 1, true))),
    (1, 1, 1, 1, None),
    (0, 0, 0, 0, None),
];

// The number of the order with which a core is put together behind the acknowledgement at 5, whose base is at 3; how many
// acknowledgements, which base and how many changes of the minimum it keeps then.
const SHORTENED: &[(u64, (usize, u64, usize))] = &[
    (5, (1, 3, 1)),
    (4, (1, 3, 1)),
    (3, (1, 3, 0)),
    (2, (0, 0, 0)),
];

// A change of the minimum in place of those that it keeps there, and how many it keeps then: none at the base or before it, none ahead
// of the order, and none that is ahead of its own message.
const CHANGES: &[((u64, u64), usize)] = &[
    ((4, 3), 1),
    ((5, 0), 1),
    ((3, 3), 0),
    ((2, 1), 0),
    ((0, 0), 0),
    ((6, 3), 0),
    ((4, 5), 0),
];

// Enters the first entries of the story, so many of them.
fn begin(rt: &impl Abort, alloc: Global, core: &mut Core, count: usize) {
    *core = Core::new(alloc);
    for (entry, wanted, _) in STORY.iter().take(count) {
        assert_entered(rt, alloc, core, entry, *wanted);
    }
}

// Puts the core together again with these numbers.
fn renumber(rt: &impl Abort, alloc: Global, core: &mut Core, sequence: u64, minimum: u64) {
    let CoreParts { sequencer, scribe } = core.parts(alloc).expect(rt, "memory");
    let mut sequencer = sequencer;
    sequencer.sequence = sequence;
    sequencer.minimum = minimum;
    *core = Core::of_parts(sequencer, scribe);
}

// Puts the core together again with this change of the minimum alone.
fn rechange(rt: &impl Abort, alloc: Global, core: &mut Core, change: (u64, u64)) {
    let CoreParts { sequencer, scribe } = core.parts(alloc).expect(rt, "memory");
    let mut changes = Vec::new(alloc);
    changes.push(change).expect(rt, "memory");
    let mut scribe = scribe;
    scribe.minima = Minima::new(changes);
    *core = Core::of_parts(sequencer, scribe);
}

// Puts the core together again with a pending summarize of number 0 alone.
fn repend(rt: &impl Abort, alloc: Global, core: &mut Core) {
    let text = message(rt, alloc, (0, 0), "summarize", 0, PROPOSAL, "");
    let summarize = read_message(alloc, text.as_str()).expect(rt, "a message");
    drop(text);
    let CoreParts { sequencer, scribe } = core.parts(alloc).expect(rt, "memory");
    let mut pending = Vec::new(alloc);
    pending.push(summarize).expect(rt, "memory");
    let mut scribe = scribe;
    scribe.pending = Messages::new(pending);
    *core = Core::of_parts(sequencer, scribe);
}

fn assert_minimum(rt: &impl Abort, alloc: Global, core: &Core, wanted: u64) {
    let parts = core.parts(alloc).expect(rt, "memory");
    assert!(rt; parts.sequencer.minimum == wanted, "in place of {wanted}");
    drop(parts);
}

fn assert_kept(rt: &impl Abort, alloc: Global, core: &Core, wanted: (usize, u64, usize)) {
    let parts = core.parts(alloc).expect(rt, "memory");
    let kept = (
        parts.scribe.acks.as_slice().len(),
        parts.scribe.base.number(),
        parts.scribe.minima.as_slice().len(),
    );
    assert!(rt; kept == wanted, "{kept:?} in place of {wanted:?}");
    drop(parts);
}

fn assert_none_waits(rt: &impl Abort, alloc: Global, core: &mut Core) {
    let parts = core.parts(alloc).expect(rt, "memory");
    assert!(rt; parts.scribe.pending.as_slice().is_empty());
    drop(parts);
    assert!(rt; pending(rt, alloc, core) == None);
}

#[test]
fn what_is_outside_the_order_counts_for_nothing(rt: HostRuntime) {
    let alloc = rt.alloc();
    let mut core = Core::new(alloc);
    for (sequence, minimum, kept, least, waits) in AHEAD {
        begin(&rt, alloc, &mut core, 3);
        renumber(&rt, alloc, &mut core, *sequence, *minimum);
        let found = pending(&rt, alloc, &mut core);
        assert!(&rt; found == *waits, "{sequence}, {minimum}");
        assert!(&rt; core.min() == *least, "{sequence}, {minimum}");
        assert_minimum(&rt, alloc, &core, *kept);
    }
    for (sequence, wanted) in SHORTENED {
        begin(&rt, alloc, &mut core, 8);
        renumber(&rt, alloc, &mut core, *sequence, 0);
        assert_kept(&rt, alloc, &core, *wanted);
    }
    for (change, count) in CHANGES {
        begin(&rt, alloc, &mut core, 8);
        rechange(&rt, alloc, &mut core, *change);
        assert_kept(&rt, alloc, &core, (1, 3, *count));
    }
    begin(&rt, alloc, &mut core, 3);
    repend(&rt, alloc, &mut core);
    assert_none_waits(&rt, alloc, &mut core);
    drop(core);
}
