// The deltas of an order: messages pushed, put into a keeper and given again.
ghost use Rattle.std.specs.Prelude.{◌≡◌};
ghost use Rattle.fluid_deltas.specs.Pushed.{IsKeepable};

use fluid_codec::{print_message, printed_is_read_back};
use fluid_deltas::{DeltaFault, Deltas, RESIDENT};
use fluid_io::FaultNote;
use fluid_json::{Json, LARGEST};
use fluid_log::{Keeper, LONGEST_KEPT, MemoryKeeper};
use fluid_types::{Kind, Message};
use std::alloc::Global;
use std::process::Abort;

// The texts of the messages 1 to 3, as they are kept.
const TEXTS: [&str; 3] = [
    r#"{"clientId":null,"clientSequenceNumber":-1,"contents":null,"minimumSequenceNumber":0,"referenceSequenceNumber":-1,"sequenceNumber":1,"timestamp":0,"type":"op"}"#,
    r#"{"clientId":null,"clientSequenceNumber":-1,"contents":null,"minimumSequenceNumber":0,"referenceSequenceNumber":-1,"sequenceNumber":2,"timestamp":0,"type":"op"}"#,
    r#"{"clientId":null,"clientSequenceNumber":-1,"contents":null,"minimumSequenceNumber":0,"referenceSequenceNumber":-1,"sequenceNumber":3,"timestamp":0,"type":"op"}"#,
];

const FAILED: DeltaFault = DeltaFault::DeltaFailed(FaultNote {
    before: 0,
    after: 1,
});

// A message that can be kept.
fn message(rt: &impl Abort, alloc: Global, number: u64) -> Message
    ensures number { result.number ≡ number }
    ensures keepable { IsKeepable result }
{
    printed_is_read_back();
    let message = Message {
        client: None,
        client_number: -1,
        reference: -1,
        number,
        minimum: 0,
        kind: Kind::Op,
        contents: Json::null(),
        system: None,
        metadata: None,
        moment: 0,
    };
    let printed = print_message(alloc, &message).expect(rt, "memory");
    let printed = printed.as_str();
    assert!(rt; number <= LARGEST && printed.len() <= LONGEST_KEPT);
    message
}

fn push(rt: &impl Abort, alloc: Global, deltas: &mut Deltas) {
    let last = deltas.len();
    let resident = deltas.resident();
    assert!(rt; last < LARGEST && resident < RESIDENT as u64);
    deltas.reserve(alloc).expect(rt, "memory");
    deltas.push(message(rt, alloc, last + 1));
}

// So many messages, pushed behind those that a keeper has.
fn pushed(rt: &impl Abort, alloc: Global, before: u64, count: u64) -> Deltas {
    let mut deltas = Deltas::new(alloc);
    deltas.resume(before);
    for _ in 0..count {
        push(rt, alloc, &mut deltas);
    }
    deltas
}

// A keeper in which one call fails, or none where it is call 0.
fn keeper_of(rt: &impl Abort, alloc: Global, failing: u64) -> MemoryKeeper {
    let failing = Vec::from_slice(alloc, &[failing]).expect(rt, "memory");
    MemoryKeeper::new(alloc, failing, Vec::new(alloc))
}

// What a flush answers. Nothing in memory stands behind the keeper's deltas.
fn flush(
    rt: &impl Abort,
    alloc: Global,
    deltas: &mut Deltas,
    keeper: &mut MemoryKeeper,
) -> Result<(), DeltaFault> {
    assert!(rt; deltas.before() <= keeper.deltas());
    deltas.flush(alloc, keeper)
}

// Behind a flush in which this call fails the keeper has so many deltas, and behind the next all.
fn assert_flushed(rt: &impl Abort, alloc: Global, failing: u64, put: u64) {
    let mut deltas = pushed(rt, alloc, 0, 3);
    let mut keeper = keeper_of(rt, alloc, failing);
    let wanted = if put < 3 { Err(FAILED) } else { Ok(()) };
    assert!(rt;
        flush(rt, alloc, &mut deltas, &mut keeper) == wanted,
        "call {failing}"
    );
    assert!(rt; keeper.deltas() == put, "call {failing}");
    assert!(rt;
        flush(rt, alloc, &mut deltas, &mut keeper) == Ok(()),
        "call {failing}"
    );
    assert!(rt; keeper.deltas() == 3, "call {failing}");
    for (text, wanted) in keeper.delta_texts().iter().zip(TEXTS) {
        assert!(rt; text.as_slice() == wanted.as_bytes(), "{wanted}");
    }
    drop(keeper);
    drop(deltas);
}

#[test]
fn each_message_is_put_once(rt: HostRuntime) {
    let alloc = rt.alloc();
    for (failing, put) in [(0, 3), (1, 0), (2, 1), (3, 2)] {
        assert_flushed(&rt, alloc, failing, put);
    }
}

// The numbers of messages, a digit each.
fn digits(messages: &[Message]) -> u64 {
    let mut digits = 0_u64;
    for message in messages {
        digits = digits.wrapping_mul(10).wrapping_add(message.number);
    }
    digits
}

fn range(
    rt: &impl Abort,
    alloc: Global,
    deltas: &mut Deltas,
    keeper: &mut MemoryKeeper,
    bounds: (u64, u64),
) -> Result<u64, DeltaFault> {
    let (from, to) = bounds;
    assert!(rt; 0 < from && from <= to);
    assert!(rt; to - 1 <= deltas.len() && deltas.before() <= keeper.deltas());
    let messages = deltas.range(alloc, from, to, keeper)?;
    Ok(digits(&messages))
}

fn held(deltas: &Deltas, bounds: (u64, u64)) -> Option<u64> {
    let messages = deltas.held(bounds.0, bounds.1)?;
    Some(digits(messages))
}

// From which number up to which, and the digits of what is given.
const RANGES: &[((u64, u64), u64)] = &[
    ((1, 1), 0),
    ((1, 2), 1),
    ((1, 5), 1234),
    ((2, 4), 23),
    ((4, 5), 4),
    ((5, 5), 0),
];

// Where the messages behind the first two are in memory.
const HELD: &[((u64, u64), Option<u64>)] = &[
    ((3, 5), Some(34)),
    ((3, 4), Some(3)),
    ((4, 5), Some(4)),
    ((5, 5), Some(0)),
    ((1, 1), Some(0)),
    ((2, 3), None),
    ((1, 5), None),
    ((4, 6), None),
    ((0, 1), None),
];

// The messages behind these are in memory, and all in the keeper.
fn assert_ranges(rt: &impl Abort, alloc: Global, keeper: &mut MemoryKeeper, before: u64) {
    let mut deltas = pushed(rt, alloc, before, 4_u64.saturating_sub(before));
    for (bounds, wanted) in RANGES {
        let told = range(rt, alloc, &mut deltas, keeper, *bounds);
        assert!(rt; told == Ok(*wanted), "{bounds:?} behind {before}");
    }
    drop(deltas);
}

// This text stands for message 1, and call 2 fails.
fn assert_bad(rt: &impl Abort, alloc: Global, text: &[u8]) {
    let mut keeper = keeper_of(rt, alloc, 2);
    assert!(rt; keeper.deltas() == 0 && text.len() <= LONGEST_KEPT);
    assert!(rt; keeper.put_delta(alloc, 1, text).is_ok());
    let mut deltas = pushed(rt, alloc, 1, 1);
    // a range of nothing asks for nothing
    let rows = [
        ((1, 1), Ok(0)),
        ((1, 3), Err(FAILED)),
        ((1, 3), Err(DeltaFault::BadDelta(1))),
        ((2, 3), Ok(2)),
    ];
    for (bounds, wanted) in rows {
        let told = range(rt, alloc, &mut deltas, &mut keeper, bounds);
        assert!(rt; told == wanted, "{bounds:?}");
    }
    drop(deltas);
    drop(keeper);
}

#[test]
fn a_range_is_a_slice_or_has_a_bad_delta(rt: HostRuntime) {
    let alloc = rt.alloc();
    let mut keeper = keeper_of(&rt, alloc, 0);
    let mut all = pushed(&rt, alloc, 0, 4);
    assert!(rt; flush(&rt, alloc, &mut all, &mut keeper) == Ok(()));
    drop(all);
    for before in [0, 1, 2, 4] {
        assert_ranges(&rt, alloc, &mut keeper, before);
    }
    drop(keeper);
    let some = pushed(&rt, alloc, 2, 2);
    for (bounds, wanted) in HELD {
        assert!(rt; held(&some, *bounds) == *wanted, "{bounds:?}");
    }
    drop(some);
    for text in [b"{".as_slice(), b"\xff", TEXTS[1].as_bytes()] {
        assert_bad(&rt, alloc, text);
    }
}

// Makes room where the most messages are in memory.
fn make_room(
    rt: &impl Abort,
    alloc: Global,
    deltas: &mut Deltas,
    keeper: &mut MemoryKeeper,
) -> Result<(), DeltaFault> {
    let full = deltas.full();
    assert!(rt; full && deltas.before() <= keeper.deltas());
    deltas.make_room(alloc, keeper)
}

// So many messages of a document that begins, pushed over the keeper.
fn pushed_over(rt: &impl Abort, alloc: Global, count: u64, keeper: &mut MemoryKeeper) -> Deltas {
    let mut deltas = Deltas::new(alloc);
    for _ in 0..count {
        if deltas.full() {
            assert!(rt; make_room(rt, alloc, &mut deltas, keeper) == Ok(()));
        }
        push(rt, alloc, &mut deltas);
    }
    deltas
}

// The first number of the messages, and how many there are, where they are numbered one by one.
fn run_of(messages: &[Message]) -> Option<(u64, u64)> {
    let first = messages.first()?.number;
    for (place, message) in messages.iter().enumerate() {
        if message.number != first.saturating_add(place as u64) {
            return None;
        }
    }
    Some((first, messages.len() as u64))
}

fn run_held(deltas: &Deltas, bounds: (u64, u64)) -> Option<(u64, u64)> {
    run_of(deltas.held(bounds.0, bounds.1)?)
}

fn run_given(
    rt: &impl Abort,
    alloc: Global,
    deltas: &mut Deltas,
    keeper: &mut MemoryKeeper,
    bounds: (u64, u64),
) -> Result<Option<(u64, u64)>, DeltaFault> {
    let (from, to) = bounds;
    assert!(rt; 0 < from && from <= to);
    assert!(rt; to - 1 <= deltas.len() && deltas.before() <= keeper.deltas());
    let messages = deltas.range(alloc, from, to, keeper)?;
    Ok(run_of(&messages))
}

// Ranges of 4,097 messages, how many numbers they have, and whether one page in memory has all of them: the first page
// is dropped, and those behind it begin at 257, 513 and so on up to 4,097.
const EDGES: &[((u64, u64), u64, bool)] = &[
    ((1, 10), 9, false),
    ((1, 4098), 4097, false),
    ((254, 256), 2, false),
    ((255, 257), 2, false),
    ((256, 257), 1, false),
    ((256, 258), 2, false),
    ((257, 258), 1, true),
    ((257, 260), 3, true),
    ((257, 513), 256, true),
    ((257, 514), 257, false),
    ((512, 513), 1, true),
    ((512, 514), 2, false),
    ((513, 514), 1, true),
    ((255, 4096), 3841, false),
    ((4094, 4096), 2, true),
    ((4095, 4097), 2, true),
    ((4096, 4097), 1, true),
    ((4096, 4098), 2, false),
    ((4097, 4098), 1, true),
];

#[test]
fn the_oldest_page_goes(rt: HostRuntime) {
    let alloc = rt.alloc();
    let mut keeper = keeper_of(&rt, alloc, 0);
    let mut deltas = pushed_over(&rt, alloc, 4097, &mut keeper);
    assert!(rt; deltas.resident() == 3841 && deltas.before() == 256);
    assert!(rt; deltas.len() == 4097 && keeper.deltas() == 256);
    for (bounds, count, one_page) in EDGES {
        let run = Some((bounds.0, *count));
        let held = if *one_page { run } else { None };
        assert!(rt; run_held(&deltas, *bounds) == held, "{bounds:?}");
        let given = run_given(&rt, alloc, &mut deltas, &mut keeper, *bounds);
        assert!(rt; given == Ok(run), "{bounds:?}");
    }
    assert!(rt; flush(&rt, alloc, &mut deltas, &mut keeper) == Ok(()));
    assert!(rt; keeper.deltas() == 4097);
    deltas.resume(4096);
    assert!(rt; deltas.resident() == 0 && run_held(&deltas, (4096, 4097)).is_none());
    push(&rt, alloc, &mut deltas);
    let given = run_given(&rt, alloc, &mut deltas, &mut keeper, (4095, 4098));
    assert!(rt; given == Ok(Some((4095, 3))));
    drop(deltas);
    drop(keeper);
}

// The calls that fail: every second one, so that each put of a page fails once; and behind the last put, which is call 512, the
// first read, the third, the sixth and so on, so that the last read of each try fails.
fn failing_calls(rt: &impl Abort, alloc: Global) -> Vec<u64> {
    let mut failing = Vec::new(alloc);
    for put in 0..256_u64 {
        let call = put.wrapping_mul(2).wrapping_add(1);
        failing.push(call).expect(rt, "memory");
    }
    let mut call = 512_u64;
    for reads in 1..=256 {
        call = call.wrapping_add(reads);
        failing.push(call).expect(rt, "memory");
    }
    failing
}

// Room is tried to be made where one put fails behind so many, and the page is there still.
fn assert_no_room(
    rt: &impl Abort,
    alloc: Global,
    deltas: &mut Deltas,
    keeper: &mut MemoryKeeper,
    kept: u64,
) {
    let fault = FaultNote {
        before: kept,
        after: kept.wrapping_add(1),
    };
    let wanted = Err(DeltaFault::DeltaFailed(fault));
    assert!(rt;
        make_room(rt, alloc, deltas, keeper) == wanted,
        "behind {kept} puts"
    );
    assert!(rt;
        deltas.resident() == 4096 && keeper.deltas() == kept,
        "behind {kept} puts"
    );
    assert!(rt;
        run_held(deltas, (1, 257)) == Some((1, 256)),
        "behind {kept} puts"
    );
}

// The read of one delta fails behind so many calls that failed before it.
fn assert_unread(
    rt: &impl Abort,
    alloc: Global,
    deltas: &mut Deltas,
    keeper: &mut MemoryKeeper,
    faults: u64,
) {
    let fault = FaultNote {
        before: faults,
        after: faults.wrapping_add(1),
    };
    let wanted = Err(DeltaFault::DeltaFailed(fault));
    let given = run_given(rt, alloc, deltas, keeper, (1, 258));
    assert!(rt; given == wanted, "behind {faults} faults");
}

#[test]
fn each_put_and_each_read_of_a_page_may_fail(rt: HostRuntime) {
    let alloc = rt.alloc();
    let mut keeper = MemoryKeeper::new(alloc, failing_calls(&rt, alloc), Vec::new(alloc));
    let mut deltas = pushed_over(&rt, alloc, 4096, &mut keeper);
    for kept in 0..256 {
        assert_no_room(&rt, alloc, &mut deltas, &mut keeper, kept);
    }
    assert!(rt; make_room(&rt, alloc, &mut deltas, &mut keeper) == Ok(()));
    assert!(rt; deltas.resident() == 3840 && keeper.deltas() == 256);
    push(&rt, alloc, &mut deltas);
    for faults in 256..512 {
        assert_unread(&rt, alloc, &mut deltas, &mut keeper, faults);
    }
    let given = run_given(&rt, alloc, &mut deltas, &mut keeper, (1, 258));
    assert!(rt; given == Ok(Some((1, 257))));
    drop(deltas);
    drop(keeper);
}
