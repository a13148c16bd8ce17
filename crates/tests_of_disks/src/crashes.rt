use crate::files::{appends, has, opened};
use fluid_disk::{MemoryDisk, RecordFile};
use std::alloc::Global;
use std::process::Abort;

/// A step of a file's life.
#[derive(Clone, Copy)]
enum Step {
    Append(&'static [u8]),
    Cut(usize),
}

const LIFE: [Step; 7] = [
    Step::Append(b"ab"),
    Step::Append(b"c"),
    Step::Cut(1),
    Step::Append(b"dddd"),
    Step::Append(b""),
    Step::Cut(0),
    Step::Append(b"e"),
];

// The list after so many steps.
fn listed(rt: &impl Abort, alloc: Global, steps: &[Step]) -> Vec<&'static [u8]> {
    let mut list = Vec::new(alloc);
    for step in steps {
        match *step {
            Step::Append(bytes) => {
                list.push(bytes).expect(rt, "memory");
            }
            Step::Cut(count) => list.truncate(count),
        }
    }
    list
}

// Whether a step was taken.
fn takes(rt: &impl Abort, alloc: Global, file: &mut RecordFile<MemoryDisk>, step: &Step) -> bool {
    match *step {
        Step::Append(bytes) => appends(rt, alloc, file, bytes),
        Step::Cut(count) => {
            let count = count as u64;
            assert!(rt; count <= file.len());
            file.cut(count).is_ok()
        }
    }
}

// The calls on the disk that opening the empty file and the whole life take: three, four for each append and two for each cut.
const CALLS: u64 = 27;

// Takes steps, each once more where it fails, until one fails twice. Says how many were taken.
fn lived(rt: &impl Abort, alloc: Global, file: &mut RecordFile<MemoryDisk>) -> usize {
    for (taken, step) in LIFE.iter().enumerate() {
        if !takes(rt, alloc, file, step) && !takes(rt, alloc, file, step) {
            return taken;
        }
    }
    LIFE.len()
}

// Lives on an empty disk, lets it crash, and looks at what is found: the list behind the steps that were taken, or behind one
// more. Says how many were taken.
fn crashes(rt: &impl Abort, alloc: Global, disk: MemoryDisk, pick: u64) -> usize {
    let Ok(mut file) = RecordFile::open(alloc, disk) else {
        return 0;
    };
    let taken = lived(rt, alloc, &mut file);
    let mut file = opened(rt, alloc, file.close().crash(pick));
    let before = listed(rt, alloc, &LIFE[..taken.min(LIFE.len())]);
    let after = listed(rt, alloc, &LIFE[..taken.saturating_add(1).min(LIFE.len())]);
    assert!(rt;
        has(rt, alloc, &mut file, &before) || has(rt, alloc, &mut file, &after),
        "{taken} steps, pick {pick}"
    );
    drop(file);
    taken
}

// Lets one call of the life fail, and takes the step again that failed by it: a crash behind the life leaves all of it.
fn repairs(rt: &impl Abort, alloc: Global, failing: u64, pick: u64) {
    let planned = Vec::from_slice(alloc, &[failing]).expect(rt, "memory");
    let mut failed = 0_u64;
    let mut file = match RecordFile::open(alloc, MemoryDisk::new(alloc, Vec::new(alloc), planned)) {
        Ok(file) => file,
        Err((disk, _)) => {
            failed = 1;
            opened(rt, alloc, disk)
        }
    };
    for step in &LIFE {
        if !takes(rt, alloc, &mut file, step) {
            failed = failed.saturating_add(1);
            assert!(rt; takes(rt, alloc, &mut file, step), "{failing} fails twice");
        }
    }
    assert!(rt;
        failed == u64::from(failing <= CALLS),
        "{failing} fails {failed} times"
    );
    let mut file = opened(rt, alloc, file.close().crash(pick));
    let whole = listed(rt, alloc, &LIFE);
    assert!(rt; has(rt, alloc, &mut file, &whole));
    drop(file);
}

// An empty disk of which one call fails, and all from a later one on.
fn breaking(rt: &impl Abort, alloc: Global, failing: u64, stop: u64) -> MemoryDisk {
    let mut planned = Vec::from_slice(alloc, &[failing]).expect(rt, "memory");
    for number in stop..60 {
        planned.push(number).expect(rt, "memory");
    }
    MemoryDisk::new(alloc, Vec::new(alloc), planned)
}

#[test]
fn a_crash_at_each_call_leaves_what_was_appended(rt: HostRuntime) {
    let alloc = rt.alloc();
    for pick in 0..4 {
        for stop in 1..30 {
            let disk = MemoryDisk::stopping(alloc, Vec::new(alloc), stop);
            let taken = crashes(&rt, alloc, disk, pick);
            assert!(&rt;
                (taken == LIFE.len()) == (stop > CALLS),
                "stop {stop}: {taken}"
            );
        }
    }
}

#[test]
fn a_call_that_failed_is_repaired_by_the_next(rt: HostRuntime) {
    let alloc = rt.alloc();
    for pick in 0..4 {
        for failing in 1..30 {
            repairs(&rt, alloc, failing, pick);
        }
    }
}

// The calls behind the one that fails are those of the repair, and then those of the step that is taken again.
#[test]
fn a_crash_inside_a_repair_leaves_what_was_appended(rt: HostRuntime) {
    let alloc = rt.alloc();
    for pick in 0..4 {
        for failing in 4..=CALLS {
            for stop in failing + 1..failing + 5 {
                let taken = crashes(&rt, alloc, breaking(&rt, alloc, failing, stop), pick);
                assert!(&rt; taken < LIFE.len(), "{failing} fails, stop {stop}");
            }
        }
    }
}

// Each row: what a disk holds, how many calls opening it makes, and the record that is found.
const OPENINGS: [(&[u8], u64, &[u8]); 4] = [
    (&[1, 0, 0, 0, 2, 97, 98, 0], 4, b"ab"),
    (&[1, 0, 0, 0, 2, 97, 98], 4, b"ab"),
    (&[1, 0, 0, 0, 2, 97, 98, 1, 0, 0, 0, 1], 6, b"ab"),
    (&[1, 0, 0, 0, 1, 97, 7, 1, 0, 0, 0, 0, 0], 6, b"a"),
];

// Whether opening is done where the disk stops at a call. Where it isn't, it crashes, and is opened again: the record is there.
fn opens(rt: &impl Abort, alloc: Global, disk: MemoryDisk, pick: u64, record: &[u8]) -> bool {
    match RecordFile::open(alloc, disk) {
        Ok(file) => {
            drop(file);
            true
        }
        Err((disk, _)) => {
            let mut file = opened(rt, alloc, disk.crash(pick));
            assert!(rt; has(rt, alloc, &mut file, &[record]));
            drop(file);
            false
        }
    }
}

#[test]
fn a_crash_inside_opening_leaves_what_was_there(rt: HostRuntime) {
    let alloc = rt.alloc();
    for (before, calls, record) in OPENINGS {
        for pick in 0..4 {
            for stop in 1..8 {
                let held = before.to_vec(alloc).expect(&rt, "memory");
                let disk = MemoryDisk::stopping(alloc, held, stop);
                assert!(&rt; opens(&rt, alloc, disk, pick, record) == (stop > calls));
            }
        }
    }
}
