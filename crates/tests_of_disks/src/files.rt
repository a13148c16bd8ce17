use fluid_disk::{MemoryDisk, RecordFile};
use std::alloc::Global;
use std::process::Abort;

/// Opens a disk.
pub fn opened(rt: &impl Abort, alloc: Global, disk: MemoryDisk) -> RecordFile<MemoryDisk> {
    match RecordFile::open(alloc, disk) {
        Ok(file) => file,
        Err(_) => panic!(rt; "the disk opens"),
    }
}

/// Whether an append is done.
pub fn appends(
    rt: &impl Abort,
    alloc: Global,
    file: &mut RecordFile<MemoryDisk>,
    bytes: &[u8],
) -> bool {
    assert!(rt; bytes.len() <= 1_048_576);
    file.append(alloc, bytes).is_ok()
}

/// Whether the file has these records and no others.
pub fn has(
    rt: &impl Abort,
    alloc: Global,
    file: &mut RecordFile<MemoryDisk>,
    records: &[&[u8]],
) -> bool {
    if file.len() != records.len() as u64 {
        return false;
    }
    for (place, record) in records.iter().enumerate() {
        assert!(rt; (place as u64) < file.len());
        let bytes = file.read(alloc, place as u64).expect(rt, "a read");
        if bytes.as_slice() != *record {
            return false;
        }
    }
    true
}

fn holding(rt: &impl Abort, alloc: Global, bytes: &[u8]) -> MemoryDisk {
    let bytes = bytes.to_vec(alloc).expect(rt, "memory");
    MemoryDisk::new(alloc, bytes, Vec::new(alloc))
}

// Each row: what the disk holds, what is appended, and what it holds then.
const APPENDS: [(&[u8], &[u8], &[u8]); 4] = [
    (&[], b"ab", &[1, 0, 0, 0, 2, 97, 98, 0]),
    (
        &[1, 0, 0, 0, 2, 97, 98, 0],
        b"",
        &[1, 0, 0, 0, 2, 97, 98, 1, 0, 0, 0, 0, 0],
    ),
    (
        &[1, 0, 0, 0, 2, 97, 98],
        b"c",
        &[1, 0, 0, 0, 2, 97, 98, 1, 0, 0, 0, 1, 99, 0],
    ),
    (&[1, 0, 0, 0, 5, 97, 98], b"c", &[1, 0, 0, 0, 1, 99, 0]),
];

#[test]
fn an_append_leaves_these_bytes(rt: HostRuntime) {
    let alloc = rt.alloc();
    for (before, record, after) in APPENDS {
        let mut file = opened(&rt, alloc, holding(&rt, alloc, before));
        assert!(&rt; appends(&rt, alloc, &mut file, record));
        let disk = file.close();
        assert!(&rt; disk.bytes() == after);
        drop(disk);
    }
}

// Each row: what the disk holds, how many records are found, and what it holds then.
const OPENINGS: [(&[u8], u64, &[u8]); 7] = [
    (&[], 0, &[0]),
    (&[1, 0, 0, 0, 5, 97, 98], 0, &[0]),
    (&[7], 0, &[0]),
    (&[0, 1, 2, 3], 0, &[0]),
    (&[1, 0, 0], 0, &[0]),
    (
        &[1, 0, 0, 0, 1, 97, 7, 1, 0, 0, 0, 1],
        1,
        &[1, 0, 0, 0, 1, 97, 0],
    ),
    (
        &[1, 0, 0, 0, 0, 1, 0, 0, 0, 0, 1, 0, 0, 1, 0, 1],
        2,
        &[1, 0, 0, 0, 0, 1, 0, 0, 0, 0, 0],
    ),
];

#[test]
fn opening_finds_so_many_records_and_leaves_these_bytes(rt: HostRuntime) {
    let alloc = rt.alloc();
    for (before, count, after) in OPENINGS {
        let file = opened(&rt, alloc, holding(&rt, alloc, before));
        assert!(&rt; file.len() == count);
        let disk = file.close();
        assert!(&rt; disk.bytes() == after);
        drop(disk);
    }
}

// ---- calls of a file, with what they leave and how many calls on the disk they make

#[derive(Clone, Copy)]
enum Call {
    Append(&'static [u8]),
    Cut(u64),
    Read(u64),
}

fn does(rt: &impl Abort, alloc: Global, file: &mut RecordFile<MemoryDisk>, call: Call) -> bool {
    match call {
        Call::Append(bytes) => appends(rt, alloc, file, bytes),
        Call::Cut(count) => {
            assert!(rt; count <= file.len());
            file.cut(count).is_ok()
        }
        Call::Read(place) => {
            assert!(rt; place < file.len());
            file.read(alloc, place).is_ok()
        }
    }
}

// Makes calls, each with whether it is done.
fn make(rt: &impl Abort, alloc: Global, file: &mut RecordFile<MemoryDisk>, calls: &[(Call, bool)]) {
    for (call, done) in calls {
        assert!(rt; does(rt, alloc, file, *call) == *done);
    }
}

const EMPTY: &[u8] = &[];

const AB: &[u8] = &[1, 0, 0, 0, 2, 97, 98, 0];

const AB_C: &[u8] = &[1, 0, 0, 0, 2, 97, 98, 1, 0, 0, 0, 1, 99, 0];

const C: &[u8] = &[1, 0, 0, 0, 1, 99, 0];

// Each row: what the disk holds, its call that fails (0 for none), the calls of the file, of which the one fails in which that call
// is made, what the disk holds then, and how many calls on it were made in all.
type Row = (
    &'static [u8],
    u64,
    &'static [(Call, bool)],
    &'static [u8],
    u64,
);

const CALLS: [Row; 16] = [
    // Opening: a sync and the new gate, synced; a sync, a piece, the cut, synced, and where the gate isn't 0 a 0, synced.
    (EMPTY, 0, &[], &[0], 3),
    (&[0], 0, &[], &[0], 4),
    (&[7], 0, &[], &[0], 6),
    (AB, 0, &[], AB, 4),
    (&[1, 0, 0, 0, 2, 97, 98], 0, &[], AB, 4),
    // An append: two writes and two syncs.
    (EMPTY, 0, &[(Call::Append(b"ab"), true)], AB, 7),
    // A read, a cut at the length, and one below it: a write and a sync.
    (AB_C, 0, &[(Call::Read(1), true)], AB_C, 5),
    (AB_C, 0, &[(Call::Cut(2), true)], AB_C, 4),
    (
        AB_C,
        0,
        &[(Call::Cut(1), true)],
        &[1, 0, 0, 0, 2, 97, 98, 0, 0, 0, 0, 1, 99, 0],
        6,
    ),
    // What a cut left is written over.
    (
        AB_C,
        0,
        &[(Call::Cut(1), true), (Call::Append(b"c"), true)],
        AB_C,
        10,
    ),
    // An append whose first sync fails, and one whose second does: what it left is closed, and cut off.
    (
        EMPTY,
        5,
        &[(Call::Append(b"ab"), false)],
        &[0, 0, 0, 0, 2, 97, 98, 0],
        5,
    ),
    (
        EMPTY,
        5,
        &[(Call::Append(b"ab"), false), (Call::Append(b"c"), true)],
        C,
        14,
    ),
    (
        EMPTY,
        7,
        &[(Call::Append(b"ab"), false), (Call::Append(b"c"), true)],
        C,
        17,
    ),
    (
        EMPTY,
        7,
        &[(Call::Append(b"ab"), false), (Call::Cut(0), true)],
        &[0],
        13,
    ),
    // A cut whose sync fails: its gate is opened again.
    (AB, 6, &[(Call::Cut(0), false), (Call::Cut(1), true)], AB, 9),
    (
        AB,
        6,
        &[(Call::Cut(0), false), (Call::Append(b"c"), true)],
        AB_C,
        13,
    ),
];

#[test]
fn calls_leave_these_bytes_and_make_so_many_calls(rt: HostRuntime) {
    let alloc = rt.alloc();
    for (before, failing, calls, after, count) in CALLS {
        let held = before.to_vec(alloc).expect(&rt, "memory");
        let planned = Vec::from_slice(alloc, &[failing]).expect(&rt, "memory");
        let mut file = opened(&rt, alloc, MemoryDisk::new(alloc, held, planned));
        make(&rt, alloc, &mut file, calls);
        let disk = file.close();
        assert!(&rt; disk.bytes() == after);
        assert!(&rt; disk.calls() == count, "{} calls", disk.calls());
        drop(disk);
    }
}
