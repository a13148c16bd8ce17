//! The calls of a document's keeper on three disks, with ample memory.
use fluid_disk::MemoryDisk;
use fluid_disk_keeper::{DiskKeeper, Disks, GrowingKeeper};
use fluid_log::Keeper;
use std::alloc::Global;
use std::process::Abort;

fn disk(alloc: Global) -> MemoryDisk {
    MemoryDisk::new(alloc, Vec::new(alloc), Vec::new(alloc))
}

fn empty(alloc: Global) -> Disks<MemoryDisk> {
    Disks {
        log: disk(alloc),
        deltas: disk(alloc),
        checkpoints: disk(alloc),
    }
}

const LONGEST: usize = 1_048_576;

// ---- one call each

fn appends<K: Keeper>(rt: &impl Abort, alloc: Global, keeper: &mut K, bytes: &[u8]) {
    assert!(rt; bytes.len() <= LONGEST);
    assert!(rt; keeper.append(alloc, bytes).is_ok());
}

fn reads<K: Keeper>(rt: &impl Abort, alloc: Global, keeper: &mut K, place: u64, wanted: &[u8]) {
    assert!(rt; place < keeper.len());
    let bytes = keeper.read(alloc, place).expect(rt, "a record");
    assert!(rt; bytes.as_slice() == wanted);
}

fn puts<K: Keeper>(rt: &impl Abort, alloc: Global, keeper: &mut K, number: u64, bytes: &[u8]) {
    assert!(rt; bytes.len() <= LONGEST && keeper.deltas() < 9 && number == keeper.deltas() + 1);
    assert!(rt; keeper.put_delta(alloc, number, bytes).is_ok());
}

fn has_delta<K: Keeper>(
    rt: &impl Abort,
    alloc: Global,
    keeper: &mut K,
    number: u64,
    wanted: &[u8],
) {
    assert!(rt; 0 < number && number <= keeper.deltas());
    let bytes = keeper.delta(alloc, number).expect(rt, "a delta");
    assert!(rt; bytes.as_slice() == wanted);
}

fn stores<K: Keeper>(rt: &impl Abort, alloc: Global, keeper: &mut K, bytes: &[u8], number: u64) {
    assert!(rt; bytes.len() <= LONGEST);
    assert!(rt; keeper.store_checkpoint(alloc, bytes) == Ok(number));
}

fn has_checkpoint<K: Keeper>(
    rt: &impl Abort,
    alloc: Global,
    keeper: &mut K,
    number: u64,
    wanted: &[u8],
) {
    assert!(rt; number < keeper.checkpoints());
    let bytes = keeper.checkpoint(alloc, number).expect(rt, "a checkpoint");
    assert!(rt; bytes.as_slice() == wanted);
}

// Whether a cut is done.
fn cuts<K: Keeper>(rt: &impl Abort, keeper: &mut K, count: u64) -> bool {
    assert!(rt; count <= keeper.len());
    keeper.cut(count).is_ok()
}

// ---- a life

// Two records, deltas and checkpoints each, put and read back.
fn lives<K: Keeper>(rt: &impl Abort, alloc: Global, keeper: &mut K) {
    appends(rt, alloc, keeper, b"one");
    appends(rt, alloc, keeper, b"");
    puts(rt, alloc, keeper, 1, b"first");
    puts(rt, alloc, keeper, 2, b"second");
    stores(rt, alloc, keeper, b"early", 0);
    stores(rt, alloc, keeper, b"late", 1);
}

// They are there.
fn is_kept<K: Keeper>(rt: &impl Abort, alloc: Global, keeper: &mut K) {
    assert!(rt; keeper.len() == 2 && keeper.deltas() == 2 && keeper.checkpoints() == 2);
    reads(rt, alloc, keeper, 0, b"one");
    reads(rt, alloc, keeper, 1, b"");
    has_delta(rt, alloc, keeper, 1, b"first");
    has_delta(rt, alloc, keeper, 2, b"second");
    has_checkpoint(rt, alloc, keeper, 0, b"early");
    has_checkpoint(rt, alloc, keeper, 1, b"late");
    assert!(rt; keeper.faults() == 0);
}

fn opened(rt: &impl Abort, alloc: Global, disks: Disks<MemoryDisk>) -> DiskKeeper<MemoryDisk> {
    match DiskKeeper::open(alloc, disks) {
        Ok(keeper) => keeper,
        Err(_) => panic!(rt; "the disks open"),
    }
}

fn growing(rt: &impl Abort, alloc: Global, disks: Disks<MemoryDisk>) -> GrowingKeeper<MemoryDisk> {
    match GrowingKeeper::open(alloc, disks) {
        Ok(keeper) => keeper,
        Err(_) => panic!(rt; "the disks open"),
    }
}

#[test]
fn a_keeper_gives_back_what_was_put(rt: HostRuntime) {
    let alloc = rt.alloc();
    let mut keeper = opened(&rt, alloc, empty(alloc));
    lives(&rt, alloc, &mut keeper);
    is_kept(&rt, alloc, &mut keeper);
    let mut keeper = opened(&rt, alloc, keeper.close());
    is_kept(&rt, alloc, &mut keeper);
    assert!(&rt; cuts(&rt, &mut keeper, 1) && keeper.len() == 1);
    drop(keeper);
}

#[test]
fn a_growing_log_is_cut_nowhere_but_at_its_length(rt: HostRuntime) {
    let alloc = rt.alloc();
    let mut keeper = growing(&rt, alloc, empty(alloc));
    lives(&rt, alloc, &mut keeper);
    is_kept(&rt, alloc, &mut keeper);
    assert!(&rt; cuts(&rt, &mut keeper, 2) && keeper.faults() == 0);
    assert!(&rt; !cuts(&rt, &mut keeper, 1) && keeper.faults() == 1 && keeper.len() == 2);
    let mut keeper = growing(&rt, alloc, keeper.close());
    is_kept(&rt, alloc, &mut keeper);
    drop(keeper);
}
