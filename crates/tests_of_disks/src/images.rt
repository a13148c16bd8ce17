//! What a crash leaves of a disk in memory.
use fluid_disk::{Disk, MemoryDisk};
use std::alloc::Global;
use std::process::Abort;

#[derive(Clone, Copy)]
enum Call {
    Write(u64, &'static [u8]),
    Cut(u64),
    Sync,
}

fn does(rt: &impl Abort, disk: &mut MemoryDisk, call: Call) {
    let done = match call {
        Call::Write(at, bytes) => {
            assert!(rt; at <= disk.len());
            disk.write_at(at, bytes)
        }
        Call::Cut(to) => disk.cut(to),
        Call::Sync => disk.sync(),
    };
    assert!(rt; done.is_ok());
}

// Each row: the calls on a disk that holds `abc`, and what a crash leaves by each pick.
const IMAGES: [(&[Call], [&[u8]; 4]); 6] = [
    (&[], [b"abc", b"abc", b"abc", b"abc"]),
    (
        &[Call::Write(1, b"xy")],
        [b"axy", b"a\x01\x01", b"a\x01y", b"abc"],
    ),
    (
        &[Call::Write(2, b"xy")],
        [b"abxy", b"ab\x01\x01", b"ab\x01y", b"abc"],
    ),
    (&[Call::Cut(1)], [b"a", b"a", b"abc", b"abc"]),
    (
        &[Call::Write(1, b"xy"), Call::Sync],
        [b"axy", b"axy", b"axy", b"axy"],
    ),
    (
        &[Call::Write(1, b"xy"), Call::Cut(2)],
        [b"ax", b"ax", b"axy", b"axy"],
    ),
];

fn image(rt: &impl Abort, alloc: Global, calls: &[Call], pick: u64, left: &[u8]) {
    let held = Vec::from_slice(alloc, b"abc").expect(rt, "memory");
    let mut disk = MemoryDisk::new(alloc, held, Vec::new(alloc));
    for call in calls {
        does(rt, &mut disk, *call);
    }
    let crashed = disk.crash(pick);
    assert!(rt; crashed.bytes() == left, "pick {pick}");
    drop(crashed);
}

#[test]
fn a_crash_leaves_these_images(rt: HostRuntime) {
    for (calls, images) in IMAGES {
        for (pick, left) in images.iter().enumerate() {
            image(&rt, rt.alloc(), calls, pick as u64, left);
        }
    }
}
