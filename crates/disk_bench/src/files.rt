//! Record files on disks in memory.
use fluid_disk::{MemoryDisk, RecordFile};
use fluid_log::KeeperFault;
use std::alloc::Global;

const RECORD: &[u8] = b"sixteen bytes...";

const SPELLED: [u8; 9] = [1, 0, 0, 0, 4, b'f', b'o', b'u', b'r'];

/// How many records a file has, and how many calls were made on its disk.
#[derive(Clone, Copy)]
pub struct Counts {
    pub records: u64,
    pub calls: u64,
}

/// Appends so many records of sixteen bytes to an empty file.
pub fn appended(alloc: Global, count: u64) -> Result<Counts, KeeperFault> {
    let disk = MemoryDisk::new(alloc, Vec::new(alloc), Vec::new(alloc));
    let Ok(mut file) = RecordFile::open(alloc, disk) else {
        return Err(KeeperFault::NoMemory);
    };
    for _ in 0..count {
        file.append(alloc, RECORD)?;
    }
    Ok(counted(file))
}

/// Opens a disk that holds so many records of four bytes.
pub fn opened(alloc: Global, count: u64) -> Result<Counts, KeeperFault> {
    let mut bytes = Vec::new(alloc);
    for _ in 0..count {
        bytes.extend_from_slice(&SPELLED)?;
    }
    let Ok(file) = RecordFile::open(alloc, MemoryDisk::new(alloc, bytes, Vec::new(alloc))) else {
        return Err(KeeperFault::NoMemory);
    };
    Ok(counted(file))
}

fn counted(file: RecordFile<MemoryDisk>) -> Counts {
    let records = file.len();
    let disk = file.close();
    Counts {
        records,
        calls: disk.calls(),
    }
}
