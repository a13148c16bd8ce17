use fluid_disk::Disk;
use fluid_disk_keeper::{DiskKeeper, Disks};

/// Where the keeper of a document is.
#[derive(Drop)]
pub enum Seat<D: Disk> {
    /// On disks that weren't opened yet, or whose opening failed.
    Shut(Disks<D>),
    In(DiskKeeper<D>),
    /// It was given, with so many faults.
    Out(u64),
}
