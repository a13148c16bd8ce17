use fluid_json::Bytes;

/// A call that a disk in memory has done, with what takes it back.
#[derive(Drop)]
pub enum Call {
    /// A write of so many bytes at a place, and the bytes that stood there.
    Wrote(usize, usize, Bytes),
    /// A cut to a length, and the bytes that it let go of.
    CutOff(usize, Bytes),
    Synced,
}
