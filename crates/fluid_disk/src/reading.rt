//! Reading whole pieces of a disk.
ghost use Rattle.std.specs.Prelude.{◌≡◌, ◌+◌, ◌-◌, ◌*◌, ◌^◌, ◌<◌, ◌≤◌, ℕ, Some, List, [], ◌∷◌, length, get_or, take, drop, IfOk, OnOk};
ghost use Rattle.fluid_io.specs.Causes.{HasCause};
ghost use Rattle.fluid_log.specs.Calls.{IsCaused};
ghost use Rattle.fluid_disk.specs.Files.{OnlyReads};

use crate::Disk;
use fluid_io::Failed;
use fluid_log::KeeperFault;
use std::alloc::Global;

// Fills a buffer with what stands from this place on, which are that many bytes.
pub fn fill<D: Disk>(disk: &mut D, at: u64, into: &mut [u8]) -> Result<(), Failed>
    requires { at + length into.old ≤ (D.seen disk.old).size }
    ensures cause { HasCause (D.seen disk.old).faults (D.seen disk.new).faults result }
    ensures reads { OnlyReads D.seen D.may_leave D.moment D.left_since disk.old disk.new }
    ensures filled { OnOk result ((held : List ℕ) → (D.seen disk.old).bytes ≡ Some held → into.new ≡ take (length into.old) (drop at held)) }
{
    let _size = disk.len();
    let mut done = 0;
    while done < into.len() {
        done += disk.read(at + done as u64, &mut into[done..])?;
    }
    Ok(())
}

// The byte at this place.
pub fn byte_at<D: Disk>(disk: &mut D, at: u64) -> Result<u8, Failed>
    requires { at < (D.seen disk.old).size }
    ensures cause { HasCause (D.seen disk.old).faults (D.seen disk.new).faults result }
    ensures reads { OnlyReads D.seen D.may_leave D.moment D.left_since disk.old disk.new }
    ensures byte { IfOk result (λ byte. (held : List ℕ) → (D.seen disk.old).bytes ≡ Some held → byte ≡ get_or held at 0) }
{
    let mut byte = [0];
    fill(disk, at, &mut byte)?;
    Ok(byte[0])
}

// So many bytes from this place on.
pub fn piece<D: Disk>(
    alloc: Global,
    disk: &mut D,
    at: u64,
    count: usize,
) -> Result<Vec<u8>, KeeperFault>
    requires { at + count ≤ (D.seen disk.old).size }
    ensures cause { IsCaused (D.seen disk.old).faults (D.seen disk.new).faults result }
    ensures reads { OnlyReads D.seen D.may_leave D.moment D.left_since disk.old disk.new }
    ensures size { IfOk result (λ piece. length piece.items ≡ count) }
    ensures bytes { IfOk result (λ piece. (held : List ℕ) → (D.seen disk.old).bytes ≡ Some held → piece.items ≡ take count (drop at held)) }
{
    let mut piece = vec![in alloc; 0; count]?;
    fill(disk, at, &mut piece)?;
    Ok(piece)
}
