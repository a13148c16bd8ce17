//! What a disk is.
ghost use Rattle.std.specs.Prelude.{◌≡◌, ◌≤◌, ℕ, Bool, is_some, List, length, OnOk};
ghost use Rattle.fluid_io.specs.Causes.{HasCause, Tells};
ghost use Rattle.fluid_disk.specs.Disk.{Stored, IsSized, IsDurable, StaysAsRead, ReadDoes, WriteDoes, CutDoes, Torn, Cut, Follows, Elapses};

use fluid_io::Failed;

/// One file of bytes on a disk. Whether a disk tells its bytes is a matter of its kind, and its count of faults never falls.
/// Between two syncs a crash may leave any bytes in a range that was written, and in what was written past the old end;
/// a cut has happened or it hasn't; all other bytes stay.
pub trait Disk {
    /// What a read gives, where the disk tells it, its length and its count of faults.
    ghost seen: { Self → Stored };

    /// Whether disks of this kind tell their bytes.
    ghost tells: { Bool };

    /// What a crash now may leave.
    ghost may_leave: { Self → List ℕ → Type 0 };

    /// The moment, as a number that doesn't fall.
    ghost moment: { Self → ℕ };

    /// What a crash at some moment since that one might have left, inside a call or between two.
    ghost left_since: { Self → ℕ → List ℕ → Type 0 };

    /// How many bytes it has.
    fn len(&self) -> u64
        ensures { result ≡ (seen self.now).size };

    /// Reads bytes from this place on, and says how many. Where there are some and some are asked for, it reads some.
    fn read(&mut self, at: u64, into: &mut [u8]) -> Result<usize, Failed>
        ensures cause { HasCause (seen self.old).faults (seen self.new).faults result }
        ensures same { StaysAsRead (seen self.old) (seen self.new) }
        ensures gives { ReadDoes at (seen self.old) into.old into.new result }
        ensures crash { (image : List ℕ) → may_leave self.new image → may_leave self.old image }
        ensures time { Elapses (moment self.old) (moment self.new) (left_since self.old) (left_since self.new) (may_leave self.new) };

    /// Writes over what stands there, and past the end.
    fn write_at(&mut self, at: u64, bytes: &[u8]) -> Result<(), Failed>
        requires { at ≤ (seen self.old).size }
        ensures cause { HasCause (seen self.old).faults (seen self.new).faults result }
        ensures does { WriteDoes at bytes.now (seen self.old) (seen self.new) result }
        ensures crash { Follows (Torn at (length bytes.now)) (may_leave self.old) (may_leave self.new) }
        ensures time { Elapses (moment self.old) (moment self.new) (left_since self.old) (left_since self.new) (may_leave self.new) };

    /// Lets go of the bytes from this place on.
    fn cut(&mut self, to: u64) -> Result<(), Failed>
        ensures cause { HasCause (seen self.old).faults (seen self.new).faults result }
        ensures does { CutDoes to (seen self.old) (seen self.new) result }
        ensures crash { Follows (Cut to) (may_leave self.old) (may_leave self.new) }
        ensures time { Elapses (moment self.old) (moment self.new) (left_since self.old) (left_since self.new) (may_leave self.new) };

    /// After it a crash leaves what a read gives.
    fn sync(&mut self) -> Result<(), Failed>
        ensures cause { HasCause (seen self.old).faults (seen self.new).faults result }
        ensures same { StaysAsRead (seen self.old) (seen self.new) }
        ensures durable { OnOk result (IsDurable (seen self.new) (may_leave self.new)) }
        ensures crash { (image : List ℕ) → may_leave self.new image → may_leave self.old image }
        ensures time { Elapses (moment self.old) (moment self.new) (left_since self.old) (left_since self.new) (may_leave self.new) };

    /// Each disk of the kind tells its bytes, or none does.
    ghost told: { (disk : Self) → is_some (seen disk).bytes ≡ tells };

    /// The length is that of the bytes.
    ghost sized: { (disk : Self) → IsSized (seen disk) };

    /// A crash may leave what a read gives.
    ghost leaves_read: { (disk : Self) → Tells (seen disk).bytes (may_leave disk) };

    /// This moment is one of those since an earlier one.
    ghost counts_now: { (disk : Self) (t : ℕ) (image : List ℕ) → t ≤ moment disk → may_leave disk image → left_since disk t image };

    /// Since this moment there is no other.
    ghost only_now: { (disk : Self) (image : List ℕ) → left_since disk (moment disk) image → may_leave disk image };
}
