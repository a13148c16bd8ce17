ghost use Rattle.std.specs.Prelude.{◌≡◌, ℕ, ◌+◌, ◌-◌, ◌<◌, ◌≤◌, min};
ghost use Rattle.fluid_cast.specs.Stretch.{numbers_of, stretch};

use std::ops::Range;

/// The place of a reader in an order.
#[derive(Clone, Copy, Debug, PartialEq, Eq)]
pub struct Cursor {
    /// The number of the next message that it gets; messages are numbered from 1.
    pub next: u64,
}

impl Cursor {
    /// The numbers from `next` on that an order of `len` messages has, at most `most`. For a cursor beyond the last number
    /// the range is empty and begins at its place; for one at 0 it begins with 0, which is no message's number. Takes no
    /// memory.
    pub fn batch(&self, len: u64, most: u64) -> Range<u64>
        requires { len < u64.MAX }
        ensures start { result.start ≡ self.now.next }
        ensures end { result.end ≡ self.now.next + min most (len + 1 - self.now.next) }
        ensures numbers { numbers_of result ≡ stretch self.now.next len most }
    {
        let left = (len + 1).saturating_sub(self.next);
        self.next..self.next + left.min(most)
    }

    /// Goes to this number, forward or back. Takes no memory.
    pub fn advance(&mut self, to: u64)
        ensures { self.new.next ≡ to }
    {
        self.next = to;
    }
}
