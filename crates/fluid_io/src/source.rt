//! Where bytes come from.
ghost use Rattle.std.specs.Prelude.{◌≡◌, ℕ, ◌+◌, ◌-◌, ◌*◌, ◌^◌, ◌<◌, ◌≤◌, List, length};
ghost use Rattle.fluid_io.specs.Causes.{HasExactCause};
ghost use Rattle.fluid_io.specs.Streams.{Reading, ReadDoes};
ghost use Rattle.fluid_io.specs.Memory.{MemoryReads};

use crate::{Failed, FaultPlan};
use std::io::Read;
use std::marker::Model;

/// A stream of bytes that comes in. Whether a source tells its bytes never changes.
pub trait Source {
    /// The bytes that it has left, where it tells them, and its count of faults.
    ghost seen: { Self → Reading };

    /// Puts at most `into.len()` bytes to the front of `into`, and says how many. With none into a buffer that
    /// has room the source has ended. Behind the bytes the buffer holds anything. After a fault nothing was read.
    fn read(&mut self, into: &mut [u8]) -> Result<usize, Failed>
        ensures cause { HasExactCause (seen self.old).faults (seen self.new).faults result }
        ensures does { ReadDoes (seen self.old) (seen self.new) into.new result };
}

/// Bytes in memory, given in pieces of at most `most` bytes. It tells them.
#[derive(Drop)]
pub struct MemorySource {
    bytes: Vec<u8>,
    start: usize,
    most: usize,
    plan: FaultPlan,
}

impl Model for MemorySource {
    ghost use Rattle.std.specs.Prelude.{◌<◌, ◌≤◌, vec_len, drop};
    ghost use Rattle.fluid_io.specs.Memory.{MemoryReading};

    ghost Value = { MemoryReading };

    ghost view = { λ s. record { left = drop s.start s.bytes.items; most = s.most; plan = s.plan } };

    ghost invariant = { λ s. (s.start ≤ vec_len s.bytes) × (0 < s.most) };
}

impl MemorySource {
    /// All of `bytes` is left. The reads whose numbers from 1 are in `failing` fail.
    pub fn new(bytes: Vec<u8>, failing: Vec<u64>) -> MemorySource
        ensures { result ≡ record {
          left = bytes.items;
          most = usize.MAX;
          plan = record { failing = failing.items; calls = 0; faults = 0 };
        } }
    {
        MemorySource::in_pieces(bytes, usize::MAX, failing)
    }

    /// The same, and each read gives at most `most` bytes.
    pub fn in_pieces(bytes: Vec<u8>, most: usize, failing: Vec<u64>) -> MemorySource
        requires { 0 < most }
        ensures { result ≡ record {
          left = bytes.items;
          most = most;
          plan = record { failing = failing.items; calls = 0; faults = 0 };
        } }
    {
        MemorySource {
            bytes,
            start: 0,
            most,
            plan: FaultPlan::new(failing),
        }
    }
}

impl Source for MemorySource {
    ghost use Rattle.std.specs.Prelude.{Some};

    ghost seen = { λ s. record { left = Some s.left; faults = s.plan.faults } };

    /// Fails exactly where the plan says so. Else it gives as much as the buffer has room for, a piece has and
    /// is left.
    fn read(&mut self, into: &mut [u8]) -> Result<usize, Failed>
        ensures cause { HasExactCause self.old.plan.faults self.new.plan.faults result }
        ensures does { ReadDoes (record { left = Some self.old.left; faults = self.old.plan.faults })
            (record { left = Some self.new.left; faults = self.new.plan.faults }) into.new result }
        ensures exact { MemoryReads self.old self.new (length into.new) result }
    {
        if self.plan.fails() {
            return Err(Failed);
        }
        let left = self.bytes.len() - self.start;
        let count = into.len().min(self.most).min(left);
        into[..count].copy_from_slice(&self.bytes[self.start..self.start + count]);
        self.start += count;
        Ok(count)
    }
}

/// A reader of std. It tells nothing of its bytes.
#[derive(Drop)]
pub struct StdSource<R: Read> {
    inner: R,
    faults: u64,
}

impl<R: Read> Model for StdSource<R> {
    ghost use Rattle.std.specs.Prelude.{ℕ};

    ghost Value = { ℕ };

    ghost view = { λ s. s.faults };
}

impl<R: Read> StdSource<R> {
    /// No fault was counted.
    pub fn new(inner: R) -> StdSource<R>
        ensures { result ≡ 0 }
    {
        StdSource { inner, faults: 0 }
    }
}

impl<R: Read> Source for StdSource<R> {
    ghost use Rattle.std.specs.Prelude.{None};

    ghost seen = { λ faults. record { left = None; faults = faults } };

    /// Each error of the reader is a fault.
    fn read(&mut self, into: &mut [u8]) -> Result<usize, Failed> {
        match self.inner.read(into) {
            Ok(count) => Ok(count),
            Err(_) => {
                self.faults = self.faults.saturating_add(1);
                Err(Failed)
            }
        }
    }
}
