//! Where bytes go.
ghost use Rattle.std.specs.Prelude.{◌≡◌, ℕ, ◌+◌, ◌-◌, ◌*◌, ◌^◌, ◌<◌, ◌≤◌, List, [], length};
ghost use Rattle.fluid_io.specs.Causes.{HasExactCause, Rose};
ghost use Rattle.fluid_io.specs.Streams.{Writing, WriteDoes, WriteAllDoes};
ghost use Rattle.fluid_io.specs.Memory.{MemoryWrites, MemoryFlushes};

use crate::{Failed, FaultPlan};
use std::alloc::Global;
use std::io::Write;
use std::marker::Model;

/// A stream of bytes that goes out. Whether a sink tells its bytes never changes.
pub trait Sink {
    /// The bytes that were written to it, where it tells them, and its count of faults.
    ghost seen: { Self → Writing };

    /// Takes bytes from the front of `bytes`, and says how many. It takes some of a piece that has any: a sink
    /// that can take no more fails. After a fault nothing was taken.
    fn write(&mut self, bytes: &[u8]) -> Result<usize, Failed>
        ensures cause { HasExactCause (seen self.old).faults (seen self.new).faults result }
        ensures does { WriteDoes (seen self.old) (seen self.new) bytes.now result };

    /// Hands on what the sink holds back.
    fn flush(&mut self) -> Result<(), Failed>
        ensures cause { HasExactCause (seen self.old).faults (seen self.new).faults result }
        ensures same { (seen self.new).written ≡ (seen self.old).written };
}

/// Writes all of `bytes`. After a fault a part from their front was written, maybe none or all of them.
pub fn write_all<K: Sink>(sink: &mut K, bytes: &[u8]) -> Result<(), Failed>
    ensures cause { HasExactCause (K.seen sink.old).faults (K.seen sink.new).faults result }
    ensures does { WriteAllDoes (K.seen sink.old) (K.seen sink.new) bytes.now result }
{
    let mut rest = bytes;
    while !rest.is_empty() {
        let count = sink.write(rest)?;
        rest = &rest[count..];
    }
    Ok(())
}

/// Bytes in memory, taken in pieces of at most `most` bytes. It tells them.
#[derive(Drop)]
pub struct MemorySink {
    bytes: Vec<u8>,
    most: usize,
    plan: FaultPlan,
}

impl Model for MemorySink {
    ghost use Rattle.std.specs.Prelude.{◌<◌};
    ghost use Rattle.fluid_io.specs.Memory.{MemoryWriting};

    ghost Value = { MemoryWriting };

    ghost view = { λ s. record { written = s.bytes.items; most = s.most; plan = s.plan } };

    ghost invariant = { λ s. 0 < s.most };
}

impl MemorySink {
    /// Nothing was written. The calls of `write` and `flush` whose numbers from 1 are in `failing` fail.
    pub fn new(alloc: Global, failing: Vec<u64>) -> MemorySink
        ensures { result ≡ record {
          written = [];
          most = usize.MAX;
          plan = record { failing = failing.items; calls = 0; faults = 0 };
        } }
    {
        MemorySink::in_pieces(alloc, usize::MAX, failing)
    }

    /// The same, and each write takes at most `most` bytes.
    pub fn in_pieces(alloc: Global, most: usize, failing: Vec<u64>) -> MemorySink
        requires { 0 < most }
        ensures { result ≡ record {
          written = [];
          most = most;
          plan = record { failing = failing.items; calls = 0; faults = 0 };
        } }
    {
        MemorySink {
            bytes: Vec::new(alloc),
            most,
            plan: FaultPlan::new(failing),
        }
    }

    /// All bytes that were written.
    pub fn written(&self) -> &[u8]
        ensures { result.now ≡ self.now.written }
    {
        &self.bytes
    }
}

impl Sink for MemorySink {
    ghost use Rattle.std.specs.Prelude.{Some};

    ghost seen = { λ s. record { written = Some s.written; faults = s.plan.faults } };

    /// Fails where the plan says so, and where memory is missing, which counts as a fault.
    fn write(&mut self, bytes: &[u8]) -> Result<usize, Failed>
        ensures cause { HasExactCause self.old.plan.faults self.new.plan.faults result }
        ensures does { WriteDoes (record { written = Some self.old.written; faults = self.old.plan.faults })
            (record { written = Some self.new.written; faults = self.new.plan.faults }) bytes.now result }
        ensures exact { MemoryWrites self.old self.new (length bytes.now) result }
    {
        if self.plan.fails() {
            return Err(Failed);
        }
        let count = bytes.len().min(self.most);
        match self.bytes.extend_from_slice(&bytes[..count]) {
            Ok(()) => Ok(count),
            Err(_) => {
                self.plan.count_fault();
                Err(Failed)
            }
        }
    }

    /// Fails exactly where the plan says so.
    fn flush(&mut self) -> Result<(), Failed>
        ensures cause { HasExactCause self.old.plan.faults self.new.plan.faults result }
        ensures same { Some self.new.written ≡ Some self.old.written }
        ensures exact { MemoryFlushes self.old self.new result }
    {
        if self.plan.fails() {
            return Err(Failed);
        }
        Ok(())
    }
}

/// A writer of std. It tells nothing of its bytes.
#[derive(Drop)]
pub struct StdSink<W: Write> {
    inner: W,
    faults: u64,
}

impl<W: Write> Model for StdSink<W> {
    ghost use Rattle.std.specs.Prelude.{ℕ};

    ghost Value = { ℕ };

    ghost view = { λ s. s.faults };
}

impl<W: Write> StdSink<W> {
    /// No fault was counted.
    pub fn new(inner: W) -> StdSink<W>
        ensures { result ≡ 0 }
    {
        StdSink { inner, faults: 0 }
    }

    // Counts a fault.
    fn failed(&mut self) -> Failed
        ensures rose { Rose self.old self.new }
        ensures later { self.old ≤ self.new }
    {
        self.faults = self.faults.saturating_add(1);
        Failed
    }
}

impl<W: Write> Sink for StdSink<W> {
    ghost use Rattle.std.specs.Prelude.{None};

    ghost seen = { λ faults. record { written = None; faults = faults } };

    /// Each error of the writer is a fault, and so is a write that takes no byte of a piece that has any.
    fn write(&mut self, bytes: &[u8]) -> Result<usize, Failed> {
        match self.inner.write(bytes) {
            Ok(0) if !bytes.is_empty() => Err(self.failed()),
            Ok(count) => Ok(count),
            Err(_) => Err(self.failed()),
        }
    }

    fn flush(&mut self) -> Result<(), Failed> {
        match self.inner.flush() {
            Ok(()) => Ok(()),
            Err(_) => Err(self.failed()),
        }
    }
}
