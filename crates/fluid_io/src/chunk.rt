//! Bytes that were read ahead, and how a line is taken from them.
ghost use Rattle.std.specs.Prelude.{◌≡◌, ℕ, ◌+◌, ◌-◌, ◌*◌, ◌^◌, ◌<◌, ◌≤◌, ◌==◌, List, [], length, IfOk, OnOk, OnErr};
ghost use Rattle.fluid_io.specs.Causes.{HasExactCause, Tells};
ghost use Rattle.fluid_io.specs.Chunk.{behind_held, SearchesLine, TakesPiece};
ghost use Rattle.fluid_io.specs.Lines.{IsPlain, StaysQuiet};

use crate::{Failed, LineFault, Source};
use memchr::memchr;
use std::alloc::{AllocError, Global};
use std::marker::Model;

/// How many bytes are read ahead at most.
const CHUNK_SIZE: usize = 65_536;

/// A buffer on the heap, of which the part from `start` to `end` is held.
#[derive(Drop)]
pub(crate) struct Chunk {
    bytes: Vec<u8>,
    start: usize,
    end: usize,
}

impl Model for Chunk {
    ghost use Rattle.std.specs.Prelude.{ℕ, List, ◌-◌, ◌<◌, ◌≤◌, vec_len, take, drop};

    ghost Value = { List ℕ };

    ghost view = { λ c. take (c.end - c.start) (drop c.start c.bytes.items) };

    ghost invariant = { λ c. (c.start ≤ c.end) × (c.end ≤ vec_len c.bytes) × (0 < vec_len c.bytes) };
}

impl Chunk {
    pub(crate) fn new(alloc: Global) -> Result<Chunk, AllocError>
        ensures { IfOk result (λ chunk. chunk ≡ []) }
    {
        let bytes = vec![in alloc; 0; CHUNK_SIZE]?;
        Ok(Chunk {
            bytes,
            start: 0,
            end: 0,
        })
    }

    pub(crate) fn is_empty(&self) -> bool
        ensures { result ≡ (length self.now == 0) }
    {
        self.start == self.end
    }

    /// Reads ahead where nothing is held. Then nothing is held only where the source has ended or failed.
    pub(crate) fn fill<S: Source>(&mut self, source: &mut S) -> Result<(), Failed>
        ensures cause { HasExactCause (S.seen source.old).faults (S.seen source.new).faults result }
        ensures same { behind_held self.new (S.seen source.new) ≡ behind_held self.old (S.seen source.old) }
        ensures ended { OnOk result (self.new ≡ [] → Tells (behind_held self.new (S.seen source.new)) (λ bytes. bytes ≡ [])) }
        ensures used { OnErr result (behind_held self.new (S.seen source.new) ≡ (S.seen source.new).left) }
    {
        if self.start < self.end {
            return Ok(());
        }
        let count = source.read(&mut self.bytes)?;
        self.start = 0;
        self.end = count;
        Ok(())
    }

    /// Moves bytes up to the next line feed to the end of `line`, and passes the line feed over. Where none is
    /// held it moves all, and answers false.
    pub(crate) fn take_piece(&mut self, line: &mut Vec<u8>) -> Result<bool, AllocError>
        ensures piece { IfOk result (TakesPiece self.old self.new line.old.items line.new.items) }
        ensures same { OnErr result (self.new ≡ self.old) }
        ensures line { OnErr result (line.new.items ≡ line.old.items) }
    {
        let held = &self.bytes[self.start..self.end];
        match memchr(b'\n', held) {
            Some(at) => {
                line.extend_from_slice(&held[..at])?;
                self.start += at + 1;
                Ok(true)
            }
            None => {
                line.extend_from_slice(held)?;
                self.start = self.end;
                Ok(false)
            }
        }
    }

    /// Moves the bytes of the next line to the end of `line`, which is empty, and passes its line feed over.
    pub(crate) fn take_line<S: Source>(
        &mut self,
        source: &mut S,
        limit: usize,
        line: &mut Vec<u8>,
    ) -> Result<Ending, LineFault>
        requires { line.old.items ≡ [] }
        ensures later { (S.seen source.old).faults ≤ (S.seen source.new).faults }
        ensures quiet { StaysQuiet (S.seen source.old).faults (S.seen source.new).faults result }
        ensures plain { IsPlain line.new.items }
        ensures does { SearchesLine limit (S.seen source.old) (S.seen source.new) (behind_held self.old (S.seen source.old))
            (behind_held self.new (S.seen source.new)) line.new.items result }
    {
        loop {
            self.fill(source)?;
            if self.is_empty() {
                return Ok(Ending::Input);
            }
            if self.take_piece(line)? {
                return Ok(Ending::LineFeed);
            }
            if line.len() > limit && line.len() - 1 > limit {
                return Ok(Ending::Excess);
            }
        }
    }
}

/// How the bytes of a line came to their end.
#[derive(Drop)]
pub(crate) enum Ending {
    /// A line feed stands behind them.
    LineFeed,
    /// The input has no more.
    Input,
    /// They are more than a line may have, whatever stands behind them.
    Excess,
}
