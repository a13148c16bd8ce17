//! A wire over a source and a sink, with one text a line.
ghost use Rattle.std.specs.Prelude.{◌≡◌, ℕ, ◌+◌, ◌-◌, ◌*◌, ◌^◌, ◌<◌, ◌≤◌, [], ◌∷◌, ◌++◌, List, length, true, false, Ok};
ghost use Rattle.fluid_io.specs.Causes.{HasCause, Rose, one_more};
ghost use Rattle.fluid_io.specs.Streams.{WriteAllDoes};
ghost use Rattle.fluid_lines.specs.Lined.{lined_seen, faults_after, EndsBehind, HasLineCause, SendsLine};
ghost use Rattle.fluid_lines.specs.Wires.{Receives, Sends, Stays};

use crate::{Recv, Wire, WireFault};
use fluid_io::{Failed, LONGEST_TEXT, Line, LineFault, Lines, Sink, Source, write_all};
use std::alloc::Global;
use std::marker::Model;
use std::sync::Wait;

/// Texts that are lines: an empty line is a text. What is sent has no line feed. A line that is too long, that is
/// no UTF-8 or that is one too many, a fault of the source and want of memory each end what comes in.
#[derive(Drop)]
pub struct LineWire<S: Source, K: Sink> {
    source: S,
    sink: K,
    lines: Lines,
    faults: u64,
}

impl<S: Source, K: Sink> Model for LineWire<S, K> {
    ghost use Rattle.fluid_lines.specs.Lined.{LineWiring};

    ghost Value = { LineWiring };

    ghost use Rattle.std.specs.Prelude.{◌≡◌};
    ghost use Rattle.fluid_io.specs.declared.lines.TheConstants.{LONGEST_TEXT as longest};

    ghost invariant = { λ w. w.lines.limit ≡ longest };

    ghost view = { λ w. record { reader = w.lines; source = S.seen w.source; sink = K.seen w.sink; faults = w.faults } };
}

impl<S: Source, K: Sink> LineWire<S, K> {
    /// No line was read, and no fault was counted.
    pub fn new(source: S, sink: K) -> LineWire<S, K>
        ensures { result ≡ record {
          reader = record { held = []; count = 0; failed = false; limit = LONGEST_TEXT };
          source = S.seen source;
          sink = K.seen sink;
          faults = 0;
        } }
    {
        LineWire {
            source,
            sink,
            lines: Lines::new(LONGEST_TEXT),
            faults: 0,
        }
    }

    /// The source, less what was read ahead, and the sink.
    pub fn into_parts(self) -> (S, K)
        ensures source { S.seen result.0 ≡ self.source }
        ensures sink { K.seen result.1 ≡ self.sink }
    {
        let LineWire {
            source,
            sink,
            lines: _,
            faults: _,
        } = self;
        (source, sink)
    }

    // Counts a fault.
    fn failed(&mut self) -> WireFault
        ensures after { self.new ≡ record self.old { faults = one_more self.old.faults } }
        ensures fault { result ≡ WireFault.Failed }
        ensures rose { Rose self.old.faults self.new.faults }
        ensures later { self.old.faults ≤ self.new.faults }
    {
        self.faults = self.faults.saturating_add(1);
        WireFault::Failed
    }
}

impl<S: Source, K: Sink> Wire for LineWire<S, K> {
    ghost seen = { lined_seen };

    /// It fails only where the source does, or where the next line is no UTF-8 or one too many. Then, behind a line
    /// that is too long and behind want of memory, it answers `End`.
    fn recv<R: Wait>(&mut self, _rt: &R, alloc: Global) -> Result<Recv, WireFault>
        ensures stays { Stays (lined_seen self.old) (lined_seen self.new) }
        ensures does { Receives (lined_seen self.old) (lined_seen self.new) result }
        ensures cause { HasLineCause self.old self.new result }
        ensures faults { self.new.faults ≡ faults_after self.old.faults result }
        ensures sink { self.new.sink ≡ self.old.sink }
        ensures reader { EndsBehind self.new result }
        ensures ended { self.old.reader.failed ≡ true → (result ≡ Ok Recv.End) × (self.new ≡ self.old) }
    {
        match self.lines.next(alloc, &mut self.source) {
            Ok(Line::Text(text)) => Ok(Recv::Text(text)),
            Ok(Line::End) => Ok(Recv::End),
            Err(LineFault::TooLong(_)) => Ok(Recv::TooLong(LONGEST_TEXT as u64 + 1)),
            Err(LineFault::NoMemory) => Err(WireFault::NoMemory),
            Err(LineFault::ReadFault) => Err(self.failed()),
            Err(LineFault::NotUtf8(_)) => Err(self.failed()),
            Err(LineFault::TooMany(_)) => Err(self.failed()),
        }
    }

    /// It fails only where the sink does, and takes no memory.
    fn send<R: Wait>(&mut self, _rt: &R, _alloc: Global, text: &str) -> Result<(), WireFault>
        ensures stays { Stays (lined_seen self.old) (lined_seen self.new) }
        ensures texts { (lined_seen self.new).texts ≡ (lined_seen self.old).texts }
        ensures does { Sends (lined_seen self.old) (lined_seen self.new) text.now result }
        ensures line { SendsLine self.old self.new text.now result }
        ensures faults { self.new.faults ≡ faults_after self.old.faults result }
        ensures source { (self.new.source ≡ self.old.source) × (self.new.reader ≡ self.old.reader) }
    {
        match write_line(&mut self.sink, text.as_bytes()) {
            Ok(()) => Ok(()),
            Err(Failed) => Err(self.failed()),
        }
    }
}

// Writes a text and its line feed, and hands them on.
fn write_line<K: Sink>(sink: &mut K, text: &[u8]) -> Result<(), Failed>
    ensures cause { HasCause (K.seen sink.old).faults (K.seen sink.new).faults result }
    ensures does { WriteAllDoes (K.seen sink.old) (K.seen sink.new) (text.now ++ 10 ∷ []) result }
{
    write_all(sink, text)?;
    write_all(sink, b"\n")?;
    sink.flush()
}
