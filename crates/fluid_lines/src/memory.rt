//! A wire in memory.
ghost use Rattle.std.specs.Prelude.{◌≡◌, ℕ, ◌+◌, ◌-◌, ◌*◌, ◌^◌, ◌<◌, ◌≤◌, [], List, length, Some, Ok};
ghost use Rattle.fluid_io.specs.Plan.{called_by_plan};
ghost use Rattle.fluid_json.specs.Unless.{IsUnless};
ghost use Rattle.fluid_lines.specs.Memory.{memory_seen, recv_answer, send_answer, text_answer, texts_after, history_after};
ghost use Rattle.fluid_lines.specs.Wires.{Receives, Sends, Stays};

use crate::{Recv, Wire, WireFault, WireText};
use fluid_io::{FaultPlan, LONGEST_TEXT};
use fluid_json::Text;
use std::alloc::Global;
use std::collections::VecDeque;
use std::marker::Model;
use std::sync::Wait;

/// What a wire in memory is to answer. Calls are named by their numbers from 1, receives and sends by numbers of
/// their own. A receive that is both to fail and to be quiet fails.
#[derive(Drop)]
pub struct WireScript {
    /// The texts that come in, in this order.
    pub texts: VecDeque<Text>,
    /// The receives that fail.
    pub failing_receives: Vec<u64>,
    /// The sends that fail.
    pub failing_sends: Vec<u64>,
    /// The receives that are answered `Quiet`.
    pub quiet_receives: Vec<u64>,
}

/// A wire in memory. It tells its history. A text that is too long is passed over.
#[derive(Drop)]
pub struct MemoryWire {
    history: Vec<WireText>,
    texts: VecDeque<Text>,
    receives: FaultPlan,
    sends: FaultPlan,
    quiet: Vec<u64>,
    quiets: u64,
}

impl Model for MemoryWire {
    ghost use Rattle.fluid_lines.specs.Memory.{MemoryWiring};

    ghost Value = { MemoryWiring };

    ghost view = { λ w. record {
      history = w.history.items;
      texts = w.texts.items;
      receives = w.receives;
      sends = w.sends;
      quiet = w.quiet.items;
      quiets = w.quiets;
    } };
}

impl MemoryWire {
    /// Nothing came in or went out yet.
    pub fn new(alloc: Global, script: WireScript) -> MemoryWire
        ensures { result ≡ record {
          history = [];
          texts = script.texts.items;
          receives = record { failing = script.failing_receives.items; calls = 0; faults = 0 };
          sends = record { failing = script.failing_sends.items; calls = 0; faults = 0 };
          quiet = script.quiet_receives.items;
          quiets = 0;
        } }
    {
        let WireScript {
            texts,
            failing_receives,
            failing_sends,
            quiet_receives,
        } = script;
        MemoryWire {
            history: Vec::new(alloc),
            texts,
            receives: FaultPlan::new(failing_receives),
            sends: FaultPlan::new(failing_sends),
            quiet: quiet_receives,
            quiets: 0,
        }
    }

    /// The texts that came in and went out, oldest first.
    pub fn history(&self) -> &[WireText]
        ensures { result.now ≡ self.now.history }
    {
        &self.history
    }
}

impl Wire for MemoryWire {
    ghost seen = { memory_seen };

    /// It takes memory for the text in its history. Without it no text was taken.
    fn recv<R: Wait>(&mut self, _rt: &R, alloc: Global) -> Result<Recv, WireFault>
        ensures stays { Stays (memory_seen self.old) (memory_seen self.new) }
        ensures does { Receives (memory_seen self.old) (memory_seen self.new) result }
        ensures answer { IsUnless WireFault.NoMemory result (recv_answer self.old) }
        ensures texts { self.new.texts ≡ texts_after self.old.texts result }
        ensures plans { (self.new.receives ≡ called_by_plan self.old.receives) × (self.new.sends ≡ self.old.sends) × (self.new.quiet ≡ self.old.quiet) }
    {
        if self.receives.fails() {
            return Err(WireFault::Failed);
        }
        if self.quiet.contains(&self.receives.calls()) {
            self.quiets = self.quiets.saturating_add(1);
            return Ok(Recv::Quiet);
        }
        take_next(alloc, &mut self.texts, &mut self.history)
    }

    /// It takes memory for the text in its history.
    fn send<R: Wait>(&mut self, _rt: &R, alloc: Global, text: &str) -> Result<(), WireFault>
        ensures stays { Stays (memory_seen self.old) (memory_seen self.new) }
        ensures texts { Some self.new.texts ≡ Some self.old.texts }
        ensures does { Sends (memory_seen self.old) (memory_seen self.new) text.now result }
        ensures answer { IsUnless WireFault.NoMemory result (send_answer self.old) }
        ensures plans { (self.new.receives ≡ self.old.receives) × (self.new.sends ≡ called_by_plan self.old.sends) × (self.new.quiet ≡ self.old.quiet) }
    {
        if self.sends.fails() {
            return Err(WireFault::Failed);
        }
        let copy = Text::copied(alloc, text)?;
        self.history.push(WireText::Out(copy))?;
        Ok(())
    }
}

// The next text, which goes into the history too.
fn take_next(
    alloc: Global,
    texts: &mut VecDeque<Text>,
    history: &mut Vec<WireText>,
) -> Result<Recv, WireFault>
    ensures answer { IsUnless WireFault.NoMemory result (Ok (text_answer texts.old.items)) }
    ensures texts { texts.new.items ≡ texts_after texts.old.items result }
    ensures history { history.new.items ≡ history_after history.old.items result }
{
    let Some(next) = texts.front() else {
        return Ok(Recv::End);
    };
    let size = next.as_str().len();
    if size > LONGEST_TEXT {
        let _ = texts.pop_front();
        return Ok(Recv::TooLong(size as u64));
    }
    let copy = next.copy(alloc)?;
    history.push(WireText::In(copy))?;
    match texts.pop_front() {
        Some(text) => Ok(Recv::Text(text)),
        None => Ok(Recv::End),
    }
}
