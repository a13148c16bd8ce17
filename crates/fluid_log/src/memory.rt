//! The keeper in memory.
ghost use Rattle.std.specs.Prelude.{◌≡◌, ℕ, ◌+◌, ◌-◌, ◌<◌, ◌≤◌, [], ◌∷◌, ◌++◌, length, IfErr, OnOk, OnErr, IsOkUnless, is_err};
ghost use Rattle.fluid_io.specs.Causes.{HasCause};
ghost use Rattle.fluid_io.specs.Plan.{next_fails};
ghost use Rattle.fluid_log.specs.Calls.{IsCaused, KeepsSame, AppendDoes, CutDoes, PutDeltaDoes, StoreDoes, Gives, reads_after};
ghost use Rattle.fluid_log.specs.Memory.{memory_seen, fresh_memory, IsPlanned, FollowsPlan, AppendsByPlan, LeavesTorn};

use crate::{Keeper, KeeperFault, LONGEST_KEPT};
use fluid_io::{Failed, FaultPlan};
use fluid_json::Bytes;
use std::alloc::Global;
use std::marker::Model;

/// A keeper in memory, which tells its content. Its calls that can fail are counted, from 1 on, and fail by plan.
#[derive(Drop)]
pub struct MemoryKeeper {
    log: Vec<Bytes>,
    deltas: Vec<Bytes>,
    checkpoints: Vec<Bytes>,
    reads: u64,
    plan: FaultPlan,
    adding: Vec<u64>,
}

impl Model for MemoryKeeper {
    ghost use Rattle.fluid_log.specs.Memory.{MemoryKeeping};

    ghost Value = { MemoryKeeping };

    ghost view = { λ k. record {
      content = record { log = k.log.items; deltas = k.deltas.items; checkpoints = k.checkpoints.items };
      reads = k.reads;
      plan = k.plan;
      adding = k.adding.items;
    } };
}

impl MemoryKeeper {
    /// Nothing is kept yet. The calls whose numbers are in `failing` answer `Failed`, and no others do; of these, the
    /// appends whose numbers are in `adding` too add their record all the same, or answer `NoMemory` where they find none
    /// for it.
    pub fn new(alloc: Global, failing: Vec<u64>, adding: Vec<u64>) -> MemoryKeeper
        ensures { result ≡ fresh_memory failing.items adding.items }
    {
        MemoryKeeper {
            log: Vec::new(alloc),
            deltas: Vec::new(alloc),
            checkpoints: Vec::new(alloc),
            reads: 0,
            plan: FaultPlan::new(failing),
            adding,
        }
    }

    /// The records of the log, oldest first.
    pub fn records(&self) -> &[Bytes]
        ensures { result.now ≡ self.now.content.log }
    {
        &self.log
    }

    /// The texts of the deltas, that of message 1 first.
    pub fn delta_texts(&self) -> &[Bytes]
        ensures { result.now ≡ self.now.content.deltas }
    {
        &self.deltas
    }

    /// The texts of the checkpoints, that of checkpoint 0 first.
    pub fn checkpoint_texts(&self) -> &[Bytes]
        ensures { result.now ≡ self.now.content.checkpoints }
    {
        &self.checkpoints
    }

    /// How many records of the log were read.
    pub fn reads(&self) -> u64
        ensures { result ≡ self.now.reads }
    {
        self.reads
    }
}

impl Keeper for MemoryKeeper {
    ghost use Rattle.std.specs.Prelude.{refl};
    ghost use Rattle.fluid_log.specs.Memory.{memory_seen};

    ghost seen = { memory_seen };

    ghost sized = { λ keeper. record { records = refl; deltas = refl; checkpoints = refl } };

    fn faults(&self) -> u64 {
        self.plan.faults()
    }

    fn len(&self) -> u64 {
        self.log.len() as u64
    }

    fn deltas(&self) -> u64 {
        self.deltas.len() as u64
    }

    fn checkpoints(&self) -> u64 {
        self.checkpoints.len() as u64
    }

    fn append(&mut self, alloc: Global, bytes: &[u8]) -> Result<(), KeeperFault>
        ensures cause { IsCaused self.old.plan.faults self.new.plan.faults result }
        ensures reads { self.new.reads ≡ self.old.reads }
        ensures does { AppendDoes bytes.now (memory_seen self.old) (memory_seen self.new) result }
        ensures planned { IsPlanned self.old self.new }
        ensures fails { AppendsByPlan self.old result }
        ensures torn { IfErr result (LeavesTorn bytes.now self.old self.new) }
    {
        let next = self.plan.calls().saturating_add(1);
        let adds = self.adding.contains(&next);
        let fails = self.plan.fails();
        if !fails || adds {
            push(alloc, &mut self.log, bytes)?;
        }
        if fails {
            return Err(KeeperFault::Failed);
        }
        Ok(())
    }

    fn read(&mut self, alloc: Global, place: u64) -> Result<Bytes, KeeperFault>
        requires { place < length self.old.content.log }
        ensures cause { IsCaused self.old.plan.faults self.new.plan.faults result }
        ensures reads { self.new.reads ≡ reads_after self.old.reads result }
        ensures same { KeepsSame (memory_seen self.old) (memory_seen self.new) }
        ensures gives { Gives (λ content. content.log) place (memory_seen self.old) result }
        ensures planned { IsPlanned self.old self.new }
        ensures fails { FollowsPlan self.old.plan result }
    {
        if self.plan.fails() {
            return Err(KeeperFault::Failed);
        }
        let bytes = self.log[place as usize].copy(alloc)?;
        self.reads = self.reads.saturating_add(1);
        Ok(bytes)
    }

    fn cut(&mut self, count: u64) -> Result<(), Failed>
        requires { count ≤ length self.old.content.log }
        ensures cause { HasCause self.old.plan.faults self.new.plan.faults result }
        ensures reads { self.new.reads ≡ self.old.reads }
        ensures does { CutDoes count (memory_seen self.old) (memory_seen self.new) result }
        ensures planned { IsPlanned self.old self.new }
        ensures fails { is_err result ≡ next_fails self.old.plan }
    {
        if self.plan.fails() {
            return Err(Failed);
        }
        self.log.truncate(count as usize);
        Ok(())
    }

    fn put_delta(&mut self, alloc: Global, _number: u64, bytes: &[u8]) -> Result<(), KeeperFault>
        ensures cause { IsCaused self.old.plan.faults self.new.plan.faults result }
        ensures reads { self.new.reads ≡ self.old.reads }
        ensures does { PutDeltaDoes bytes.now (memory_seen self.old) (memory_seen self.new) result }
        ensures planned { IsPlanned self.old self.new }
        ensures fails { FollowsPlan self.old.plan result }
    {
        if self.plan.fails() {
            return Err(KeeperFault::Failed);
        }
        push(alloc, &mut self.deltas, bytes)?;
        Ok(())
    }

    fn delta(&mut self, alloc: Global, number: u64) -> Result<Bytes, KeeperFault>
        requires first { 0 < number }
        requires last { number ≤ length self.old.content.deltas }
        ensures cause { IsCaused self.old.plan.faults self.new.plan.faults result }
        ensures reads { self.new.reads ≡ self.old.reads }
        ensures same { KeepsSame (memory_seen self.old) (memory_seen self.new) }
        ensures gives { Gives (λ content. content.deltas) (number - 1) (memory_seen self.old) result }
        ensures planned { IsPlanned self.old self.new }
        ensures fails { FollowsPlan self.old.plan result }
    {
        if self.plan.fails() {
            return Err(KeeperFault::Failed);
        }
        let bytes = self.deltas[(number - 1) as usize].copy(alloc)?;
        Ok(bytes)
    }

    fn store_checkpoint(&mut self, alloc: Global, bytes: &[u8]) -> Result<u64, KeeperFault>
        ensures cause { IsCaused self.old.plan.faults self.new.plan.faults result }
        ensures reads { self.new.reads ≡ self.old.reads }
        ensures does { StoreDoes bytes.now (memory_seen self.old) (memory_seen self.new) result }
        ensures planned { IsPlanned self.old self.new }
        ensures fails { FollowsPlan self.old.plan result }
    {
        if self.plan.fails() {
            return Err(KeeperFault::Failed);
        }
        let number = self.checkpoints.len() as u64;
        push(alloc, &mut self.checkpoints, bytes)?;
        Ok(number)
    }

    fn checkpoint(&mut self, alloc: Global, number: u64) -> Result<Bytes, KeeperFault>
        requires { number < length self.old.content.checkpoints }
        ensures cause { IsCaused self.old.plan.faults self.new.plan.faults result }
        ensures reads { self.new.reads ≡ self.old.reads }
        ensures same { KeepsSame (memory_seen self.old) (memory_seen self.new) }
        ensures gives { Gives (λ content. content.checkpoints) number (memory_seen self.old) result }
        ensures planned { IsPlanned self.old self.new }
        ensures fails { FollowsPlan self.old.plan result }
    {
        if self.plan.fails() {
            return Err(KeeperFault::Failed);
        }
        let bytes = self.checkpoints[number as usize].copy(alloc)?;
        Ok(bytes)
    }
}

// Puts a copy of the bytes behind the others. After `NoMemory` nothing was put.
fn push(alloc: Global, texts: &mut Vec<Bytes>, bytes: &[u8]) -> Result<(), KeeperFault>
    ensures put { OnOk result (texts.new.items ≡ texts.old.items ++ bytes.now ∷ []) }
    ensures same { OnErr result (texts.new.items ≡ texts.old.items) }
    ensures memory { IsOkUnless result KeeperFault.NoMemory }
{
    let copy = Bytes::copied(alloc, bytes)?;
    texts.push(copy)?;
    Ok(())
}
