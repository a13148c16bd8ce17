//! A disk in memory.
ghost use Rattle.std.specs.Prelude.{◌≡◌, ℕ, ◌+◌, ◌-◌, ◌*◌, ◌^◌, ◌<◌, ◌≤◌, min, List, [], ◌∷◌, ◌++◌, length, take, drop, reverse, ◌⊎◌, OnOk, OnErr, IsTrue};
ghost use Rattle.fluid_io.specs.Causes.{Rose, HasCause};
ghost use Rattle.fluid_disk.specs.Memory.{MayLeave, undone, Fits};
ghost use Rattle.fluid_disk.specs.Disk.{overwritten, Torn};
ghost use Rattle.fluid_disk.specs.declared.call.Call.TheVariants.{Wrote, CutOff, Synced};

use crate::Disk;
use crate::call::Call;
use fluid_io::{Failed, FaultPlan};
use fluid_json::{Bytes, NoMemory};
use std::alloc::Global;
use std::marker::Model;

/// A disk in memory, which tells its bytes. It keeps what takes back each call that it has done, so that it knows what a
/// crash may leave. A call that fails has done nothing.
#[derive(Drop)]
pub struct MemoryDisk {
    alloc: Global,
    held: Vec<u8>,
    calls: Vec<Call>,
    plan: FaultPlan,
    stop: u64,
}

impl Model for MemoryDisk {
    ghost use Rattle.std.specs.Prelude.{reverse};
    ghost use Rattle.fluid_disk.specs.Memory.{MemoryStored, memory_code};

    ghost Value = { MemoryStored };

    ghost coded = { memory_code };

    ghost view = { λ d. record { held = d.held.items; calls = reverse d.calls.items; plan = d.plan; stop = d.stop } };
}

impl MemoryDisk {
    /// These bytes, all of them on the disk. The calls whose numbers from 1 are in `failing` fail.
    pub fn new(alloc: Global, bytes: Vec<u8>, failing: Vec<u64>) -> MemoryDisk
        ensures { result ≡ record {
          held = bytes.items;
          calls = [];
          plan = record { failing = failing.items; calls = 0; faults = 0 };
          stop = u64.MAX;
        } }
    {
        MemoryDisk {
            alloc,
            held: bytes,
            calls: Vec::new(alloc),
            plan: FaultPlan::new(failing),
            stop: u64::MAX,
        }
    }

    /// The same, but from call number `stop` on all calls fail.
    pub fn stopping(alloc: Global, bytes: Vec<u8>, stop: u64) -> MemoryDisk
        ensures { result ≡ record {
          held = bytes.items;
          calls = [];
          plan = record { failing = []; calls = 0; faults = 0 };
          stop = stop;
        } }
    {
        MemoryDisk {
            alloc,
            held: bytes,
            calls: Vec::new(alloc),
            plan: FaultPlan::new(Vec::new(alloc)),
            stop,
        }
    }

    /// The bytes that a read gives.
    pub fn bytes(&self) -> &[u8]
        ensures { result.now ≡ self.now.held }
    {
        &self.held
    }

    /// How many calls were made that may fail.
    pub fn calls(&self) -> u64
        ensures { result ≡ self.now.plan.calls }
    {
        self.plan.calls()
    }

    /// A disk as a crash may leave it, all of it on the disk, whose calls don't fail. By `pick % 4` the newest call has
    /// happened, its range is all ones, the first half of that is, or it hasn't happened.
    pub fn crash(self, pick: u64) -> MemoryDisk
        ensures image { MayLeave self.calls self.held result.held }
        ensures whole { result.calls ≡ [] }
        ensures calm { (result.plan.failing ≡ []) × (result.stop ≡ u64.MAX) }
    {
        let MemoryDisk {
            alloc,
            mut held,
            mut calls,
            ..
        } = self;
        if let Some(call) = calls.pop() {
            break_off(&mut held, call, pick % 4);
        }
        MemoryDisk::new(alloc, held, Vec::new(alloc))
    }

    // Counts a call, and says whether it is to fail. Such a call's fault is counted.
    fn fails(&mut self) -> bool
        ensures held { self.new.held ≡ self.old.held }
        ensures calls { self.new.calls ≡ self.old.calls }
        ensures later { self.old.plan.faults ≤ self.new.plan.faults }
        ensures rose { IsTrue result → Rose self.old.plan.faults self.new.plan.faults }
    {
        let planned = self.plan.fails();
        if !planned && self.stop <= self.plan.calls() {
            self.plan.count_fault();
            return true;
        }
        planned
    }
}

impl Disk for MemoryDisk {
    ghost use Rattle.fluid_disk.specs.Memory.{memory_seen, LeftSince, leaves_held, left_now, now_alone};
    ghost use Rattle.std.specs.Prelude.{refl, true};

    ghost seen = { memory_seen };

    ghost tells = { true };

    ghost may_leave = { λ d. MayLeave d.calls d.held };

    ghost moment = { λ d. length d.calls };

    ghost left_since = { λ d. LeftSince d.calls d.held };

    ghost told = { λ d. refl };

    ghost sized = { λ d. refl };

    ghost leaves_read = { λ d. leaves_held d.calls d.held };

    ghost counts_now = { λ d t image _ now. left_now d.calls d.held t image now };

    ghost only_now = { λ d image left. now_alone d.calls d.held image left };

    fn len(&self) -> u64 {
        self.held.len() as u64
    }

    fn read(&mut self, at: u64, into: &mut [u8]) -> Result<usize, Failed> {
        if self.fails() {
            return Err(Failed);
        }
        Ok(copy_from(&self.held, at as usize, into))
    }

    /// Fails where the plan says so, and where memory is missing, which counts as a fault.
    fn write_at(&mut self, at: u64, bytes: &[u8]) -> Result<(), Failed> {
        if self.fails() {
            return Err(Failed);
        }
        match overwrite(
            self.alloc,
            &mut self.held,
            &mut self.calls,
            at as usize,
            bytes,
        ) {
            Ok(()) => Ok(()),
            Err(NoMemory) => {
                self.plan.count_fault();
                Err(Failed)
            }
        }
    }

    /// Fails where the plan says so, and where memory is missing, which counts as a fault.
    fn cut(&mut self, to: u64) -> Result<(), Failed> {
        if self.fails() {
            return Err(Failed);
        }
        match shorten(self.alloc, &mut self.held, &mut self.calls, to as usize) {
            Ok(()) => Ok(()),
            Err(NoMemory) => {
                self.plan.count_fault();
                Err(Failed)
            }
        }
    }

    /// Fails where the plan says so, and where memory is missing, which counts as a fault.
    fn sync(&mut self) -> Result<(), Failed> {
        if self.fails() {
            return Err(Failed);
        }
        match self.calls.push(Call::Synced) {
            Ok(()) => Ok(()),
            Err(_) => {
                self.plan.count_fault();
                Err(Failed)
            }
        }
    }
}

// Copies what stands from this place on into the buffer, and says how many bytes.
fn copy_from(held: &[u8], at: usize, into: &mut [u8]) -> usize
    ensures count { result ≡ min (length into.old) (length held.now - at) }
    ensures copied { into.new ≡ take result (drop at held.now) ++ drop result into.old }
{
    if at >= held.len() {
        return 0;
    }
    let count = into.len().min(held.len() - at);
    let (prefix, _) = into.split_at_mut(count);
    prefix.copy_from_slice(&held[at..at + count]);
    count
}

// Writes over what stands there, and keeps that. After `NoMemory` nothing has changed.
fn overwrite(
    alloc: Global,
    held: &mut Vec<u8>,
    calls: &mut Vec<Call>,
    at: usize,
    bytes: &[u8],
) -> Result<(), NoMemory>
    requires { at ≤ length held.old.items }
    ensures written { OnOk result (held.new.items ≡ overwritten at bytes.now held.old.items) }
    ensures kept { OnOk result ((replaced : List ℕ) × (calls.new.items ≡ calls.old.items ++ Wrote at (length bytes.now) replaced ∷ [])
        × (undone (Wrote at (length bytes.now) replaced) held.new.items ≡ held.old.items)) }
    ensures same { OnErr result ((held.new.items ≡ held.old.items) × (calls.new.items ≡ calls.old.items)) }
{
    let within = bytes.len().min(held.len() - at);
    let replaced = Bytes::copied(alloc, &held[at..at + within])?;
    calls.reserve(1)?;
    put_over(held, at, bytes)?;
    calls.push_reserved(Call::Wrote(at, bytes.len(), replaced));
    Ok(())
}

// Puts bytes in place of what stands there, and behind the end. After `NoMemory` nothing has changed.
fn put_over(held: &mut Vec<u8>, at: usize, bytes: &[u8]) -> Result<(), NoMemory>
    requires { at ≤ length held.old.items }
    ensures written { OnOk result (held.new.items ≡ overwritten at bytes.now held.old.items) }
    ensures same { OnErr result (held.new.items ≡ held.old.items) }
{
    let within = bytes.len().min(held.len() - at);
    held.extend_from_slice(&bytes[within..])?;
    held[at..at + within].copy_from_slice(&bytes[..within]);
    Ok(())
}

// Cuts down to a length, and keeps what was cut off. After `NoMemory` nothing has changed.
fn shorten(
    alloc: Global,
    held: &mut Vec<u8>,
    calls: &mut Vec<Call>,
    to: usize,
) -> Result<(), NoMemory>
    ensures cut { OnOk result (held.new.items ≡ take to held.old.items) }
    ensures kept { OnOk result ((removed : List ℕ) × (calls.new.items ≡ calls.old.items ++ CutOff to removed ∷ [])
        × (undone (CutOff to removed) held.new.items ≡ held.old.items)) }
    ensures same { OnErr result ((held.new.items ≡ held.old.items) × (calls.new.items ≡ calls.old.items)) }
{
    let kept = to.min(held.len());
    let removed = Bytes::copied(alloc, &held[kept..])?;
    calls.reserve(1)?;
    held.truncate(to);
    calls.push_reserved(Call::CutOff(to, removed));
    Ok(())
}

// Leaves the newest call as a crash may: it has happened, its range is all ones, the first half of that is, or it hasn't.
fn break_off(held: &mut Vec<u8>, call: Call, pick: u64)
    ensures { (earlier : List _) → MayLeave (call ∷ earlier) held.old.items held.new.items }
{
    match call {
        Call::Wrote(at, count, replaced) => match pick {
            0 => {}
            1 => tear(held, at, count, replaced.as_slice(), count),
            2 => tear(held, at, count, replaced.as_slice(), count / 2),
            _ => restore(held, at, count, replaced.as_slice()),
        },
        Call::CutOff(_, removed) => {
            if pick > 1 {
                let _ = held.extend_from_slice(removed.as_slice());
            }
        }
        Call::Synced => {}
    }
}

// Whether bytes that stood in a range can have been what a write of so many bytes replaced.
fn fits(length: usize, at: usize, count: usize, replaced: usize) -> bool
    ensures { IsTrue result → Fits length at count replaced }
{
    at <= length
        && count <= length - at
        && replaced <= count
        && (replaced == count || count == length - at)
}

// Puts back what stood there before a write of so many bytes.
fn restore(held: &mut Vec<u8>, at: usize, count: usize, replaced: &[u8])
    ensures { (held.new.items ≡ held.old.items) ⊎ (held.new.items ≡ take at held.old.items ++ replaced.now ++ drop (at + count) held.old.items) }
{
    if fits(held.len(), at, count, replaced.len()) {
        let end = at + replaced.len();
        held[at..end].copy_from_slice(replaced);
        if replaced.len() < count {
            held.truncate(end);
        }
    }
}

// Leaves ones in the first `torn` bytes of the range of a write.
fn tear(held: &mut Vec<u8>, at: usize, count: usize, replaced: &[u8], torn: usize)
    requires { torn ≤ count }
    ensures { (held.new.items ≡ held.old.items) ⊎ Torn at count (take at held.old.items ++ replaced.now ++ drop (at + count) held.old.items) held.new.items }
{
    if fits(held.len(), at, count, replaced.len()) {
        held[at..at + torn].fill(1);
    }
}
