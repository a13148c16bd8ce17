//! Where wires come from.
ghost use Rattle.std.specs.Prelude.{◌≡◌, ℕ, ◌+◌, ◌-◌, ◌*◌, ◌^◌, ◌<◌, ◌≤◌, IfErr};
ghost use Rattle.std.specs.VecDeque.{deque_len};
ghost use Rattle.fluid_io.specs.Causes.{HasCause};
ghost use Rattle.fluid_front.specs.Fronts.{Accepts, CountsStay, Fronting, GivesNothing, Opens};
ghost use Rattle.fluid_front.specs.Memory.{memory_seen, FailsByPlan};
ghost use Rattle.fluid_front.specs.declared.front.FrontFault.TheVariants.{NoMemory as FrontNoMemory};

use crate::{Bell, MemoryBell, MemoryStation, Station};
use fluid_io::{Failed, FaultPlan};
use fluid_json::NoMemory;
use fluid_lines::Wire;
use std::alloc::{AllocError, AllocFailed, Global};
use std::collections::VecDeque;
use std::marker::Model;
use std::sync::Wait;

/// Why a front has no wire, or no station.
#[derive(Clone, Copy, Debug, PartialEq, Eq)]
pub enum FrontFault {
    /// What it stands on refused it.
    Failed,
    NoMemory,
}

impl From<NoMemory> for FrontFault {
    ghost from_gives = { λ _ fault. fault ≡ FrontNoMemory };

    fn from(_refused: NoMemory) -> FrontFault {
        FrontFault::NoMemory
    }
}

impl From<AllocError> for FrontFault {
    ghost from_gives = { λ _ fault. fault ≡ FrontNoMemory };

    fn from(_refused: AllocError) -> FrontFault {
        FrontFault::NoMemory
    }
}

impl<T: Drop> From<AllocFailed<T>> for FrontFault {
    ghost from_gives = { λ _ fault. fault ≡ FrontNoMemory };

    fn from(_refused: AllocFailed<T>) -> FrontFault {
        FrontFault::NoMemory
    }
}

/// Gives wires, one for each peer that connects. A real front may wait in each of its calls.
pub trait Front {
    type W: Wire;

    /// Where many of its wires are waited for.
    type S: Station<Self::W, Self::B>;

    /// What ends the wait there.
    type B: Bell;

    /// The wires that it has left, where it tells them, and its counts.
    ghost seen: { Self → Fronting };

    /// Listens at a port, for WebSockets or for lines. Port 0 lets the system choose.
    fn listen<R: Wait>(&mut self, rt: &R, port: u16, lines: bool) -> Result<(), Failed>
        ensures cause { HasCause (seen self.old).faults (seen self.new).faults result }
        ensures same { GivesNothing (seen self.old) (seen self.new) };

    /// The next wire. `None` says that the front gives no more.
    fn accept<R: Wait>(&mut self, rt: &R, alloc: Global) -> Result<Option<Self::W>, FrontFault>
        ensures counts { CountsStay (seen self.old) (seen self.new) }
        ensures does { Accepts (seen self.old) (seen self.new) result };

    /// A new station. The wires that are given behind it wait in none of their calls: they have to be waited for at stations.
    fn station(&mut self, alloc: Global) -> Result<Self::S, FrontFault>
        ensures counts { CountsStay (seen self.old) (seen self.new) }
        ensures does { Opens (seen self.old) (seen self.new) result };
}

/// Wires in memory. It tells how many it has left.
#[derive(Drop)]
pub struct MemoryFront<W: Wire> {
    wires: VecDeque<W>,
    given: u64,
    nones: u64,
    plan: FaultPlan,
}

impl<W: Wire> Model for MemoryFront<W> {
    ghost use Rattle.std.specs.VecDeque.{deque_len};
    ghost use Rattle.fluid_front.specs.Memory.{MemoryFronting};

    ghost Value = { MemoryFronting };

    ghost view = { λ f. record { left = deque_len f.wires; given = f.given; nones = f.nones; plan = f.plan } };
}

impl<W: Wire> MemoryFront<W> {
    /// All of `wires` are left. The calls of `listen` and `accept` whose numbers from 1 are in `failing` fail.
    pub fn new(wires: VecDeque<W>, failing: Vec<u64>) -> MemoryFront<W>
        ensures { result ≡ record {
          left = deque_len wires;
          given = 0;
          nones = 0;
          plan = record { failing = failing.items; calls = 0; faults = 0 };
        } }
    {
        MemoryFront {
            wires,
            given: 0,
            nones: 0,
            plan: FaultPlan::new(failing),
        }
    }
}

impl<W: Wire> Front for MemoryFront<W> {
    type W = W;

    type S = MemoryStation<W>;

    type B = MemoryBell;

    ghost seen = { memory_seen };

    fn listen<R: Wait>(&mut self, _rt: &R, _port: u16, _lines: bool) -> Result<(), Failed>
        ensures cause { HasCause (memory_seen self.old).faults (memory_seen self.new).faults result }
        ensures same { GivesNothing (memory_seen self.old) (memory_seen self.new) }
        ensures exact { FailsByPlan self.old self.new result }
    {
        if self.plan.fails() {
            return Err(Failed);
        }
        Ok(())
    }

    /// It takes no memory.
    fn accept<R: Wait>(&mut self, _rt: &R, _alloc: Global) -> Result<Option<W>, FrontFault>
        ensures counts { CountsStay (memory_seen self.old) (memory_seen self.new) }
        ensures does { Accepts (memory_seen self.old) (memory_seen self.new) result }
        ensures exact { FailsByPlan self.old self.new result }
    {
        if self.plan.fails() {
            return Err(FrontFault::Failed);
        }
        match self.wires.pop_front() {
            Some(wire) => {
                self.given = self.given.saturating_add(1);
                Ok(Some(wire))
            }
            None => {
                self.nones = self.nones.saturating_add(1);
                Ok(None)
            }
        }
    }

    /// It fails for want of memory alone.
    fn station(&mut self, alloc: Global) -> Result<MemoryStation<W>, FrontFault>
        ensures counts { CountsStay (memory_seen self.old) (memory_seen self.new) }
        ensures does { Opens (memory_seen self.old) (memory_seen self.new) result }
        ensures unchanged { self.new ≡ self.old }
        ensures memory { IfErr result (λ fault. fault ≡ FrontNoMemory) }
    {
        Ok(MemoryStation::new(alloc)?)
    }
}
