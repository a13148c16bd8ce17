// A client's view of a shared counter.
ghost use Rattle.std.specs.Prelude.{◌≡◌, ◌+◌, ◌<◌, ◌≤◌, ◌↔◌, ℤ, pos, ◌+ℤ◌, unsigned_abs, List, [], ◌∷◌, ◌++◌, length, IsTrue, IfOk, OnOk, OnErr, Ok};
ghost use Rattle.fluid_json.specs.Unless.{IsUnless};
ghost use Rattle.fluid_counter.specs.Counter.{StandsFor, replay, shown, greatest_size, HasRoom};
ghost use Rattle.fluid_counter.specs.Content.{content, answer, IsStorable};

use crate::content;
use fluid_json::{Bytes, NoMemory};
use fluid_types::BlobFault;
use std::alloc::Global;
use std::collections::VecDeque;
use std::marker::Model;

/// The greatest sum of the sizes of a total, of pending amounts and of one more amount.
const GREATEST_SIZE: u128 = 1 << 126;

/// An operation on a counter: it is incremented by an amount, or decremented by a negative one.
#[derive(Clone, Copy, Debug, PartialEq, Eq)]
pub struct CounterOp {
    /// Any number of 64 bits; an operation of the protocol has one within plus or minus 2^53 - 1.
    pub amount: i64,
}

/// A counter that many clients increment, as one of them has it: the total of what was acknowledged to be in the order, and
/// its own increments that are on their way.
#[derive(Drop)]
pub struct SharedCounter {
    acknowledged: i128,
    // Oldest first.
    pending: VecDeque<i64>,
    pending_sum: i128,
    // The sizes of the pending amounts, added up.
    pending_size: u128,
}

impl Model for SharedCounter {
    ghost use Rattle.fluid_counter.specs.Counter.{Shared, shared_code};

    ghost Value = { Shared };

    ghost coded = { shared_code };

    ghost use Rattle.fluid_counter.specs.Totals.{AreTotals};

    ghost view = { λ c. record { acknowledged = c.acknowledged; pending = c.pending.items } };

    ghost invariant = { λ c. AreTotals c.acknowledged c.pending.items c.pending_sum c.pending_size };
}

impl SharedCounter {
    /// A counter at 0. Takes no memory.
    pub fn new(alloc: Global) -> SharedCounter
        ensures fresh { result ≡ record { acknowledged = pos 0; pending = [] } }
        ensures stands { StandsFor (pos 0) [] result }
    {
        SharedCounter::at(alloc, 0)
    }

    // A counter at this total.
    fn at(alloc: Global, total: i128) -> SharedCounter
        requires { unsigned_abs total ≤ greatest_size }
        ensures { result ≡ record { acknowledged = total; pending = [] } }
    {
        SharedCounter {
            acknowledged: total,
            pending: VecDeque::new(alloc),
            pending_sum: 0,
            pending_size: 0,
        }
    }

    /// Whether one more amount has room, from this client or from another: whether the sizes of the total, of the pending
    /// amounts and of this one add up to at most 2^126.
    pub fn has_room(&self, op: &CounterOp) -> bool
        ensures { IsTrue result ↔ HasRoom self.now op.now.amount }
    {
        let amount = u128::from(op.amount.unsigned_abs());
        self.acknowledged.unsigned_abs() + self.pending_size + amount <= GREATEST_SIZE
    }

    /// Takes in an increment of another client, which is the next in the order. It takes no memory, and always answers `Ok`.
    pub fn apply_remote(&mut self, op: &CounterOp) -> Result<(), NoMemory>
        requires { HasRoom self.old op.now.amount }
        ensures answer { result ≡ Ok tt }
        ensures applied { self.new ≡ record self.old { acknowledged = self.old.acknowledged +ℤ op.now.amount } }
        ensures stands { (total : ℤ) (amounts : List ℤ) → StandsFor total amounts self.old →
            StandsFor total (amounts ++ op.now.amount ∷ []) self.new }
    {
        self.acknowledged += i128::from(op.amount);
        Ok(())
    }

    /// Makes an increment of this client's own, which is shown from now on and pending until it is acknowledged. After
    /// `NoMemory` the counter is as it was.
    pub fn apply_local(&mut self, op: &CounterOp) -> Result<(), NoMemory>
        requires { HasRoom self.old op.now.amount }
        ensures applied { OnOk result (self.new ≡ record self.old { pending = self.old.pending ++ op.now.amount ∷ [] }) }
        ensures stands { (total : ℤ) (amounts : List ℤ) → StandsFor total amounts self.old → StandsFor total amounts self.new }
        ensures unchanged { OnErr result (self.new ≡ self.old) }
    {
        self.pending.push_back(op.amount)?;
        self.pending_sum += i128::from(op.amount);
        self.pending_size += u128::from(op.amount.unsigned_abs());
        Ok(())
    }

    /// How many increments of this client's own are on their way.
    pub fn pending(&self) -> usize
        ensures { result ≡ length self.now.pending }
    {
        self.pending.len()
    }

    /// The oldest pending increment has come back: it is the next in the order. What is shown stays. Takes no memory.
    pub fn acknowledge(&mut self)
        requires { 0 < length self.old.pending }
        ensures applied { (amount : ℤ) (rest : List ℤ) → self.old.pending ≡ amount ∷ rest →
            self.new ≡ record { acknowledged = self.old.acknowledged +ℤ amount; pending = rest } }
        ensures stands { (total : ℤ) (amounts : List ℤ) (amount : ℤ) (rest : List ℤ) → self.old.pending ≡ amount ∷ rest →
            StandsFor total amounts self.old → StandsFor total (amounts ++ amount ∷ []) self.new }
        ensures shown { shown self.new ≡ shown self.old }
    {
        let amount = self.pending.pop_front().unwrap();
        self.acknowledged += i128::from(amount);
        self.pending_sum -= i128::from(amount);
        self.pending_size -= u128::from(amount.unsigned_abs());
    }

    /// What the client shows. Takes no memory.
    pub fn value(&self) -> i128
        ensures shown { result ≡ shown self.now }
        ensures stands { (total : ℤ) (amounts : List ℤ) → StandsFor total amounts self.now →
            result ≡ replay total (amounts ++ self.now.pending) }
    {
        self.acknowledged + self.pending_sum
    }

    /// The text of the acknowledged total, without the pending increments. It is read back where the total lies within
    /// plus or minus 2^120.
    pub fn to_blob(&self, alloc: Global) -> Result<Bytes, NoMemory>
        ensures content { IfOk result (λ blob. blob ≡ content self.now.acknowledged) }
        ensures stands { (total : ℤ) (amounts : List ℤ) → StandsFor total amounts self.now →
            IfOk result (λ blob. blob ≡ content (replay total amounts)) }
        ensures reads_back { IfOk result (λ blob. IsStorable self.now.acknowledged →
            answer blob ≡ Ok (record { acknowledged = self.now.acknowledged; pending = [] })) }
    {
        content::print(alloc, self.acknowledged)
    }

    /// The counter of such a text, with nothing pending. Any other text, and one of a total beyond plus or minus 2^120, is
    /// refused by the fault of the blob `content`. The text isn't kept.
    pub fn from_blob(alloc: Global, blob: &[u8]) -> Result<SharedCounter, BlobFault>
        ensures answer { IsUnless BlobFault.NoMemory result (answer blob.now) }
        ensures only { IfOk result (λ counter. (blob.now ≡ content counter.acknowledged) × (counter.pending ≡ [])) }
        ensures stands { IfOk result (λ counter. StandsFor counter.acknowledged [] counter) }
    {
        let total = content::read(alloc, blob)?;
        Ok(SharedCounter::at(alloc, total))
    }

    /// The acknowledged total, without the pending increments. Takes no memory.
    pub fn total(&self) -> i128
        ensures { result ≡ self.now.acknowledged }
    {
        self.acknowledged
    }

    /// The counter at the acknowledged total, with nothing pending. Takes no memory.
    pub fn copy_acknowledged(&self, alloc: Global) -> SharedCounter
        ensures { result ≡ record { acknowledged = self.now.acknowledged; pending = [] } }
    {
        SharedCounter::at(alloc, self.acknowledged)
    }
}
