// The free items of a queue in the order in which they are given.
ghost use Rattle.std.specs.Prelude.{◌≡◌, ◌+◌, ◌*◌, ◌-◌, ◌≤◌, ◌<◌, [], ◌∷◌, ◌++◌, length, drop, vec_len, vec_capacity, OnOk, OnErr, if◌then◌else◌, nat_lt};
ghost use Rattle.fluid_tasks.specs.Line.{no_line, with_free, given, given_back, without};

use fluid_json::NoMemory;
use std::alloc::Global;
use std::marker::Model;

/// The free items of a queue in the order in which they are given, and how many more are out. It has room for twice as many as
/// there are of both: so giving one back takes no memory, and all of them are moved to the front at most once in as many steps.
#[derive(Drop)]
pub(crate) struct Line {
    items: Vec<u64>,
    // The items before this place were given.
    start: usize,
    out: usize,
}

impl Model for Line {
    ghost use Rattle.std.specs.Prelude.{drop};
    ghost use Rattle.fluid_tasks.specs.Line.{ALine, line_code, HasRoom};

    ghost Value = { ALine };

    ghost coded = { line_code };

    ghost view = { λ l. record { free = drop l.start l.items.items; out = l.out } };

    ghost invariant = { λ l. HasRoom l.items l.start l.out };
}

impl Line {
    /// No items. Takes no memory.
    pub(crate) fn new(alloc: Global) -> Line
        ensures { result ≡ no_line }
    {
        Line {
            items: Vec::new(alloc),
            start: 0,
            out: 0,
        }
    }

    /// The free items.
    pub(crate) fn free(&self) -> &[u64]
        ensures { result.now ≡ self.now.free }
    {
        &self.items[self.start..]
    }

    /// How many items are out.
    pub(crate) fn out(&self) -> usize
        ensures { result ≡ self.now.out }
    {
        self.out
    }

    /// A free item behind the others. After `NoMemory` nothing has changed.
    pub(crate) fn add(&mut self, item: u64) -> Result<(), NoMemory>
        ensures added { OnOk result (self.new ≡ with_free self.old item) }
        ensures unchanged { OnErr result (self.new ≡ self.old) }
    {
        let most = 2 * (self.items.len() - self.start + self.out + 1);
        if self.items.capacity() < most {
            self.items.reserve(most)?;
        }
        put(&mut self.items, &mut self.start, item);
        Ok(())
    }

    /// Takes the first free item out; does nothing where there is none.
    pub(crate) fn give(&mut self)
        ensures { self.new ≡ given self.old }
    {
        if self.start < self.items.len() {
            self.start += 1;
            self.out += 1;
        }
    }

    /// Gives one of those that are out back, behind the others; does nothing where none is out. Takes no memory.
    pub(crate) fn give_back(&mut self, item: u64)
        ensures { self.new ≡ given_back self.old item }
    {
        if self.out > 0 {
            self.out -= 1;
            put(&mut self.items, &mut self.start, item);
        }
    }

    /// One of those that are out comes no more; does nothing where none is out.
    pub(crate) fn forget(&mut self)
        ensures { self.new ≡ without self.old }
    {
        if self.out > 0 {
            self.out -= 1;
        }
    }
}

// Puts an item behind the others. Where there is no place behind them, they are moved to the front.
fn put(items: &mut Vec<u64>, start: &mut usize, item: u64)
    requires place { start.old ≤ vec_len items.old }
    requires room { 2 * (vec_len items.old - start.old + 1) ≤ vec_capacity items.old }
    ensures place { start.new ≤ vec_len items.new }
    ensures put { drop start.new items.new.items ≡ drop start.old items.old.items ++ item ∷ [] }
    ensures len { vec_len items.new - start.new ≡ vec_len items.old - start.old + 1 }
    ensures capacity { vec_capacity items.new ≡ vec_capacity items.old }
{
    if items.len() == items.capacity() {
        move_to_front(items, start);
    }
    items.push_reserved(item);
}

fn move_to_front(items: &mut Vec<u64>, start: &mut usize)
    requires { start.old ≤ vec_len items.old }
    ensures first { start.new ≡ 0 }
    ensures moved { items.new.items ≡ drop start.old items.old.items }
    ensures len { vec_len items.new ≡ vec_len items.old - start.old }
    ensures capacity { vec_capacity items.new ≡ vec_capacity items.old }
{
    let count = items.len() - *start;
    items.copy_within(*start.., 0);
    items.truncate(count);
    *start = 0;
}
