//! Messages in pages, so that the oldest can be dropped without moving the others.
ghost use Rattle.std.specs.Prelude.{◌≡◌, ℕ, ◌+◌, ◌-◌, ◌*◌, ◌<◌, ◌≤◌, ◌↔◌, [], ◌∷◌, ◌++◌, length, take, drop, get_or, vec_capacity, IsSome, IfSome, OnOk, OnErr};
ghost use Rattle.fluid_deltas.specs.Pages.{IsOnPage};

use fluid_json::NoMemory;
use fluid_types::Message;
use std::alloc::Global;
use std::collections::VecDeque;
use std::marker::Model;
use std::mem;

/// How many messages a page has.
pub const PAGE: usize = 256;

/// The most pages that are in memory.
pub const PAGES: usize = 16;

/// The most messages in memory: those of the most pages.
pub const RESIDENT: usize = PAGES * PAGE;

/// A page that is full.
#[derive(Drop)]
struct Page {
    messages: Vec<Message>,
}

impl Model for Page {
    ghost use Rattle.std.specs.Prelude.{List};
    ghost use Rattle.fluid_types.specs.declared.messages.Message.{Message};
    ghost use Rattle.fluid_deltas.specs.Pages.{page_code};

    ghost Value = { List Message };

    ghost coded = { page_code };

    ghost view = { λ p. p.messages.items };
}

impl Page {
    fn as_slice(&self) -> &[Message]
        ensures { result.now ≡ self.now }
    {
        &self.messages
    }
}

/// Messages in pages, oldest first.
#[derive(Drop)]
pub(crate) struct Pages {
    full: VecDeque<Page>,
    last: Vec<Message>,
}

impl Model for Pages {
    ghost use Rattle.std.specs.Prelude.{vec_len, vec_capacity, ◌-◌, ◌++◌, min};
    ghost use Rattle.fluid_deltas.specs.declared.pages.TheConstants.{PAGE};
    ghost use Rattle.fluid_deltas.specs.Pages.{Paged, paged_code, joined, ArePages};

    ghost Value = { Paged };

    ghost coded = { paged_code };

    ghost view = { λ p. record { messages = joined p.full.items ++ p.last.items; spare = min (vec_capacity p.last) PAGE - vec_len p.last } };

    ghost invariant = { λ p. ArePages p.full.items p.last.items };
}

impl Pages {
    pub(crate) fn new(alloc: Global) -> Pages
        ensures { result.messages ≡ [] }
    {
        Pages {
            full: VecDeque::new(alloc),
            last: Vec::new(alloc),
        }
    }

    pub(crate) fn len(&self) -> usize
        ensures length { result ≡ length self.now.messages }
        ensures few { result ≤ RESIDENT }
    {
        self.full.len() * PAGE + self.last.len()
    }

    pub(crate) fn clear(&mut self)
        ensures messages { self.new.messages ≡ [] }
    {
        self.full.clear();
        self.last.clear();
    }

    /// Makes room for one more message.
    pub(crate) fn reserve(&mut self, alloc: Global) -> Result<(), NoMemory>
        requires { length self.old.messages < RESIDENT }
        ensures messages { self.new.messages ≡ self.old.messages }
        ensures room { OnOk result (0 < self.new.spare) }
        ensures spare { self.old.spare ≤ self.new.spare }
    {
        if self.last.len() == PAGE {
            // each arm by itself, so that the proof knows which pages there are
            return match turn(alloc, &mut self.full, &mut self.last) {
                Ok(()) => Ok(()),
                Err(refused) => Err(refused),
            };
        }
        self.last.reserve(1)?;
        Ok(())
    }

    /// Takes no memory.
    pub(crate) fn push(&mut self, message: Message)
        requires { 0 < self.old.spare }
        ensures messages { self.new.messages ≡ self.old.messages ++ message ∷ [] }
        ensures spare { self.old.spare ≤ self.new.spare + 1 }
    {
        self.last.push(message).unwrap();
    }

    // The messages of the page of this number, counted from 0.
    fn page(&self, number: usize) -> &[Message]
        requires { PAGE * number < length self.now.messages }
        ensures { result.now ≡ take PAGE (drop (PAGE * number) self.now.messages) }
    {
        if number < self.full.len() {
            return self.full[number].as_slice();
        }
        &self.last
    }

    /// The message in this place, counted from 0.
    pub(crate) fn at(&self, place: usize) -> &Message
        requires { place < length self.now.messages }
        ensures { result.now ≡ get_or self.now.messages place result.now }
    {
        let page = self.page(place / PAGE);
        &page[place % PAGE]
    }

    /// The messages in the places from `start` up to `end`, where one page has all of them.
    pub(crate) fn on_page(&self, start: usize, end: usize) -> Option<&[Message]>
        requires some { start < end }
        requires last { end ≤ length self.now.messages }
        ensures known { IsSome result ↔ IsOnPage start end }
        ensures messages { IfSome result (λ messages. messages.now ≡ take (end - start) (drop start self.now.messages)) }
    {
        let number = start / PAGE;
        if (end - 1) / PAGE != number {
            return None;
        }
        let first = number * PAGE;
        Some(part(self.page(number), start - first, end - first))
    }

    /// Drops the oldest page.
    pub(crate) fn drop_first(&mut self)
        requires { length self.old.messages ≡ RESIDENT }
        ensures messages { self.new.messages ≡ drop PAGE self.old.messages }
        ensures spare { self.new.spare ≡ self.old.spare }
    {
        let _page = self.full.pop_front();
    }
}

// The messages in the places from `start` up to `end`.
fn part(messages: &[Message], start: usize, end: usize) -> &[Message]
    requires ordered { start ≤ end }
    requires within { end ≤ length messages.now }
    ensures { result.now ≡ take (end - start) (drop start messages.now) }
{
    &messages[start..end]
}

// Begins a new page, with room, behind the last one, which is full.
fn turn(alloc: Global, full: &mut VecDeque<Page>, last: &mut Vec<Message>) -> Result<(), NoMemory>
    ensures full { OnOk result (full.new.items ≡ full.old.items ++ last.old.items ∷ []) }
    ensures last { OnOk result (last.new.items ≡ []) }
    ensures room { OnOk result (0 < vec_capacity last.new) }
    ensures same { OnErr result ((full.new.items ≡ full.old.items) × (last.new ≡ last.old)) }
{
    full.reserve(1)?;
    let mut page = Vec::new(alloc);
    page.reserve(1)?;
    let messages = mem::replace(last, page);
    full.push_back_reserved(Page { messages });
    Ok(())
}
