// The queues and tasks of a document, as the messages of its order make them.
ghost use Rattle.std.specs.Prelude.{◌≡◌, ◌+◌, ◌∷◌, ◌++◌, [], List, ℕ, OnOk, OnErr, IfOk, option_map, is_some, length};
ghost use Rattle.fluid_types.specs.declared.messages.Message.{Message as AMessage};
ghost use Rattle.fluid_tasks.specs.declared.acts.Act.TheVariants.{Add, Acquire, Complete, Release, Volunteer, Abandon, Finish};
ghost use Rattle.fluid_tasks.specs.Acts.{Does, Leaves};
ghost use Rattle.fluid_tasks.specs.Past.{Past, past_of, free, holder_of, value, holder, standing_since};
ghost use Rattle.fluid_tasks.specs.Printed.{print};
ghost use Rattle.fluid_tasks.specs.Kept.{StandsFor, Keeps, IsNumbered, KeepsBehind, KeepsStill, KeepsBehindAny, KeepsStillAny};

use crate::acts::{Act, left, spelled_act};
use crate::held::{Holdings, forget_item, forget_task, note_item, note_task, noted_task};
use crate::printing::{put_queues, put_tasks};
use crate::queues::{
    Queue, add_to, finish, first_free, give, is_held_by, make_queue, take_all_back, take_back,
};
use crate::standing::{
    Candidates, clear, holder, is_holder, make_task, stand, stands_since, step_down_everywhere,
    step_down_once,
};
use fluid_json::{Json, NoMemory, Printer, Text};
use fluid_types::{Address, ClientId, Kind, Message};
use std::alloc::Global;
use std::collections::BTreeMap;

/// An item that isn't gone.
#[derive(Drop)]
pub(crate) struct Item {
    pub(crate) queue: Address,
    pub(crate) value: Json,
}

/// The queues and tasks of a document, each item and each task with its holder.
#[derive(Drop)]
pub struct Tasks {
    // The number of the last message.
    heard: u64,
    // The items that aren't gone, by their numbers.
    items: BTreeMap<u64, Item>,
    // The queues, by their names.
    queues: BTreeMap<String, Queue>,
    // The candidates of the tasks, by the tasks' names.
    tasks: BTreeMap<String, Candidates>,
    // What each client holds and stands for, by the clients' ids. It may name what isn't so any more.
    clients: BTreeMap<String, Holdings>,
}

impl Tasks {
    /// No items and no candidates. Takes no memory.
    pub fn new(alloc: Global) -> Tasks
        ensures { StandsFor result [] }
    {
        Tasks {
            heard: 0,
            items: BTreeMap::new(alloc),
            queues: BTreeMap::new(alloc),
            tasks: BTreeMap::new(alloc),
            clients: BTreeMap::new(alloc),
        }
    }

    /// The number of the last message that was applied, 0 at first. Takes no memory.
    pub fn heard(&self) -> u64
        ensures kept { result ≡ self.now.heard }
        ensures answer { (messages : List AMessage) → StandsFor self.now messages → result ≡ length messages }
    {
        self.heard
    }

    /// Takes in the next message of the order. It takes a number of comparisons that grows with the logarithm of the items and
    /// candidates; a leave takes as many for each item that the client held and each task for which it volunteered. After `NoMemory`
    /// all answers are as they were.
    pub fn apply(&mut self, alloc: Global, message: &Message) -> Result<(), NoMemory>
        requires { message.now.number ≡ self.old.heard + 1 }
        ensures applied { (messages : List AMessage) → StandsFor self.old messages → OnOk result (StandsFor self.new (messages ++ message.now ∷ [])) }
        ensures unchanged { (messages : List AMessage) → StandsFor self.old messages → OnErr result (StandsFor self.new messages) }
    {
        self.take(alloc, message)?;
        self.heard = message.number;
        Ok(())
    }

    /// The free items of a queue, in the order in which they are given. Takes no memory.
    pub fn free(&self, queue: &str) -> &[u64]
        ensures { (messages : List AMessage) → StandsFor self.now messages → result.now ≡ free (past_of messages) queue.now }
    {
        match self.queues.get(queue) {
            Some(queue) => queue.line.free(),
            None => &[],
        }
    }

    /// The client that holds an item; none where it is free, gone or no item. Takes no memory.
    pub fn holder_of(&self, item: u64) -> Option<&ClientId>
        ensures { (messages : List AMessage) → StandsFor self.now messages → option_map (λ client. client.now) result ≡ holder_of (past_of messages) item }
    {
        let kept = self.items.get(&item)?;
        let queue = self.queues.get(kept.queue.as_str())?;
        queue.held.get(&item)
    }

    /// The value of an item; none where it is gone or no item. Takes no memory.
    pub fn value(&self, item: u64) -> Option<&Json>
        ensures { (messages : List AMessage) → StandsFor self.now messages → option_map (λ value. value.now) result ≡ value (past_of messages) item }
    {
        let kept = self.items.get(&item)?;
        Some(&kept.value)
    }

    /// The holder of a task: its first candidate. Takes no memory.
    pub fn holder(&self, task: &str) -> Option<&ClientId>
        ensures { (messages : List AMessage) → StandsFor self.now messages → option_map (λ client. client.now) result ≡ holder (past_of messages) task.now }
    {
        holder(&self.tasks, task)
    }

    /// The text of all queues and tasks, in byte order of their names: of each queue the free items in the order in which they are
    /// given, and those that are held in the order of their numbers, with their holders; of each task the candidates in order. Those
    /// without any are left out.
    pub fn print(&self, alloc: Global) -> Result<Text, NoMemory>
        ensures { (messages : List AMessage) → StandsFor self.now messages → IfOk result (λ text. text ≡ print (past_of messages)) }
    {
        let mut out = Printer::new(alloc);
        out.begin_object()?;
        out.key("queues")?;
        put_queues(&mut out, &self.queues)?;
        out.key("tasks")?;
        put_tasks(&mut out, &self.tasks)?;
        out.end_object()?;
        Ok(out.into_text())
    }

    // ---- what messages do

    fn take(&mut self, alloc: Global, message: &Message) -> Result<(), NoMemory>
        ensures behind { (past : Past) → IsNumbered (message.now ∷ past) → Keeps self.old past → OnOk result (Keeps self.new (message.now ∷ past)) }
        ensures still { (past : Past) → IsNumbered (message.now ∷ past) → Keeps self.old past → OnErr result (Keeps self.new past) }
        ensures heard { self.new.heard ≡ self.old.heard }
    {
        if let Some(client) = left(alloc, message)? {
            self.dismiss(client.as_str());
            return Ok(());
        }
        let Some(client) = &message.client else {
            return Ok(());
        };
        match spelled_act(alloc, message)? {
            Some(act) => self.perform(alloc, message.number, client, act),
            None => Ok(()),
        }
    }

    fn perform(
        &mut self,
        alloc: Global,
        number: u64,
        client: &ClientId,
        act: Act,
    ) -> Result<(), NoMemory>
        ensures behind { OnOk result (KeepsBehind number (Does client.now act) self.old self.new) }
        ensures still { OnErr result (KeepsStill number (Does client.now act) self.old self.new) }
        ensures heard { self.new.heard ≡ self.old.heard }
    {
        let id = client.as_str();
        match act {
            Act::Add(queue, value) => self.add(alloc, number, queue, value),
            Act::Acquire(queue) => self.acquire(alloc, client, queue.as_str()),
            Act::Complete(queue, item) => {
                self.complete(id, queue.as_str(), item);
                Ok(())
            }
            Act::Release(queue, item) => {
                self.release(id, queue.as_str(), item);
                Ok(())
            }
            Act::Volunteer(task) => self.volunteer(alloc, number, client, task.as_str()),
            Act::Abandon(task) => {
                self.abandon(id, task.as_str());
                Ok(())
            }
            Act::Finish(task) => {
                self.finish(id, task.as_str());
                Ok(())
            }
        }
    }

    fn add(
        &mut self,
        alloc: Global,
        number: u64,
        queue: Address,
        value: Json,
    ) -> Result<(), NoMemory>
        ensures behind { OnOk result ((c : List ℕ) → KeepsBehind number (Does c (Add queue value)) self.old self.new) }
        ensures still { OnErr result ((c : List ℕ) → KeepsStill number (Does c (Add queue value)) self.old self.new) }
        ensures heard { self.new.heard ≡ self.old.heard }
    {
        let name = queue.as_str();
        make_queue(alloc, &mut self.queues, name)?;
        let own = queue.copy(alloc)?;
        drop(self.items.insert(number, Item { queue: own, value })?);
        if let Err(refused) = add_to(&mut self.queues, name, number) {
            drop(self.items.remove(&number));
            return Err(refused);
        }
        Ok(())
    }

    fn acquire(&mut self, alloc: Global, client: &ClientId, queue: &str) -> Result<(), NoMemory>
        ensures behind { OnOk result (KeepsBehindAny (Does client.now (Acquire queue.now)) self.old self.new) }
        ensures still { OnErr result (KeepsStillAny (Does client.now (Acquire queue.now)) self.old self.new) }
        ensures heard { self.new.heard ≡ self.old.heard }
    {
        let Some(item) = first_free(&self.queues, queue) else {
            return Ok(());
        };
        note_item(alloc, &mut self.clients, client.as_str(), item)?;
        let own = client.copy(alloc)?;
        give(&mut self.queues, queue, item, own)
    }

    fn release(&mut self, client: &str, queue: &str, item: u64)
        ensures behind { KeepsBehindAny (Does client.now (Release queue.now item)) self.old self.new }
        ensures heard { self.new.heard ≡ self.old.heard }
    {
        if !is_held_by(&self.queues, queue, item, client) {
            return;
        }
        take_back(&mut self.queues, queue, item);
        forget_item(&mut self.clients, client, item);
    }

    fn complete(&mut self, client: &str, queue: &str, item: u64)
        ensures behind { KeepsBehindAny (Does client.now (Complete queue.now item)) self.old self.new }
        ensures heard { self.new.heard ≡ self.old.heard }
    {
        if !is_held_by(&self.queues, queue, item, client) {
            return;
        }
        finish(&mut self.queues, queue, item);
        drop(self.items.remove(&item));
        forget_item(&mut self.clients, client, item);
    }

    fn volunteer(
        &mut self,
        alloc: Global,
        number: u64,
        client: &ClientId,
        task: &str,
    ) -> Result<(), NoMemory>
        ensures behind { OnOk result (KeepsBehind number (Does client.now (Volunteer task.now)) self.old self.new) }
        ensures still { OnErr result (KeepsStill number (Does client.now (Volunteer task.now)) self.old self.new) }
        ensures heard { self.new.heard ≡ self.old.heard }
    {
        let id = client.as_str();
        if self.is_candidate(id, task) {
            return Ok(());
        }
        make_task(alloc, &mut self.tasks, task)?;
        let own = client.copy(alloc)?;
        note_task(alloc, &mut self.clients, id, task, number)?;
        stand(&mut self.tasks, task, number, own)
    }

    fn is_candidate(&self, client: &str, task: &str) -> bool
        ensures { (past : Past) → IsNumbered past → Keeps self.now past → result ≡ is_some (standing_since past task.now client.now) }
    {
        match noted_task(&self.clients, client, task) {
            Some(since) => stands_since(&self.tasks, task, since, client),
            None => false,
        }
    }

    fn abandon(&mut self, client: &str, task: &str)
        ensures behind { KeepsBehindAny (Does client.now (Abandon task.now)) self.old self.new }
        ensures heard { self.new.heard ≡ self.old.heard }
    {
        let Some(since) = noted_task(&self.clients, client, task) else {
            return;
        };
        step_down_once(&mut self.tasks, task, since, client);
        forget_task(&mut self.clients, client, task);
    }

    fn finish(&mut self, client: &str, task: &str)
        ensures behind { KeepsBehindAny (Does client.now (Finish task.now)) self.old self.new }
        ensures heard { self.new.heard ≡ self.old.heard }
    {
        if !is_holder(&self.tasks, task, client) {
            return;
        }
        clear(&mut self.tasks, task);
    }

    // What a client held is free behind its leave, and it stands for no task.
    fn dismiss(&mut self, client: &str)
        ensures behind { KeepsBehindAny (Leaves client.now) self.old self.new }
        ensures heard { self.new.heard ≡ self.old.heard }
    {
        let Some(holdings) = self.clients.remove(client) else {
            return;
        };
        take_all_back(&self.items, &mut self.queues, client, &holdings.items);
        step_down_everywhere(&mut self.tasks, client, &holdings.tasks);
    }
}
