// A client's channels.
ghost use Rattle.std.specs.Prelude.{◌≡◌, ◌+◌, ◌<◌, ◌≤◌, [], ◌∷◌, ◌++◌, List, false, IsTrue, ◌↔◌, Ok, IfOk, OnOk, OnErr, option_map};
ghost use Rattle.std.specs.FinMap.{get};
ghost use Rattle.fluid_json.specs.Unless.{IsUnless};
ghost use Rattle.fluid_types.specs.declared.messages.Message.{Message as AMessage};
ghost use Rattle.fluid_edits.specs.declared.edit.Edit.{Edit as AnEdit};
ghost use Rattle.fluid_edits.specs.Forms.{edit_of};
ghost use Rattle.fluid_edits.specs.Replay.{Channels, no_channels, attached, kind_of};
ghost use Rattle.fluid_runtime.specs.App.{StandsFor, visible, after_message, left, changed_by, all_are, loaded, loaded_if};
ghost use Rattle.fluid_runtime.specs.AppTree as summaries;
ghost use Rattle.fluid_runtime.specs.AppTree.{app_tree, tree_since, AreBounded};
ghost use Rattle.fluid_runtime.specs.Kinds.{first_attached};
ghost use Rattle.fluid_runtime.specs.Refused as refused;
ghost use Rattle.fluid_runtime.specs.Shown.{shown};

use crate::fault::{EditFault, refusal};
use crate::slots::{Slot, copy_slots, lay, take};
use crate::{loading, shown, summary};
use fluid_edits::{ChannelKind, Edit, spelled_edit};
use fluid_json::{Json, NoMemory, Text};
use fluid_table::SortedMap;
use fluid_tree::Node;
use fluid_types::{BlobFault, Kind, Message};
use std::alloc::Global;
use std::collections::VecDeque;
use std::marker::Model;

/// The most edits that messages make in one app: with so many no counter leaves its range.
const MOST_TAKEN: u128 = 1 << 64;

/// The channels of a document as one client has them.
#[derive(Drop)]
pub struct App {
    slots: SortedMap<Text, Slot>,
    // How many edits the messages have made.
    taken: u128,
    // How many they had made at the last mark.
    mark: Option<u128>,
    // Oldest first.
    pending: VecDeque<Edit>,
}

impl Model for App {
    ghost use Rattle.std.specs.Prelude.{◌-◌, ◌^◌, ◌≤◌};
    ghost use Rattle.fluid_runtime.specs.App.{AnApp};
    ghost use Rattle.fluid_runtime.specs.Codes.{app_code};
    ghost use Rattle.fluid_runtime.specs.Slots.{channels_of, changed_of, IsSound, IsKnown, AreNamed};

    ghost Value = { AnApp };

    ghost coded = { app_code };

    ghost view = { λ a. record { channels = channels_of a.slots.values; changed = changed_of a.mark a.slots.values; pending = a.pending.items; room = 2 ^ 64 - a.taken } };

    ghost invariant = { λ a. IsSound a.taken a.slots.values × (IsKnown a.taken a.mark × ((a.taken ≤ 2 ^ 64) × AreNamed a.slots.values)) };
}

impl App {
    /// No channels. Takes no memory.
    pub fn new(alloc: Global) -> App
        ensures fresh { result ≡ loaded no_channels }
        ensures stands { StandsFor no_channels [] [] result }
    {
        App {
            slots: SortedMap::new(alloc),
            taken: 0,
            mark: None,
            pending: VecDeque::new(alloc),
        }
    }

    /// Whether there is room for one more message: there is for the first 2^64.
    pub fn has_room(&self) -> bool
        ensures { IsTrue result ↔ (0 < self.now.room) }
    {
        self.taken < MOST_TAKEN
    }

    /// Takes in the next message of the order. Where it is this client's own, and an op, the oldest pending edit goes, where
    /// there is one: what counts is the message. It takes a search and a copy of its value, whatever is pending. After
    /// `NoMemory` nothing has changed.
    pub fn apply(&mut self, alloc: Global, message: &Message, own: bool) -> Result<(), NoMemory>
        requires { 0 < self.old.room }
        ensures channels { OnOk result (self.new.channels ≡ after_message self.old.channels message.now) }
        ensures pending { OnOk result (self.new.pending ≡ left own message.now self.old.pending) }
        ensures stands { (base : Channels) (messages : List AMessage) (edits : List AnEdit) → StandsFor base messages edits self.old →
            OnOk result (StandsFor base (messages ++ message.now ∷ []) (left own message.now edits) self.new) }
        ensures changed { OnOk result (self.new.changed ≡ changed_by self.old.channels self.old.changed (edit_of message.now)) }
        ensures kept { (self.old.room ≤ self.new.room + 1) × OnErr result (self.new ≡ self.old) }
    {
        self.count(alloc, message)?;
        self.take_off(own, message);
        Ok(())
    }

    // Takes in what a message says to the channels.
    fn count(&mut self, alloc: Global, message: &Message) -> Result<(), NoMemory>
        requires { 0 < self.old.room }
        ensures channels { OnOk result (self.new.channels ≡ after_message self.old.channels message.now) }
        ensures changed { OnOk result (self.new.changed ≡ changed_by self.old.channels self.old.changed (edit_of message.now)) }
        ensures pending { self.new.pending ≡ self.old.pending }
        ensures kept { (self.old.room ≤ self.new.room + 1) × OnErr result (self.new ≡ self.old) }
    {
        let Some(edit) = spelled_edit(alloc, message)? else {
            return Ok(());
        };
        take(alloc, &mut self.slots, self.taken + 1, edit)?;
        self.taken += 1;
        Ok(())
    }

    // Takes the oldest pending edit off for an op of this client's own.
    fn take_off(&mut self, own: bool, message: &Message)
        ensures { self.new ≡ record self.old { pending = left own message.now self.old.pending } }
    {
        if own && message.kind == Kind::Op {
            drop(self.pending.pop_front());
        }
    }

    /// Lays an edit over what is shown, and gives the contents of its op. After a fault nothing has changed.
    pub fn edit(&mut self, alloc: Global, edit: Edit) -> Result<Json, EditFault>
        ensures answer { IsUnless EditFault.NoMemory result (refused.answer (visible self.old) edit) }
        ensures laid { OnOk result (self.new ≡ record self.old { pending = self.old.pending ++ edit ∷ [] }) }
        ensures unchanged { OnErr result (self.new ≡ self.old) }
    {
        let kind = self.visible_kind(edit.address().as_str());
        if let Some(fault) = refusal(&edit, kind) {
            return Err(fault);
        }
        let contents = edit.to_json(alloc)?;
        self.pending.push_back(edit)?;
        Ok(contents)
    }

    // The kind of the channel that is visible under an address, if there is one.
    fn visible_kind(&self, address: &str) -> Option<ChannelKind>
        ensures { result ≡ option_map kind_of (get (visible self.now) address.now) }
    {
        if let Some(slot) = self.slots.get(address) {
            return Some(slot.object.kind());
        }
        let (older, newer) = self.pending.as_slices();
        first_attached(older, address).or(first_attached(newer, address))
    }

    /// Takes the newest pending edit back, where there is one. Takes no memory.
    pub fn take_back(&mut self)
        ensures newest { (edits : List AnEdit) (newest : AnEdit) → self.old.pending ≡ edits ++ newest ∷ [] →
            self.new ≡ record self.old { pending = edits } }
        ensures none { self.old.pending ≡ [] → self.new ≡ self.old }
    {
        drop(self.pending.pop_back());
    }

    /// What the client shows: an object with one member per visible channel, its kind and its value.
    pub fn visible(&self, alloc: Global) -> Result<Json, NoMemory>
        ensures { IfOk result (λ json. json ≡ shown (visible self.now)) }
    {
        let mut slots = copy_slots(alloc, &self.slots)?;
        let (older, newer) = self.pending.as_slices();
        let laid = self.taken + older.len() as u128;
        lay(alloc, &mut slots, self.taken, older)?;
        lay(alloc, &mut slots, laid, newer)?;
        shown::shown(alloc, &slots)
    }

    /// The tree in which a summary keeps the channels, without the pending edits. `from_tree` reads these channels back where
    /// the counters lie within plus or minus 2^120 and the values of maps are at most 99 deep.
    pub fn to_tree(&self, alloc: Global) -> Result<Node, NoMemory>
        ensures tree { IfOk result (λ node. node ≡ app_tree self.now.channels) }
        ensures reads_back { IfOk result (λ node. AreBounded self.now.channels → summaries.answer node ≡ Ok self.now.channels) }
    {
        summary::tree_of(alloc, &self.slots)
    }

    /// The channels that such a tree keeps, with nothing pending. Another tree is refused by the path of the first blob that
    /// is missing or outside its form, in the order in which they stand.
    pub fn from_tree(alloc: Global, tree: &Node) -> Result<App, BlobFault>
        ensures { IsUnless BlobFault.NoMemory result (loaded_if (summaries.answer tree.now)) }
    {
        let slots = loading::slots_of(alloc, tree)?;
        Ok(App {
            slots,
            taken: 0,
            mark: None,
            pending: VecDeque::new(alloc),
        })
    }

    /// From now on `to_tree_since` tells which channels have changed. Takes no memory.
    pub fn mark(&mut self)
        ensures { self.new ≡ record self.old { changed = all_are false self.old.channels } }
    {
        self.mark = Some(self.taken);
    }

    /// The tree as by `to_tree`, but that a channel for which no message has counted since the last mark is a handle of its
    /// address. Without a mark there is none.
    pub fn to_tree_since(&self, alloc: Global) -> Result<Node, NoMemory>
        ensures { IfOk result (λ node. node ≡ tree_since self.now.changed self.now.channels) }
    {
        summary::tree_since(alloc, &self.slots, self.mark)
    }
}

// The kind of the first attach of an address.
fn first_attached(edits: &[Edit], address: &str) -> Option<ChannelKind>
    ensures { result ≡ first_attached address.now edits.now }
{
    for edit in edits {
        if let Some(kind) = attached(edit, address) {
            return Some(kind);
        }
    }
    None
}

// The kind of channel that an edit attaches at an address, if it attaches one there.
fn attached(edit: &Edit, address: &str) -> Option<ChannelKind>
    ensures { result ≡ attached address.now edit.now }
{
    match edit {
        Edit::Attach(own, kind) => {
            if address == own.as_str() {
                Some(*kind)
            } else {
                None
            }
        }
        _ => None,
    }
}
