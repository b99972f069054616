//! The outputs of a node, held back until what they rest on is stored.

ghost use Rattle.std.specs.Prelude.{◌≡◌, ◌↔◌, ◌≤◌, ◌<◌, ◌+◌, ◌-◌, ◌∷◌, ◌++◌, [], length, OnOk, OnErr, IsOk, IsTrue, IsFalse, IfSome, IfNone, vec_len, vec_capacity};
ghost use Rattle.std.specs.List.{AllByRecursion};
ghost use Rattle.ballot_law.specs.declared.messages.Output.TheVariants.{Send};
ghost use Rattle.sentinel_outbox.specs.declared.phase.Phase.{Phase};
ghost use Rattle.sentinel_outbox.specs.Outboxes.{Outputs, HasRoom, Fits, KeepsRoom, IsOfOther, IsOtherNode};

use crate::room::Room;
use crate::spare::{Spare, larger_than};
use crate::stores::Stores;
use ballot_law::{Message, NoMemory, Output, Shown};
use std::alloc::Global;
use std::marker::Model;
use std::mem;

/// The outputs of a node: those that may be seen, and those of the last input, held back until what they rest on is
/// stored.
///
/// An input fills the held list, a release moves it to the end of the shown one. All room is made beforehand by
/// `reserve`, so an input and its release take no memory. There is always room to show what is held.
#[derive(Drop)]
pub struct Outbox {
    shown: Vec<Output>,
    held: Vec<Output>,
    spare: Spare,
}

impl Model for Outbox {
    ghost use Rattle.std.specs.Prelude.{◌≤◌, ◌-◌, vec_len, vec_capacity};
    ghost use Rattle.sentinel_outbox.specs.Outboxes.{Outputs};

    ghost Value = { Outputs };

    ghost view = { λ outbox. record {
      shown = outbox.shown.items;
      held = outbox.held.items;
      held_room = vec_capacity outbox.held;
      shown_room = vec_capacity outbox.shown - vec_len outbox.shown;
      text_room = outbox.spare.text;
      list_room = outbox.spare.list;
    } };

    ghost invariant = { λ outbox. vec_len outbox.held ≤ vec_capacity outbox.shown - vec_len outbox.shown };
}

/// Empties a list of outputs, and keeps the room of the list and of the answers in it. No memory is taken.
fn empty(outputs: &mut Vec<Output>, spare: &mut Spare)
    ensures items { outputs.new.items ≡ [] }
    ensures capacity { vec_capacity outputs.new ≡ vec_capacity outputs.old }
    ensures text { spare.old.text ≤ spare.new.text }
    ensures list { spare.old.list ≤ spare.new.list }
{
    while let Some(output) = outputs.pop() {
        spare.take_back(output);
    }
}

/// Moves the outputs of one list to the end of another one, which has room for them. No memory is taken.
fn move_all(outputs: &mut Vec<Output>, to: &mut Vec<Output>)
    requires { vec_len to.old + vec_len outputs.old ≤ vec_capacity to.old }
    ensures items { to.new.items ≡ to.old.items ++ outputs.old.items }
    ensures capacity { vec_capacity to.new ≡ vec_capacity to.old }
    ensures moved { outputs.new.items ≡ [] }
    ensures moved_capacity { vec_capacity outputs.new ≡ vec_capacity outputs.old }
{
    for output in outputs.drain(..) {
        to.push_reserved(output);
    }
}

/// Moves the outputs of a list into a larger one that takes its place, where there is one.
fn move_into_larger(outputs: &mut Vec<Output>, larger: Option<Vec<Output>>)
    requires empty { IfSome larger (λ list. list.items ≡ []) }
    requires room { IfSome larger (λ list. vec_len outputs.old ≤ vec_capacity list) }
    ensures items { outputs.new.items ≡ outputs.old.items }
    ensures some { IfSome larger (λ list. vec_capacity outputs.new ≡ vec_capacity list) }
    ensures none { IfNone larger (vec_capacity outputs.new ≡ vec_capacity outputs.old) }
{
    if let Some(mut list) = larger {
        move_all(outputs, &mut list);
        *outputs = list;
    }
}

impl Outbox {
    /// An outbox with nothing shown, nothing held and no room. No memory is taken.
    pub fn new(alloc: Global) -> Outbox
        ensures { result ≡ record {
          shown = [];
          held = [];
          held_room = 0;
          shown_room = 0;
          text_room = 0;
          list_room = 0;
        } }
    {
        Outbox {
            shown: Vec::new(alloc),
            held: Vec::new(alloc),
            spare: Spare::new(alloc),
        }
    }

    /// Whether there is the room for the outputs of one input, in addition to what is held and shown.
    fn has_room(&self, room: &Room) -> bool
        ensures { IsTrue result ↔ HasRoom self.now room.now }
    {
        let outputs = room.outputs as usize;
        let held = self.held.len();
        outputs <= self.held.capacity() - held
            && outputs <= self.shown.capacity() - self.shown.len() - held
            && room.text as usize <= self.spare.text_room()
            && room.shown as usize <= self.spare.list_room()
    }

    /// Makes the room for the outputs of one input, in addition to what is held and shown. This is the only call that
    /// takes memory, and it takes none where there is enough room.
    ///
    /// Both lists stay, and no room becomes less. `NoMemory` comes only if room was missing, and changes nothing.
    pub fn reserve(&mut self, room: &Room) -> Result<(), NoMemory>
        ensures shown { self.new.shown ≡ self.old.shown }
        ensures held { self.new.held ≡ self.old.held }
        ensures rooms { KeepsRoom self.old self.new }
        ensures ok { OnOk result (HasRoom self.new room.now) }
        ensures fits { OnOk result (self.old.held ≡ [] → Fits self.new room.now) }
        ensures enough { HasRoom self.old room.now → IsOk result }
        ensures refused { OnErr result (self.new ≡ self.old) }
    {
        if self.has_room(room) {
            return Ok(());
        }
        let outputs = room.outputs as usize;
        let Some(to_show) = self.held.len().checked_add(outputs) else {
            return Err(NoMemory);
        };
        let held = larger_than(&self.held, outputs)?;
        let shown = larger_than(&self.shown, to_show)?;
        let text = self.spare.larger_text(room.text as usize)?;
        let list = self.spare.larger_list(room.shown as usize)?;
        move_into_larger(&mut self.held, held);
        move_into_larger(&mut self.shown, shown);
        self.spare.keep_larger(text, list);
        Ok(())
    }

    /// Whether nothing is held and there is the room for the outputs of one input. No memory is taken.
    pub fn fits(&self, room: &Room) -> bool
        ensures { IsTrue result ↔ Fits self.now room.now }
    {
        self.held.is_empty()
            && room.outputs as usize <= self.held.capacity()
            && room.outputs as usize <= self.shown.capacity() - self.shown.len()
            && room.text as usize <= self.spare.text_room()
            && room.shown as usize <= self.spare.list_room()
    }

    /// The outputs that are shown, in the order of their release. No memory is taken.
    pub fn outputs(&self) -> &[Output]
        ensures { result.now ≡ self.now.shown }
    {
        self.shown.as_slice()
    }

    /// Drops what is shown; what is held stays. No memory is taken, and no room is lost: the room of the list stays,
    /// and that of an answer is kept for the next one.
    pub fn clear(&mut self)
        ensures shown { self.new.shown ≡ [] }
        ensures shown_room { self.new.shown_room ≡ self.old.shown_room + length self.old.shown }
        ensures held { self.new.held ≡ self.old.held }
        ensures held_room { self.new.held_room ≡ self.old.held_room }
        ensures rooms { KeepsRoom self.old self.new }
    {
        empty(&mut self.shown, &mut self.spare);
    }

    /// Drops what is held, as after a store that was refused; what is shown stays. No memory is taken, and no room is
    /// lost.
    pub fn drop_held(&mut self)
        ensures held { self.new.held ≡ [] }
        ensures held_room { self.new.held_room ≡ self.old.held_room }
        ensures shown { self.new.shown ≡ self.old.shown }
        ensures shown_room { self.new.shown_room ≡ self.old.shown_room }
        ensures rooms { KeepsRoom self.old self.new }
    {
        empty(&mut self.held, &mut self.spare);
    }

    /// How many outputs are held. No memory is taken.
    pub fn held_len(&self) -> usize
        ensures { result ≡ length self.now.held }
    {
        self.held.len()
    }

    /// Adds a message to the end of what is held, for a node that isn't a Sentinel; false, with nothing changed, where
    /// no room is left for it. Where `fits` of `Room::messages(n)` was true, the next n calls are true. No memory is
    /// taken.
    pub fn hold(&mut self, message: Message) -> bool
        requires { IsOtherNode message.sender }
        ensures held { IsTrue result → self.new ≡ record self.old { held = self.old.held ++ Send message ∷ [] } }
        ensures full { IsFalse result → self.new ≡ self.old }
        ensures room { IsTrue result
            ↔ ((length self.old.held < self.old.held_room) × (length self.old.held < self.old.shown_room)) }
    {
        let shown_room = self.shown.capacity() - self.shown.len();
        if self.held.len() == self.held.capacity() || self.held.len() == shown_room {
            return false;
        }
        self.held.push_reserved(Output::Send(message));
        true
    }

    /// Moves what is held to the end of what is shown, in order, for a node that isn't a Sentinel. No memory is taken.
    pub fn show_held(&mut self)
        requires { AllByRecursion IsOfOther self.old.held }
        ensures { self.new ≡ record self.old {
          shown = self.old.shown ++ self.old.held;
          held = [];
          shown_room = self.old.shown_room - length self.old.held;
        } }
    {
        self.show_all();
    }

    /// Moves what is shown to the end of a list that has room for it, in order; the texts of the messages aren't
    /// copied. No memory is taken, and what is held stays.
    pub fn move_shown(&mut self, to: &mut Vec<Output>)
        requires { vec_len to.old + length self.old.shown ≤ vec_capacity to.old }
        ensures moved { to.new.items ≡ to.old.items ++ self.old.shown }
        ensures capacity { vec_capacity to.new ≡ vec_capacity to.old }
        ensures left { self.new ≡ record self.old {
          shown = [];
          shown_room = self.old.shown_room + length self.old.shown;
        } }
    {
        move_all(&mut self.shown, to);
    }

    /// Adds an output of a Sentinel, or of a part of one, to the end of those that are held, within the room for them.
    /// No memory is taken.
    pub fn hold_output<T: Stores>(&mut self, by: &T, output: Output)
        requires held_room { length self.old.held < self.old.held_room }
        requires shown_room { length self.old.held < self.old.shown_room }
        ensures { self.new ≡ record self.old { held = self.old.held ++ output ∷ [] } }
    {
        self.held.push_reserved(output);
    }

    /// Moves what is held to the end of what is shown, in order, for a Sentinel that has stored what it rests on. No
    /// memory is taken.
    pub fn show_stored<T: Stores>(&mut self, by: &T)
        requires { T.phase by.now ≡ Phase.Stored }
        ensures { self.new ≡ record self.old {
          shown = self.old.shown ++ self.old.held;
          held = [];
          shown_room = self.old.shown_room - length self.old.held;
        } }
    {
        self.show_all();
    }

    /// Moves what is held to the end of what is shown, in order. Where nothing is shown yet and both lists have as much
    /// room, as those of a port do, they change places, and no output is moved. No memory is taken.
    fn show_all(&mut self)
        ensures { self.new ≡ record self.old {
          shown = self.old.shown ++ self.old.held;
          held = [];
          shown_room = self.old.shown_room - length self.old.held;
        } }
    {
        if self.shown.is_empty() && self.shown.capacity() == self.held.capacity() {
            mem::swap(&mut self.shown, &mut self.held);
        } else {
            move_all(&mut self.held, &mut self.shown);
        }
    }

    /// Hands out the buffer for the text of an answer, empty and with all its room, of which nothing is left here until
    /// an answer is dropped. No memory is taken.
    pub fn take_text(&mut self) -> Vec<u8>
        ensures items { result.items ≡ [] }
        ensures capacity { vec_capacity result ≡ self.old.text_room }
        ensures left { self.new ≡ record self.old { text_room = 0 } }
    {
        self.spare.take_text()
    }

    /// Hands out the list for the configurations that an answer shows, empty and with all its room, of which nothing is
    /// left here until an answer is dropped. No memory is taken.
    pub fn take_list(&mut self) -> Vec<Shown>
        ensures items { result.items ≡ [] }
        ensures capacity { vec_capacity result ≡ self.old.list_room }
        ensures left { self.new ≡ record self.old { list_room = 0 } }
    {
        self.spare.take_list()
    }
}
