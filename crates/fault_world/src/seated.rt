//! A node with its outputs.

ghost use Rattle.std.specs.Prelude.{false, ◌≡◌, ◌↔◌, ◌≤◌, ◌+◌, [], ◌++◌, IsTrue, OnOk, OnErr, length, vec_len, vec_capacity};
ghost use Rattle.boxed_nodes.specs.Moves.{Stays, Stops, ShowsCard, IsFresh};
ghost use Rattle.boxed_nodes.specs.Sendable.{IsTakeable, IsHeldBy};
ghost use Rattle.fault_world.specs.Seats.{IsSeat, SeatTakes, SeatStores, SeatReleases, SeatStarts};

use ballot_law::{Card, Input, KeptText, NoMemory, NodeName, Output};
use boxed_nodes::{HowStored, Node};
use sentinel_outbox::Outbox;
use std::alloc::Global;

/// A node of a group with its outbox, under the name that it was taken in with.
///
/// A node doesn't tell whether it is stopped, so that is kept here. Each call moves every image that the member stands
/// for as the model moves a node, and changes nothing where the node isn't in the state that the call is for; the node
/// has to go by the member's name. What was released goes out at once: the outbox shows nothing between two calls.
#[derive(Drop)]
pub struct Seated {
    pub name: NodeName,
    pub node: Box<dyn Node>,
    pub outbox: Outbox,
    pub stopped: bool,
    pub ghost quiet: { outbox.shown ≡ [] },
}

impl Seated {
    /// A member that holds nothing, of a fresh node. No memory is taken.
    pub fn new(alloc: Global, node: Box<dyn Node>) -> Seated
        requires { IsFresh (is_known node) (shows node) }
        ensures name { result.name ≡ name node }
        ensures node { result.node ≡ node }
        ensures held { result.outbox.held ≡ [] }
        ensures stopped { result.stopped ≡ false }
    {
        Seated {
            name: node.kind(),
            node,
            outbox: Outbox::new(alloc),
            stopped: false,
        }
    }

    /// Takes an input, where the node is ready. `NoMemory` leaves the member standing for what it stood for.
    pub fn take(&mut self, input: &Input) -> Result<(), NoMemory>
        requires own { name self.old.node ≡ self.old.name }
        requires takeable { IsTakeable input.now.event }
        ensures ok { OnOk result (SeatTakes self.old.name input.entry.now.event
            (IsSeat self.old.name (name self.old.node) (shows self.old.node) self.old.outbox.held self.old.stopped)
            (IsSeat self.new.name (name self.new.node) (shows self.new.node) self.new.outbox.held self.new.stopped)) }
        ensures err { OnErr result (Stays
            (IsSeat self.old.name (name self.old.node) (shows self.old.node) self.old.outbox.held self.old.stopped)
            (IsSeat self.new.name (name self.new.node) (shows self.new.node) self.new.outbox.held self.new.stopped)) }
        ensures name { self.new.name ≡ self.old.name }
    {
        let room = self.node.room();
        self.outbox.reserve(&room)?;
        let _took = self.node.take(input, &mut self.outbox);
        Ok(())
    }

    /// Stores what the node took, or finds the store refused; the election that is stored, by its master and epoch. No
    /// memory is taken.
    pub fn store(&mut self, how: HowStored) -> Option<(u16, u64)>
        requires { name self.old.node ≡ self.old.name }
        ensures stores { SeatStores how result
            (IsSeat self.old.name (name self.old.node) (shows self.old.node) self.old.outbox.held self.old.stopped)
            (IsSeat self.new.name (name self.new.node) (shows self.new.node) self.new.outbox.held self.new.stopped) }
        ensures name { self.new.name ≡ self.old.name }
    {
        let won = self.node.won();
        match self.node.store(how) {
            Ok(()) => won,
            Err(_) => None,
        }
    }

    /// How many outputs are held.
    pub fn held_len(&self) -> usize
        ensures { result ≡ length self.now.outbox.held }
    {
        self.outbox.held_len()
    }

    /// Releases what is held, where that is stored: it joins a list with room for it, in order. No memory is taken.
    /// What is held is what a node of this name may hold: so it is where the member stands for a node of a world.
    pub fn release(&mut self, released: &mut Vec<Output>)
        requires held { IsHeldBy (name self.old.node) self.old.outbox.held }
        requires room { vec_len released.old + length self.old.outbox.held ≤ vec_capacity released.old }
        ensures releases { SeatReleases released.old.items released.new.items
            (IsSeat self.old.name (name self.old.node) (shows self.old.node) self.old.outbox.held self.old.stopped)
            (IsSeat self.new.name (name self.new.node) (shows self.new.node) self.new.outbox.held self.new.stopped) }
        ensures length { length released.new.items ≤ length released.old.items + length self.old.outbox.held }
        ensures name { self.new.name ≡ self.old.name }
    {
        if self.node.release(&mut self.outbox).is_ok() {
            self.outbox.move_shown(released);
        }
    }

    /// Stops the node; a store that it was in leaves this text. No memory is taken.
    pub fn stop(&mut self, left: KeptText)
        requires { name self.old.node ≡ self.old.name }
        ensures stops { Stops left
            (IsSeat self.old.name (name self.old.node) (shows self.old.node) self.old.outbox.held self.old.stopped)
            (IsSeat self.new.name (name self.new.node) (shows self.new.node) self.new.outbox.held self.new.stopped) }
        ensures name { self.new.name ≡ self.old.name }
    {
        self.node.stop(left);
        self.stopped = true;
    }

    /// Starts the node at this reading of its clock, in milliseconds, where it is stopped; what it held is lost.
    /// `NoMemory` leaves it stopped.
    pub fn start(&mut self, now: u64) -> Result<(), NoMemory>
        requires { name self.old.node ≡ self.old.name }
        ensures ok { OnOk result (SeatStarts
            (IsSeat self.old.name (name self.old.node) (shows self.old.node) self.old.outbox.held self.old.stopped)
            (IsSeat self.new.name (name self.new.node) (shows self.new.node) self.new.outbox.held self.new.stopped)) }
        ensures err { OnErr result (Stays
            (IsSeat self.old.name (name self.old.node) (shows self.old.node) self.old.outbox.held self.old.stopped)
            (IsSeat self.new.name (name self.new.node) (shows self.new.node) self.new.outbox.held self.new.stopped)) }
        ensures name { self.new.name ≡ self.old.name }
    {
        if !self.stopped {
            return Ok(());
        }
        if self.node.start(now).is_err() {
            return Err(NoMemory);
        }
        self.outbox.drop_held();
        self.stopped = false;
        Ok(())
    }

    /// The configuration of a master that the node stored last since its start, if it is a Sentinel that isn't stopped.
    pub fn card(&self, m: u16) -> Option<Card>
        ensures { ShowsCard m result
            (IsSeat self.now.name (name self.now.node) (shows self.now.node) self.now.outbox.held self.now.stopped) }
    {
        self.node.card(m)
    }

    /// Whether the member goes by this name.
    pub fn has_name(&self, node: NodeName) -> bool
        ensures { IsTrue result ↔ (self.now.name ≡ node) }
    {
        self.name == node
    }
}
