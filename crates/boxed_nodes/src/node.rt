//! What a world asks of a node.

ghost use Rattle.std.specs.Prelude.{◌≡◌, ◌↔◌, ◌++◌, [], IsTrue, IfErr, OnOk, OnErr};
ghost use Rattle.std.specs.List.{AllByRecursion};
ghost use Rattle.ballot_law.specs.declared.messages.NodeName.{NodeName};
ghost use Rattle.ballot_law.specs.Rosters.{Roster};
ghost use Rattle.sentinel_outbox.specs.declared.room.Room.{Room};
ghost use Rattle.sentinel_outbox.specs.Outboxes.{Fits};
ghost use Rattle.boxed_nodes.specs.Images.{Image};
ghost use Rattle.boxed_nodes.specs.Sendable.{IsTakeable, IsSendableOutput, IsHeldBy};
ghost use Rattle.boxed_nodes.specs.Moves.{Stays, Takes, Refuses, Stores, Releases, Stops, Starts, IsNamed, ShowsKind, ShowsCard, ShowsWin};

use crate::calls::HowStored;
use ballot_law::{Card, Input, KeptText, NodeName, Roster};
use sentinel_outbox::{OpenFault, Outbox, ReleaseFault, Room, StoreFault, TakeFault, Took};

/// A node of a group: a Sentinel, a data node or a client.
///
/// In the model of the whole group it is one of the images that it stands for, and each call moves each of these as the
/// model moves a node: a take by what the model allows, every other call by a function of the image. So the state of a
/// node, its card and what its calls answer are read off any image that it stands for. A node that begins is fresh: it
/// stands for a ready one, of each roster that it knows.
///
/// Each call but a refused store is Ok exactly in the state that the model names for it, and a refusal changes nothing,
/// except that a refused store halts. No call but `start` takes memory.
pub trait Node: Drop {
    ghost name: { Self → NodeName };

    // The rosters in whose group the node is, and which a Sentinel has itself.
    ghost is_known: { Self → Roster → Type 0 };

    // Enough room for the outputs of any one take.
    ghost room_needed: { Self → Room };

    // The images that the node stands for in the model of a roster's group.
    ghost shows: { Self → Roster → Image → Type 0 };

    /// Its name: its kind, and its place among the nodes of that kind.
    fn kind(&self) -> NodeName
        ensures name { result ≡ name self.now }
        ensures shown { ShowsKind result (shows self.now) };

    /// How much room an outbox needs for the outputs of any one take.
    fn room(&self) -> Room
        ensures { result ≡ room_needed self.now };

    /// Whether the node is in this roster's group, and, if it is a Sentinel, has this roster.
    fn knows(&self, roster: &Roster) -> bool
        ensures { IsTrue result ↔ is_known self.now roster.now };

    /// The configuration of the master with this number that a Sentinel stored last since its start. None of a Sentinel
    /// that is stopped, of a master that isn't in the roster, and of other nodes. A Sentinel that isn't stopped has
    /// stored one of each master.
    fn card(&self, m: u16) -> Option<Card>
        ensures { ShowsCard m result (shows self.now) };

    /// Master and epoch of the election that the last take brought a Sentinel; a take brings one at most, the master is
    /// one of the roster, and the epoch is at most `MAX_EPOCH`.
    fn won(&self) -> Option<(u16, u64)>
        ensures { ShowsWin result (shows self.now) };

    /// Takes an input. Its outputs stand in the outbox as held: those of a Sentinel rest on what it keeps at the end of
    /// the take and advertise configurations of masters of the roster alone; those of another node are messages under
    /// its own name, none publishes a hello, and a hello is passed on only if it was handed to the node in this very
    /// take. Each epoch that an output shows, of a question, a vote, a configuration or a note, is at most `MAX_EPOCH`.
    ///
    /// The fault is that of the node's state; `NoRoom` is told by a ready node alone: if, and only if, the outbox
    /// doesn't fit `room`. Then nothing has changed.
    ///
    /// Many clauses: what a take moves, what it puts out and what each refusal leaves are asked for one by one by the
    /// world.
    fn take(&mut self, input: &Input, outbox: &mut Outbox) -> Result<Took, TakeFault>
        requires { IsTakeable input.now.event }
        ensures takes { OnOk result
            (Takes (name self.old) input.entry.now.event outbox.new.held (shows self.old) (shows self.new)) }
        ensures sendable { OnOk result (AllByRecursion IsSendableOutput outbox.new.held) }
        ensures held { OnOk result (IsHeldBy (name self.old) outbox.new.held) }
        ensures fits { OnOk result (Fits outbox.old (room_needed self.old)) }
        ensures shown { OnOk result (outbox.new.shown ≡ outbox.old.shown) }
        ensures refuses { IfErr result (Refuses (shows self.old) (Fits outbox.old (room_needed self.old))) }
        ensures stays { OnErr result (Stays (shows self.old) (shows self.new)) }
        ensures err { OnErr result (outbox.new ≡ outbox.old) }
        ensures name { name self.new ≡ name self.old };

    /// Stores what the last take changed, or finds that store refused: a Sentinel is then halted, and its file holds
    /// the old text or the new one, as was asked. `Nothing` where no take waits to be stored.
    fn store(&mut self, how: HowStored) -> Result<(), StoreFault>
        ensures stores { Stores how result (shows self.old) (shows self.new) }
        ensures name { name self.new ≡ name self.old };

    /// Releases what the last take gave, once it is stored: it moves to the end of what the outbox shows. The outbox is
    /// the one of that take, with all that it held.
    fn release(&mut self, outbox: &mut Outbox) -> Result<(), ReleaseFault>
        requires { IsHeldBy (name self.old) outbox.old.held }
        ensures releases { Releases result (shows self.old) (shows self.new) }
        ensures shown { OnOk result (outbox.new.shown ≡ outbox.old.shown ++ outbox.old.held) }
        ensures held { OnOk result (outbox.new.held ≡ []) }
        ensures err { OnErr result (outbox.new ≡ outbox.old) }
        ensures name { name self.new ≡ name self.old };

    /// Stops the node. Where a Sentinel's take wasn't stored, its file holds the old text or the new one, as is asked;
    /// other nodes keep what they are.
    fn stop(&mut self, left: KeptText)
        ensures stops { Stops left (shows self.old) (shows self.new) }
        ensures name { name self.new ≡ name self.old };

    /// Starts a stopped node: a Sentinel from its file, at this reading of its clock in milliseconds. `NoMemory` leaves
    /// it stopped. The node has to be stopped: of any other nothing is said.
    fn start(&mut self, now: u64) -> Result<(), OpenFault>
        ensures starts { OnOk result (Starts (shows self.old) (shows self.new)) }
        ensures stays { OnErr result (Stays (shows self.old) (shows self.new)) }
        ensures name { IsNamed (shows self.old) (name self.old) (name self.new) };
}
