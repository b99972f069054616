//! A data node in a box.

ghost use Rattle.std.specs.Prelude.{◌≡◌, ◌++◌, [], IfSome, IfErr, OnOk, OnErr};
ghost use Rattle.std.specs.List.{AllByRecursion};
ghost use Rattle.ballot_law.specs.declared.messages.NodeName.TheVariants.{StoreAt};
ghost use Rattle.sentinel_outbox.specs.Outboxes.{Fits};
ghost use Rattle.boxed_nodes.specs.Moves.{Stays, Takes, Refuses, Stores, Releases, Stops, Starts, IsNamed, IsFresh};
ghost use Rattle.boxed_nodes.specs.Sendable.{IsTakeable, IsSendableOutput, IsHeldBy};
ghost use Rattle.boxed_nodes.specs.Turns.{shown_at};
ghost use Rattle.boxed_nodes.specs.Data.Nodes.{addr_numbered, node_of, IsIn, room_of, IsSameNode};
ghost use Rattle.boxed_nodes.specs.Data.Servers.{changed_by, said};

use crate::calls::HowStored;
use crate::data::saying::say;
use crate::data::server::Server;
use crate::node::Node;
use crate::turn::Turn;
use ballot_law::{Addr, Card, Input, KeptText, NodeName, Roster};
use sentinel_conf::Conf;
use sentinel_outbox::{OpenFault, Outbox, ReleaseFault, Room, StoreFault, TakeFault, Took};
use std::marker::Model;

/// A data node: a master or a replica of one.
///
/// It answers PING by PONG, INFO and ROLE by what it keeps, takes the role that REPLICAOF gives it and answers OK,
/// follows the heir to which FAILOVER has it hand over and tells that heir that it is a master, and passes a published
/// hello to every Sentinel in the roster's order. Anything else changes nothing and is not answered, but that it may be
/// told what priority, replication offset and link it gets. A stop keeps all of it.
#[derive(Drop)]
pub struct DataNode {
    number: u16,
    addr: Addr,
    sentinels: u16,
    server: Server,
    turn: Turn,
}

impl Model for DataNode {
    ghost use Rattle.std.specs.Prelude.{◌≤◌};
    ghost use Rattle.boxed_nodes.specs.Data.Nodes.{DataPlan};

    ghost Value = { DataPlan };

    ghost view = { λ node. record {
      number = node.number;
      addr = node.addr;
      sentinels = node.sentinels;
      server = node.server;
      turn = node.turn;
    } };

    ghost invariant = { λ node. 1 ≤ node.sentinels };
}

/// The address of the data node with this number.
fn addr_numbered(roster: &Roster, number: u16) -> Option<Addr>
    ensures { result ≡ addr_numbered roster.now number }
{
    let at = roster.node_numbered(number)?;
    Some(roster.addr_at(at))
}

impl DataNode {
    /// The data node with this number, counted over the masters in the roster's order, each master's nodes by address;
    /// none where there is no such node. The node of a master's configuration begins as that master, the others follow
    /// it. No memory is taken.
    pub fn new(conf: &Conf, number: u16) -> Option<DataNode>
        ensures node { result ≡ node_of conf.now number }
        ensures known { IfSome result (λ node. IsIn node conf.now.roster) }
        ensures fresh { IfSome result (λ node. IsFresh (IsIn node) (shown_at node.turn)) }
    {
        let roster = conf.roster();
        let at = roster.node_numbered(number)?;
        let addr = roster.addr_at(at);
        let card = conf.kept().masters.as_slice()[at.master as usize].card;
        let follows = if addr.is_same(&card.addr) {
            None
        } else {
            Some(card.addr)
        };
        Some(DataNode {
            number,
            addr,
            sentinels: roster.sentinels().len() as u16,
            server: Server::new(number, follows),
            turn: Turn::Ready,
        })
    }
}

impl Node for DataNode {
    ghost use Rattle.ballot_law.specs.declared.messages.NodeName.TheVariants.{StoreAt};
    ghost use Rattle.boxed_nodes.specs.Turns.{shown_at};
    ghost use Rattle.boxed_nodes.specs.Data.Nodes.{IsIn, room_of};

    ghost name = { λ node. StoreAt node.number };

    ghost is_known = { IsIn };

    ghost room_needed = { λ node. room_of node };

    ghost shows = { λ node. shown_at node.turn };

    fn kind(&self) -> NodeName {
        NodeName::StoreAt(self.number)
    }

    fn room(&self) -> Room {
        Room::messages(u32::from(self.sentinels))
    }

    fn knows(&self, roster: &Roster) -> bool {
        addr_numbered(roster, self.number) == Some(self.addr)
            && roster.sentinels().len() == self.sentinels as usize
    }

    fn card(&self, _m: u16) -> Option<Card> {
        None
    }

    fn won(&self) -> Option<(u16, u64)> {
        None
    }

    // Many clauses: nine are the trait's, said again for this node, and the last three say what it does.
    #[tactic(auto, using(crate::proofs::DataLemmas::SaidMessages::all_of_store, crate::proofs::DataLemmas::SaidMessages::all_sendable))]
    fn take(&mut self, input: &Input, outbox: &mut Outbox) -> Result<Took, TakeFault>
        requires { IsTakeable input.now.event }
        ensures takes { OnOk result
            (Takes (StoreAt self.old.number) input.entry.now.event outbox.new.held (shown_at self.old.turn) (shown_at self.new.turn)) }
        ensures sendable { OnOk result (AllByRecursion IsSendableOutput outbox.new.held) }
        ensures held { OnOk result (IsHeldBy (StoreAt self.old.number) outbox.new.held) }
        ensures fits { OnOk result (Fits outbox.old (room_of self.old)) }
        ensures shown { OnOk result (outbox.new.shown ≡ outbox.old.shown) }
        ensures refuses { IfErr result (Refuses (shown_at self.old.turn) (Fits outbox.old (room_of self.old))) }
        ensures stays { OnErr result (Stays (shown_at self.old.turn) (shown_at self.new.turn)) }
        ensures err { OnErr result (outbox.new ≡ outbox.old) }
        ensures name { StoreAt self.new.number ≡ StoreAt self.old.number }
        ensures server { OnOk result (self.new.server ≡ changed_by input.entry.now.event self.old.server) }
        ensures says { OnOk result
            (outbox.new.held ≡ said (StoreAt self.old.number) self.old.sentinels self.new.server input.entry.now.event) }
        ensures same { OnErr result (self.new ≡ self.old) }
    {
        let room = self.room();
        self.turn.take(outbox, &room)?;
        self.server.change(&input.event);
        self.server.is_sound();
        say(
            NodeName::StoreAt(self.number),
            &self.server,
            self.sentinels,
            &input.event,
            outbox,
        );
        Ok(Took { changed: false })
    }

    fn store(&mut self, how: HowStored) -> Result<(), StoreFault>
        ensures stores { Stores how result (shown_at self.old.turn) (shown_at self.new.turn) }
        ensures name { StoreAt self.new.number ≡ StoreAt self.old.number }
        ensures same { IsSameNode self.old self.new }
    {
        self.turn.store(how)
    }

    fn release(&mut self, outbox: &mut Outbox) -> Result<(), ReleaseFault>
        requires { IsHeldBy (StoreAt self.old.number) outbox.old.held }
        ensures releases { Releases result (shown_at self.old.turn) (shown_at self.new.turn) }
        ensures shown { OnOk result (outbox.new.shown ≡ outbox.old.shown ++ outbox.old.held) }
        ensures held { OnOk result (outbox.new.held ≡ []) }
        ensures err { OnErr result (outbox.new ≡ outbox.old) }
        ensures name { StoreAt self.new.number ≡ StoreAt self.old.number }
        ensures same { IsSameNode self.old self.new }
    {
        self.turn.release(outbox)
    }

    fn stop(&mut self, left: KeptText)
        ensures stops { Stops left (shown_at self.old.turn) (shown_at self.new.turn) }
        ensures name { StoreAt self.new.number ≡ StoreAt self.old.number }
        ensures same { IsSameNode self.old self.new }
    {
        self.turn.stop(left);
    }

    fn start(&mut self, _now: u64) -> Result<(), OpenFault>
        ensures starts { OnOk result (Starts (shown_at self.old.turn) (shown_at self.new.turn)) }
        ensures stays { OnErr result (Stays (shown_at self.old.turn) (shown_at self.new.turn)) }
        ensures name { IsNamed (shown_at self.old.turn) (StoreAt self.old.number) (StoreAt self.new.number) }
        ensures same { IsSameNode self.old self.new }
    {
        self.turn.start();
        Ok(())
    }
}
