//! A client in a box.

ghost use Rattle.std.specs.Prelude.{◌≡◌, ◌<◌, ◌++◌, [], OnOk, OnErr, IfOk, IfErr, length};
ghost use Rattle.std.specs.List.{AllByRecursion};
ghost use Rattle.ballot_law.specs.declared.messages.NodeName.TheVariants.{ClientAt};
ghost use Rattle.sentinel_outbox.specs.Outboxes.{Fits};
ghost use Rattle.boxed_nodes.specs.Moves.{Stays, Takes, Refuses, Stores, Releases, Stops, Starts, IsNamed, IsFresh};
ghost use Rattle.boxed_nodes.specs.Sendable.{IsTakeable, IsSendableOutput, IsHeldBy};
ghost use Rattle.boxed_nodes.specs.Turns.{shown_at};
ghost use Rattle.boxed_nodes.specs.Clients.Searches.{said, sent_to, sentinel_asked, after_event};
ghost use Rattle.boxed_nodes.specs.Clients.Clients.{fresh_client, room_of_client, IsSameClient};

use crate::calls::HowStored;
use crate::clients::group::Group;
use crate::clients::search::Search;
use crate::node::Node;
use crate::turn::Turn;
use ballot_law::{Addr, Body, Card, Event, Input, KeptText, Message, NoMemory, NodeName, Roster};
use client_queries::Move;
use sentinel_conf::Conf;
use sentinel_outbox::{OpenFault, Outbox, ReleaseFault, Room, StoreFault, TakeFault, Took};
use std::alloc::Global;
use std::marker::Model;

/// A client that searches for one master.
///
/// At a tick it sends the question of its next move: to a Sentinel of its list for the address of the master, or to the
/// data node at that address for its role. Where a question has no answer yet, the tick counts as its failure, and
/// where the client waits, as the end of that. It takes any answer that fits its move, from whichever node it comes;
/// connecting succeeds at once. Anything else changes nothing. A stop keeps the search.
#[derive(Drop)]
pub struct ClientNode {
    number: u16,
    group: Group,
    search: Search,
    turn: Turn,
}

impl Model for ClientNode {
    ghost use Rattle.boxed_nodes.specs.Clients.Clients.{ClientPlan};

    ghost Value = { ClientPlan };

    ghost view = { λ node. record {
      number = node.number;
      group = node.group;
      search = node.search;
      turn = node.turn;
    } };
}

impl ClientNode {
    /// The client with this number, which searches for the master with that number of the roster. Its list is the
    /// Sentinels in the roster's order. `NoMemory` is the only error.
    pub fn new(alloc: Global, conf: &Conf, number: u16, master: u16) -> Result<ClientNode, NoMemory>
        requires { master < length conf.now.roster.masters }
        ensures client { IfOk result (λ node. node ≡ fresh_client conf.now.roster number master) }
        ensures fresh { IfOk result (λ node. IsFresh (λ roster. Unit {0}) (shown_at node.turn)) }
    {
        let group = Group::new(alloc, conf.roster(), master)?;
        let search = Search::new(alloc, group.sentinels())?;
        Ok(ClientNode {
            number,
            group,
            search,
            turn: Turn::Ready,
        })
    }

    /// Sends this to a node, where there is one.
    fn send(&self, target: Option<NodeName>, body: Body, outbox: &mut Outbox)
        requires { Fits outbox.old room_of_client }
        ensures held { outbox.new.held ≡ sent_to (ClientAt self.now.number) target body }
        ensures shown { outbox.new.shown ≡ outbox.old.shown }
    {
        if let Some(target) = target {
            let _held = outbox.hold(Message {
                sender: NodeName::ClientAt(self.number),
                target,
                body,
            });
        }
    }

    /// The Sentinel at this address of the list.
    fn sentinel_asked(&self, addr: Option<Addr>) -> Option<NodeName>
        ensures { result ≡ sentinel_asked self.now.group addr }
    {
        self.group.sentinel_with(addr?)
    }

    /// Sends the question of the next move, where the event is a tick and no question is outstanding.
    fn say(&self, event: &Event, outbox: &mut Outbox)
        requires { Fits outbox.old room_of_client }
        ensures held { outbox.new.held ≡ said self.now.group (ClientAt self.now.number) self.now.search event.now }
        ensures shown { outbox.new.shown ≡ outbox.old.shown }
    {
        let Event::Tick { .. } = event else {
            return;
        };
        if self.search.is_outstanding() {
            return;
        }
        match self.search.next_move() {
            Move::Ask(place) => {
                let target = self.sentinel_asked(self.search.at(place));
                self.send(target, Body::AddressAsk(self.group.master()), outbox);
            }
            Move::CheckRole(addr) => {
                self.send(self.group.store_with(addr), Body::RoleAsk, outbox);
            }
            Move::Connect(_) => {}
            Move::Wait => {}
            Move::NoSentinel => {}
            Move::Done(_) => {}
        }
    }
}

impl Node for ClientNode {
    ghost use Rattle.ballot_law.specs.declared.messages.NodeName.TheVariants.{ClientAt};
    ghost use Rattle.boxed_nodes.specs.Turns.{shown_at};
    ghost use Rattle.boxed_nodes.specs.Clients.Clients.{room_of_client};

    ghost name = { λ node. ClientAt node.number };

    ghost is_known = { λ node roster. Unit {0} };

    ghost room_needed = { λ node. room_of_client };

    ghost shows = { λ node. shown_at node.turn };

    fn kind(&self) -> NodeName {
        NodeName::ClientAt(self.number)
    }

    fn room(&self) -> Room {
        Room::messages(1)
    }

    fn knows(&self, _roster: &Roster) -> bool {
        true
    }

    fn card(&self, _m: u16) -> Option<Card> {
        None
    }

    fn won(&self) -> Option<(u16, u64)> {
        None
    }

    // Many clauses: nine are the trait's, said again for this node, and the last three say what it does.
    #[tactic(auto, using(crate::proofs::ClientsLemmas::Saying::all_of_client, crate::proofs::ClientsLemmas::Saying::all_sendable))]
    fn take(&mut self, input: &Input, outbox: &mut Outbox) -> Result<Took, TakeFault>
        requires { IsTakeable input.now.event }
        ensures takes { OnOk result
            (Takes (ClientAt self.old.number) input.entry.now.event outbox.new.held (shown_at self.old.turn) (shown_at self.new.turn)) }
        ensures sendable { OnOk result (AllByRecursion IsSendableOutput outbox.new.held) }
        ensures held { OnOk result (IsHeldBy (ClientAt self.old.number) outbox.new.held) }
        ensures fits { OnOk result (Fits outbox.old room_of_client) }
        ensures shown { OnOk result (outbox.new.shown ≡ outbox.old.shown) }
        ensures refuses { IfErr result (Refuses (shown_at self.old.turn) (Fits outbox.old room_of_client)) }
        ensures stays { OnErr result (Stays (shown_at self.old.turn) (shown_at self.new.turn)) }
        ensures err { OnErr result (outbox.new ≡ outbox.old) }
        ensures name { ClientAt self.new.number ≡ ClientAt self.old.number }
        ensures search { OnOk result (self.new.search ≡ after_event input.entry.now.event self.old.search) }
        ensures says { OnOk result
            (outbox.new.held ≡ said self.old.group (ClientAt self.old.number) self.old.search input.entry.now.event) }
        ensures same { OnErr result (self.new ≡ self.old) }
    {
        let room = self.room();
        self.turn.take(outbox, &room)?;
        self.say(&input.event, outbox);
        self.search.take(&input.event);
        Ok(Took { changed: false })
    }

    fn store(&mut self, how: HowStored) -> Result<(), StoreFault>
        ensures stores { Stores how result (shown_at self.old.turn) (shown_at self.new.turn) }
        ensures name { ClientAt self.new.number ≡ ClientAt self.old.number }
        ensures same { IsSameClient self.old self.new }
    {
        self.turn.store(how)
    }

    fn release(&mut self, outbox: &mut Outbox) -> Result<(), ReleaseFault>
        requires { IsHeldBy (ClientAt self.old.number) outbox.old.held }
        ensures releases { Releases result (shown_at self.old.turn) (shown_at self.new.turn) }
        ensures shown { OnOk result (outbox.new.shown ≡ outbox.old.shown ++ outbox.old.held) }
        ensures held { OnOk result (outbox.new.held ≡ []) }
        ensures err { OnErr result (outbox.new ≡ outbox.old) }
        ensures name { ClientAt self.new.number ≡ ClientAt self.old.number }
        ensures same { IsSameClient self.old self.new }
    {
        self.turn.release(outbox)
    }

    fn stop(&mut self, left: KeptText)
        ensures stops { Stops left (shown_at self.old.turn) (shown_at self.new.turn) }
        ensures name { ClientAt self.new.number ≡ ClientAt self.old.number }
        ensures same { IsSameClient self.old self.new }
    {
        self.turn.stop(left);
    }

    fn start(&mut self, _now: u64) -> Result<(), OpenFault>
        ensures starts { OnOk result (Starts (shown_at self.old.turn) (shown_at self.new.turn)) }
        ensures stays { OnErr result (Stays (shown_at self.old.turn) (shown_at self.new.turn)) }
        ensures name { IsNamed (shown_at self.old.turn) (ClientAt self.old.number) (ClientAt self.new.number) }
        ensures same { IsSameClient self.old self.new }
    {
        self.turn.start();
        Ok(())
    }
}
