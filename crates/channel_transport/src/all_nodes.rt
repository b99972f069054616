//! All data nodes of a group.

ghost use Rattle.std.specs.Prelude.{◌≡◌, ◌⊎◌, ◌≤◌, [], IfOk, IfSome, length};
ghost use Rattle.std.specs.List.{AllByRecursion};
ghost use Rattle.boxed_nodes.specs.Sendable.{IsSendableOutput, IsTakeable};
ghost use Rattle.ballot_law.specs.declared.events.Event.TheVariants.{Handed};
ghost use Rattle.ballot_law.specs.declared.messages.NodeName.TheVariants.{StoreAt};
ghost use Rattle.boxed_nodes.specs.Data.Servers.{changed_by, info_of, said};
ghost use Rattle.node_texts.specs.Infos.{IsInfo};
ghost use Rattle.channel_transport.specs.DataNodes.{AreNodesOf, ObeysAt, ShownBy, client_order, client_question, first_info};
ghost use Rattle.channel_transport.specs.declared.all_nodes.TheConstants.{NODE_COUNT_MAX};
ghost use Rattle.channel_transport.specs.declared.node_orders.Action.TheVariants.{Take, Stop, Start};

use crate::channel_links::Links;
use crate::node_orders::{Action, NodeOrder};
use ballot_law::{Addr, Body, Event, Info, Input, KeptText, Message, NodeName, Output};
use boxed_nodes::{DataNode, HowStored, Node};
use crossbeam_channel::{Receiver, RecvTimeoutError};
use sentinel_conf::Conf;
use sentinel_outbox::Outbox;
use sentinel_runtime::{RunState, send_all};
use std::alloc::{AllocError, Global};
use std::marker::Brand;
use std::rt::Clock;
use std::sync::Wait;
use std::sync::atomic::{AtomicU64, Ordering};
use std::time::Duration;

/// How long the nodes wait for an order before they look whether the group ends, in milliseconds.
pub(crate) const ORDER_MS: u64 = 50;

/// How many data nodes a group has at most.
pub const NODE_COUNT_MAX: usize = 4_096;

/// The data nodes of a group, by their numbers, with the room for what one of them says.
#[derive(Drop)]
pub struct DataNodes {
    nodes: Vec<DataNode>,
    outbox: Outbox,
    ghost held: { outbox.held ≡ [] },
    ghost few: { length nodes.items ≤ NODE_COUNT_MAX },
}

/// Has a node take an input. The outbox shows what it says, which is nothing where it is stopped or where there is no
/// memory.
#[tactic(auto, using(crate::proofs::Shown::said_or_not))]
fn carry_out(node: &mut DataNode, input: &Input, outbox: &mut Outbox)
    requires takeable { IsTakeable input.now.event }
    requires held { outbox.old.held ≡ [] }
    ensures held { outbox.new.held ≡ [] }
    ensures sendable { AllByRecursion IsSendableOutput outbox.new.shown }
    ensures taken { (node.new ≡ node.old)
        ⊎ ((node.new.number ≡ node.old.number) × (node.new.server ≡ changed_by input.entry.now.event node.old.server)) }
    ensures said { (outbox.new.shown ≡ [])
        ⊎ (outbox.new.shown ≡ said (StoreAt node.old.number) node.old.sentinels node.new.server input.entry.now.event) }
{
    outbox.clear();
    let room = node.room();
    if outbox.reserve(&room).is_err() {
        return;
    }
    if node.take(input, outbox).is_ok() {
        let _stored = node.store(HowStored::Done);
        let _released = node.release(outbox);
    }
    outbox.drop_held();
}

/// What the first of these outputs says of a node, where it is an INFO.
fn first_info(outputs: &[Output]) -> Option<Info>
    requires { AllByRecursion IsSendableOutput outputs.now }
    ensures info { result ≡ first_info outputs.now }
    ensures within { IfSome result IsInfo }
{
    match outputs.first()? {
        Output::Send(message) => match message.body {
            Body::InfoText(info) => Some(info),
            _ => None,
        },
        Output::Tell(_) => None,
    }
}

/// What a node tells a client that asks it for INFO.
#[tactic(auto, using(crate::proofs::Shown::told_info))]
fn ask_info(node: &mut DataNode, number: u16, now: u64, outbox: &mut Outbox) -> Option<Info>
    requires held { outbox.old.held ≡ [] }
    ensures held { outbox.new.held ≡ [] }
    ensures taken { (node.new ≡ node.old)
        ⊎ ((node.new.number ≡ node.old.number) × (node.new.server ≡ changed_by (Handed (client_question number)) node.old.server)) }
    ensures info { IfSome result (λ info. info ≡ info_of node.old.server) }
    ensures within { IfSome result IsInfo }
{
    let event = Event::Handed(Message {
        sender: NodeName::PortAt(0),
        target: NodeName::StoreAt(number),
        body: Body::InfoAsk,
    });
    let input = Input { now, event };
    carry_out(node, &input, outbox);
    first_info(outbox.outputs())
}

impl DataNodes {
    /// The data nodes of the roster of this conf, as they begin.
    pub fn of(alloc: Global, conf: &Conf) -> Result<DataNodes, AllocError>
        ensures { IfOk result (λ all. AreNodesOf conf.now all.nodes.items) }
    {
        let mut nodes = Vec::new(alloc);
        for number in 0..conf.roster().node_count() as u16 {
            let Some(node) = DataNode::new(conf, number) else {
                unreachable!()
            };
            nodes.push(node)?;
        }
        Ok(DataNodes {
            nodes,
            outbox: Outbox::new(alloc),
        })
    }

    /// How many there are.
    pub fn count(&self) -> u16
        ensures { result ≡ length self.now.nodes.items }
    {
        self.nodes.len() as u16
    }

    /// Has the node with this number take an event, and sends what it says, in no Sentinel's name.
    #[tactic(auto, using(crate::proofs::Naming::says_all))]
    fn take<R: Wait>(&mut self, rt: &R, links: &Links, number: u16, now: u64, event: Event)
        requires { IsTakeable event }
        ensures { ObeysAt number (Take event) self.old.nodes.items self.new.nodes.items }
    {
        if let Some(node) = self.nodes.get_mut(number as usize) {
            let input = Input { now, event };
            carry_out(node, &input, &mut self.outbox);
            send_all::<Brand, _>(&mut links.outlet(rt), self.outbox.outputs());
        }
    }

    /// What the node with this number tells a client that asks it for INFO: what it keeps. None where it is stopped,
    /// where there is no such node, and where there is no memory.
    pub fn shown(&mut self, number: u16, now: u64) -> Option<Info>
        ensures obeys { ObeysAt number (Take (Handed (client_question number))) self.old.nodes.items self.new.nodes.items }
        ensures info { IfSome result (ShownBy self.old.nodes.items number) }
        ensures within { IfSome result IsInfo }
    {
        let node = self.nodes.get_mut(number as usize)?;
        ask_info(node, number, now, &mut self.outbox)
    }

    /// Has the node with this number follow the master at the address, or nobody, as a client that sends it REPLICAOF
    /// does. Its `+OK` goes to nobody.
    pub fn follow(&mut self, number: u16, now: u64, follows: Option<Addr>)
        ensures { ObeysAt number (Take (Handed (client_order number follows))) self.old.nodes.items self.new.nodes.items }
    {
        let Some(node) = self.nodes.get_mut(number as usize) else {
            return;
        };
        let event = Event::Handed(Message {
            sender: NodeName::PortAt(0),
            target: NodeName::StoreAt(number),
            body: Body::ReplicaOf(follows),
        });
        let input = Input { now, event };
        carry_out(node, &input, &mut self.outbox);
    }

    /// Stops the node with this number.
    fn stop(&mut self, number: u16)
        ensures { ObeysAt number Stop self.old.nodes.items self.new.nodes.items }
    {
        if let Some(node) = self.nodes.get_mut(number as usize) {
            node.stop(KeptText::Old);
        }
    }

    /// Starts the node with this number.
    fn start(&mut self, number: u16, now: u64)
        ensures { ObeysAt number Start self.old.nodes.items self.new.nodes.items }
    {
        if let Some(node) = self.nodes.get_mut(number as usize) {
            drop(node.start(now));
        }
    }

    /// Has the node with the order's number do what it is to; nothing where no node has it.
    pub fn obey<R: Wait + Clock>(
        &mut self,
        rt: &R,
        state: &RunState,
        links: &Links,
        order: NodeOrder,
    )
        ensures { ObeysAt order.number order.action self.old.nodes.items self.new.nodes.items }
    {
        let now = state.clock.now(rt);
        let NodeOrder { number, action } = order;
        match action {
            Action::Take(takeable) => self.take(rt, links, number, now, takeable.into_event()),
            Action::Stop => self.stop(number),
            Action::Start => self.start(number, now),
        }
    }

    /// Obeys each order that comes, until `ending` isn't 0 or nobody is left who could send one.
    pub fn run<R: Wait + Clock>(
        &mut self,
        rt: &R,
        state: &RunState,
        links: &Links,
        orders: &Receiver<NodeOrder>,
        ending: &AtomicU64,
    ) {
        for _ in rt.forever() {
            if ending.load(Ordering::SeqCst) != 0 {
                return;
            }
            match orders.recv_timeout(rt, Duration::from_millis(ORDER_MS)) {
                Ok(order) => self.obey(rt, state, links, order),
                Err(RecvTimeoutError::Timeout) => {}
                Err(RecvTimeoutError::Disconnected) => return,
            }
        }
    }
}
