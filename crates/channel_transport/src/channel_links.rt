//! The channels between the nodes of a group.

ghost use Rattle.std.specs.Prelude.{◌≡◌, ◌≢◌, ◌<◌, ℕ, None, All, IfOk, OnOk, OnErr, length, slice_get, slice_index_or};
ghost use Rattle.boxed_nodes.specs.Sendable.{IsSendable};

use crate::delivery::Delivery;
use crate::dispatch::{Dispatch, dispatch_of};
use crate::node_orders::NodeOrder;
use ballot_law::Message;
use crossbeam_channel::{Receiver, Sender, unbounded};
use sentinel_runtime::{Outlet, Which};
use std::alloc::{AllocError, Global};
use std::sync::Wait;

/// The ends at which messages go in: a channel for each Sentinel that is connected, by its place in the roster, and one
/// for all data nodes.
#[derive(Drop)]
pub struct Links {
    sentinels: Vec<Option<Sender<Delivery>>>,
    nodes: Sender<NodeOrder>,
    alloc: Global,
}

impl Links {
    /// The links of a group with so many Sentinels, none of which is connected, and the end at which orders of the data
    /// nodes come out.
    pub fn open(alloc: Global, sentinels: usize) -> Result<(Links, Receiver<NodeOrder>), AllocError>
        ensures count { IfOk result (λ r. length r.0.sentinels.items ≡ sentinels) }
        ensures none { IfOk result (λ r. All (λ end. end ≡ None) r.0.sentinels.items) }
    {
        let (to_nodes, nodes) = unbounded(alloc)?;
        let mut ends = Vec::new(alloc);
        while ends.len() < sentinels {
            ends.push(None)?;
        }
        let links = Links {
            sentinels: ends,
            nodes: to_nodes,
            alloc,
        };
        Ok((links, nodes))
    }

    /// Connects the Sentinel at this place of the roster: the end at which what is for it comes out. An earlier end
    /// gets nothing more.
    pub fn connect(&mut self, place: u16) -> Result<Receiver<Delivery>, AllocError>
        ensures connected { OnOk result (place < length self.old.sentinels.items → slice_index_or self.new.sentinels.items place None ≢ None) }
        ensures count { length self.new.sentinels.items ≡ length self.old.sentinels.items }
        ensures others { (k : ℕ) → k ≢ place → slice_get self.new.sentinels.items k ≡ slice_get self.old.sentinels.items k }
        ensures refused { OnErr result (self.new ≡ self.old) }
    {
        let (to, from) = unbounded(self.alloc)?;
        if let Some(end) = self.sentinels.get_mut(place as usize) {
            *end = Some(to);
        }
        Ok(from)
    }

    /// A further end for orders of the data nodes.
    pub fn node_orders(&self) -> Result<Sender<NodeOrder>, AllocError> {
        self.nodes.clone()
    }

    /// Puts a message into the channel of its target. It is lost where that isn't connected, where there is no such
    /// node, and where its end is gone.
    fn dispatch<R: Wait>(&self, rt: &R, dispatch: Dispatch) {
        match dispatch {
            Dispatch::ToSentinel(place, delivery) => {
                if let Some(Some(to)) = self.sentinels.get(place as usize) {
                    drop(to.send(rt, delivery));
                }
            }
            Dispatch::ToNode(order) => drop(self.nodes.send(rt, order)),
        }
    }

    /// The channels as the place where messages go.
    pub fn outlet<'a, R: Wait>(&'a self, rt: &'a R) -> ChannelOutlet<'a, R>
        ensures { result.links.now ≡ self.now }
    {
        ChannelOutlet { links: self, rt }
    }
}

/// The channels of a group as the place where messages go. A message is lost where it isn't for its target, where there
/// is no such node, where its end is gone, and where there is no memory.
#[derive(Clone, Copy)]
pub struct ChannelOutlet<'a, R: Wait> {
    links: &'a Links,
    rt: &'a R,
}

impl<J: Which, R: Wait> Outlet<J> for ChannelOutlet<'_, R> {
    fn send(&mut self, message: &Message) {
        if let Ok(Some(dispatch)) = dispatch_of(self.links.alloc, message) {
            self.links.dispatch(self.rt, dispatch);
        }
    }
}
