//! What serves the data nodes of a group to clients of their own: ports at their addresses, in one thread more, or
//! nothing.

use crate::group_fault::GroupFault;
use crate::opened::fault_of;
use crate::threads::note_lost;
use ballot_law::{Addr, Info, Roster};
use channel_transport::SharedNodes;
use data_node_port::{NodePorts, ShownNodes};
use log::Log;
use sentinel_runtime::RunState;
use std::alloc::Global;
use std::net::Net;
use std::rt::Clock;
use std::sync::Wait;
use std::sync::atomic::{AtomicU64, Ordering};

/// What serves the data nodes of a group to clients of their own. Hides the part's type, so that the threads' `Send`
/// proof stays small.
pub trait ServesNodes {
    /// Serves them until `ending` isn't 0.
    fn serve<R: Wait + Clock>(
        self,
        rt: &R,
        state: &RunState,
        nodes: &SharedNodes,
        ending: &AtomicU64,
    );
}

/// Data nodes without ports.
#[derive(Clone, Copy)]
pub struct WithoutPorts;

impl ServesNodes for WithoutPorts {
    fn serve<R: Wait + Clock>(
        self,
        _rt: &R,
        _state: &RunState,
        _nodes: &SharedNodes,
        _ending: &AtomicU64,
    ) {}
}

/// Data nodes that listen at their addresses.
#[derive(Drop)]
pub struct WithPorts<'a, N: Net> {
    net: &'a N,
    ports: NodePorts,
}

impl<'a, N: Net + Log> WithPorts<'a, N> {
    /// Listens at the address of each data node of the roster. `PortRefused` where one isn't on the loopback or can't
    /// be had, with a note of which node it is, and `NoMemory`.
    pub fn open(
        net: &'a N,
        alloc: Global,
        roster: &Roster,
    ) -> Result<WithPorts<'a, N>, GroupFault> {
        match NodePorts::open(net, alloc, roster) {
            Ok(ports) => Ok(WithPorts { net, ports }),
            Err(error) => Err(fault_of(&error)),
        }
    }
}

/// The data nodes of a group that runs, as their ports see them.
#[derive(Clone, Copy)]
struct NodeView<'a> {
    nodes: &'a SharedNodes,
    state: &'a RunState,
}

impl ShownNodes for NodeView<'_> {
    fn shown<R: Wait + Clock>(&self, rt: &R, number: u16) -> Option<Info> {
        self.nodes.shown(rt, self.state, number)
    }

    fn follow<R: Wait + Clock>(&self, rt: &R, number: u16, follows: Option<Addr>) {
        self.nodes.follow(rt, self.state, number, follows);
    }
}

impl<N: Net> ServesNodes for WithPorts<'_, N> {
    fn serve<R: Wait + Clock>(
        self,
        rt: &R,
        state: &RunState,
        nodes: &SharedNodes,
        ending: &AtomicU64,
    ) {
        let WithPorts { net, mut ports } = self;
        let view = NodeView { nodes, state };
        if let Err(error) = ports.serve(rt, net, &view, ending) {
            note_lost(state, &error);
            ending.store(1, Ordering::SeqCst);
        }
    }
}
