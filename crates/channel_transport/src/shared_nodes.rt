//! The data nodes of a group where another thread asks them too.

ghost use Rattle.std.specs.Prelude.{IfSome};
ghost use Rattle.node_texts.specs.Infos.{IsInfo};

use crate::all_nodes::{DataNodes, ORDER_MS};
use crate::channel_links::Links;
use crate::node_orders::NodeOrder;
use ballot_law::{Addr, Info};
use crossbeam_channel::{Receiver, RecvTimeoutError};
use sentinel_runtime::RunState;
use std::rt::Clock;
use std::sync::atomic::{AtomicU64, Ordering};
use std::sync::{Mutex, Wait};
use std::time::Duration;

/// The data nodes of a group under a lock, which is held for one order or one question at a time.
#[derive(Drop)]
pub struct SharedNodes {
    nodes: Mutex<DataNodes>,
}

impl SharedNodes {
    /// These data nodes.
    pub fn new(nodes: DataNodes) -> SharedNodes {
        SharedNodes {
            nodes: Mutex::new(nodes),
        }
    }

    /// What the node with this number shows; none where it is stopped, where there is no such node, and where there is
    /// no memory.
    pub fn shown<R: Wait + Clock>(&self, rt: &R, state: &RunState, number: u16) -> Option<Info>
        ensures { IfSome result IsInfo }
    {
        let now = state.clock.now(rt);
        self.nodes.lock(rt).shown(number, now)
    }

    /// Has the node with this number follow the master at the address, or nobody.
    pub fn follow<R: Wait + Clock>(
        &self,
        rt: &R,
        state: &RunState,
        number: u16,
        follows: Option<Addr>,
    ) {
        let now = state.clock.now(rt);
        self.nodes.lock(rt).follow(number, now, follows);
    }

    /// As `DataNodes::run`.
    pub fn run<R: Wait + Clock>(
        &self,
        rt: &R,
        state: &RunState,
        links: &Links,
        orders: &Receiver<NodeOrder>,
        ending: &AtomicU64,
    ) {
        for _ in rt.forever() {
            if ending.load(Ordering::SeqCst) != 0 {
                return;
            }
            match orders.recv_timeout(rt, Duration::from_millis(ORDER_MS)) {
                Ok(order) => self.nodes.lock(rt).obey(rt, state, links, order),
                Err(RecvTimeoutError::Timeout) => {}
                Err(RecvTimeoutError::Disconnected) => return,
            }
        }
    }
}
