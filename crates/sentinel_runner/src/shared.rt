//! What all threads of a group share.

use crate::stop_flags::StopFlags;
use channel_transport::{Links, NodeOrder, SharedNodes};
use crossbeam_channel::Receiver;
use sentinel_runtime::RunState;
use std::rt::Clock;
use std::sync::Wait;
use std::sync::atomic::AtomicU64;

/// What all threads of a group share: its data nodes, its links, which Sentinels are to end, and its clock with what
/// went wrong.
#[derive(Drop)]
pub(crate) struct Shared {
    pub(crate) nodes: SharedNodes,
    pub(crate) links: Links,
    pub(crate) stops: StopFlags,
    pub(crate) state: RunState,
}

impl Shared {
    /// Runs the data nodes until `ending` isn't 0. Then all Sentinels are to end.
    pub(crate) fn run_nodes<R: Wait + Clock>(
        &self,
        rt: &R,
        orders: &Receiver<NodeOrder>,
        ending: &AtomicU64,
    ) {
        self.nodes.run(rt, &self.state, &self.links, orders, ending);
        self.stops.stop_all();
    }
}
