//! A group of Sentinels and data nodes that runs.

ghost use Rattle.std.specs.Prelude.{◌≡◌, ◌≢◌, ◌<◌, ◌-◌, ◌^◌, All, IfErr, IsErrOf, IsFalse, IsTrue};
ghost use Rattle.sentinel_runner.specs.declared.group_fault.GroupFault.TheVariants.{NotOneRoster};
ghost use Rattle.sentinel_runner.specs.Faults.{fault_of_run};
ghost use Rattle.sentinel_runner.specs.Groups.{AreOneGroup};

use crate::group_fault::{GroupFault, OrderedFault};
use crate::node_parts::{ServesNodes, WithoutPorts};
use crate::opened::{PortSettings, room_of};
use crate::orders::{FollowsOrders, NetOrders, Orders, ReadFailed};
use crate::restarts::Restarts;
use crate::shared::Shared;
use crate::started::Started;
use crate::stop_flags::StopFlags;
use crate::threads::end_for_want;
use channel_transport::{DataNodes, Links, NodeOrder, SharedNodes};
use client_port::ReadsTimes;
use conf_check::is_one_group;
use crossbeam_channel::Receiver;
use log::Log;
use sentinel_conf::{Conf, ConfStore};
use sentinel_rules::Profile;
use sentinel_runtime::{GroupClock, RunFault, RunState};
use std::alloc::Global;
use std::io::Read;
use std::net::Net;
use std::rt::Clock;
use std::sync::Wait;
use std::sync::atomic::{AtomicU64, Ordering};
use std::thread::{self, Threads};

/// What the threads of a group begin with.
#[derive(Drop)]
struct Beginning<S: ConfStore> {
    sentinels: Vec<Started<S>>,
    node_orders: Receiver<NodeOrder>,
    alloc: Global,
}

/// A group whose Sentinels are open and whose ports are taken, before its threads run.
#[derive(Drop)]
pub struct Group<S: ConfStore> {
    threads: Beginning<S>,
    restarts: Restarts<S>,
    nodes: DataNodes,
    links: Links,
    stops: StopFlags,
    state: RunState,
}

/// Opens the Sentinel of each conf with the store at the same place.
fn start_all<S: ConfStore + Drop, R: Net + Log>(
    rt: &R,
    alloc: Global,
    mut confs: Vec<Conf>,
    mut stores: Vec<S>,
    links: &mut Links,
    restarts: &mut Restarts<S>,
) -> Result<Vec<Started<S>>, GroupFault>
    requires room { All (λ s. S.failure_count s < 2 ^ 64 - 1) stores.items }
    ensures roster { IfErr result (λ fault. fault ≢ NotOneRoster) }
{
    let mut sentinels = Vec::new(alloc);
    while let (Some(conf), Some(store)) = (confs.pop(), stores.pop()) {
        sentinels.push(Started::open(rt, alloc, conf, store, links, restarts)?)?;
    }
    Ok(sentinels)
}

/// Whether there is a store for each conf, and the confs are those of one group.
fn are_one_group<S>(confs: &[Conf], stores: &[S]) -> bool
    ensures group { IsTrue result → AreOneGroup confs.now stores.now }
    ensures other { IsFalse result → ¬ (AreOneGroup confs.now stores.now) }
{
    if stores.len() != confs.len() {
        return false;
    }
    is_one_group(confs)
}

impl<S: ConfStore + Drop> Group<S> {
    /// Opens each Sentinel with the store at its place in the list, and its port for one thread, strict, and makes the
    /// data nodes of the roster and the links.
    ///
    /// `NotOneRoster` comes if, and only if, the confs aren't those of one group, or there is another number of stores;
    /// `PortRefused` where a port can't be had, or the process has too few descriptors for any connection; and
    /// `NoMemory`.
    pub fn open<R: Net + Clock + Log>(
        rt: &R,
        alloc: Global,
        confs: Vec<Conf>,
        stores: Vec<S>,
    ) -> Result<Group<S>, GroupFault>
        requires room { All (λ s. S.failure_count s < 2 ^ 64 - 1) stores.items }
        ensures group { AreOneGroup confs.items stores.items → IfErr result (λ fault. fault ≢ NotOneRoster) }
        ensures other { ¬ (AreOneGroup confs.items stores.items) → IsErrOf result NotOneRoster }
    {
        let port = PortSettings {
            threads: 1,
            profile: Profile::Strict,
        };
        Self::open_with(rt, alloc, confs, stores, port, 0)
    }

    /// As `open`, with ports that are served so; each thread of a port has a seat of the Sentinel. So many descriptors
    /// stay free for connections that no Sentinel has.
    pub fn open_with<R: Net + Clock + Log>(
        rt: &R,
        alloc: Global,
        confs: Vec<Conf>,
        stores: Vec<S>,
        port: PortSettings,
        own: u64,
    ) -> Result<Group<S>, GroupFault>
        requires room { All (λ s. S.failure_count s < 2 ^ 64 - 1) stores.items }
        ensures group { AreOneGroup confs.items stores.items → IfErr result (λ fault. fault ≢ NotOneRoster) }
        ensures other { ¬ (AreOneGroup confs.items stores.items) → IsErrOf result NotOneRoster }
    {
        if !are_one_group(confs.as_slice(), stores.as_slice()) {
            return Err(GroupFault::NotOneRoster);
        }
        Self::open_all(rt, alloc, confs, stores, port, own)
    }

    /// Opens what `open` opens, of confs that are those of one group.
    fn open_all<R: Net + Clock + Log>(
        rt: &R,
        alloc: Global,
        confs: Vec<Conf>,
        stores: Vec<S>,
        port: PortSettings,
        own: u64,
    ) -> Result<Group<S>, GroupFault>
        requires room { All (λ s. S.failure_count s < 2 ^ 64 - 1) stores.items }
        requires group { AreOneGroup confs.items stores.items }
        ensures roster { IfErr result (λ fault. fault ≢ NotOneRoster) }
    {
        let Some(first) = confs.first() else {
            unreachable!()
        };
        let nodes = DataNodes::of(alloc, first)?;
        let Ok(roster) = first.roster().copy(alloc) else {
            return Err(GroupFault::NoMemory);
        };
        let (mut links, node_orders) = Links::open(alloc, confs.len())?;
        let stops = StopFlags::new(alloc, confs.len())?;
        let clock = GroupClock::start(rt);
        let room = room_of(rt, alloc, confs.len(), port, own)?;
        let mut restarts = Restarts::new(alloc, confs.len(), roster, room)?;
        let sentinels = start_all(rt, alloc, confs, stores, &mut links, &mut restarts)?;
        Ok(Group {
            threads: Beginning {
                sentinels,
                node_orders,
                alloc,
            },
            restarts,
            nodes,
            links,
            stops,
            state: RunState::new(clock),
        })
    }

    /// From now on a Sentinel of the group that is halted closes its port, with the connections that are there.
    pub fn close_halted(&self) {
        self.state.close_halted();
    }
}

impl<S: ConfStore + Drop + Send> Group<S> {
    /// Runs each Sentinel and the data nodes until `ending` isn't 0. The stores are gone then.
    ///
    /// `NoMemory` where a thread couldn't be made, which ends all; else `PortRefused` where a port couldn't serve its
    /// clients any more, and else `Halted` where a Sentinel was halted: `NotOneRoster` never comes.
    pub fn run<R: Threads + Wait + Clock + ReadsTimes + Log + Sync>(
        self,
        rt: &R,
        ending: &AtomicU64,
    ) -> Result<(), GroupFault>
        ensures roster { IfErr result (λ fault. fault ≢ NotOneRoster) }
    {
        self.run_with(rt, WithoutPorts, ending)
    }

    /// As `run`, with what serves the data nodes to clients.
    pub fn run_with<
        P: ServesNodes + Drop + Send,
        R: Threads + Wait + Clock + ReadsTimes + Log + Sync,
    >(self, rt: &R, ports: P, ending: &AtomicU64) -> Result<(), GroupFault>
        ensures roster { IfErr result (λ fault. fault ≢ NotOneRoster) }
    {
        let Group {
            threads,
            restarts: _,
            nodes,
            links,
            stops,
            state,
        } = self;
        let shared = Shared {
            nodes: SharedNodes::new(nodes),
            links,
            stops,
            state,
        };
        run_beside_ports(rt, ports, threads, &shared, ending);
        outcome(&shared.state)
    }

    /// Runs each Sentinel and the data nodes, and obeys the lines of the input until its end, which ends the group. The
    /// stores are gone then.
    ///
    /// `Group` with a fault of `run`; `Read` where the input couldn't be read to its end and nothing of the group was
    /// at fault.
    pub fn run_by_orders<I: Read, R: Threads + Wait + Net + Clock + ReadsTimes + Log + Sync>(
        self,
        rt: &R,
        input: &mut I,
        ending: &AtomicU64,
    ) -> Result<(), OrderedFault> {
        self.run_by_orders_with(rt, WithoutPorts, input, ending)
    }

    /// As `run_by_orders`, with what serves the data nodes to clients.
    pub fn run_by_orders_with<
        P,
        I: Read,
        R: Threads + Wait + Net + Clock + ReadsTimes + Log + Sync,
    >(self, rt: &R, ports: P, input: &mut I, ending: &AtomicU64) -> Result<(), OrderedFault>
    where
        P: ServesNodes + Drop + Send,
    {
        let Ok(node_orders) = self.links.node_orders() else {
            return Err(OrderedFault::Group(GroupFault::NoMemory));
        };
        let Group {
            threads,
            restarts,
            nodes,
            links,
            stops,
            state,
        } = self;
        let orders = NetOrders {
            orders: Orders::new(node_orders, nodes.count(), restarts),
            net: rt,
        };
        let shared = Shared {
            nodes: SharedNodes::new(nodes),
            links,
            stops,
            state,
        };
        let read = follow_beside_ports(rt, ports, threads, orders, input, &shared, ending);
        outcome(&shared.state)?;
        read.map_err(|_| OrderedFault::Read)
    }
}

/// Starts the thread that serves the data nodes to clients, and runs all others.
fn run_beside_ports<'a, S, P, R>(
    rt: &'a R,
    ports: P,
    threads: Beginning<S>,
    shared: &'a Shared,
    ending: &'a AtomicU64,
)
where
    S: ConfStore + Drop + Send,
    P: ServesNodes + Drop + Send,
    R: Threads + Wait + Clock + ReadsTimes + Log + Sync,
{
    thread::scope(thread::scope_env(), rt, |scope| {
        let begun = scope.spawn(move || ports.serve(rt, &shared.state, &shared.nodes, ending));
        if begun.is_err() {
            return end_for_want(&shared.state, ending);
        }
        run_threads(rt, threads, shared, ending);
    })
}

/// Starts the thread that serves the data nodes to clients, and follows the orders of the input beside all others. Many
/// parameters: the threads borrow what they share, and have the rest by value.
fn follow_beside_ports<'a, S, P, O: FollowsOrders + Drop, I: Read, R>(
    rt: &'a R,
    ports: P,
    threads: Beginning<S>,
    orders: O,
    input: &mut I,
    shared: &'a Shared,
    ending: &'a AtomicU64,
) -> Result<(), ReadFailed>
where
    S: ConfStore + Drop + Send,
    P: ServesNodes + Drop + Send,
    R: Threads + Wait + Clock + ReadsTimes + Log + Sync,
{
    thread::scope(thread::scope_env(), rt, |scope| {
        let begun = scope.spawn(move || ports.serve(rt, &shared.state, &shared.nodes, ending));
        if begun.is_err() {
            end_for_want(&shared.state, ending);
            return Ok(());
        }
        follow_beside(rt, threads, orders, input, shared, ending)
    })
}

/// Runs all threads, beside which this one follows the orders of the input to its end. Then they end too.
fn follow_beside<'a, S, O: FollowsOrders + Drop, I: Read, R>(
    rt: &'a R,
    threads: Beginning<S>,
    mut orders: O,
    input: &mut I,
    shared: &'a Shared,
    ending: &'a AtomicU64,
) -> Result<(), ReadFailed>
where
    S: ConfStore + Drop + Send,
    R: Threads + Wait + Clock + ReadsTimes + Log + Sync,
{
    thread::scope(thread::scope_env(), rt, |scope| {
        let begun = scope.spawn(move || run_threads(rt, threads, shared, ending));
        if begun.is_err() {
            shared.state.note(RunFault::LackedThread);
            return Ok(());
        }
        let read = orders.follow(rt, input, shared, ending);
        ending.store(1, Ordering::SeqCst);
        read
    })
}

/// What a group answers that ended with this fault.
fn fault_of_run(fault: RunFault) -> GroupFault
    ensures { result ≡ fault_of_run fault }
{
    match fault {
        RunFault::LackedThread => GroupFault::NoMemory,
        RunFault::LostPort => GroupFault::PortRefused,
        RunFault::Halted => GroupFault::Halted,
    }
}

/// How a group ended.
pub(crate) fn outcome(state: &RunState) -> Result<(), GroupFault>
    ensures roster { IfErr result (λ fault. fault ≢ NotOneRoster) }
{
    match state.worst() {
        Some(fault) => Err(fault_of_run(fault)),
        None => Ok(()),
    }
}

/// Runs the data nodes in a thread, and each Sentinel in one that starts its others. Where one can't be made, all end.
/// The threads of a Sentinel look at its own word alone, and each word says that they are to end once the data nodes
/// have ended.
fn run_threads<'a, S, R>(
    rt: &'a R,
    threads: Beginning<S>,
    shared: &'a Shared,
    ending: &'a AtomicU64,
)
where
    S: ConfStore + Drop + Send,
    R: Threads + Wait + Clock + ReadsTimes + Log + Sync,
{
    let Beginning {
        sentinels,
        node_orders,
        alloc,
    } = threads;
    thread::scope(thread::scope_env(), rt, |scope| {
        let mut refused = scope
            .spawn(move || shared.run_nodes(rt, &node_orders, ending))
            .is_err();
        for started in sentinels {
            refused |= scope
                .spawn(move || started.run(rt, alloc, shared, ending))
                .is_err();
        }
        if refused {
            end_for_want(&shared.state, ending);
            shared.stops.stop_all();
        }
    })
}

/// Runs a group: for each conf a Sentinel with a timer that ticks each master every 100 ms, a link that takes what
/// other nodes send, and a port at 127.0.0.1 that answers clients; and the data nodes of the roster in one thread more.
/// It ends soon after `ending` isn't 0.
///
/// The stores stand in the order of the confs. `NotOneRoster` and `PortRefused` come before any thread is made; a
/// `NoMemory` of a thread that can't be made sets `ending` to 1, so that the others end; `Halted` comes at the end,
/// where a Sentinel was halted.
pub fn run_group<
    S: ConfStore + Drop + Send,
    R: Threads + Wait + Net + Clock + ReadsTimes + Log + Sync,
>(
    rt: &R,
    alloc: Global,
    confs: Vec<Conf>,
    stores: Vec<S>,
    ending: &AtomicU64,
) -> Result<(), GroupFault>
    requires room { All (λ s. S.failure_count s < 2 ^ 64 - 1) stores.items }
    ensures group { AreOneGroup confs.items stores.items → IfErr result (λ fault. fault ≢ NotOneRoster) }
    ensures other { ¬ (AreOneGroup confs.items stores.items) → IsErrOf result NotOneRoster }
{
    Group::open(rt, alloc, confs, stores)?.run(rt, ending)
}
