//! The ports of all data nodes of a group.

use crate::connection::ShownNodes;
use crate::place::{LISTENERS, NODE_CONNECTIONS_MAX, Place};
use ballot_law::{Addr, Roster};
use log::{Log, warn};
use mio::event::Event;
use mio::{Events, Poll};
use std::alloc::Global;
use std::io::{self, ErrorKind};
use std::net::{Ipv4Addr, Net, SocketAddr};
use std::rt::Clock;
use std::sync::Wait;
use std::sync::atomic::{AtomicU64, Ordering};
use std::time::Duration;

/// How many connections the system tells of at once.
const EVENTS: usize = 256;

/// How long the ports wait before they look which nodes are stopped, and whether the group ends, in milliseconds.
const WAIT_MS: u64 = 50;

/// How many descriptors each data node may have beside those of its connections: its listener, and a connection that is
/// accepted only to be closed.
const FOR_A_NODE: usize = 2;

/// The ports of all data nodes, by their numbers. `busy` is whether there is something to do before the next wait.
#[derive(Drop)]
pub struct NodePorts {
    poll: Poll,
    places: Vec<Place>,
    events: Events<Global>,
    busy: bool,
}

/// Whether the address is on the loopback.
fn is_on_loopback(addr: Addr) -> bool {
    addr.ip >> 24 == 127
}

/// Notes why a data node can't listen at its address, with its number.
fn note_refused<L: Log>(rt: &L, number: u16, addr: Addr, error: &io::Error) {
    let address = SocketAddr::from((Ipv4Addr::from(addr.ip), addr.port));
    if !is_on_loopback(addr) {
        warn!(rt; target: "node_ports::ports", "d{number} can't listen at {address}: it isn't on the loopback");
    } else if error.kind() != ErrorKind::OutOfMemory {
        warn!(rt; target: "node_ports::ports", "d{number} can't listen at {address}: {error}");
    }
}

/// How many descriptors the data nodes of this roster may have open at once.
pub fn descriptors_of(roster: &Roster) -> u64 {
    (roster.node_count() * (NODE_CONNECTIONS_MAX + FOR_A_NODE)) as u64
}

impl NodePorts {
    /// Listens at the address of each data node of the roster. An error is the system's, as where an address is taken
    /// or isn't on the loopback, and a note tells of which node it is; `OutOfMemory` is a refused allocation.
    pub fn open<N: Net + Log>(net: &N, alloc: Global, roster: &Roster) -> io::Result<NodePorts> {
        let poll = Poll::new(net)?;
        let mut places = Vec::new(alloc);
        for number in 0..roster.node_count() as u16 {
            let Some(at) = roster.node_numbered(number) else {
                break;
            };
            let addr = roster.addr_at(at);
            let mut place = Place::new(alloc, number, addr);
            let opened = if is_on_loopback(addr) {
                place.open(net, poll.registry())
            } else {
                Err(io::Error::from(ErrorKind::AddrNotAvailable))
            };
            if let Err(error) = opened {
                note_refused(net, number, addr, &error);
                return Err(error);
            }
            places.push(place)?;
        }
        Ok(NodePorts {
            poll,
            places,
            events: Events::with_capacity(alloc, EVENTS)?,
            busy: false,
        })
    }

    /// Closes the ports of the nodes that are stopped, and opens those of the others. One that can't be opened is tried
    /// again at the next look.
    fn look<V: ShownNodes, R: Wait + Clock, N: Net>(&mut self, rt: &R, net: &N, nodes: &V) {
        for place in &mut self.places {
            let runs = nodes.shown(rt, place.number()).is_some();
            if runs && !place.is_open() {
                drop(place.open(net, self.poll.registry()));
            } else if !runs && place.is_open() {
                place.close();
            }
        }
    }

    /// Waits until the system tells of a connection; not at all where there is something to do.
    fn wait(&mut self) -> io::Result<()> {
        let millis = if self.busy { 0 } else { WAIT_MS };
        match self
            .poll
            .poll(&mut self.events, Some(Duration::from_millis(millis)))
        {
            Ok(()) => Ok(()),
            Err(error) => {
                self.events.clear();
                if error.kind() == ErrorKind::Interrupted {
                    return Ok(());
                }
                Err(error)
            }
        }
    }

    /// Notes what the system told of a listener or a connection.
    fn note_event(places: &mut Vec<Place>, event: &Event) {
        let token = event.token().0;
        if token >= LISTENERS {
            if let Some(place) = places.get_mut(token - LISTENERS) {
                place.note_waiting();
            }
            return;
        }
        let half = event.is_read_closed() || event.is_error();
        if half || event.is_readable() {
            if let Some(place) = places.get_mut(token / NODE_CONNECTIONS_MAX) {
                place.note_readable(token % NODE_CONNECTIONS_MAX, half);
            }
        }
    }

    /// Notes all that the system told.
    fn note_events(&mut self) {
        for event in &self.events {
            Self::note_event(&mut self.places, event);
        }
    }

    /// Has each node take in new connections, and each connection read, answer and send. It stops where the group ends.
    fn serve_all<V: ShownNodes, R: Wait + Clock>(&mut self, rt: &R, nodes: &V, ending: &AtomicU64) {
        self.busy = false;
        for place in &mut self.places {
            if ending.load(Ordering::SeqCst) != 0 {
                return;
            }
            place.accept_all(self.poll.registry());
            self.busy |= place.serve(rt, nodes);
        }
    }

    /// Serves until `ending` isn't 0: each node that isn't stopped listens at its address and answers, as what it shows
    /// then; the port of one that is stopped is closed with its connections, within a tenth of a second. The error is
    /// the system's, where it tells of no connection any more.
    pub fn serve<V: ShownNodes, R: Wait + Clock, N: Net>(
        &mut self,
        rt: &R,
        net: &N,
        nodes: &V,
        ending: &AtomicU64,
    ) -> io::Result<()> {
        for _ in rt.forever() {
            if ending.load(Ordering::SeqCst) != 0 {
                return Ok(());
            }
            self.look(rt, net, nodes);
            self.wait()?;
            self.note_events();
            self.serve_all(rt, nodes, ending);
        }
        unreachable!()
    }
}
