//! Where one data node listens, and its connections.

ghost use Rattle.std.specs.Prelude.{◌≤◌, ◌<◌, IfSome, length};
ghost use Rattle.data_node_port.specs.declared.place.TheConstants.{NODE_CONNECTIONS_MAX};

use crate::connection::{Connection, ShownNodes};
use ballot_law::Addr;
use mio::net::{TcpListener, TcpStream};
use mio::{Interest, Registry, Token};
use std::alloc::Global;
use std::io::{self, ErrorKind};
use std::net::{Ipv4Addr, Net, SocketAddr};
use std::rt::Clock;
use std::sync::Wait;

/// How many connections a data node keeps at most; a further one is closed.
pub const NODE_CONNECTIONS_MAX: usize = 64;

/// The tokens of listeners, each of them this and its node's number; those of connections are smaller.
pub(crate) const LISTENERS: usize = 1_048_576;

/// How many connections are accepted before those that are there have their turn.
const ACCEPTS_MAX: u32 = 64;

/// Where the data node with this number listens while it isn't stopped, and its connections. `accepts` is whether
/// connections may wait there of which the system doesn't tell again.
#[derive(Drop)]
pub(crate) struct Place {
    number: u16,
    addr: Addr,
    listener: Option<TcpListener>,
    accepts: bool,
    connections: Vec<Option<Connection<TcpStream>>>,
    alloc: Global,
    ghost few: { length connections.items ≤ NODE_CONNECTIONS_MAX },
}

/// The system told of bytes of the connection that is here, and whether its client has ended its stream or broken off.
fn note_readable_at(place: &mut Option<Connection<TcpStream>>, half: bool) {
    if let Some(connection) = place {
        connection.note_readable(half);
    }
}

/// Has the connection that is here read, answer and send as the node with this number, and closes it where it is broken
/// or over: whether it has more to do at once.
fn serve_at<V: ShownNodes, R: Wait + Clock>(
    place: &mut Option<Connection<TcpStream>>,
    rt: &R,
    nodes: &V,
    number: u16,
) -> bool {
    let Some(connection) = place else {
        return false;
    };
    if connection.turn(rt, nodes, number) {
        return connection.wants_turn();
    }
    *place = None;
    false
}

impl Place {
    /// The place of the data node with this number at this address, which isn't open yet.
    pub(crate) fn new(alloc: Global, number: u16, addr: Addr) -> Place {
        Place {
            number,
            addr,
            listener: None,
            accepts: false,
            connections: Vec::new(alloc),
            alloc,
        }
    }

    /// The number of its node.
    pub(crate) fn number(&self) -> u16 {
        self.number
    }

    /// Whether it listens.
    pub(crate) fn is_open(&self) -> bool {
        self.listener.is_some()
    }

    /// Listens. The error is the system's, as where the address is taken.
    pub(crate) fn open<N: Net>(&mut self, net: &N, registry: &Registry) -> io::Result<()> {
        let address = SocketAddr::from((Ipv4Addr::from(self.addr.ip), self.addr.port));
        let mut listener = TcpListener::bind(net, address)?;
        let token = Token(LISTENERS + self.number as usize);
        registry.register(&mut listener, token, Interest::READABLE)?;
        self.listener = Some(listener);
        self.accepts = true;
        Ok(())
    }

    /// Listens no more, and closes its connections.
    pub(crate) fn close(&mut self) {
        self.listener = None;
        self.accepts = false;
        self.connections = Vec::new(self.alloc);
    }

    /// The system told of connections that wait.
    pub(crate) fn note_waiting(&mut self) {
        self.accepts = true;
    }

    /// The system told of a connection's bytes, and whether its client has ended its stream or broken off.
    pub(crate) fn note_readable(&mut self, slot: usize, half: bool) {
        if let Some(place) = self.connections.get_mut(slot) {
            note_readable_at(place, half);
        }
    }

    /// A place for one more connection, where there is one.
    fn free_slot(&self) -> Option<usize>
        ensures { IfSome result (λ slot. slot < NODE_CONNECTIONS_MAX) }
    {
        for slot in 0..NODE_CONNECTIONS_MAX {
            match self.connections.get(slot) {
                None | Some(None) => return Some(slot),
                Some(Some(_)) => {}
            }
        }
        None
    }

    /// Puts a connection into a place for one; it is closed where there is no memory for it.
    fn put(&mut self, slot: usize, connection: Connection<TcpStream>) {
        if let Some(place) = self.connections.get_mut(slot) {
            *place = Some(connection);
        } else if self.connections.len() < NODE_CONNECTIONS_MAX {
            drop(self.connections.push(Some(connection)));
        }
    }

    /// Keeps a connection where there is room for it, and else drops it, which closes it.
    fn keep(&mut self, registry: &Registry, mut stream: TcpStream) -> io::Result<()> {
        let Some(slot) = self.free_slot() else {
            return Ok(());
        };
        stream.set_nodelay(true)?;
        let token = Token(self.number as usize * NODE_CONNECTIONS_MAX + slot);
        let interest = Interest::READABLE | Interest::WRITABLE;
        registry.register(&mut stream, token, interest)?;
        self.put(slot, Connection::new(self.alloc, stream));
        Ok(())
    }

    /// Accepts one connection; the error says why none came.
    fn accept(&mut self, registry: &Registry) -> Result<(), ErrorKind> {
        let Some(listener) = &self.listener else {
            return Err(ErrorKind::WouldBlock);
        };
        match listener.accept() {
            Ok((stream, _)) => {
                drop(self.keep(registry, stream));
                Ok(())
            }
            Err(error) => Err(error.kind()),
        }
    }

    /// Accepts what waits. Where the system has no descriptor or no memory for it, it is tried again at the next turn.
    pub(crate) fn accept_all(&mut self, registry: &Registry) {
        for _ in 0..ACCEPTS_MAX {
            if !self.accepts {
                return;
            }
            match self.accept(registry) {
                Ok(()) | Err(ErrorKind::Interrupted | ErrorKind::ConnectionAborted) => {}
                Err(ErrorKind::WouldBlock) => self.accepts = false,
                Err(_) => return,
            }
        }
    }

    /// Has one connection read, answer and send, and closes it where it is broken or over: whether it has more to do at
    /// once.
    fn serve_one<V: ShownNodes, R: Wait + Clock>(
        &mut self,
        rt: &R,
        nodes: &V,
        slot: usize,
    ) -> bool {
        let number = self.number;
        match self.connections.get_mut(slot) {
            Some(place) => serve_at(place, rt, nodes, number),
            None => false,
        }
    }

    /// Has each connection read, answer and send: whether one has more to do at once.
    pub(crate) fn serve<V: ShownNodes, R: Wait + Clock>(&mut self, rt: &R, nodes: &V) -> bool {
        let mut busy = false;
        for slot in 0..NODE_CONNECTIONS_MAX {
            busy |= self.serve_one(rt, nodes, slot);
        }
        busy
    }
}
