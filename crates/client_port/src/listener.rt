//! Where the connections of a port come from, and which of its threads has them.

use crate::admission::{Admitted, refuse_foreign, refuse_further};
use crate::clients::Clients;
use crate::crowding::Crowding;
use crate::handoff::Handoff;
use crate::incoming::Incoming;
use crate::seats::{Newcomer, Seats, place_of};
use log::{Log, warn};
use mio::net::TcpListener;
use mio::{Interest, Registry, Token};
use sentinel_runtime::RunState;
use std::alloc::Global;
use std::io::{self, ErrorKind};
use std::net::{Net, SocketAddr};
use std::rt::Clock;
use std::sync::{Arc, Wait};

/// The token of the sockets that listen; a connection's token is its key in the slab.
pub(crate) const LISTENER: Token = Token(usize::MAX);

/// How many connections are accepted before those that are there have their turn.
const ACCEPTS_MAX: u32 = 64;

/// Why no more connections are accepted of a socket for now.
#[derive(Clone, Copy, PartialEq, Eq)]
enum Stopped {
    /// None wait.
    NoneWait,
    /// The system has no descriptor or no memory for one.
    Refused,
    /// Those that are there have their turn.
    ManyCame,
}

/// An address at which a port listens.
#[derive(Clone, Copy)]
pub struct PortAddress {
    /// The ip and the port.
    pub address: SocketAddr,
    /// Whether it is passed over where it can't be had and another one can.
    pub may_lack: bool,
}

/// Sockets that listen: connections may come to them, and wait until a port is opened that serves them.
#[derive(Drop)]
pub struct Sockets {
    all: Vec<TcpListener>,
}

impl Sockets {
    /// One that listens at this address.
    pub(crate) fn at<N: Net>(net: &N, alloc: Global, address: SocketAddr) -> io::Result<Sockets> {
        let mut all = Vec::new(alloc);
        all.push(TcpListener::bind(net, address)?)?;
        Ok(Sockets { all })
    }

    /// One that listens at each of these addresses. Where one can't be had, that is noted with the system's reason;
    /// it is passed over where it may be lacking and another one can be had. Else the error is the system's, as where
    /// a port is taken; `OutOfMemory` is a refused allocation.
    pub fn listen<R: Net + Log>(
        rt: &R,
        alloc: Global,
        addresses: &[PortAddress],
    ) -> io::Result<Sockets> {
        let mut all = Vec::new(alloc);
        let mut lacking = None;
        for PortAddress { address, may_lack } in addresses {
            match TcpListener::bind(rt, *address) {
                Ok(socket) => all.push(socket)?,
                Err(error) if error.kind() == ErrorKind::OutOfMemory => return Err(error),
                Err(error) => {
                    warn!(rt; target: "group_ports::listener", "{address} can't be had: {error}");
                    if !*may_lack {
                        return Err(error);
                    }
                    lacking = Some(error);
                }
            }
        }
        match lacking {
            Some(error) if all.is_empty() => Err(error),
            _ => Ok(Sockets { all }),
        }
    }
}

/// The sockets that listen, with the desks of the threads that they hand connections to. `accepts` is whether
/// connections may wait there of which the system doesn't tell again.
#[derive(Drop)]
pub(crate) struct Listener {
    sockets: Vec<TcpListener>,
    desks: Vec<Arc<Handoff, Global>>,
    seats: Arc<Seats, Global>,
    crowding: Crowding,
    accepts: bool,
}

impl Listener {
    /// Accepts what comes to these sockets and is let in on these seats, for the thread that waits by this registry
    /// and those of these desks.
    pub(crate) fn open(
        registry: &Registry,
        sockets: Sockets,
        desks: Vec<Arc<Handoff, Global>>,
        seats: Arc<Seats, Global>,
    ) -> io::Result<Listener> {
        let Sockets { all: mut sockets } = sockets;
        for socket in sockets.iter_mut() {
            registry.register(socket, LISTENER, Interest::READABLE)?;
        }
        Ok(Listener {
            sockets,
            desks,
            seats,
            crowding: Crowding::new(),
            accepts: false,
        })
    }

    /// The desk of the thread that has the fewest connections, where one has fewer than so many.
    fn fewest<R: Wait>(&self, rt: &R, own: usize) -> Option<&Handoff> {
        let mut few = own;
        let mut found = None;
        for desk in &self.desks {
            let count = desk.count(rt);
            if count < few {
                few = count;
                found = Some(&**desk);
            }
        }
        found
    }

    /// Gives a connection that took its seat to the thread that has the fewest: this one where others have no fewer.
    fn give<R: Wait>(&self, rt: &R, clients: &mut Clients, newcomer: Newcomer) {
        let place = newcomer.place;
        self.seats.take(place);
        match self.fewest(rt, clients.count()) {
            Some(desk) => {
                if !desk.hand(rt, newcomer) {
                    self.seats.free(place);
                }
            }
            None => clients.keep(newcomer),
        }
    }

    /// The desk of the thread whose first connection to go has been silent for longest, where that is longer than
    /// since this reading.
    fn most_silent(&self, own: u64) -> Option<&Handoff> {
        let mut earliest = own;
        let mut found = None;
        for desk in &self.desks {
            let since = desk.silent_since();
            if since < earliest {
                earliest = since;
                found = Some(&**desk);
            }
        }
        found
    }

    /// Keeps a connection for which another one has to go, and refuses it where none has to.
    fn make_room<R: Wait>(&self, rt: &R, clients: &mut Clients, mut newcomer: Newcomer) {
        if let Some(desk) = self.most_silent(clients.silent_since()) {
            newcomer.clears = true;
            drop(desk.hand(rt, newcomer));
        } else {
            clients.keep_instead(newcomer);
        }
    }

    /// Keeps a connection from this address, or tells its client why it is closed.
    fn take_in<R: Wait>(
        &self,
        rt: &R,
        clients: &mut Clients,
        stream: Incoming,
        address: SocketAddr,
    ) {
        let ip = address.ip();
        let own = self.seats.own_of(ip);
        let newcomer = Newcomer {
            stream,
            address,
            place: place_of(own),
            is_peer: self.seats.is_peer(ip),
            clears: false,
        };
        match self.seats.arrival(ip, own.is_some()) {
            Admitted::Kept | Admitted::OnOwnSeat => self.give(rt, clients, newcomer),
            Admitted::MakesRoom => self.make_room(rt, clients, newcomer),
            Admitted::Denied => {
                self.seats.note_rejected();
                refuse_foreign(newcomer.stream);
            }
            Admitted::TooMany => {
                self.seats.note_rejected();
                refuse_further(newcomer.stream);
            }
        }
    }

    /// The system told of connections, which are accepted when it is asked the next time.
    pub(crate) fn note_event(&mut self) {
        self.accepts = true;
    }

    /// Accepts what waits at a socket.
    fn accept_at<R: Wait>(&self, rt: &R, clients: &mut Clients, socket: &TcpListener) -> Stopped {
        for _ in 0..ACCEPTS_MAX {
            match Incoming::accept(socket) {
                Ok((stream, address)) => self.take_in(rt, clients, stream, address),
                Err(error) => match error.kind() {
                    ErrorKind::WouldBlock => return Stopped::NoneWait,
                    ErrorKind::Interrupted | ErrorKind::ConnectionAborted => {}
                    _ => return Stopped::Refused,
                },
            }
        }
        Stopped::ManyCame
    }

    /// Notes that nine tenths of the seats that are for anybody are taken, at most once a minute, where there were
    /// fewer before.
    fn note_crowding<L: Log>(&mut self, log: &L, now: u64) {
        let Some(limit) = self.seats.limit() else {
            return;
        };
        let count = self.seats.common();
        if self.crowding.is_due(count, limit, now) {
            warn!(log; target: "group_ports::listener", "{count} of {limit} connections that clients may have (maxclients) are open: for a further one that goes which owes the password, or has been silent for longest");
        }
    }

    /// Accepts what waits. Where the system has no descriptor or no memory for it, it is tried again after the next
    /// wait.
    pub(crate) fn accept_all<R: Wait + Clock, L: Log>(
        &mut self,
        rt: &R,
        log: &L,
        state: &RunState,
        clients: &mut Clients,
    ) {
        if !self.accepts {
            return;
        }
        clients.note_time(state.clock.now(rt));
        self.note_crowding(log, clients.reading());
        let mut accepts = false;
        for socket in &self.sockets {
            let stopped = self.accept_at(rt, clients, socket);
            accepts |= stopped != Stopped::NoneWait;
            if stopped == Stopped::ManyCame {
                clients.note_busy();
            }
        }
        self.accepts = accepts;
        self.note_crowding(log, clients.reading());
    }
}

/// How connections come to a thread of a port.
#[derive(Drop)]
pub(crate) enum Acceptor {
    /// It accepts them.
    Listens(Listener),
    /// The thread that accepts them hands them over.
    IsHanded(Arc<Handoff, Global>),
}

/// Takes in the connections that were handed over. One for which another one has to go takes the seat of that one.
fn take_handed<R: Wait + Clock>(rt: &R, state: &RunState, desk: &Handoff, clients: &mut Clients) {
    let handed = desk.take(rt, clients.count());
    if handed.is_empty() {
        return;
    }
    clients.note_time(state.clock.now(rt));
    for newcomer in handed {
        if newcomer.clears {
            clients.keep_instead(newcomer);
        } else {
            clients.keep(newcomer);
        }
    }
    desk.tell_silent(clients.silent_since());
}

impl Acceptor {
    /// Takes in the connections that came.
    pub(crate) fn admit<R: Wait + Clock, L: Log>(
        &mut self,
        rt: &R,
        log: &L,
        state: &RunState,
        clients: &mut Clients,
    ) {
        match self {
            Acceptor::Listens(listener) => listener.accept_all(rt, log, state, clients),
            Acceptor::IsHanded(desk) => take_handed(rt, state, desk, clients),
        }
    }

    /// The system told that connections came: they are taken in.
    pub(crate) fn admit_new<R: Wait + Clock, L: Log>(
        &mut self,
        rt: &R,
        log: &L,
        state: &RunState,
        clients: &mut Clients,
    ) {
        if let Acceptor::Listens(listener) = self {
            listener.note_event();
        }
        self.admit(rt, log, state, clients);
    }

    /// Looks at the connections that are silent, and tells the thread that accepts since when the one is silent that
    /// has to go first.
    pub(crate) fn look_at_silent(&self, clients: &mut Clients) {
        if clients.look_at_silent()
            && let Acceptor::IsHanded(desk) = self
        {
            desk.tell_silent(clients.silent_since());
        }
    }

    /// No more connections are to come to this thread.
    pub(crate) fn close<R: Wait>(&self, rt: &R) {
        if let Acceptor::IsHanded(desk) = self {
            desk.close(rt);
        }
    }
}
