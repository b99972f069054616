//! The sockets of connections: those of the system, or others.

ghost use Rattle.std.specs.Prelude.{◌≡◌, ◌≤◌, [], IfOk, IfSome, OnErr, length, take};
ghost use Rattle.ballot_law.specs.declared.events.Event.{Event};

use ballot_law::Addr;
use links::Target;
use mio::net::TcpStream;
use mio::{Interest, Registry, Token};
use sentinel_runtime::Which;
use std::io::{self, Read, Write};
use std::marker::PhantomData;
use std::net::{Ipv4Addr, Net, SocketAddr};

/// A socket of a connection. `stands` is what is known of it: to which node's address it is, which bytes were put out
/// on it since it was opened, and which came. Of one of the system nothing is known; what is generic in it can't tell
/// it from one of which all is.
///
/// Nothing is told to the Sentinel but by a read: what the bytes tell that came on a socket, for what was asked on it.
pub trait Socket<J: Which> {
    ghost use Rattle.std.specs.Prelude.{◌≡◌, ◌≤◌, IfOk, OnErr, List, ℕ, length, take};
    ghost use Rattle.links.specs.declared.target.Target.{Target};
    ghost use Rattle.tcp_transport.specs.Sockets.{IsQuiet, Puts, Gets, MayTell};

    ghost stands: { Self → Target → (put got : List ℕ) → Type 0 };

    /// Has the system tell of it under this token.
    fn register(&mut self, registry: &Registry, token: Token) -> io::Result<()>
        ensures { IsQuiet (stands self.old) (stands self.new) };

    /// What went wrong on it since this was asked last.
    fn take_error(&self) -> io::Result<Option<io::Error>>;

    /// To whom it is, once it is connected.
    fn peer_addr(&self) -> io::Result<SocketAddr>;

    /// Puts out a first part of these bytes, without waiting: how many.
    fn write(&mut self, bytes: &[u8]) -> io::Result<usize>
        ensures within { IfOk result (λ count. count ≤ length bytes.now) }
        ensures put { IfOk result (λ count. Puts (stands self.old) (stands self.new) (take count bytes.now)) }
        ensures err { OnErr result (IsQuiet (stands self.old) (stands self.new)) };

    /// Takes the next bytes that came into the room, without waiting: how many, and none at the end.
    fn read(&mut self, room: &mut [u8]) -> io::Result<usize>
        ensures within { IfOk result (λ count. count ≤ length room.new) }
        ensures came { IfOk result (λ count. Gets (stands self.old) (stands self.new) (take count room.new)) }
        ensures told { IfOk result (λ count. MayTell J.said J.told (stands self.old) (take count room.new)) }
        ensures err { OnErr result (IsQuiet (stands self.old) (stands self.new)) };
}

/// Where the sockets of connections come from.
pub trait Connects<J: Which> {
    ghost use Rattle.std.specs.Prelude.{[], IfOk};

    type Stream: Socket<J> + Drop;

    /// Begins to connect to this node's address, which a connection may be to.
    fn connect(&self, target: Target) -> io::Result<Self::Stream>
        requires { ∥ J.reaches target ∥₁ }
        ensures { IfOk result (λ socket. Self.Stream.stands socket target [] []) };
}

/// The sockets of the system. Nothing is known of them, so the Sentinel may be told whatever comes.
#[derive(Drop)]
pub struct NetSockets<'n, J: Which, N: Net> {
    net: &'n N,
    of: PhantomData<J>,
    ghost told: { (event : Event) → ∥ J.told event ∥₁ },
}

impl<'n, J: Which, N: Net> NetSockets<'n, J, N> {
    /// Those of this handle.
    pub fn of(net: &'n N) -> NetSockets<'n, J, N>
        requires told { (event : Event) → ∥ J.told event ∥₁ }
    {
        NetSockets {
            net,
            of: PhantomData,
        }
    }
}

/// A socket of the system.
#[derive(Drop)]
pub struct NetSocket<J: Which> {
    stream: TcpStream,
    of: PhantomData<J>,
    ghost told: { (event : Event) → ∥ J.told event ∥₁ },
}

/// A socket's address.
fn socket_of(addr: Addr) -> SocketAddr {
    SocketAddr::from((Ipv4Addr::from(addr.ip), addr.port))
}

impl<J: Which, N: Net> Connects<J> for NetSockets<'_, J, N> {
    type Stream = NetSocket<J>;

    fn connect(&self, target: Target) -> io::Result<NetSocket<J>> {
        Ok(NetSocket {
            stream: TcpStream::connect(self.net, socket_of(target.addr))?,
            of: PhantomData,
        })
    }
}

impl<J: Which> Socket<J> for NetSocket<J> {
    ghost stands = { λ socket target put got. Unit {0} };

    fn register(&mut self, registry: &Registry, token: Token) -> io::Result<()> {
        registry.register(
            &mut self.stream,
            token,
            Interest::READABLE | Interest::WRITABLE,
        )
    }

    fn take_error(&self) -> io::Result<Option<io::Error>> {
        self.stream.take_error()
    }

    fn peer_addr(&self) -> io::Result<SocketAddr> {
        self.stream.peer_addr()
    }

    fn write(&mut self, bytes: &[u8]) -> io::Result<usize> {
        self.stream.write(bytes)
    }

    fn read(&mut self, room: &mut [u8]) -> io::Result<usize> {
        self.stream.read(room)
    }
}

/// Begins to connect to this node's address, which a connection may be to, and has the system tell of it under this
/// token; none where it can't.
pub(crate) fn connected<J: Which, C: Connects<J>>(
    net: &C,
    registry: &Registry,
    token: Token,
    target: Target,
) -> Option<C::Stream>
    requires { ∥ J.reaches target ∥₁ }
    ensures { IfSome result (λ socket. C.Stream.stands socket target [] []) }
{
    let mut socket = net.connect(target).ok()?;
    socket.register(registry, token).ok()?;
    Some(socket)
}

/// Whether a socket stands, once the system has told of it: `None` where it isn't known yet.
pub(crate) fn is_connected<J: Which, S: Socket<J>>(socket: &S) -> Option<bool> {
    match socket.take_error() {
        Ok(None) => {}
        _ => return Some(false),
    }
    if socket.peer_addr().is_ok() {
        return Some(true);
    }
    None
}
