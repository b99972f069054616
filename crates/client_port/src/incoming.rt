//! A client's connection before it has a session.

use crate::connection::{Connection, Origin};
use courteous_sessions::ClientSession;
use mio::net::{TcpListener, TcpStream};
use std::io::{self, Write};
use std::net::SocketAddr;

/// A connection that was accepted. Who has it can only refuse it, or give it a session: then what its client gets is
/// what that session puts out, which `Connection::send` alone writes.
#[derive(Drop)]
pub(crate) struct Incoming {
    stream: TcpStream,
}

impl Incoming {
    /// Accepts what waits at a socket: a connection, with whence it came. The error is the system's, and `WouldBlock`
    /// where none waits.
    pub(crate) fn accept(socket: &TcpListener) -> io::Result<(Incoming, SocketAddr)> {
        let (stream, address) = socket.accept()?;
        Ok((Incoming { stream }, address))
    }

    /// Where to it came. The error is the system's.
    pub(crate) fn local_addr(&self) -> io::Result<SocketAddr> {
        self.stream.local_addr()
    }

    /// Has what is sent on it not wait until the client has acknowledged what was sent before, as a note after another
    /// one would. The error is the system's.
    pub(crate) fn set_nodelay(&self) -> io::Result<()> {
        self.stream.set_nodelay(true)
    }

    /// Closes it after this line, of which its client gets what the system takes at once.
    pub(crate) fn refuse(mut self, line: &[u8]) {
        drop(self.stream.write(line));
    }

    /// Its client's connection, with a session to which no bytes came.
    pub(crate) fn connect(self, session: ClientSession, origin: Origin) -> Connection<TcpStream> {
        Connection::new(self.stream, session, origin)
    }
}
