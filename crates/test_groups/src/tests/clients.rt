//! A client of a port.

use crate::tests::told_files::MOST_LOOKS;
use std::alloc::Global;
use std::io::{self, Read, Write};
use std::net::{Ipv4Addr, Net, SocketAddr, TcpStream};
use std::rt::Clock;
use std::test::Fail;
use std::thread;
use std::time::Duration;

/// The question for the address of the master.
pub(crate) const ADDRESS: &[u8] =
    b"*3\r\n$8\r\nSENTINEL\r\n$23\r\nGET-MASTER-ADDR-BY-NAME\r\n$8\r\nmymaster\r\n";

/// What it is answered before a failover, and behind that what an array of too many items is.
pub(crate) const ADDRESS_AND_FAULT: [u8; 50] =
    *b"*2\r\n$9\r\n127.0.0.1\r\n$4\r\n6379\r\n-ERR Protocol error\r\n";

/// For how long a client waits for an answer, in seconds.
const MOST_SECONDS: u64 = 40;

/// A connection to a port of this machine.
pub(crate) fn connected<R: Net>(rt: &R, port: u16) -> io::Result<R::Stream> {
    TcpStream::connect(rt, SocketAddr::from((Ipv4Addr::LOCALHOST, port)))
}

/// A connection to the port, whose answers are waited for long enough.
pub(crate) fn client_at<R: Net<Stream = TcpStream>>(rt: &R, port: u16) -> io::Result<TcpStream> {
    let stream = connected(rt, port)?;
    stream.set_read_timeout(Some(Duration::from_secs(MOST_SECONDS)))?;
    Ok(stream)
}

/// The commands whose answers show which nodes are down.
pub(crate) const SENTINELS: &[u8] =
    b"*3\r\n$8\r\nSENTINEL\r\n$9\r\nSENTINELS\r\n$8\r\nmymaster\r\n";

pub(crate) const MASTER: &[u8] = b"*3\r\n$8\r\nSENTINEL\r\n$6\r\nMASTER\r\n$8\r\nmymaster\r\n";

pub(crate) const REPLICAS: &[u8] = b"*3\r\n$8\r\nSENTINEL\r\n$8\r\nREPLICAS\r\n$8\r\nmymaster\r\n";

/// Whether the answer to a command has this text in it.
fn shows<T: Read + Write>(stream: &mut T, command: &[u8], text: &str) -> io::Result<bool> {
    stream.write_all(command)?;
    let mut answer = [0u8; 8192];
    let count = stream.read(&mut answer)?;
    Ok(
        std::str::from_utf8(&answer[..count])
            .unwrap_or("")
            .contains(text),
    )
}

/// Waits for an answer that has this text in it, or hasn't.
pub(crate) fn waits_for<R: Clock, T: Read + Write>(
    rt: &R,
    stream: &mut T,
    command: &[u8],
    text: &str,
    has: bool,
) -> io::Result<bool> {
    for _ in 0..MOST_LOOKS {
        if shows(stream, command, text)? == has {
            return Ok(true);
        }
        thread::sleep(rt, Duration::from_millis(1));
    }
    Ok(false)
}

/// The request for a vote of this epoch, of three digits, by the Sentinel `dddd..`.
pub(crate) fn vote_of(alloc: Global, epoch: u64) -> Result<String, Fail> {
    Ok(format!(in alloc;
        "*6\r\n$8\r\nSENTINEL\r\n$22\r\nIS-MASTER-DOWN-BY-ADDR\r\n$9\r\n127.0.0.1\r\n$4\r\n6379\r\n$3\r\n{epoch}\r\n$40\r\ndddddddddddddddddddddddddddddddddddddddd\r\n"
    )?)
}

/// What it is answered by a Sentinel that finds no master down and has not voted in this epoch yet.
pub(crate) fn voted_in(alloc: Global, epoch: u64) -> Result<String, Fail> {
    Ok(format!(in alloc;
        "*3\r\n:0\r\n$40\r\ndddddddddddddddddddddddddddddddddddddddd\r\n:{epoch}\r\n"
    )?)
}
