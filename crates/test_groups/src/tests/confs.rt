//! Confs of small groups.

use ballot_law::NoMemory;
use sentinel_conf::{Conf, read};
use std::alloc::Global;
use std::io;
use std::net::{Ipv4Addr, Net, OpenListener, SocketAddr, TcpListener};

/// Who listens at a port of this machine, whichever it is.
pub(crate) fn listening<R: Net>(rt: &R) -> io::Result<R::Listener> {
    TcpListener::bind(rt, SocketAddr::from((Ipv4Addr::LOCALHOST, 0)))
}

/// A port of this machine that nobody has now.
pub(crate) fn free_port<R: Net>(rt: &R) -> io::Result<u16> {
    Ok(listening(rt)?.local_addr()?.port())
}

/// Two of them, the lower one first.
pub(crate) fn free_ports<R: Net>(rt: &R) -> io::Result<(u16, u16)> {
    // (both are held until both are had, so they differ)
    let (one, other) = (listening(rt)?, listening(rt)?);
    let (one, other) = (one.local_addr()?.port(), other.local_addr()?.port());
    Ok((one.min(other), one.max(other)))
}

/// The conf of a Sentinel that is alone: one master at 6379 with a replica at 6380.
pub(crate) fn text_of_one(alloc: Global, port: u16) -> Result<String, NoMemory> {
    Ok(format!(in alloc;
        "port {port}\n\
sentinel myid aaaaaaaaaaaaaaaaaaaaaaaaaaaaaaaaaaaaaaaa\n\
sentinel monitor mymaster 127.0.0.1 6379 1\n\
sentinel down-after-milliseconds mymaster 3000\n\
sentinel known-replica mymaster 127.0.0.1 6380\n"
    )?)
}

/// The conf of a group whose master and replica are at these ports.
pub(crate) fn nodes_at(alloc: Global, ports: (u16, u16)) -> Option<Conf> {
    let (master, replica) = ports;
    let text: String = format!(in alloc;
        "port 26379\n\
sentinel myid aaaaaaaaaaaaaaaaaaaaaaaaaaaaaaaaaaaaaaaa\n\
sentinel monitor mymaster 127.0.0.1 {master} 1\n\
sentinel known-replica mymaster 127.0.0.1 {replica}\n"
    )
    .ok()?;
    read(alloc, text.as_bytes()).ok()
}

/// One Sentinel of a pair that watch one master with a replica.
#[derive(Clone, Copy)]
pub(crate) struct Paired {
    pub(crate) id: &'static str,
    pub(crate) other: &'static str,
    pub(crate) port: u16,
    pub(crate) other_port: u16,
    pub(crate) quorum: u32,
    pub(crate) after_ms: u64,
    pub(crate) epoch: u64,
}

impl Paired {
    /// The first of a pair at these ports, with quorum 1, of epoch 0.
    pub(crate) fn at(ports: (u16, u16), after_ms: u64) -> Paired {
        Paired {
            id: "aaaaaaaaaaaaaaaaaaaaaaaaaaaaaaaaaaaaaaaa",
            other: "bbbbbbbbbbbbbbbbbbbbbbbbbbbbbbbbbbbbbbbb",
            port: ports.0,
            other_port: ports.1,
            quorum: 1,
            after_ms,
            epoch: 0,
        }
    }

    /// The other one of the pair, with the same settings.
    pub(crate) fn counterpart(self) -> Paired {
        Paired {
            id: self.other,
            other: self.id,
            port: self.other_port,
            other_port: self.port,
            ..self
        }
    }

    /// Its file.
    pub(crate) fn text(&self, alloc: Global) -> Result<String, NoMemory> {
        let (id, other) = (self.id, self.other);
        Ok(format!(in alloc;
            "port {}\n\
sentinel myid {id}\n\
sentinel current-epoch {}\n\
sentinel monitor mymaster 127.0.0.1 6379 {}\n\
sentinel down-after-milliseconds mymaster {}\n\
sentinel known-replica mymaster 127.0.0.1 6380\n\
sentinel known-sentinel mymaster 127.0.0.1 {} {other}\n",
            self.port, self.epoch, self.quorum, self.after_ms, self.other_port
        )?)
    }
}

/// The confs of a pair.
pub(crate) fn both_of(alloc: Global, one: Paired, other: Paired) -> Option<Vec<Conf>> {
    let one = read(alloc, one.text(alloc).ok()?.as_bytes()).ok()?;
    let other = read(alloc, other.text(alloc).ok()?.as_bytes()).ok()?;
    vec![in alloc; one, other].ok()
}
