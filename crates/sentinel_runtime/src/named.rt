//! How notes name masters, data nodes and Sentinels.

use ballot_law::{Addr, Member, Roster, RunId};
use pubsub::Channel;
use std::fmt;
use std::net::Ipv4Addr;
use std::str::from_utf8;

/// A master with its address, as `mymaster 127.0.0.1 6379`.
#[derive(Clone, Copy)]
pub(crate) struct NamedMaster<'a> {
    name: &'a str,
    ip: Ipv4Addr,
    port: u16,
}

impl<'a> NamedMaster<'a> {
    /// The master with this number at an address; none where the roster hasn't as many.
    pub(crate) fn of(roster: &'a Roster, master: u16, addr: Addr) -> Option<NamedMaster<'a>> {
        let watched = roster.masters().get(master as usize)?;
        Some(NamedMaster {
            name: from_utf8(watched.name.as_slice()).unwrap_or("?"),
            ip: Ipv4Addr::from(addr.ip),
            port: addr.port,
        })
    }
}

impl fmt::Display for NamedMaster<'_> {
    fn fmt<W: fmt::Write>(&self, f: &mut fmt::Formatter<W>) -> fmt::Result {
        write!(f, "{} {} {}", self.name, self.ip, self.port)
    }
}

/// A data node, as `127.0.0.1:6380 127.0.0.1 6380`.
#[derive(Clone, Copy)]
pub(crate) struct NamedNode {
    ip: Ipv4Addr,
    port: u16,
}

impl NamedNode {
    /// The node at an address.
    pub(crate) fn at(addr: Addr) -> NamedNode {
        NamedNode {
            ip: Ipv4Addr::from(addr.ip),
            port: addr.port,
        }
    }

    /// Its ip.
    pub(crate) fn ip(&self) -> Ipv4Addr {
        self.ip
    }

    /// Its port.
    pub(crate) fn port(&self) -> u16 {
        self.port
    }
}

impl fmt::Display for NamedNode {
    fn fmt<W: fmt::Write>(&self, f: &mut fmt::Formatter<W>) -> fmt::Result {
        let (ip, port) = (self.ip, self.port);
        write!(f, "{ip}:{port} {ip} {port}")
    }
}

/// A run id, as 40 hex digits.
#[derive(Clone, Copy)]
pub(crate) struct NamedId(pub(crate) RunId);

impl fmt::Display for NamedId {
    fn fmt<W: fmt::Write>(&self, f: &mut fmt::Formatter<W>) -> fmt::Result {
        write!(f, "{:032x}{:08x}", self.0.hi, self.0.lo)
    }
}

/// A Sentinel, as its run id, its ip and its port.
#[derive(Clone, Copy)]
pub(crate) struct NamedSentinel {
    id: RunId,
    ip: Ipv4Addr,
    port: u16,
}

impl NamedSentinel {
    /// This Sentinel of the roster.
    pub(crate) fn of(sentinel: Member) -> NamedSentinel {
        NamedSentinel {
            id: sentinel.id,
            ip: Ipv4Addr::from(sentinel.addr.ip),
            port: sentinel.addr.port,
        }
    }
}

impl fmt::Display for NamedSentinel {
    fn fmt<W: fmt::Write>(&self, f: &mut fmt::Formatter<W>) -> fmt::Result {
        write!(f, "{} {} {}", NamedId(self.id), self.ip, self.port)
    }
}

/// The channel of an event, as `+sdown`.
#[derive(Clone, Copy)]
pub(crate) struct NamedChannel(pub(crate) Channel);

impl fmt::Display for NamedChannel {
    fn fmt<W: fmt::Write>(&self, f: &mut fmt::Formatter<W>) -> fmt::Result {
        write!(f, "{}", from_utf8(self.0.name()).unwrap_or("?"))
    }
}
