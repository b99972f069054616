//! What is told of what isn't well: who it is, and what to do.

use crate::matters::{Matter, What};
use crate::said::Trouble;
use crate::shown_texts::{At, IdDigits, name_text};
use ballot_law::Addr;
use std::fmt;

/// What is told of a Sentinel that said nothing.
fn sentinel_trouble(trouble: Trouble) -> &'static str {
    match trouble {
        Trouble::Unreached => "isn't reached: start it, or see its machine and the network",
        Trouble::Silent => "didn't answer within two seconds: see its machine and its journal",
        Trouble::Closed => {
            "closes the connection without an answer: it is halted if its file can't be written, so see its journal"
        }
        Trouble::WantsPassword => {
            "wants a password: name a file that has it (`requirepass`), or give it by --pass-file"
        }
        Trouble::WrongPassword => {
            "refuses the password: write the same `requirepass` into all files, or give the right one by --pass-file"
        }
        Trouble::NoRights => "doesn't let the user ask this: see its users",
        Trouble::Protected => {
            "refuses other machines (protected mode): write `requirepass` into all files, or ask on its own machine"
        }
        Trouble::Full => {
            "has no room for a client: see its `maxclients`, and who is connected (CLIENT LIST)"
        }
        Trouble::NoSentinel => "answers, but is no Sentinel: see the address",
        Trouble::Garbage => "answers what no Sentinel says: see what listens there",
    }
}

/// What is told of a data node that said nothing.
fn node_trouble(trouble: Trouble) -> &'static str {
    match trouble {
        Trouble::Unreached => "isn't reached: start it, or see its machine and the network",
        Trouble::Silent => "didn't answer within two seconds: see its machine and the network",
        Trouble::Closed => {
            "closes the connection without an answer: see its log, and what listens there"
        }
        Trouble::WantsPassword => {
            "wants a password: write `sentinel auth-pass` into all files; of addresses alone, name a file"
        }
        Trouble::WrongPassword => {
            "refuses the login: write its password (`sentinel auth-pass`, `auth-user`) into all files"
        }
        Trouble::NoRights => "doesn't let the user ask INFO: give it the rights of a Sentinel",
        Trouble::Protected => {
            "refuses other machines (protected mode): give it a password, and `sentinel auth-pass` to all files"
        }
        Trouble::Full => "has no room for a client: see its `maxclients`, and who is connected",
        Trouble::NoSentinel | Trouble::Garbage => {
            "answers what no Redis server says: see what listens there"
        }
    }
}

/// What a data node is to its master.
fn rank(leads: bool) -> &'static str {
    if leads { "master" } else { "replica" }
}

/// An address that is never shown: of a matter without one.
const NOWHERE: Addr = Addr { ip: 0, port: 0 };

impl fmt::Display for Matter {
    fn fmt<W: fmt::Write>(&self, f: &mut fmt::Formatter<W>) -> fmt::Result {
        let at = At(self.at.unwrap_or(NOWHERE));
        let master = self.master.as_ref().map_or("", name_text);
        match self.what {
            What::SentinelReached(Some(trouble)) => {
                write!(f, "Sentinel {at} {}", sentinel_trouble(trouble))
            }
            What::NodeReached(leads, Some(trouble)) => {
                let (rank, why) = (rank(leads), node_trouble(trouble));
                write!(f, "the {rank} {at} of {master} {why}")
            }
            What::KnownId(known, told) => {
                let (known, told) = (IdDigits(known), IdDigits(told));
                write!(
                    f,
                    "Sentinel {at} has the run id {told}, and is known as {known}: see that it runs on its own file"
                )
            }
            What::Tilt(_) => write!(
                f,
                "Sentinel {at} is in TILT and begins nothing for 30 s: see its machine, whose clock jumped or that \
stood still"
            ),
            What::Masters(_) => {
                write!(
                    f,
                    "no Sentinel tells a master: see their files, and whether they run"
                )
            }
            What::LeftOut(_) => write!(
                f,
                "the Sentinels name more nodes than are asked: see who names them"
            ),
            what => write_view(f, at, master, what),
        }
    }
}

/// The sentence of what a Sentinel tells of a master; else that of a data node.
fn write_view<W: fmt::Write>(
    f: &mut fmt::Formatter<W>,
    at: At,
    master: &str,
    what: What,
) -> fmt::Result {
    match what {
        What::Watches(_) => write!(
            f,
            "Sentinel {at} doesn't watch {master}: all files have to name the same masters"
        ),
        What::Epoch(told, newest) => write!(
            f,
            "Sentinel {at} tells epoch {told} of {master}, and the newest is {newest}: it hears no hello, so see its \
links to the data nodes and its rights there"
        ),
        What::Address(told, newest) => {
            let (told, newest) = (At(told), At(newest));
            write!(
                f,
                "Sentinel {at} tells {told} as the address of {master}, and the newest is {newest}: it hears no hello, \
or its file is of another group"
            )
        }
        What::MasterDown(_, true) => write!(
            f,
            "Sentinel {at} finds the master of {master} down with enough others (o_down): a failover comes, if a \
majority and a replica are up"
        ),
        What::MasterDown(_, false) => write!(
            f,
            "Sentinel {at} finds the master of {master} down alone (s_down): see the network between the two, and its \
login"
        ),
        what => write_group(f, at, master, what),
    }
}

/// The sentence of how a Sentinel finds its group; else that of a data node.
fn write_group<W: fmt::Write>(
    f: &mut fmt::Formatter<W>,
    at: At,
    master: &str,
    what: What,
) -> fmt::Result {
    match what {
        What::FailsOver(_) => {
            write!(
                f,
                "Sentinel {at} runs a failover of {master}: wait until it ends"
            )
        }
        What::QuorumReached(_, usable) => write!(
            f,
            "Sentinel {at} counts {usable} usable Sentinels for {master}, too few for a failover: start the others, \
see the network and the ports' passwords"
        ),
        What::PeerKnown(other, _) => {
            let other = At(other);
            write!(
                f,
                "Sentinel {at} doesn't know Sentinel {other} for {master}: its file lacks the line \
`sentinel known-sentinel`"
            )
        }
        What::PeerDown(other, _) => {
            let other = At(other);
            write!(
                f,
                "Sentinel {at} finds Sentinel {other} down for {master}, which answers here: see the network and the \
ports' passwords between the two"
            )
        }
        what => write_replica(f, at, master, what),
    }
}

/// The sentence of how a Sentinel finds a replica, or of a master's replicas; else that of a data node.
fn write_replica<W: fmt::Write>(
    f: &mut fmt::Formatter<W>,
    at: At,
    master: &str,
    what: What,
) -> fmt::Result {
    match what {
        What::ReplicaListed(replica, _) => {
            let replica = At(replica);
            write!(
                f,
                "Sentinel {at} doesn't list the replica {replica} of {master}: its file lacks the line \
`sentinel known-replica`"
            )
        }
        What::ReplicaDown(replica, _) => {
            let replica = At(replica);
            write!(
                f,
                "Sentinel {at} finds the replica {replica} of {master} down, which answers here: see the network \
between the two, and its login"
            )
        }
        What::Replicas(_) => write!(
            f,
            "{master} has no replica, so nobody can take over: add one to all files (sentinel_group change \
--add-replica)"
        ),
        What::Heirs(_, _) => write!(
            f,
            "each replica of {master} has priority 0, so nobody can take over: CONFIG SET replica-priority 100 at one"
        ),
        what => write_node(f, at, master, what),
    }
}

/// The sentence of a data node; nothing of any other matter.
fn write_node<W: fmt::Write>(
    f: &mut fmt::Formatter<W>,
    at: At,
    master: &str,
    what: What,
) -> fmt::Result {
    match what {
        What::Loads(_) => {
            write!(
                f,
                "{at} of {master} loads its data: wait, no Sentinel takes it for up before it is done"
            )
        }
        What::CallsItself(true, _) => write!(
            f,
            "the master {at} of {master} calls itself a replica: if this lasts for 10 s, ask a Sentinel for SENTINEL \
FAILOVER {master}"
        ),
        What::CallsItself(false, _) => write!(
            f,
            "{at} of {master} calls itself a master too, and what it takes is lost: Sentinels that list it make it a \
replica within some 10 s, else end it"
        ),
        What::Link(_, down_s) => write!(
            f,
            "the replica {at} of {master} has had no link to its master for {down_s} s: see its `masterauth` and its \
log"
        ),
        What::Follows(Some(told), newest) => {
            let (told, newest) = (At(told), At(newest));
            write!(
                f,
                "the replica {at} of {master} follows {told}, and not {newest}: Sentinels that list it correct it \
within some 10 s, if they may"
            )
        }
        _ => Ok(()),
    }
}
