//! Notes of faults for which the connection to a node is closed.

use ballot_law::NodeName;
use links::{LinkFault, Target};
use log::{Log, warn};
use resp2::FrameFault;
use std::net::Ipv4Addr;

/// Why a connection was closed that could be read until then.
#[derive(Clone, Copy)]
pub(crate) enum Ended {
    /// At this fault of what came.
    Fault(LinkFault),
    /// An answer was announced, and didn't come whole in time.
    Unfinished,
}

/// What a fault of this node means for the operator.
fn meaning_of(node: NodeName, fault: LinkFault) -> &'static str {
    match fault {
        LinkFault::Unread(FrameFault::TooLong) => {
            "an answer is longer than 16 MiB, or longer than 64 KiB and not one text"
        }
        LinkFault::Unread(FrameFault::TooDeep | FrameFault::TooMany) => {
            "lists are nested in it more deeply, or are longer, than a Sentinel reads"
        }
        LinkFault::Unread(FrameFault::NoMemory) | LinkFault::NoMemory => {
            "memory for it was refused"
        }
        LinkFault::Unread(_) | LinkFault::Frame => {
            "it isn't what a Redis server says: see whether another program, or TLS, is behind that port"
        }
        LinkFault::Unasked => "it answers what nobody asked",
        LinkFault::Strange => match node {
            NodeName::SentinelAt(_) =>
                "an answer doesn't fit what was asked, as where another Sentinel is there than the one whose run id the file has: compare `SENTINEL MYID` there with the `sentinel known-sentinel` lines",
            _ => "an answer doesn't fit what was asked",
        },
        LinkFault::Full => "too many answers are awaited",
    }
}

/// Notes that the connection to a node was closed, since it announced an answer that didn't come whole in time.
fn note_unfinished<R: Log>(rt: &R, target: Target) {
    let (ip, port) = (Ipv4Addr::from(target.addr.ip), target.addr.port);
    warn!(rt; target: "tcp_wires::fault_notes",
        "what {ip}:{port} says has no end: an answer that it announced isn't whole after some seconds. The connection is closed and opened anew: see whether a proxy is between, or the network cuts what is long"
    );
}

/// Notes that the connection to a node was closed, and why.
pub(crate) fn note_ended<R: Log>(rt: &R, target: Target, ended: Ended) {
    match ended {
        Ended::Fault(fault) => note_fault(rt, target, fault),
        Ended::Unfinished => note_unfinished(rt, target),
    }
}

/// Notes that the connection to a node was closed at a fault of what came from it.
fn note_fault<R: Log>(rt: &R, target: Target, fault: LinkFault) {
    let (ip, port) = (Ipv4Addr::from(target.addr.ip), target.addr.port);
    let meaning = meaning_of(target.node, fault);
    warn!(rt; target: "tcp_wires::fault_notes",
        "what {ip}:{port} says can't be read ({fault}): {meaning}. The connection is closed and opened anew, and nothing that it says there counts until it can be read"
    );
}
