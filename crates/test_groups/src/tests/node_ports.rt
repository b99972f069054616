//! Data nodes at ports of their own.

ghost use Rattle.std.specs.Prelude.{IfSome};
ghost use Rattle.node_texts.specs.Infos.{IsInfo};

use crate::tests::clients::client_at;
use crate::tests::confs::{free_ports, nodes_at};
use ballot_law::{Addr, DataRole, Info};
use data_node_port::{NodePorts, ShownNodes};
use log::Log;
use std::alloc::Global;
use std::io::{self, Read, Write};
use std::net::{Net, TcpStream};
use std::rt::Clock;
use std::sync::Wait;
use std::sync::atomic::{AtomicU64, Ordering};
use std::test::Fail;

/// How often it is looked at what a node shows before the ports end, and how often behind an order to follow somebody.
const MOST_LOOKS: u64 = 2_000;

const LAST_LOOKS: u64 = 20;

/// Two data nodes that show that they are masters. Once the second one was told to follow the one at the port
/// `followed`, the first one is stopped; after so many looks their ports end, which isn't 0 then.
#[derive(Drop)]
struct TwoNodes {
    looks: AtomicU64,
    followed: AtomicU64,
    ending: AtomicU64,
}

impl TwoNodes {
    /// Nobody was told anything yet.
    fn new() -> TwoNodes {
        TwoNodes {
            looks: AtomicU64::new(0),
            followed: AtomicU64::new(0),
            ending: AtomicU64::new(0),
        }
    }
}

impl ShownNodes for TwoNodes {
    fn shown<R: Wait + Clock>(&self, _rt: &R, number: u16) -> Option<Info> {
        if self.looks.fetch_add(1, Ordering::SeqCst) > MOST_LOOKS {
            self.ending.store(1, Ordering::SeqCst);
        }
        if number > 1 || number == 0 && self.followed.load(Ordering::SeqCst) != 0 {
            return None;
        }
        Some(Info {
            id: None,
            role: DataRole::Master,
            master: None,
            link_up: false,
            link_down_s: 0,
            priority: 100,
            offset: 14,
        })
    }

    fn follow<R: Wait + Clock>(&self, _rt: &R, number: u16, follows: Option<Addr>) {
        if let (1, Some(addr)) = (number, follows) {
            self.followed.store(u64::from(addr.port), Ordering::SeqCst);
            self.looks.store(MOST_LOOKS - LAST_LOOKS, Ordering::SeqCst);
        }
    }
}

/// What a client of the second node sends, and all that it is answered until it is closed.
const ASKED: &[u8] = b"*1\r\n$4\r\nPING\r\n*1\r\n$4\r\nROLE\r\n\
*3\r\n$9\r\nREPLICAOF\r\n$9\r\n127.0.0.1\r\n$4\r\n7001\r\n*1\r\n$4\r\nQUIT\r\n";

const ANSWERED: &[u8] = b"+PONG\r\n*3\r\n$6\r\nmaster\r\n:14\r\n*0\r\n+OK\r\n+OK\r\n";

/// What comes on a connection until it is closed.
fn read_all<T: Read>(alloc: Global, stream: &mut T) -> io::Result<Vec<u8>> {
    let mut got = Vec::new(alloc);
    stream.read_to_end(&mut got)?;
    Ok(got)
}

/// The ports of two data nodes, which are open.
fn opened<N: Net + Log>(net: &N, alloc: Global, at: (u16, u16)) -> Result<NodePorts, Fail> {
    let conf = nodes_at(alloc, at).ok_or("no conf")?;
    Ok(NodePorts::open(net, alloc, conf.roster())?)
}

/// Serves ports until they end, and tells what a client of each one is answered; that of the second one sends `ASKED`.
fn answered<R>(
    rt: &R,
    alloc: Global,
    at: (u16, u16),
    mut ports: NodePorts,
    nodes: &TwoNodes,
) -> io::Result<(Vec<u8>, Vec<u8>)>
where
    R: Net<Stream = TcpStream> + Wait + Clock,
{
    let (mut first, mut second) = (client_at(rt, at.0)?, client_at(rt, at.1)?);
    second.write_all(ASKED)?;
    ports.serve(rt, rt, nodes, &nodes.ending)?;
    Ok((read_all(alloc, &mut first)?, read_all(alloc, &mut second)?))
}

#[test]
fn data_nodes_answer_at_their_ports(rt: HostRuntime) -> Result<(), Fail> {
    let alloc = rt.alloc();
    let at = free_ports(&rt)?;
    let nodes = TwoNodes::new();
    let ports = opened(&rt, alloc, at)?;
    let (of_first, of_second) = answered(&rt, alloc, at, ports, &nodes)?;
    assert_eq!(rt; of_second.as_slice(), ANSWERED);
    assert_eq!(rt; nodes.followed.load(Ordering::SeqCst), 7001);
    assert!(rt; of_first.is_empty(), "a stopped node closes its clients");
    Ok(())
}
