//! A Sentinel of `watch` beside a master, a replica and two other Sentinels that are played, of which one votes for
//! itself: by sockets alone it finds both up, gives the second its vote and gets that one's, which elects it, and replaces
//! the master and tells so. Were its connections to both one and the same, one of the two would be counted twice.

use crate::tests::clients::{ADDRESS, SENTINELS, client_at, waits_for};
use crate::tests::confs::{free_port, listening};
use crate::tests::played_nodes::{
    ALL_HELLOS, OVER, OWN_ID, PLAYED_EPOCH, PLAYED_ID, Play, PlayedNodes, Plays, Ports, RIVAL_ID,
    SILENT, Who,
};
use crate::tests::told_files::{MOST_LOOKS, Told, ToldFile, wait_for};
use client_port::{Admission, PortAddress, ReadsTimes};
use log::Log;
use sentinel_conf::ConfStore;
use sentinel_rules::Profile;
use sentinel_runner::{GroupFault, LoadedConf, PortSettings, Watch, WatchSettings};
use std::alloc::{AllocError, Global};
use std::io::{self, Read, Write};
use std::net::{Ipv4Addr, Net, SocketAddr, TcpListener, TcpStream};
use std::rt::Clock;
use std::sync::atomic::Ordering;
use std::sync::{Arc, Wait};
use std::test::Fail;
use std::thread::{self, JoinHandle, Threads};
use std::time::Duration;
use tcp_transport::Logins;

/// The epoch in which the Sentinel that is played asks for a vote, and the one of a vote that the file refuses.
const ASKED_EPOCH: u64 = PLAYED_EPOCH + 1;

const REFUSED_EPOCH: u64 = 900;

/// The command that asks to be told of new addresses, and its answer.
const SUBSCRIBE: &[u8] = b"*2\r\n$9\r\nSUBSCRIBE\r\n$14\r\n+switch-master\r\n";

const SUBSCRIBED: &[u8] = b"*3\r\n$9\r\nsubscribe\r\n$14\r\n+switch-master\r\n:1\r\n";

/// What clients saw of a Sentinel that watches, and what its file got.
#[derive(Clone, Copy, Debug, PartialEq, Eq)]
struct Seen {
    /// A hello of the other Sentinel raised the current epoch.
    heard: bool,
    /// The other Sentinels are up, before the master is silent and after the switch, when one would be down that had never
    /// answered.
    up: (bool, bool),
    /// The other Sentinel was given the vote that it asked for, which was stored.
    voted: bool,
    /// The address of the master before the switch and after it.
    shown: (bool, bool),
    /// A subscriber was told that the replica took the master's place, and nothing before that.
    told: bool,
    /// That was stored by then, in the epoch of the votes of both Sentinels.
    stored: bool,
}

/// A text as RESP2 has a bulk string.
fn bulk_of(alloc: Global, text: &str) -> io::Result<String> {
    Ok(format!(in alloc; "${}\r\n{text}\r\n", text.len())?)
}

/// A number as a bulk string.
fn bulk_number(alloc: Global, number: u64) -> io::Result<String> {
    let text: String = format!(in alloc; "{number}")?;
    bulk_of(alloc, text.as_str())
}

/// The request for a vote for the Sentinel that is played, of a master at this port.
fn ask_of(alloc: Global, port: u16, epoch: u64) -> io::Result<String> {
    let (port, epoch) = (
        bulk_number(alloc, u64::from(port))?,
        bulk_number(alloc, epoch)?,
    );
    Ok(format!(in alloc;
        "*6\r\n$8\r\nSENTINEL\r\n$22\r\nis-master-down-by-addr\r\n$9\r\n127.0.0.1\r\n{port}{epoch}$40\r\n{PLAYED_ID}\r\n"
    )?)
}

/// What it is answered by one that gives the vote, and doesn't find the master down.
fn given_in(alloc: Global, epoch: u64) -> io::Result<String> {
    Ok(format!(in alloc; "*3\r\n:0\r\n$40\r\n{PLAYED_ID}\r\n:{epoch}\r\n")?)
}

/// How the row of a Sentinel that is played has it, if that is up.
fn row_of(alloc: Global, port: u16, id: &str) -> io::Result<String> {
    let port = bulk_number(alloc, u64::from(port))?;
    Ok(format!(in alloc;
        "$4\r\nport\r\n{port}$5\r\nrunid\r\n$40\r\n{id}\r\n$5\r\nflags\r\n$8\r\nsentinel\r\n"
    )?)
}

/// What the question for the address of the master is answered while it is at this port.
fn address_of(alloc: Global, port: u16) -> io::Result<String> {
    let port = bulk_number(alloc, u64::from(port))?;
    Ok(format!(in alloc; "*2\r\n$9\r\n127.0.0.1\r\n{port}")?)
}

/// What a subscriber is told where the replica takes the master's place.
fn switch_of(alloc: Global, ports: Ports) -> io::Result<String> {
    let (master, replica) = (ports.master, ports.replica);
    let text: String = format!(in alloc; "mymaster 127.0.0.1 {master} 127.0.0.1 {replica}")?;
    let text = bulk_of(alloc, text.as_str())?;
    Ok(format!(in alloc; "*3\r\n$7\r\nmessage\r\n$14\r\n+switch-master\r\n{text}")?)
}

/// Whether the next bytes are these.
fn reads<T: Read>(stream: &mut T, wanted: &[u8]) -> io::Result<bool> {
    let (mut room, count) = ([0u8; 256], wanted.len());
    if count > room.len() {
        return Ok(false);
    }
    stream.read_exact(&mut room[..count])?;
    Ok(&room[..count] == wanted)
}

/// Whether a command is answered so.
fn is_answered<T: Read + Write>(stream: &mut T, command: &[u8], wanted: &[u8]) -> io::Result<bool> {
    stream.write_all(command)?;
    reads(stream, wanted)
}

/// Whether the Sentinel that is played is given its vote. A busy machine may have the master be down for a moment.
fn is_given<R: Clock, T: Read + Write>(
    rt: &R,
    alloc: Global,
    stream: &mut T,
    port: u16,
) -> io::Result<bool> {
    let (ask, given) = (
        ask_of(alloc, port, ASKED_EPOCH)?,
        given_in(alloc, ASKED_EPOCH)?,
    );
    for _ in 0..MOST_LOOKS {
        if is_answered(stream, ask.as_bytes(), given.as_bytes())? {
            return Ok(true);
        }
        thread::sleep(rt, Duration::from_millis(1));
    }
    Ok(false)
}

/// Who talks, which a thread of its own does: of what kind it is that thread needn't know.
trait Talks {
    /// Talks to a Sentinel that runs until it has ended, and tells what was seen.
    fn talk<R: Clock>(self, rt: &R, play: &Play) -> io::Result<Seen>;
}

/// Two clients of a Sentinel at its port, of which one listens to new addresses, and its file.
#[derive(Drop)]
struct Clients<T> {
    alloc: Global,
    ports: Ports,
    client: T,
    listener: T,
    told: Arc<Told>,
}

impl<T: Read + Write> Clients<T> {
    /// Whether the address of the master is at this port.
    fn is_shown(&mut self, port: u16) -> io::Result<bool> {
        let wanted = address_of(self.alloc, port)?;
        is_answered(&mut self.client, ADDRESS, wanted.as_bytes())
    }

    /// Whether the other Sentinel with this run id, at this port, is up.
    fn is_up<R: Clock>(&mut self, rt: &R, port: u16, id: &str) -> io::Result<bool> {
        let row = row_of(self.alloc, port, id)?;
        waits_for(rt, &mut self.client, SENTINELS, row.as_str(), true)
    }

    /// Whether both other Sentinels are up.
    fn are_up<R: Clock>(&mut self, rt: &R) -> io::Result<bool> {
        let Ports { rival, played, .. } = self.ports;
        Ok(self.is_up(rt, rival, RIVAL_ID)? && self.is_up(rt, played, PLAYED_ID)?)
    }

    /// Whether the file has the new master, in the epoch of both votes.
    fn is_stored(&self, play: &Play) -> bool {
        let epoch = play.voted.load(Ordering::SeqCst);
        epoch > ASKED_EPOCH
            && self.told.voted.load(Ordering::SeqCst) == epoch
            && self.told.current.load(Ordering::SeqCst) == epoch
            && self.told.master.load(Ordering::SeqCst) == u64::from(self.ports.replica)
    }

    /// Looks while the master answers.
    fn look_before<R: Clock>(&mut self, rt: &R) -> io::Result<Seen> {
        let master = self.ports.master;
        Ok(Seen {
            heard: wait_for(rt, &self.told.current, PLAYED_EPOCH),
            up: (self.are_up(rt)?, false),
            voted: is_given(rt, self.alloc, &mut self.client, master)?
                && self.told.voted.load(Ordering::SeqCst) == ASKED_EPOCH,
            shown: (self.is_shown(master)?, false),
            told: is_answered(&mut self.listener, SUBSCRIBE, SUBSCRIBED)?,
            stored: false,
        })
    }

    /// Has the master be silent, and looks once it is replaced.
    fn look_after<R: Clock>(&mut self, rt: &R, play: &Play, seen: Seen) -> io::Result<Seen> {
        let switch = switch_of(self.alloc, self.ports)?;
        play.stage.store(SILENT, Ordering::SeqCst);
        Ok(Seen {
            told: seen.told && reads(&mut self.listener, switch.as_bytes())?,
            stored: self.is_stored(play),
            shown: (seen.shown.0, self.is_shown(self.ports.replica)?),
            up: (seen.up.0, self.are_up(rt)?),
            ..seen
        })
    }

    /// Looks until the new address is published.
    fn look<R: Clock>(&mut self, rt: &R, play: &Play) -> io::Result<Seen> {
        let seen = self.look_before(rt)?;
        let seen = self.look_after(rt, play, seen)?;
        wait_for(rt, &play.hellos, ALL_HELLOS);
        Ok(seen)
    }

    /// Has the file refuse each text, and asks for a vote that is to be stored, at whichever node the master is: so the
    /// Sentinel is halted, and its port closes the connection.
    fn end(&mut self) -> io::Result<()> {
        self.told.refuses.store(1, Ordering::SeqCst);
        for port in [self.ports.master, self.ports.replica] {
            let ask = ask_of(self.alloc, port, REFUSED_EPOCH)?;
            self.client.write_all(ask.as_bytes())?;
        }
        // (bytes that wait are lost at the end of a connection whose answers nobody read)
        let mut rest = Vec::new(self.alloc);
        self.client.read_to_end(&mut rest)?;
        Ok(())
    }
}

impl<T: Read + Write + Drop> Talks for Clients<T> {
    fn talk<R: Clock>(mut self, rt: &R, play: &Play) -> io::Result<Seen> {
        let seen = self.look(rt, play);
        // (a Sentinel that is halted may close the connection before all was sent)
        drop(self.end());
        play.stage.store(OVER, Ordering::SeqCst);
        seen
    }
}

/// How a Sentinel ended: whether it is here again, and its fault.
type Ended = (bool, Result<(), GroupFault>);

/// Has nodes play on a thread of their own: whether it could be made.
fn begin_play<P, R>(rt: &R, nodes: P, play: Arc<Play>) -> bool
where
    P: Plays + Drop + Send + 'static,
    R: Threads + Clock + Copy + Drop + Send + 'static,
{
    let own = *rt;
    thread::spawn(rt, move || nodes.play(&own, &play)).is_ok()
}

/// Has clients talk on a thread of their own, if one can be made.
fn begin_talk<T, R>(rt: &R, clients: T, play: Arc<Play>) -> Option<JoinHandle<io::Result<Seen>>>
where
    T: Talks + Drop + Send + 'static,
    R: Threads + Clock + Copy + Drop + Send + 'static,
{
    let own = *rt;
    thread::spawn(rt, move || clients.talk(&own, &play)).ok()
}

/// Runs a Sentinel that is open to its end.
fn run_open<S, R>(rt: &R, watch: Watch<S>) -> Ended
where
    S: ConfStore + Drop + Send,
    R: Threads + Wait + Net + Clock + ReadsTimes + Log + Sync,
{
    let (left, ended) = watch.run(rt);
    (left.is_some(), ended)
}

/// The file of a Sentinel that needs the other one's vote.
fn text_of(alloc: Global, ports: Ports) -> io::Result<String> {
    let Ports {
        own,
        rival,
        played,
        master,
        replica,
    } = ports;
    Ok(format!(in alloc;
        "port {own}\n\
sentinel myid {OWN_ID}\n\
sentinel monitor mymaster 127.0.0.1 {master} 2\n\
sentinel down-after-milliseconds mymaster 2000\n\
sentinel failover-timeout mymaster 3000\n\
sentinel known-replica mymaster 127.0.0.1 {replica}\n\
sentinel known-sentinel mymaster 127.0.0.1 {rival} {RIVAL_ID}\n\
sentinel known-sentinel mymaster 127.0.0.1 {played} {PLAYED_ID}\n"
    )?)
}

/// What a Sentinel is told beside its conf: its port is at this machine, and each client is let in.
fn settings(alloc: Global, port: u16) -> Result<WatchSettings, AllocError> {
    let address = PortAddress {
        address: SocketAddr::from((Ipv4Addr::LOCALHOST, port)),
        may_lack: false,
    };
    Ok(WatchSettings {
        addresses: vec![in alloc; address]?,
        port: PortSettings {
            threads: 1,
            profile: Profile::Redis,
        },
        admission: Admission::of_all(alloc),
        logins: Logins::new(alloc),
        reboots: Vec::new(alloc),
    })
}

/// A Sentinel that is open at its port.
fn opened<'a, R: Net + Clock + Log>(
    rt: &R,
    alloc: Global,
    ports: Ports,
    told: &'a Told,
) -> Option<Watch<ToldFile<'a, R>>> {
    let text = text_of(alloc, ports).ok()?;
    let settings = settings(alloc, ports.own).ok()?;
    let Ok(store) = ToldFile::holding(alloc, told, text.as_bytes()) else {
        return None;
    };
    let Ok(loaded) = LoadedConf::load(alloc, store) else {
        return None;
    };
    Watch::open(rt, alloc, loaded, settings).ok()
}

/// What is to be seen.
const WANTED: Seen = Seen {
    heard: true,
    up: (true, true),
    voted: true,
    shown: (true, true),
    told: true,
    stored: true,
};

/// Who listens where nodes are played.
#[derive(Drop)]
struct Heard {
    rival: TcpListener,
    played: TcpListener,
    master: TcpListener,
    replica: TcpListener,
}

impl Heard {
    /// Each of them at a port of its own.
    fn open<R>(rt: &R) -> io::Result<Heard>
    where
        R: Net<Stream = TcpStream, Listener = TcpListener>,
    {
        Ok(Heard {
            rival: listening(rt)?,
            played: listening(rt)?,
            master: listening(rt)?,
            replica: listening(rt)?,
        })
    }

    /// Their ports, and the one of the Sentinel that watches.
    fn ports(&self, own: u16) -> io::Result<Ports> {
        Ok(Ports {
            own,
            rival: self.rival.local_addr()?.port(),
            played: self.played.local_addr()?.port(),
            master: self.master.local_addr()?.port(),
            replica: self.replica.local_addr()?.port(),
        })
    }

    /// The nodes, which listen there.
    fn nodes(self, alloc: Global, ports: Ports) -> Result<PlayedNodes, Fail> {
        let Heard {
            rival,
            played,
            master,
            replica,
        } = self;
        let mut nodes = PlayedNodes::at(alloc, ports)?;
        nodes.add(Who::Rival, rival)?;
        nodes.add(Who::Sentinel, played)?;
        nodes.add(Who::Master, master)?;
        nodes.add(Who::Replica, replica)?;
        Ok(nodes)
    }
}

/// Nodes that are played, and where they and the Sentinel that watches are.
fn listening_nodes<R>(rt: &R, alloc: Global) -> Result<(PlayedNodes, Ports), Fail>
where
    R: Net<Stream = TcpStream, Listener = TcpListener>,
{
    let heard = Heard::open(rt)?;
    let ports = heard.ports(free_port(rt)?)?;
    Ok((heard.nodes(alloc, ports)?, ports))
}

/// What is beside a Sentinel: where all are, how far the play is, and what its file was told.
#[derive(Drop)]
struct Scene {
    alloc: Global,
    ports: Ports,
    play: Arc<Play>,
    told: Arc<Told>,
}

/// The clients of a Sentinel that is open at its port.
fn clients_of<R: Net<Stream = TcpStream>>(rt: &R, scene: &Scene) -> io::Result<Clients<TcpStream>> {
    Ok(Clients {
        alloc: scene.alloc,
        ports: scene.ports,
        client: client_at(rt, scene.ports.own)?,
        listener: client_at(rt, scene.ports.own)?,
        told: Arc::try_clone(&scene.told)?,
    })
}

/// Runs a Sentinel that is open, beside its clients: how it ended, and what they saw.
fn run_in<S, R>(rt: &R, scene: Scene, watch: Watch<S>) -> Result<(Ended, Seen), Fail>
where
    S: ConfStore + Drop + Send,
    R: Threads + Wait + Net<Stream = TcpStream> + Clock + ReadsTimes + Log,
    R: Sync + Copy + Drop + Send + 'static,
{
    let clients = clients_of(rt, &scene)?;
    match begin_talk(rt, clients, scene.play) {
        Some(talks) => {
            let ended = run_open(rt, watch);
            Ok((ended, talks.join(rt)?))
        }
        None => Err(Fail::from("no thread")),
    }
}

#[test]
fn a_watch_is_elected_and_tells_so(rt: HostRuntime) -> Result<(), Fail> {
    let alloc = rt.alloc();
    let (nodes, ports) = listening_nodes(&rt, alloc)?;
    let play = Arc::new(alloc, Play::new())?;
    let told = Arc::new(alloc, Told::new())?;
    assert!(rt;
        begin_play(&rt, nodes, Arc::try_clone(&play)?),
        "a thread of the nodes"
    );
    let scene = Scene {
        alloc,
        ports,
        play: Arc::try_clone(&play)?,
        told: Arc::try_clone(&told)?,
    };
    let (ended, seen) = match opened(&rt, alloc, ports, &told) {
        Some(watch) => run_in(&rt, scene, watch)?,
        None => return Err(Fail::from("no Sentinel")),
    };
    assert_eq!(rt; seen, WANTED);
    assert_eq!(rt; ended, (true, Err(GroupFault::Halted)));
    assert_eq!(rt; play.hellos.load(Ordering::SeqCst), ALL_HELLOS);
    assert!(rt;
        play.ordered.load(Ordering::SeqCst) > 0,
        "the replica's order"
    );
    Ok(())
}
