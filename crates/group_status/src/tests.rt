//! Tests of the conversation, the findings and the texts, over bytes as nodes send them.

use crate::group::{GroupFacts, NodeFacts, SentinelFacts};
use crate::infos_read::node_said;
use crate::rows::sentinel_said;
use crate::said::{NodeSaid, SentinelSaid, Trouble, Unsaid};
use crate::status::Status;
use crate::talks::Talk;
use crate::targets::Credentials;
use ballot_law::{Addr, Name, NoMemory, RunId};
use resp2::{OutText, push_bulk, push_line, push_words};
use std::alloc::Global;
use std::test::Fail;

/// The replication section of a replica's INFO, as Redis 7.0.15 sent it, with lines of others around it.
const REPLICA_INFO: &[u8] = b"# Persistence\r\nloading:0\r\nasync_loading:0\r\n\r\n\
# Replication\r\nrole:slave\r\nmaster_host:10.0.0.1\r\nmaster_port:6379\r\nmaster_link_status:up\r\n\
master_last_io_seconds_ago:0\r\nmaster_sync_in_progress:0\r\nslave_read_repl_offset:2788\r\n\
slave_repl_offset:2788\r\nslave_priority:100\r\nslave_read_only:1\r\nreplica_announced:1\r\n\
connected_slaves:0\r\nmaster_failover_state:no-failover\r\nmaster_repl_offset:2788\r\n\r\n# CPU\r\n";

/// That of its master.
const MASTER_INFO: &[u8] =
    b"# Persistence\r\nloading:0\r\n\r\n# Replication\r\nrole:master\r\nconnected_slaves:1\r\n\
slave0:ip=10.0.0.2,port=6379,state=online,offset=2788,lag=0\r\nmaster_failover_state:no-failover\r\n\
master_repl_offset:3000\r\nsecond_repl_offset:-1\r\n";

const FIRST_ID: &[u8] = b"aaaaaaaaaaaaaaaaaaaaaaaaaaaaaaaaaaaaaaaa";

const SECOND_ID: &[u8] = b"bbbbbbbbbbbbbbbbbbbbbbbbbbbbbbbbbbbbbbbb";

/// What a Sentinel of a group of two says: its own run id and ip, those of the other one, and what tests change.
#[derive(Clone, Copy)]
struct Says<'a> {
    id: &'a [u8],
    other: (&'a [u8], &'a [u8]),
    tilt: &'a [u8],
    flags: &'a [u8],
    epoch: &'a [u8],
    other_flags: &'a [u8],
    quorum: &'a [u8],
}

/// What the first Sentinel says where all is well.
const FIRST: Says<'static> = Says {
    id: FIRST_ID,
    other: (SECOND_ID, b"10.0.0.2"),
    tilt: b"sentinel_masters:1\r\nsentinel_tilt:0\r\n",
    flags: b"master",
    epoch: b"7",
    other_flags: b"sentinel",
    quorum: b"+OK 2 usable Sentinels. Quorum and failover authorization can be reached",
};

/// What the second one says.
const SECOND: Says<'static> = Says {
    id: SECOND_ID,
    other: (FIRST_ID, b"10.0.0.1"),
    ..FIRST
};

/// Adds an array of one row.
fn add_row(text: &mut OutText, row: &[&[u8]]) -> Result<(), NoMemory> {
    push_line(text, b"*1")?;
    push_words(text, row)
}

/// Its answers to the first three questions.
fn first_answers(alloc: Global, says: Says<'_>) -> Result<OutText, NoMemory> {
    let mut text = OutText::new(alloc);
    push_bulk(&mut text, says.id)?;
    push_bulk(&mut text, says.tilt)?;
    let (flags, epoch): (&[u8], &[u8]) = (says.flags, says.epoch);
    add_row(
        &mut text,
        &[
            b"name",
            b"mymaster",
            b"ip",
            b"10.0.0.1",
            b"port",
            b"6379",
            b"flags",
            flags,
            b"config-epoch",
            epoch,
        ],
    )?;
    Ok(text)
}

/// Its answers about the master.
fn later_answers(alloc: Global, says: Says<'_>) -> Result<OutText, NoMemory> {
    let mut text = OutText::new(alloc);
    add_row(
        &mut text,
        &[
            b"name",
            b"10.0.0.2:6379",
            b"ip",
            b"10.0.0.2",
            b"port",
            b"6379",
            b"flags",
            b"slave",
        ],
    )?;
    let (id, ip) = says.other;
    add_row(
        &mut text,
        &[
            b"name",
            id,
            b"ip",
            ip,
            b"port",
            b"26379",
            b"runid",
            id,
            b"flags",
            says.other_flags,
            b"voted-leader",
            FIRST_ID,
            b"voted-leader-epoch",
            b"7",
        ],
    )?;
    push_line(&mut text, says.quorum)?;
    Ok(text)
}

/// No login.
fn nobody(alloc: Global) -> Result<Credentials, NoMemory> {
    Credentials::of(alloc, b"", b"")
}

/// Has a conversation hear these bytes, a few at a time.
fn hear_all(talk: &mut Talk, bytes: &[u8]) -> Result<(), NoMemory> {
    for piece in bytes.chunks(7) {
        talk.hear(piece)?;
    }
    Ok(())
}

/// What a Sentinel said that says this.
fn heard(alloc: Global, says: Says<'_>) -> Result<SentinelSaid, Unsaid> {
    let mut talk = Talk::with_sentinel(alloc, &nobody(alloc)?)?;
    hear_all(&mut talk, first_answers(alloc, says)?.as_slice())?;
    hear_all(&mut talk, later_answers(alloc, says)?.as_slice())?;
    sentinel_said(alloc, talk.answers()?)
}

/// What a data node said by this INFO.
fn info_heard(alloc: Global, info: &[u8]) -> Result<NodeSaid, Unsaid> {
    let mut text = OutText::new(alloc);
    push_bulk(&mut text, info)?;
    let mut talk = Talk::with_data_node(alloc, &nobody(alloc)?)?;
    hear_all(&mut talk, text.as_slice())?;
    node_said(talk.answers()?)
}

/// Why nothing is taken of a node that sends these bytes.
fn refused(alloc: Global, bytes: &[u8]) -> Result<Option<Trouble>, NoMemory> {
    let mut talk = Talk::with_sentinel(alloc, &nobody(alloc)?)?;
    hear_all(&mut talk, bytes)?;
    match talk.answers() {
        Err(Unsaid::Trouble(trouble)) => Ok(Some(trouble)),
        _ => Ok(None),
    }
}

/// An address of the test's network.
fn at(host: u32, port: u16) -> Addr {
    Addr {
        ip: 167_772_160 + host % 256,
        port,
    }
}

/// The run id of forty equal digits.
fn id_of(digit: u32) -> RunId {
    let lo = digit % 16 * 0x1111_1111;
    let wide = u128::from(lo);
    let half = wide << 32 | wide;
    RunId {
        hi: half << 64 | half,
        lo,
    }
}

/// A group of two Sentinels that say this, a master and a replica.
fn group_of(
    alloc: Global,
    said: [Result<SentinelSaid, Trouble>; 2],
    nodes: [Result<NodeSaid, Trouble>; 2],
) -> Result<GroupFacts, Fail> {
    let master = Name::from_slice(b"mymaster").ok_or("no name")?;
    let [first, second] = said;
    let [leads, follows] = nodes;
    let first = SentinelFacts {
        addr: at(1, 26379),
        known_id: Some(id_of(10)),
        said: first,
    };
    let second = SentinelFacts {
        addr: at(2, 26379),
        known_id: Some(id_of(11)),
        said: second,
    };
    let leads = NodeFacts {
        addr: at(1, 6379),
        master,
        said: leads,
    };
    let follows = NodeFacts {
        addr: at(2, 6379),
        master,
        said: follows,
    };
    Ok(GroupFacts {
        masters: vec![in alloc; master]?,
        sentinels: vec![in alloc; first, second]?,
        nodes: vec![in alloc; leads, follows]?,
        left_out: 0,
    })
}

/// What is told of the group in which the second Sentinel says this, and the data nodes send these INFOs.
fn told(rt: HostRuntime, says: Says<'_>, infos: [&[u8]; 2]) -> Result<Status, Fail> {
    let alloc = rt.alloc();
    let first = heard(alloc, FIRST).map_err(|_| "the first Sentinel is unread")?;
    let second = heard(alloc, says).map_err(|_| "the second Sentinel is unread")?;
    let [leads, follows] = infos;
    let leads = info_heard(alloc, leads).map_err(|_| "the master is unread")?;
    let follows = info_heard(alloc, follows).map_err(|_| "the replica is unread")?;
    let group = group_of(alloc, [Ok(first), Ok(second)], [Ok(leads), Ok(follows)])?;
    Ok(Status::of(alloc, group).map_err(|_| "no memory")?)
}

/// The sentences of what isn't well, each on a line.
fn sentences(rt: HostRuntime, status: &Status) -> Result<String, Fail> {
    let mut text = String::new(rt.alloc());
    for finding in &status.findings {
        let finding = *finding;
        let line = format!(in rt.alloc(); "{finding}\n")?;
        text.push_str(line.as_str())?;
    }
    Ok(text)
}

#[test]
fn a_healthy_group_is_well(rt: HostRuntime) -> Result<(), Fail> {
    let status = told(rt, SECOND, [MASTER_INFO, REPLICA_INFO])?;
    assert_eq!(rt; sentences(rt, &status)?.as_str(), "");
    assert!(rt; status.is_well());
    let page = status.page(rt.alloc()).map_err(|_| "no page")?;
    assert_eq!(rt;
        page.as_str(),
        "\
mymaster  10.0.0.1:6379 since epoch 7
  Sentinel               epoch   tells                  finds   last vote                 usable
  10.0.0.1:26379         7       10.0.0.1:6379          up      7 10.0.0.1:26379          2
  10.0.0.2:26379         7       10.0.0.1:6379          up      7 10.0.0.1:26379          2
  data node              role      link    lag, bytes    priority  listed by
  10.0.0.1:6379          master    -       -             100       -
  10.0.0.2:6379          replica   up      212           100       2 of 2

well
"
    );
    Ok(())
}

#[test]
fn the_object_has_all_facts(rt: HostRuntime) -> Result<(), Fail> {
    let status = told(rt, SECOND, [MASTER_INFO, REPLICA_INFO])?;
    let json = status.json(rt.alloc()).map_err(|_| "no object")?;
    for wanted in [
        r#"{"well":true,"masters":[{"name":"mymaster","address":"10.0.0.1:6379","epoch":7}],"#,
        r#""sentinels":[{"address":"10.0.0.1:26379","run_id":"aaaaaaaaaaaaaaaaaaaaaaaaaaaaaaaaaaaaaaaa","#,
        r#""failover":false,"quorum":true,"usable":2,"replicas":[{"address":"10.0.0.2:6379","s_down":false}],"#,
        r#""priority":100,"offset":2788,"follows":"10.0.0.1:6379","lag":212,"listed_by":2,"told_by":2}],"#,
        r#""findings":[]}"#,
    ] {
        assert!(rt; json.as_str().contains(wanted));
    }
    Ok(())
}

#[test]
fn what_a_sentinel_tells_is_found(rt: HostRuntime) -> Result<(), Fail> {
    let says = Says {
        tilt: b"sentinel_tilt:1\r\n",
        flags: b"s_down,o_down,master,failover_in_progress",
        epoch: b"6",
        other_flags: b"s_down,sentinel,disconnected",
        quorum: b"-NOQUORUM 1 usable Sentinels. Not enough available Sentinels to reach the majority",
        ..SECOND
    };
    let status = told(rt, says, [MASTER_INFO, REPLICA_INFO])?;
    assert!(rt; !status.is_well());
    assert_eq!(rt;
        sentences(rt, &status)?.as_str(),
        "\
Sentinel 10.0.0.2:26379 is in TILT and begins nothing for 30 s: see its machine, whose clock jumped or that stood still
Sentinel 10.0.0.2:26379 tells epoch 6 of mymaster, and the newest is 7: it hears no hello, so see its links to \
the data nodes and its rights there
Sentinel 10.0.0.2:26379 finds the master of mymaster down with enough others (o_down): a failover comes, if a \
majority and a replica are up
Sentinel 10.0.0.2:26379 runs a failover of mymaster: wait until it ends
Sentinel 10.0.0.2:26379 counts 1 usable Sentinels for mymaster, too few for a failover: start the others, see \
the network and the ports' passwords
Sentinel 10.0.0.2:26379 finds Sentinel 10.0.0.1:26379 down for mymaster, which answers here: see the network \
and the ports' passwords between the two
"
    );
    Ok(())
}

#[test]
fn what_data_nodes_say_is_found(rt: HostRuntime) -> Result<(), Fail> {
    let lost =
        b"role:slave\r\nmaster_host:10.0.0.9\r\nmaster_port:6379\r\nmaster_link_status:down\r\n\
master_link_down_since_seconds:12\r\nslave_priority:0\r\n";
    let status = told(
        rt,
        SECOND,
        [
            b"loading:1\r\nrole:slave\r\nmaster_link_status:up\r\n",
            lost,
        ],
    )?;
    assert_eq!(rt;
        sentences(rt, &status)?.as_str(),
        "\
10.0.0.1:6379 of mymaster loads its data: wait, no Sentinel takes it for up before it is done
the master 10.0.0.1:6379 of mymaster calls itself a replica: if this lasts for 10 s, ask a Sentinel for \
SENTINEL FAILOVER mymaster
the replica 10.0.0.2:6379 of mymaster has had no link to its master for 12 s: see its `masterauth` and its log
the replica 10.0.0.2:6379 of mymaster follows 10.0.0.9:6379, and not 10.0.0.1:6379: Sentinels that list it \
correct it within some 10 s, if they may
each replica of mymaster has priority 0, so nobody can take over: CONFIG SET replica-priority 100 at one
"
    );
    Ok(())
}

#[test]
fn nodes_that_say_nothing_are_found(rt: HostRuntime) -> Result<(), Fail> {
    let alloc = rt.alloc();
    let first = heard(alloc, FIRST).map_err(|_| "the first Sentinel is unread")?;
    let leads = info_heard(alloc, MASTER_INFO).map_err(|_| "the master is unread")?;
    let silent = [Ok(first), Err(Trouble::Silent)];
    let group = group_of(alloc, silent, [Ok(leads), Err(Trouble::WrongPassword)])?;
    let status = Status::of(alloc, group).map_err(|_| "no memory")?;
    assert_eq!(rt;
        sentences(rt, &status)?.as_str(),
        "\
Sentinel 10.0.0.2:26379 didn't answer within two seconds: see its machine and its journal
the replica 10.0.0.2:6379 of mymaster refuses the login: write its password (`sentinel auth-pass`, `auth-user`) \
into all files
"
    );
    Ok(())
}

#[test]
fn refusals_are_told_apart(rt: HostRuntime) -> Result<(), Fail> {
    for (bytes, why) in [
        (
            b"-NOAUTH Authentication required.\r\n".as_slice(),
            Trouble::WantsPassword,
        ),
        (
            b"-WRONGPASS invalid username-password pair\r\n".as_slice(),
            Trouble::WrongPassword,
        ),
        (
            b"-DENIED Redis is running in protected mode\r\n".as_slice(),
            Trouble::Protected,
        ),
        (
            b"-ERR max number of clients reached\r\n".as_slice(),
            Trouble::Full,
        ),
        (b"HTTP/1.1 400 Bad Request\r\n".as_slice(), Trouble::Garbage),
    ] {
        let found = refused(rt.alloc(), bytes).map_err(|_| "no memory")?;
        assert!(rt; found == Some(why));
    }
    Ok(())
}

#[test]
fn a_login_goes_first(rt: HostRuntime) -> Result<(), Fail> {
    let alloc = rt.alloc();
    let login = Credentials::of(alloc, b"watcher", b"secret").map_err(|_| "no memory")?;
    let mut talk = Talk::with_data_node(alloc, &login).map_err(|_| "no memory")?;
    let wanted = b"*3\r\n$4\r\nAUTH\r\n$7\r\nwatcher\r\n$6\r\nsecret\r\n*1\r\n$4\r\nINFO\r\n";
    assert!(rt; talk.unsent() == wanted.as_slice());
    talk.sent(wanted.len());
    assert!(rt; talk.unsent().is_empty());
    let answers =
        b"-ERR AUTH <password> called without any password configured\r\n$13\r\nrole:master\r\n\r\n";
    hear_all(&mut talk, answers).map_err(|_| "no memory")?;
    assert!(rt; talk.is_over() && talk.answers().is_ok());
    Ok(())
}
