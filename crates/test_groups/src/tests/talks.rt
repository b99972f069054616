//! The Sentinels of a group talk to each other and to the data nodes.

ghost use Rattle.std.specs.Prelude.{◌≡◌, All, IfSome};

use crate::tests::clients::{MASTER, REPLICAS, SENTINELS, connected, waits_for};
use crate::tests::confs::{Paired, both_of, free_port};
use crate::tests::told_files::{Told, ToldFile, wait_for};
use client_port::ReadsTimes;
use log::Log;
use sentinel_conf::Conf;
use sentinel_runner::{Group, GroupFault, run_group};
use std::alloc::Global;
use std::io::{self, Read, Write};
use std::net::Net;
use std::rt::Clock;
use std::sync::Wait;
use std::sync::atomic::{AtomicU64, Ordering};
use std::test::Fail;
use std::thread::{self, Threads};

/// What was seen of a group.
#[derive(Clone, Copy, Debug, PartialEq, Eq)]
struct Seen {
    /// The first Sentinel's file got an epoch that only a hello brings.
    heard: bool,
    /// The second one's got a vote that only a question brings.
    asked: bool,
    /// Of Sentinels, the master and replicas: a node was down, and wasn't later.
    replied: (bool, bool, bool),
}

/// Waits until a node is down, and then until it isn't.
fn comes_back<R: Clock, T: Read + Write>(
    rt: &R,
    stream: &mut T,
    command: &[u8],
) -> io::Result<bool> {
    Ok(
        waits_for(rt, stream, command, "s_down", true)?
            && waits_for(rt, stream, command, "s_down", false)?,
    )
}

/// Looks at a group by the files of its Sentinels, and by a client of the first one.
fn look<R: Clock, T: Read + Write>(
    rt: &R,
    stream: &mut T,
    first: &Told,
    second: &Told,
) -> io::Result<Seen> {
    Ok(Seen {
        heard: wait_for(rt, &first.current, 5),
        asked: wait_for(rt, &second.voted, 5),
        replied: (
            comes_back(rt, stream, SENTINELS)?,
            comes_back(rt, stream, MASTER)?,
            comes_back(rt, stream, REPLICAS)?,
        ),
    })
}

/// Runs a group while it is looked at.
fn look_beside<
    'a,
    R: Threads + Wait + Clock + ReadsTimes + Log + Sync,
    T: Read + Write + Drop + Send,
>(
    rt: &'a R,
    group: Group<ToldFile<'a, R>>,
    mut stream: T,
    first: &'a Told,
    second: &'a Told,
) -> (io::Result<Seen>, Result<(), GroupFault>) {
    let ending = AtomicU64::new(0);
    thread::join(
        rt,
        || {
            let seen = look(rt, &mut stream, first, second);
            ending.store(1, Ordering::SeqCst);
            seen
        },
        || group.run(rt, &ending),
    )
}

/// The files of two Sentinels.
fn files<'a, R: Clock>(
    alloc: Global,
    first: &'a Told,
    second: &'a Told,
) -> Option<Vec<ToldFile<'a, R>>>
    ensures { IfSome result (λ files. All (λ file. file.file.failed ≡ 0) files.items) }
{
    let mut files = Vec::new(alloc);
    files
        .push(ToldFile::telling(alloc, first, None).ok()?)
        .ok()?;
    files
        .push(ToldFile::telling(alloc, second, None).ok()?)
        .ok()?;
    Some(files)
}

#[test]
fn group_talks(rt: HostRuntime) -> Result<(), Fail> {
    let alloc = rt.alloc();
    let (port, other_port) = (free_port(&rt)?, free_port(&rt)?);
    let one = Paired::at((port, other_port), 50);
    let other = Paired {
        after_ms: 4_294_967_295,
        epoch: 5,
        ..one.counterpart()
    };
    let confs = both_of(alloc, one, other).ok_or("no confs")?;
    let (first, second) = (Told::new(), Told::new());
    let stores = files(alloc, &first, &second).ok_or("no files")?;
    let Ok(group) = Group::open(&rt, alloc, confs, stores) else {
        return Err(Fail::from("no group"));
    };
    let stream = connected(&rt, port)?;
    let (seen, ended) = look_beside(&rt, group, stream, &first, &second);
    let wanted = Seen {
        heard: true,
        asked: true,
        replied: (true, true, true),
    };
    assert_eq!(rt; seen?, wanted);
    assert_eq!(rt; ended, Ok(()));
    Ok(())
}

/// What a group is run with: its confs, and files of which none has refused a store.
#[derive(Drop)]
struct Given<'a, C: Clock> {
    confs: Vec<Conf>,
    stores: Vec<ToldFile<'a, C>>,
    ghost sound: { All (λ store. store.file.failed ≡ 0) stores.items },
}

impl<'a, C: Clock + Sync> Given<'a, C> {
    /// Runs the group from its opening to its end.
    fn run<R: Threads + Wait + Net + Clock + ReadsTimes + Log + Sync>(
        self,
        rt: &R,
        alloc: Global,
        ending: &AtomicU64,
    ) -> Result<(), GroupFault> {
        let Given { confs, stores } = self;
        run_group(rt, alloc, confs, stores, ending)
    }
}

/// Runs a group while its files are looked at, which end it: whether a hello was heard and a question asked, and how
/// the group ended.
fn run_beside<'a, R: Threads + Wait + Net + Clock + ReadsTimes + Log + Sync>(
    rt: &'a R,
    alloc: Global,
    given: Given<'a, R>,
    first: &'a Told,
    second: &'a Told,
) -> (bool, Result<(), GroupFault>) {
    let ending = AtomicU64::new(0);
    thread::join(
        rt,
        || {
            let talked = wait_for(rt, &first.current, 5) && wait_for(rt, &second.voted, 5);
            ending.store(1, Ordering::SeqCst);
            talked
        },
        || given.run(rt, alloc, &ending),
    )
}

#[test]
fn run_group_talks(rt: HostRuntime) -> Result<(), Fail> {
    let alloc = rt.alloc();
    let one = Paired::at((free_port(&rt)?, free_port(&rt)?), 50);
    let other = Paired {
        after_ms: 4_294_967_295,
        epoch: 5,
        ..one.counterpart()
    };
    let confs = both_of(alloc, one, other).ok_or("no confs")?;
    let (first, second) = (Told::new(), Told::new());
    let stores: Vec<ToldFile<'_, HostRuntime>> = files(alloc, &first, &second).ok_or("no files")?;
    let given = Given { confs, stores };
    let (talked, ended) = run_beside(&rt, alloc, given, &first, &second);
    assert!(rt; talked, "a hello and a question were heard");
    assert_eq!(rt; ended, Ok(()));
    Ok(())
}
