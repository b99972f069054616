//! A Sentinel answers while another one's store is held.

ghost use Rattle.std.specs.Prelude.{◌≡◌, All, IfSome};

use crate::tests::clients::{connected, vote_of, voted_in};
use crate::tests::confs::{Paired, both_of, free_port};
use crate::tests::told_files::{Told, ToldFile};
use client_port::ReadsTimes;
use log::Log;
use sentinel_runner::{Group, GroupFault};
use std::alloc::Global;
use std::io::{self, Read, Write};
use std::rt::Clock;
use std::sync::Wait;
use std::sync::atomic::{AtomicU64, Ordering};
use std::test::Fail;
use std::thread::{self, Threads};

/// The first epoch of which a vote is asked for, and the one behind the last: a hundred of three digits each.
const EPOCHS: (u64, u64) = (101, 201);

/// Asks the first Sentinel for its vote of an epoch, whose store is held, then the second one, and tells of its answer;
/// what both answered.
fn ask_both<T: Read + Write>(
    one: &mut T,
    other: &mut T,
    ask: &[u8],
    epoch: u64,
    answered: &AtomicU64,
) -> io::Result<([u8; 61], [u8; 61])> {
    let (mut first, mut second) = ([0u8; 61], [0u8; 61]);
    one.write_all(ask)?;
    other.write_all(ask)?;
    other.read_exact(&mut second)?;
    answered.store(epoch, Ordering::SeqCst);
    one.read_exact(&mut first)?;
    Ok((first, second))
}

/// Asks both for their votes of each epoch; how often both gave it.
fn ask_for_each<T: Read + Write>(
    alloc: Global,
    one: &mut T,
    other: &mut T,
    answered: &AtomicU64,
) -> Result<u64, Fail> {
    let mut given: u64 = 0;
    for epoch in EPOCHS.0..EPOCHS.1 {
        let ask = vote_of(alloc, epoch)?;
        let (first, second) = ask_both(one, other, ask.as_bytes(), epoch, answered)?;
        let voted = voted_in(alloc, epoch)?;
        if first.as_slice() == voted.as_bytes() && second.as_slice() == voted.as_bytes() {
            given = given.saturating_add(1);
        }
    }
    Ok(given)
}

/// Runs a group while both are asked.
fn ask_beside<
    'a,
    R: Threads + Wait + Clock + ReadsTimes + Log + Sync,
    T: Read + Write + Drop + Send,
>(
    rt: &'a R,
    alloc: Global,
    group: Group<ToldFile<'a, R>>,
    mut one: T,
    mut other: T,
    answered: &'a AtomicU64,
) -> (Result<u64, Fail>, Result<(), GroupFault>) {
    let ending = AtomicU64::new(0);
    thread::join(
        rt,
        || {
            let given = ask_for_each(alloc, &mut one, &mut other, answered);
            ending.store(1, Ordering::SeqCst);
            given
        },
        || group.run(rt, &ending),
    )
}

/// The files of two Sentinels, the first of which is held until the other one has answered.
fn files<'a, R: Clock>(
    alloc: Global,
    rt: &'a R,
    told: &'a Told,
    answered: &'a AtomicU64,
) -> Option<Vec<ToldFile<'a, R>>>
    ensures { IfSome result (λ files. All (λ file. file.file.failed ≡ 0) files.items) }
{
    let mut files = Vec::new(alloc);
    files
        .push(ToldFile::telling(alloc, told, Some((rt, answered))).ok()?)
        .ok()?;
    files.push(ToldFile::telling(alloc, told, None).ok()?).ok()?;
    Some(files)
}

#[test]
fn store_held_until_other_answers(rt: HostRuntime) -> Result<(), Fail> {
    let alloc = rt.alloc();
    let (port, other_port) = (free_port(&rt)?, free_port(&rt)?);
    let one = Paired::at((port, other_port), 4_294_967_295);
    let confs = both_of(alloc, one, one.counterpart()).ok_or("no confs")?;
    let (told, answered) = (Told::new(), AtomicU64::new(0));
    let stores = files(alloc, &rt, &told, &answered).ok_or("no files")?;
    let Ok(group) = Group::open(&rt, alloc, confs, stores) else {
        return Err(Fail::from("no group"));
    };
    let (one, other) = (connected(&rt, port)?, connected(&rt, other_port)?);
    let (given, ended) = ask_beside(&rt, alloc, group, one, other, &answered);
    assert_eq!(rt; given?, 100);
    assert_eq!(rt; ended, Ok(()));
    Ok(())
}
