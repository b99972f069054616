//! Which confs are a group.

ghost use Rattle.std.specs.Prelude.{◌≡◌, All, IfSome};

use crate::tests::confs::{Paired, both_of, free_port, text_of_one};
use client_port::ReadsTimes;
use log::Log;
use sentinel_conf::{Conf, MemoryStore, read};
use sentinel_runner::{GroupFault, run_group};
use std::alloc::Global;
use std::net::Net;
use std::rt::Clock;
use std::sync::Wait;
use std::sync::atomic::AtomicU64;
use std::test::Fail;
use std::thread::Threads;

/// A store in memory that has failed no call.
fn one_store(alloc: Global) -> Option<Vec<MemoryStore>>
    ensures { IfSome result (λ stores. All (λ store. store.failed ≡ 0) stores.items) }
{
    let mut stores = Vec::new(alloc);
    stores.push(MemoryStore::holding(alloc, b"").ok()?).ok()?;
    Some(stores)
}

/// Two of them.
fn two_stores(alloc: Global) -> Option<Vec<MemoryStore>>
    ensures { IfSome result (λ stores. All (λ store. store.failed ≡ 0) stores.items) }
{
    let mut stores = Vec::new(alloc);
    stores.push(MemoryStore::holding(alloc, b"").ok()?).ok()?;
    stores.push(MemoryStore::holding(alloc, b"").ok()?).ok()?;
    Some(stores)
}

/// The confs of a pair with these quorums, at ports that nobody has.
fn pair<R: Net>(rt: &R, alloc: Global, quorums: (u32, u32)) -> Option<Vec<Conf>> {
    let ports = (free_port(rt).ok()?, free_port(rt).ok()?);
    let one = Paired {
        quorum: quorums.0,
        ..Paired::at(ports, 3000)
    };
    let other = Paired {
        quorum: quorums.1,
        ..one.counterpart()
    };
    both_of(alloc, one, other)
}

/// Runs a group that is to end at once.
fn run_to_end<R: Threads + Wait + Net + Clock + ReadsTimes + Log + Sync>(
    rt: &R,
    alloc: Global,
    confs: Vec<Conf>,
    stores: Vec<MemoryStore>,
) -> Result<(), GroupFault>
    requires { All (λ store. store.failed ≡ 0) stores.items }
{
    let ending = AtomicU64::new(1);
    run_group(rt, alloc, confs, stores, &ending)
}

#[test]
fn confs_of_different_quorums_are_no_group(rt: HostRuntime) -> Result<(), Fail> {
    let alloc = rt.alloc();
    let confs = pair(&rt, alloc, (1, 2)).ok_or("no confs")?;
    let stores = two_stores(alloc).ok_or("no stores")?;
    let ended = run_to_end(&rt, alloc, confs, stores);
    assert_eq!(rt; ended, Err(GroupFault::NotOneRoster));
    Ok(())
}

#[test]
fn a_store_too_few_is_no_group(rt: HostRuntime) -> Result<(), Fail> {
    let alloc = rt.alloc();
    let confs = pair(&rt, alloc, (1, 1)).ok_or("no confs")?;
    let stores = one_store(alloc).ok_or("no stores")?;
    let ended = run_to_end(&rt, alloc, confs, stores);
    assert_eq!(rt; ended, Err(GroupFault::NotOneRoster));
    Ok(())
}

#[test]
fn a_group_ends_where_it_is_to_end(rt: HostRuntime) -> Result<(), Fail> {
    let alloc = rt.alloc();
    let text = text_of_one(alloc, free_port(&rt)?)?;
    let conf = read(alloc, text.as_bytes()).map_err(|_| "no conf")?;
    let confs = vec![in alloc; conf]?;
    let stores = one_store(alloc).ok_or("no stores")?;
    assert_eq!(rt; run_to_end(&rt, alloc, confs, stores), Ok(()));
    Ok(())
}
