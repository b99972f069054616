//! What a client of a port is answered.

ghost use Rattle.std.specs.Prelude.{◌≡◌, All, IfSome};

use crate::tests::clients::{ADDRESS, ADDRESS_AND_FAULT, connected};
use crate::tests::confs::{free_port, text_of_one};
use client_port::ReadsTimes;
use log::Log;
use sentinel_conf::{Conf, MemoryStore, read};
use sentinel_rules::Profile;
use sentinel_runner::{Group, GroupFault, PortSettings};
use std::alloc::Global;
use std::io::{self, Read, Write};
use std::rt::Clock;
use std::sync::Wait;
use std::sync::atomic::{AtomicU64, Ordering};
use std::test::Fail;
use std::thread::{self, Threads};

/// Asks for the address, in two pieces, and once that has come sends an array that is too long; all that is answered,
/// to the end of the connection.
fn talk<T: Read + Write>(alloc: Global, stream: &mut T) -> io::Result<Vec<u8>> {
    let mut got = Vec::new(alloc);
    stream.write_all(&ADDRESS[..20])?;
    stream.flush()?;
    stream.write_all(&ADDRESS[20..])?;
    let mut address = [0u8; 29];
    stream.read_exact(&mut address)?;
    got.extend_from_slice(&address)?;
    stream.write_all(b"*1025\r\n")?;
    stream.read_to_end(&mut got)?;
    Ok(got)
}

/// Runs a group beside a client: what the client got, and how the group ended.
fn beside<R: Threads + Wait + Clock + ReadsTimes + Log + Sync, T: Read + Write + Drop + Send>(
    rt: &R,
    alloc: Global,
    group: Group<MemoryStore>,
    mut stream: T,
) -> (io::Result<Vec<u8>>, Result<(), GroupFault>) {
    let ending = AtomicU64::new(0);
    thread::join(
        rt,
        || {
            let got = talk(alloc, &mut stream);
            ending.store(1, Ordering::SeqCst);
            got
        },
        || group.run(rt, &ending),
    )
}

/// The conf of one Sentinel, and its store.
fn one(alloc: Global, text: &str) -> Option<(Vec<Conf>, Vec<MemoryStore>)>
    ensures { IfSome result (λ r. All (λ store. store.failed ≡ 0) r.1.items) }
{
    let conf = read(alloc, text.as_bytes()).ok()?;
    let confs = vec![in alloc; conf].ok()?;
    let store = MemoryStore::holding(alloc, text.as_bytes()).ok()?;
    let mut stores = Vec::new(alloc);
    stores.push(store).ok()?;
    Some((confs, stores))
}

#[test]
fn an_address_and_a_protocol_error(rt: HostRuntime) -> Result<(), Fail> {
    let alloc = rt.alloc();
    let port = free_port(&rt)?;
    let text = text_of_one(alloc, port)?;
    let (confs, stores) = one(alloc, text.as_str()).ok_or("no conf")?;
    let Ok(group) = Group::open(&rt, alloc, confs, stores) else {
        return Err(Fail::from("no group"));
    };
    let stream = connected(&rt, port)?;
    let (got, ended) = beside(&rt, alloc, group, stream);
    let got = got?;
    assert_eq!(rt; got.as_slice(), ADDRESS_AND_FAULT.as_slice());
    assert_eq!(rt; ended, Ok(()));
    Ok(())
}

/// Runs a group beside two clients, of which one talks after the other: what they got, and how the group ended.
fn beside_two<R: Threads + Wait + Clock + ReadsTimes + Log + Sync, T: Read + Write + Drop + Send>(
    rt: &R,
    alloc: Global,
    group: Group<MemoryStore>,
    mut first: T,
    mut second: T,
) -> (io::Result<(Vec<u8>, Vec<u8>)>, Result<(), GroupFault>) {
    let ending = AtomicU64::new(0);
    thread::join(
        rt,
        || {
            let got = talk_by_both(alloc, &mut first, &mut second);
            ending.store(1, Ordering::SeqCst);
            got
        },
        || group.run(rt, &ending),
    )
}

/// Talks on both connections.
fn talk_by_both<T: Read + Write>(
    alloc: Global,
    first: &mut T,
    second: &mut T,
) -> io::Result<(Vec<u8>, Vec<u8>)> {
    Ok((talk(alloc, first)?, talk(alloc, second)?))
}

#[test]
fn two_threads_of_a_port_answer(rt: HostRuntime) -> Result<(), Fail> {
    let alloc = rt.alloc();
    let port = free_port(&rt)?;
    let text = text_of_one(alloc, port)?;
    let (confs, stores) = one(alloc, text.as_str()).ok_or("no conf")?;
    let settings = PortSettings {
        threads: 2,
        profile: Profile::Strict,
    };
    let Ok(group) = Group::open_with(&rt, alloc, confs, stores, settings, 0) else {
        return Err(Fail::from("no group"));
    };
    // (each thread has one of the two)
    let (first, second) = (connected(&rt, port)?, connected(&rt, port)?);
    let (got, ended) = beside_two(&rt, alloc, group, first, second);
    let (one, other) = got?;
    assert_eq!(rt; one.as_slice(), ADDRESS_AND_FAULT.as_slice());
    assert_eq!(rt; other.as_slice(), ADDRESS_AND_FAULT.as_slice());
    assert_eq!(rt; ended, Ok(()));
    Ok(())
}
