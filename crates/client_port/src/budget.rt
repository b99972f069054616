//! How many connections each port of a process keeps, so that descriptors are left for the files that are stored.

ghost use Rattle.std.specs.Prelude.{◌≡◌, ◌≤◌, ◌<◌, ◌+◌, ◌-◌, ◌*◌, ◌⊎◌, IfOk};

use crate::port_room::{CONNECTIONS_MAX, PortRoom, SEATS_MAX};
use mio::Poll;
use std::alloc::Global;
use std::io::{self, ErrorKind};
use std::net::Net;

/// How many descriptors each port needs beside its connections: its readiness, its listener, a connection that is
/// accepted only to be closed, and the file that its Sentinel stores.
const FOR_A_PORT: u64 = 4;

/// How many each further thread of a port needs: its readiness, and what wakes it.
const FOR_A_THREAD: u64 = 2;

/// How many each thread of a port with a limit needs beside that: what wakes it when there is something to tell.
const FOR_NEWS: u64 = 1;

/// How many descriptors are left for all else.
const FOR_THE_REST: u64 = 8;

/// How many descriptors a port of so many threads needs beside its connections.
fn beside(threads: u16) -> u64
    ensures { result ≡ FOR_A_PORT + FOR_A_THREAD * (threads - 1) }
{
    FOR_A_PORT + FOR_A_THREAD * u64::from(threads.saturating_sub(1))
}

/// How many connections each of these ports may keep, where this many descriptors can still be opened: up to `most`,
/// as many as leave those free that the ports and the rest of the process need. 0 where these alone are too many.
fn share_of(descriptors: u64, ports: usize, beside: u64, most: usize) -> usize
    requires { 0 < ports }
    ensures few { result ≤ most }
    ensures fits { 0 < result → (result + beside) * ports + FOR_THE_REST ≤ descriptors }
    ensures most { (result ≡ most) ⊎ (descriptors < (result + 1 + beside) * ports + FOR_THE_REST) }
{
    let each = descriptors.saturating_sub(FOR_THE_REST) / ports as u64;
    each.saturating_sub(beside).min(most as u64) as usize
}

/// How many descriptors of those that are wanted the system gives: so many are opened, and closed again.
fn descriptors_of<N: Net>(net: &N, alloc: Global, wanted: u64) -> io::Result<u64> {
    let poll = Poll::new(net)?;
    let mut opened = Vec::new(alloc);
    for count in 0..wanted {
        match poll.registry().try_clone() {
            Ok(one) => opened.push(one)?,
            Err(_) => return Ok(count),
        }
    }
    Ok(wanted)
}

/// How many connections each of so many ports of this process may keep, and each of the so many threads of a port, at
/// most `CONNECTIONS_MAX` a port, so that all of them together leave descriptors for the files that the group stores.
/// It is asked before the ports are opened, of which there is one at least. The error is the system's, where it gives
/// no descriptor at all; `OutOfMemory` is a refused allocation.
pub fn connections_of_each<N: Net>(
    net: &N,
    alloc: Global,
    ports: usize,
    threads: u16,
) -> io::Result<PortRoom>
    ensures threads { IfOk result (λ room. 0 < threads → room.threads ≡ threads) }
    ensures few { IfOk result (λ room. room.each * room.threads ≤ CONNECTIONS_MAX) }
{
    connections_beside(net, alloc, ports, threads, 0)
}

/// As `connections_of_each`, where so many descriptors are to stay free for connections that the process opens itself.
pub fn connections_beside<N: Net>(
    net: &N,
    alloc: Global,
    ports: usize,
    threads: u16,
    own: u64,
) -> io::Result<PortRoom>
    ensures threads { IfOk result (λ room. 0 < threads → room.threads ≡ threads) }
    ensures few { IfOk result (λ room. room.each * room.threads ≤ CONNECTIONS_MAX) }
{
    room_beside(net, alloc, ports, threads, own, CONNECTIONS_MAX)
}

/// The room of a single port of so many threads that keeps up to `most` connections, where so many descriptors are to
/// stay free for connections that the process opens itself. Where fewer descriptors are left there is room for fewer,
/// or for none. The errors are those of `connections_of_each`.
pub fn seats_beside<N: Net>(
    net: &N,
    alloc: Global,
    threads: u16,
    own: u64,
    most: usize,
) -> io::Result<PortRoom>
    requires { most ≤ SEATS_MAX }
    ensures threads { IfOk result (λ room. 0 < threads → room.threads ≡ threads) }
    ensures few { IfOk result (λ room. room.each * room.threads ≤ most) }
{
    let own = own.saturating_add(u64::from(threads) * FOR_NEWS);
    room_beside(net, alloc, 1, threads, own, most)
}

/// The room of each of so many ports that keeps up to `most` connections, where `own` descriptors are to stay free
/// for others.
fn room_beside<N: Net>(
    net: &N,
    alloc: Global,
    ports: usize,
    threads: u16,
    own: u64,
    most: usize,
) -> io::Result<PortRoom>
    requires { most ≤ SEATS_MAX }
    ensures threads { IfOk result (λ room. 0 < threads → room.threads ≡ threads) }
    ensures few { IfOk result (λ room. room.each * room.threads ≤ most) }
{
    let ports = ports.max(1);
    let beside = beside(threads);
    let wanted = (ports as u64)
        .saturating_mul(most as u64 + beside)
        .saturating_add(FOR_THE_REST)
        .saturating_add(own);
    let left = descriptors_of(net, alloc, wanted)?.saturating_sub(own);
    Ok(PortRoom::of(share_of(left, ports, beside, most), threads))
}
