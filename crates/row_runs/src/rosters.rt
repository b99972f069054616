//! Rosters of a group with one master.

use crate::given::{number_16, number_32};
use crate::told::{Told, Unplayed};
use ballot_law::{Addr, Member, Name, Roster, RosterFault, RunId, Watched};
use std::alloc::Global;

/// A port of this machine.
fn local(port: u16) -> Addr {
    Addr {
        ip: 2_130_706_433,
        port,
    }
}

/// This number of Sentinels, from port 1 on.
fn members(alloc: Global, count: u16) -> Result<Vec<Member>, Unplayed> {
    let mut members = Vec::new(alloc);
    for number in 0..count {
        members.push(Member {
            id: RunId {
                hi: u128::from(number),
                lo: 0,
            },
            addr: local(number.saturating_add(1)),
        })?;
    }
    Ok(members)
}

/// The master `mymaster` of this quorum with nodes at these ports.
fn masters(alloc: Global, quorum: u32, ports: &[Vec<u8>]) -> Result<Vec<Watched>, Unplayed> {
    let mut nodes = Vec::new(alloc);
    for port in ports {
        nodes.push(local(number_16(port)?))?;
    }
    let name = Name::from_slice(b"mymaster").ok_or(Unplayed::WrongWords)?;
    let mut masters = Vec::new(alloc);
    masters.push(Watched::new(name, nodes, quorum))?;
    Ok(masters)
}

/// The roster of three Sentinels that watch `mymaster`, which has three nodes.
pub(crate) fn watching_mymaster(alloc: Global) -> Result<Roster, Unplayed> {
    let mut ports = Vec::new(alloc);
    for port in ["6379", "6380", "6381"] {
        ports.push(Vec::from_slice(alloc, port.as_bytes())?)?;
    }
    let masters = masters(alloc, 2, ports.as_slice())?;
    match Roster::new(alloc, members(alloc, 3)?, masters) {
        Ok(roster) => Ok(roster),
        Err(_) => Err(Unplayed::NoMemory),
    }
}

/// Tells how many votes elect a Sentinel by a copy of this roster.
fn tell_need(alloc: Global, roster: &Roster, told: &mut Told) -> Result<(), Unplayed> {
    let copy = roster.copy(alloc)?;
    if copy.masters().is_empty() {
        return Err(Unplayed::OutOfRange);
    }
    told.number(u64::from(copy.need(0)))
}

/// Tells what comes of a call with these words: how many Sentinels there are, the quorum, and the ports of the nodes.
pub(crate) fn play(
    alloc: Global,
    call: &str,
    words: &[Vec<u8>],
    told: &mut Told,
) -> Result<(), Unplayed> {
    let ("roster", [count, quorum, ports @ ..]) = (call, words) else {
        return Err(Unplayed::NoSuchCall);
    };
    let members = members(alloc, number_16(count)?)?;
    let masters = masters(alloc, number_32(quorum)?, ports)?;
    match Roster::new(alloc, members, masters) {
        Ok(roster) => tell_need(alloc, &roster, told),
        Err(RosterFault::NoMemory) => Err(Unplayed::NoMemory),
        Err(fault) => told.shown(&fault),
    }
}
