//! What the rows of a Sentinel's answers say.

use crate::infos_read::tilt_of;
use crate::said::{MasterSaid, PeerSaid, Quorum, ReplicaSaid, SentinelSaid, Trouble, Unsaid};
use ballot_law::{Addr, Name, is_same_bytes};
use resp2::{Value, word_of};
use std::alloc::Global;
use tokens::{address_of, number_of, run_id_of, split_at_byte};

/// What is told where an answer can't be read.
const UNREAD: Unsaid = Unsaid::Trouble(Trouble::Garbage);

/// The items of an array.
fn items_of(value: &Value) -> Result<&[Value], Unsaid> {
    match value {
        Value::Items(items) => Ok(items.as_slice()),
        _ => Err(UNREAD),
    }
}

/// The value behind the field's name in a row; nothing where the field isn't there.
fn field<'a>(row: &'a [Value], name: &[u8]) -> &'a [u8] {
    let mut rest = row;
    while let [key, value, more @ ..] = rest {
        if is_same_bytes(word_of(key), name) {
            return word_of(value);
        }
        rest = more;
    }
    &[]
}

/// Whether the row's flags have this word.
fn has_flag(row: &[Value], word: &[u8]) -> bool {
    let mut rest = field(row, b"flags");
    while let Some((first, more)) = split_at_byte(rest, b',') {
        if is_same_bytes(first, word) {
            return true;
        }
        rest = more;
    }
    is_same_bytes(rest, word)
}

/// The address of a row.
fn row_addr(row: &[Value]) -> Result<Addr, Unsaid> {
    match address_of(field(row, b"ip"), field(row, b"port")) {
        Some(addr) => Ok(addr),
        None => Err(UNREAD),
    }
}

/// The number in a field of a row, or 0.
fn row_number(row: &[Value], name: &[u8]) -> u64 {
    number_of(field(row, name), 0, u64::MAX).unwrap_or(0)
}

/// The name of a master's row.
pub(crate) fn row_name(row: &Value) -> Result<Name, Unsaid> {
    match Name::from_slice(field(items_of(row)?, b"name")) {
        Some(name) => Ok(name),
        None => Err(UNREAD),
    }
}

/// What a Sentinel says of its replicas.
fn replicas_said(alloc: Global, rows: &Value) -> Result<Vec<ReplicaSaid>, Unsaid> {
    let mut replicas = Vec::new(alloc);
    for row in items_of(rows)? {
        let row = items_of(row)?;
        let down = has_flag(row, b"s_down");
        replicas.push(ReplicaSaid {
            addr: row_addr(row)?,
            down,
        })?;
    }
    Ok(replicas)
}

/// What a Sentinel says of the others.
fn peers_said(alloc: Global, rows: &Value) -> Result<Vec<PeerSaid>, Unsaid> {
    let mut peers = Vec::new(alloc);
    for row in items_of(rows)? {
        let row = items_of(row)?;
        let Some(id) = run_id_of(field(row, b"runid")) else {
            return Err(UNREAD);
        };
        peers.push(PeerSaid {
            id,
            addr: row_addr(row)?,
            down: has_flag(row, b"s_down"),
            vote: run_id_of(field(row, b"voted-leader")),
            vote_epoch: row_number(row, b"voted-leader-epoch"),
        })?;
    }
    Ok(peers)
}

/// What the answer to CKQUORUM says: how many are usable is its first number.
fn quorum_said(answer: &Value) -> Quorum {
    let (reached, text): (bool, &[u8]) = match answer {
        Value::Simple(text) => (true, text.as_slice()),
        Value::Fault(text) => (false, text.as_slice()),
        _ => (false, &[]),
    };
    let usable = match split_at_byte(text, b' ') {
        Some((_, rest)) => split_at_byte(rest, b' ').map_or(0, |(number, _)| {
            number_of(number, 0, u64::MAX).unwrap_or(0)
        }),
        None => 0,
    };
    Quorum { reached, usable }
}

/// What a Sentinel says of a master: its row, its replicas, the other Sentinels and the quorum.
fn master_said(alloc: Global, row: &Value, answers: [&Value; 3]) -> Result<MasterSaid, Unsaid> {
    let [replicas, sentinels, quorum] = answers;
    let name = row_name(row)?;
    let row = items_of(row)?;
    Ok(MasterSaid {
        name,
        addr: row_addr(row)?,
        epoch: row_number(row, b"config-epoch"),
        down: has_flag(row, b"s_down"),
        objectively: has_flag(row, b"o_down"),
        fails_over: has_flag(row, b"failover_in_progress"),
        quorum: quorum_said(quorum),
        replicas: replicas_said(alloc, replicas)?,
        sentinels: peers_said(alloc, sentinels)?,
    })
}

/// What a Sentinel said by its answers to MYID, INFO and MASTERS, and then for each master to REPLICAS, SENTINELS and
/// CKQUORUM.
pub(crate) fn sentinel_said(alloc: Global, answers: &[Value]) -> Result<SentinelSaid, Unsaid> {
    let [id, info, rows, more @ ..] = answers else {
        return Err(UNREAD);
    };
    let Some(id) = run_id_of(word_of(id)) else {
        return Err(Unsaid::Trouble(Trouble::NoSentinel));
    };
    let mut masters = Vec::new(alloc);
    let mut rest = more;
    for row in items_of(rows)? {
        let [replicas, sentinels, quorum, later @ ..] = rest else {
            return Err(UNREAD);
        };
        masters.push(master_said(alloc, row, [replicas, sentinels, quorum])?)?;
        rest = later;
    }
    Ok(SentinelSaid {
        id,
        tilt: tilt_of(info),
        masters,
    })
}

/// The names of the masters of which a Sentinel's answer to MASTERS tells.
pub(crate) fn names_told(alloc: Global, rows: &Value) -> Result<Vec<Name>, Unsaid> {
    let mut names = Vec::new(alloc);
    for row in items_of(rows)? {
        names.push(row_name(row)?)?;
    }
    Ok(names)
}
