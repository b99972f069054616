//! In what two files of a group differ, with what stands on each side, as lines of text.

ghost use Rattle.std.specs.Prelude.{◌≡◌, ◌++◌, ℕ, List, OnOk, OnErr};

use crate::group::NamedConf;
use ballot_law::{Addr, Card, Member, Name, NoMemory, Watched};
use sentinel_conf::{Conf, Settings};
use std::alloc::Global;
use tokens::{add_number, ip_text, run_id_text};

/// Adds words.
fn add(out: &mut Vec<u8>, words: &str) -> Result<(), NoMemory> {
    out.extend_from_slice(words.as_bytes())?;
    Ok(())
}

/// Adds a name.
fn add_name(out: &mut Vec<u8>, name: &Name) -> Result<(), NoMemory> {
    out.extend_from_slice(name.as_slice())?;
    Ok(())
}

/// Adds an address.
fn add_addr(out: &mut Vec<u8>, addr: Addr) -> Result<(), NoMemory> {
    out.extend_from_slice(ip_text(addr.ip).as_slice())?;
    add(out, ":")?;
    add_number(out, u64::from(addr.port))
}

/// Adds the words with which a line of one file begins.
fn begin_alone(out: &mut Vec<u8>, file: &NamedConf) -> Result<(), NoMemory> {
    add(out, "note: ")?;
    add(out, file.name.as_str())?;
    add(out, " alone names ")
}

/// Adds each Sentinel that the one file names and the other doesn't.
fn add_sentinels(out: &mut Vec<u8>, one: &NamedConf, other: &NamedConf) -> Result<(), NoMemory> {
    let others = other.conf.roster().sentinels();
    for member in one.conf.roster().sentinels() {
        if !others.iter().any(|it| it == member) {
            begin_alone(out, one)?;
            add_member(out, member)?;
        }
    }
    Ok(())
}

/// Ends a line with a Sentinel.
fn add_member(out: &mut Vec<u8>, member: &Member) -> Result<(), NoMemory> {
    add(out, "the Sentinel ")?;
    out.extend_from_slice(run_id_text(member.id).as_slice())?;
    add(out, " at ")?;
    add_addr(out, member.addr)?;
    add(out, "\n")
}

/// Adds each data node of a master that the one file names and the other doesn't.
fn add_nodes(
    out: &mut Vec<u8>,
    file: &NamedConf,
    one: &Watched,
    other: &Watched,
) -> Result<(), NoMemory> {
    for addr in one.nodes() {
        if !other.nodes().iter().any(|it| it.is_same(addr)) {
            begin_alone(out, file)?;
            add(out, "the data node ")?;
            add_addr(out, *addr)?;
            add(out, " of ")?;
            add_name(out, &one.name)?;
            add(out, "\n")?;
        }
    }
    Ok(())
}

/// Adds each master that the one file names and the other doesn't.
fn add_masters(out: &mut Vec<u8>, one: &NamedConf, other: &NamedConf) -> Result<(), NoMemory> {
    for master in one.conf.roster().masters() {
        if other.conf.roster().master_named(&master.name).is_none() {
            begin_alone(out, one)?;
            add(out, "the master ")?;
            add_name(out, &master.name)?;
            add(out, "\n")?;
        }
    }
    Ok(())
}

/// Two files.
#[derive(Clone, Copy)]
struct Pair<'a> {
    one: &'a NamedConf,
    other: &'a NamedConf,
}

/// Adds the words with which a line of two files begins.
fn begin(out: &mut Vec<u8>, kind: &str, files: Pair<'_>) -> Result<(), NoMemory> {
    add(out, kind)?;
    add(out, files.one.name.as_str())?;
    add(out, " and ")?;
    add(out, files.other.name.as_str())?;
    add(out, ": ")
}

/// Adds a line of two numbers of a master, that of each file, where they differ.
fn add_numbers(
    out: &mut Vec<u8>,
    kind: &str,
    files: Pair<'_>,
    name: &Name,
    what: &str,
    numbers: (u64, u64),
) -> Result<(), NoMemory> {
    let (one, other) = numbers;
    if one == other {
        return Ok(());
    }
    begin(out, kind, files)?;
    add(out, what)?;
    add(out, " of ")?;
    add_name(out, name)?;
    add(out, " is ")?;
    add_number(out, one)?;
    add(out, " and ")?;
    add_number(out, other)?;
    add(out, "\n")
}

/// Adds where a master is.
fn add_card(out: &mut Vec<u8>, card: Card) -> Result<(), NoMemory> {
    add(out, " at ")?;
    add_addr(out, card.addr)?;
    add(out, " since epoch ")?;
    add_number(out, card.epoch)
}

/// Adds each setting of a master that differs.
fn add_settings(
    out: &mut Vec<u8>,
    files: Pair<'_>,
    name: &Name,
    one: Settings,
    other: Settings,
) -> Result<(), NoMemory> {
    let kind = "warning: ";
    let silences = (one.after_ms, other.after_ms);
    add_numbers(out, kind, files, name, "down-after-milliseconds", silences)?;
    let syncs = (one.parallel_syncs, other.parallel_syncs);
    add_numbers(out, kind, files, name, "parallel-syncs", syncs)?;
    let timeouts = (one.timeout, other.timeout);
    add_numbers(out, kind, files, name, "failover-timeout", timeouts)
}

/// Adds where a master is in both files, where that differs.
fn add_cards(
    out: &mut Vec<u8>,
    files: Pair<'_>,
    name: &Name,
    one: Card,
    other: Card,
) -> Result<(), NoMemory> {
    if one == other {
        return Ok(());
    }
    begin(out, "note: ", files)?;
    add_name(out, name)?;
    add(out, " is")?;
    add_card(out, one)?;
    add(out, ", and")?;
    add_card(out, other)?;
    add(out, "\n")
}

/// The configuration of the master with this number.
fn card_at(conf: &Conf, m: u16) -> Option<Card> {
    match conf.kept().masters.as_slice().get(m as usize) {
        Some(kept) => Some(kept.card),
        None => None,
    }
}

/// Adds in what the rosters of two files differ of a master that both name.
fn add_watched(
    out: &mut Vec<u8>,
    files: Pair<'_>,
    one: &Watched,
    other: &Watched,
) -> Result<(), NoMemory> {
    add_nodes(out, files.one, one, other)?;
    add_nodes(out, files.other, other, one)?;
    let quorums = (u64::from(one.quorum), u64::from(other.quorum));
    add_numbers(out, "note: ", files, &one.name, "the quorum", quorums)
}

/// Adds in what a master differs that both files name: in the first it has the number `m`, in the other `n`.
fn add_master(out: &mut Vec<u8>, files: Pair<'_>, m: u16, n: u16) -> Result<(), NoMemory> {
    let (first, second) = (&files.one.conf, &files.other.conf);
    let (Some(one), Some(other)) = (
        first.roster().masters().get(m as usize),
        second.roster().masters().get(n as usize),
    ) else {
        return Ok(());
    };
    add_watched(out, files, one, other)?;
    if let (Some(card), Some(at)) = (card_at(first, m), card_at(second, n)) {
        add_cards(out, files, &one.name, card, at)?;
    }
    if let (Some(set), Some(others)) = (first.settings(m), second.settings(n)) {
        add_settings(out, files, &one.name, set, others)?;
    }
    Ok(())
}

/// In what two files differ.
fn sides_of<'a>(
    alloc: Global,
    one: &'a NamedConf,
    other: &'a NamedConf,
) -> Result<Vec<u8>, NoMemory> {
    let mut out = Vec::new(alloc);
    add_sentinels(&mut out, one, other)?;
    add_sentinels(&mut out, other, one)?;
    add_masters(&mut out, one, other)?;
    add_masters(&mut out, other, one)?;
    let files = Pair { one, other };
    let mut number: u16 = 0;
    for master in one.conf.roster().masters() {
        if let Some(place) = other.conf.roster().master_named(&master.name) {
            add_master(&mut out, files, number, place)?;
        }
        number = number.saturating_add(1);
    }
    Ok(out)
}

/// Adds in what two files differ, a line for each thing with what stands on each side, after what stands in the text:
/// `note: ..` of what refuses them together, and `warning: ..` of settings, which don't. NoMemory: memory was refused,
/// and nothing was added.
pub fn add_sides<'a>(
    alloc: Global,
    out: &mut Vec<u8>,
    one: &'a NamedConf,
    other: &'a NamedConf,
) -> Result<(), NoMemory>
    ensures added { OnOk result ((more : List ℕ) × (out.new.items ≡ out.old.items ++ more)) }
    ensures refused { OnErr result (out.new.items ≡ out.old.items) }
{
    let sides = sides_of(alloc, one, other)?;
    out.extend_from_slice(&sides)?;
    Ok(())
}
