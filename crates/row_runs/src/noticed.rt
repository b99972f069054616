//! What a Sentinel's rules noted, in words.

use crate::told::{Told, Unplayed};
use sentinel_state::{MasterNotice, MasterThen, Notice, ReplicaNotice, Unfit};

/// The word of what happened to a master.
fn master_word(what: MasterNotice) -> &'static str {
    match what {
        MasterNotice::Down => "Down",
        MasterNotice::Up => "Up",
        MasterNotice::AgreedDown => "AgreedDown",
        MasterNotice::AgreedUp => "AgreedUp",
        MasterNotice::Begun => "Begun",
        MasterNotice::Elected => "Elected",
        MasterNotice::NotElected => "NotElected",
        MasterNotice::Back => "Back",
        MasterNotice::Late => "Late",
        MasterNotice::NoReplica => "NoReplica",
        MasterNotice::NotPromoted => "NotPromoted",
        MasterNotice::Ended => "Ended",
        MasterNotice::Moved => "Moved",
        MasterNotice::Stays => "Stays",
        MasterNotice::AllDown => "AllDown",
        MasterNotice::PutOff { .. } => "PutOff",
        MasterNotice::NoEpochLeft => "NoEpochLeft",
        MasterNotice::Short { .. } => "Short",
    }
}

/// The word of why a replica can't be promoted.
fn unfit_word(why: Unfit) -> &'static str {
    match why {
        Unfit::Down => "UnfitDown",
        Unfit::Lost => "UnfitLost",
        Unfit::NoPriority => "UnfitNoPriority",
        Unfit::GivenUp => "UnfitGivenUp",
        Unfit::Silent => "UnfitSilent",
        Unfit::LinkDown(_) => "UnfitLinkDown",
    }
}

/// The word of what happened to a replica.
fn replica_word(what: ReplicaNotice) -> &'static str {
    match what {
        ReplicaNotice::Down => "ReplicaDown",
        ReplicaNotice::Up => "ReplicaUp",
        ReplicaNotice::Chosen => "Chosen",
        ReplicaNotice::Promoted => "Promoted",
        ReplicaNotice::Ordered => "Ordered",
        ReplicaNotice::Converted => "Converted",
        ReplicaNotice::Corrected => "Corrected",
        ReplicaNotice::GivenUp => "GivenUp",
        ReplicaNotice::Unfit(why) => unfit_word(why),
    }
}

/// Tells a master: its number, and the address that it had.
fn tell_then(of: MasterThen, told: &mut Told) -> Result<(), Unplayed> {
    told.number(u64::from(of.master))?;
    told.address(of.addr)
}

/// Tells what happened to a master.
fn tell_master(of: MasterThen, what: MasterNotice, told: &mut Told) -> Result<(), Unplayed> {
    told.word(master_word(what))?;
    if let MasterNotice::PutOff { left, timeout } = what {
        told.number(left)?;
        told.number(timeout)?;
    }
    if let MasterNotice::Short {
        up,
        of: count,
        need,
    } = what
    {
        told.number(u64::from(up))?;
        told.number(u64::from(count))?;
        told.number(u64::from(need))?;
    }
    tell_then(of, told)
}

/// Tells a notice: its word, the place that it names, and the master with its address.
pub(crate) fn tell_notice(notice: Notice, told: &mut Told) -> Result<(), Unplayed> {
    match notice {
        Notice::Tilted(is_tilted) => told.word(if is_tilted { "Tilted" } else { "Untilted" }),
        Notice::NewEpoch(epoch) => {
            told.word("NewEpoch")?;
            told.number(epoch)
        }
        Notice::Voted { leader, epoch } => {
            told.word("Voted")?;
            told.maybe_id(Some(leader))?;
            told.number(epoch)
        }
        Notice::Ghost(id) => {
            told.word("Ghost")?;
            told.maybe_id(Some(id))
        }
        Notice::OfMaster { of, what } => tell_master(of, what, told),
        Notice::OfReplica { of, place, what } => {
            told.word(replica_word(what))?;
            told.number(u64::from(place))?;
            tell_then(of, told)
        }
        Notice::OfSentinel { of, place, down } => {
            told.word(if down { "SentinelDown" } else { "SentinelUp" })?;
            told.number(u64::from(place))?;
            tell_then(of, told)
        }
        Notice::Brought { of, by } => {
            told.word("Brought")?;
            told.maybe_id(Some(by.id))?;
            told.address(by.addr)?;
            tell_then(of, told)
        }
    }
}
