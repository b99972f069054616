//! What is looked at in a group, and what of it isn't well.

ghost use Rattle.std.specs.Prelude.{◌≡◌, IfOk};
ghost use Rattle.group_status.specs.Wellness.{is_well_at, is_well, unwell};

use crate::said::Trouble;
use ballot_law::{Addr, Name, NoMemory, RunId};
use std::alloc::Global;

/// What is looked at, and what was found. `specs/Wellness` says when it is well.
#[derive(Clone, Copy)]
pub(crate) enum What {
    /// Of a Sentinel: why it said nothing, if so.
    SentinelReached(Option<Trouble>),
    /// The run id by which the others know it, and its own.
    KnownId(RunId, RunId),
    /// Whether it is in TILT, in which it begins nothing.
    Tilt(bool),
    /// Whether it watches the master.
    Watches(bool),
    /// The epoch of the configuration that it tells, and of the newest one.
    Epoch(u64, u64),
    /// The address that it tells, and the newest one.
    Address(Addr, Addr),
    /// Whether it finds the master down: by itself, and with enough others.
    MasterDown(bool, bool),
    /// Whether it runs a failover.
    FailsOver(bool),
    /// Whether it reaches enough Sentinels for the quorum and a majority, and how many are usable.
    QuorumReached(bool, u64),
    /// Whether it knows this other Sentinel.
    PeerKnown(Addr, bool),
    /// Whether it finds this one down, which answers here.
    PeerDown(Addr, bool),
    /// Whether it lists this replica.
    ReplicaListed(Addr, bool),
    /// Whether it finds this one down, which answers here.
    ReplicaDown(Addr, bool),
    /// Of a data node: whether it is the master, and why it said nothing, if so.
    NodeReached(bool, Option<Trouble>),
    /// Whether it still loads its data.
    Loads(bool),
    /// Whether it is the master, and whether it calls itself one.
    CallsItself(bool, bool),
    /// Whether it has its link to its master, and for how many seconds it hasn't.
    Link(bool, u64),
    /// Whom it follows, where it knows that by an address, and the newest address.
    Follows(Option<Addr>, Addr),
    /// Of a master: how many replicas it has.
    Replicas(u64),
    /// Of how many the priority is known, and how many of these may take over.
    Heirs(u64, u64),
    /// Of the group: how many masters are named.
    Masters(u64),
    /// How often a node was named that wasn't asked.
    LeftOut(u64),
}

/// One thing that is looked at, at which Sentinel or data node, and of which master, where it is about one.
#[derive(Clone, Copy)]
pub(crate) struct Matter {
    pub(crate) at: Option<Addr>,
    pub(crate) master: Option<Name>,
    pub(crate) what: What,
}

impl What {
    /// Whether it is well.
    fn is_well(&self) -> bool
        ensures { result ≡ is_well_at self.now }
    {
        match self {
            What::SentinelReached(trouble) | What::NodeReached(_, trouble) => trouble.is_none(),
            What::KnownId(known, told) => known.is_same(told),
            What::Tilt(is_bad)
            | What::FailsOver(is_bad)
            | What::PeerDown(_, is_bad)
            | What::ReplicaDown(_, is_bad)
            | What::Loads(is_bad) => !*is_bad,
            What::Watches(is_well)
            | What::QuorumReached(is_well, _)
            | What::PeerKnown(_, is_well)
            | What::ReplicaListed(_, is_well)
            | What::Link(is_well, _) => *is_well,
            What::Epoch(told, newest) => *told == *newest,
            What::Address(told, newest) => told.is_same(newest),
            What::MasterDown(down, objectively) => !*down && !*objectively,
            What::CallsItself(leads, is_master) => { if *leads { *is_master } else { !*is_master } }
            What::Follows(None, _) => true,
            What::Follows(Some(told), newest) => told.is_same(newest),
            What::Replicas(count) | What::Masters(count) => *count > 0,
            What::Heirs(known, able) => *known == 0 || *able > 0,
            What::LeftOut(count) => *count == 0,
        }
    }
}

/// What of these matters isn't well, in their order.
pub(crate) fn findings(alloc: Global, matters: &[Matter]) -> Result<Vec<Matter>, NoMemory>
    ensures { IfOk result (λ found. found.items ≡ unwell matters.now) }
{
    let mut found = Vec::new(alloc);
    let mut rest = matters;
    while let [matter, more @ ..] = rest {
        if !matter.what.is_well() {
            found.push(*matter)?;
        }
        rest = more;
    }
    Ok(found)
}
