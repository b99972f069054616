//! What a Sentinel's rules noted, in Redis's words.

use crate::named::{NamedId, NamedMaster, NamedNode, NamedSentinel};
use crate::notes::Announcing;
use crate::running_sentinel::Which;
use ballot_law::{MAX_EPOCH, Roster, RunId};
use log::{Log, info, warn};
use pubsub::Channel;
use sentinel_state::{MasterNotice, MasterThen, Notice, ReplicaNotice, Unfit};
use std::fmt;
use std::sync::Wait;

/// A master as notes name it, with the address that it had.
fn named(roster: &Roster, of: MasterThen) -> Option<NamedMaster<'_>> {
    NamedMaster::of(roster, of.master, of.addr)
}

/// Tells whether TILT holds.
fn tell_tilt<J: Which, R: Log + Wait>(to: &Announcing<'_, '_, J, R>, is_tilted: bool) {
    if is_tilted {
        to.tell(Channel::TiltEntered, "#tilt mode entered");
    } else {
        to.tell(Channel::TiltExited, "#tilt mode exited");
    }
}

/// Tells for whom a Sentinel voted.
fn tell_vote<J: Which, R: Log + Wait>(to: &Announcing<'_, '_, J, R>, leader: RunId, epoch: u64) {
    to.tell(
        Channel::VoteForLeader,
        format_args!("{} {epoch}", NamedId(leader)),
    );
}

/// Notes that the next failover of a master is put off for so many milliseconds.
fn note_put_off<J: Which, R: Log + Wait>(
    to: &Announcing<'_, '_, J, R>,
    left: u64,
    timeout: u64,
    master: NamedMaster<'_>,
) {
    let seconds = left.div_ceil(1_000);
    info!(to.log(); target: "group_sentinels::lookout",
        "-failover-put-off master {master}: this Sentinel begins the next failover in {seconds} s at the earliest, twice `failover-timeout` ({timeout}) after its last one or its last vote"
    );
}

/// Notes that no failover can begin since the current epoch is the greatest one.
fn note_spent<J: Which, R: Log + Wait>(to: &Announcing<'_, '_, J, R>, master: NamedMaster<'_>) {
    warn!(to.log(); target: "group_sentinels::lookout",
        "no epoch is left: the current one is {MAX_EPOCH}, the greatest, so no failover of master {master} can begin. End all Sentinels, give `current-epoch`, `config-epoch` and `leader-epoch` one small number in all files, and start them"
    );
}

/// Notes that all nodes of a master and all other Sentinels are down from here: what fails may be this Sentinel's own
/// machine.
fn note_all_down<J: Which, R: Log + Wait>(to: &Announcing<'_, '_, J, R>, master: NamedMaster<'_>) {
    warn!(to.log(); target: "group_sentinels::lookout",
        "all nodes of master {master} and all other Sentinels are down from here: it may be this machine or its network that fails"
    );
}

/// Notes that a master which was to hand over stays.
fn note_stay<J: Which, R: Log + Wait>(to: &Announcing<'_, '_, J, R>, master: NamedMaster<'_>) {
    warn!(to.log(); target: "group_sentinels::notes",
        "-switch-ended master {master}: it refused to hand over, or didn't in time, and stays the master"
    );
}

/// Notes that a failover ended since the master is up again.
fn note_back<J: Which, R: Log + Wait>(to: &Announcing<'_, '_, J, R>, master: NamedMaster<'_>) {
    warn!(to.log(); target: "group_sentinels::notes",
        "-failover-abort-master-is-back master {master}: it is up again, and stays the master"
    );
}

/// Notes that a switch ended which was asked for too long ago.
fn note_late<J: Which, R: Log + Wait>(to: &Announcing<'_, '_, J, R>, master: NamedMaster<'_>) {
    warn!(to.log(); target: "group_sentinels::notes",
        "-switch-ended master {master}: it was asked for more than 5 s ago, and the master wasn't told to hand over"
    );
}

/// Notes who is missing, where a Sentinel wasn't elected.
fn note_short<J: Which, R: Log + Wait>(
    to: &Announcing<'_, '_, J, R>,
    up: u16,
    of: u16,
    need: u32,
    master: NamedMaster<'_>,
) {
    if u32::from(up) < need {
        warn!(to.log(); target: "group_sentinels::lookout",
            "no failover of master {master}: {up} of {of} Sentinels are reached, {need} are needed. Start the others, or see their network"
        );
    } else {
        warn!(to.log(); target: "group_sentinels::lookout",
            "no failover of master {master} yet: {up} of {of} Sentinels are reached and {need} are needed, but fewer voted for this one: another one may lead"
        );
    }
}

/// Notes that a replica was given up.
fn note_given_up<J: Which, R: Log + Wait>(
    to: &Announcing<'_, '_, J, R>,
    node: NamedNode,
    master: NamedMaster<'_>,
) {
    let (ip, port) = (node.ip(), node.port());
    warn!(to.log(); target: "group_sentinels::lookout",
        "replica {ip}:{port} of master {master} was told to be the master, and refused or didn't obey in time: others go before it for twice `failover-timeout`. See what its log says, and what the Sentinels' user may do there"
    );
}

/// Why a replica can't be promoted, in words.
#[derive(Clone, Copy)]
struct Told(Unfit);

impl fmt::Display for Told {
    fn fmt<W: fmt::Write>(&self, f: &mut fmt::Formatter<W>) -> fmt::Result {
        match self.0 {
            Unfit::Down => write!(f, "is down"),
            Unfit::Lost => write!(f, "isn't connected"),
            Unfit::NoPriority => write!(f, "has priority 0"),
            Unfit::GivenUp => write!(
                f,
                "was told to be the master a moment ago, and refused or didn't obey"
            ),
            Unfit::Silent => write!(f, "hasn't answered PING or INFO for some seconds"),
            Unfit::LinkDown(seconds) => write!(f, "lost its link to the master {seconds} s ago"),
        }
    }
}

/// Notes why a replica can't be promoted.
fn note_unfit<J: Which, R: Log + Wait>(
    to: &Announcing<'_, '_, J, R>,
    why: Unfit,
    node: NamedNode,
    master: NamedMaster<'_>,
) {
    let (ip, port, why) = (node.ip(), node.port(), Told(why));
    warn!(to.log(); target: "group_sentinels::lookout",
        "no failover of master {master}: {ip}:{port} {why}"
    );
}

/// Notes that a Sentinel that no file names asked for a vote.
fn note_ghost<J: Which, R: Log + Wait>(to: &Announcing<'_, '_, J, R>, id: RunId) {
    let id = NamedId(id);
    warn!(to.log(); target: "group_sentinels::lookout",
        "a Sentinel that no file names asked for a vote: end it and destroy its file. Its run id is {id}, and its hellos tell its address"
    );
}

/// Tells what happened to a master. That it has another address is told by the output that says so.
fn tell_master<J: Which, R: Log + Wait>(
    to: &Announcing<'_, '_, J, R>,
    what: MasterNotice,
    master: NamedMaster<'_>,
) {
    match what {
        MasterNotice::Down => to.tell_master(Channel::SubjectivelyDown, master),
        MasterNotice::Up => to.tell_master(Channel::SubjectivelyUp, master),
        MasterNotice::AgreedDown => to.tell_master(Channel::ObjectivelyDown, master),
        MasterNotice::AgreedUp => to.tell_master(Channel::ObjectivelyUp, master),
        MasterNotice::Begun => to.tell_master(Channel::TryFailover, master),
        MasterNotice::Elected => {
            to.tell_master(Channel::ElectedLeader, master);
            to.tell_master(Channel::SelectReplica, master);
        }
        MasterNotice::NotElected => to.tell_master(Channel::AbortNotElected, master),
        MasterNotice::Back => note_back(to, master),
        MasterNotice::Late => note_late(to, master),
        MasterNotice::NoReplica => to.tell_master(Channel::AbortNoGoodReplica, master),
        MasterNotice::NotPromoted => to.tell_master(Channel::AbortReplicaTimeout, master),
        MasterNotice::Ended => to.tell_master(Channel::FailoverEnd, master),
        MasterNotice::Moved => {}
        MasterNotice::Stays => note_stay(to, master),
        MasterNotice::AllDown => note_all_down(to, master),
        MasterNotice::PutOff { left, timeout } => note_put_off(to, left, timeout, master),
        MasterNotice::NoEpochLeft => note_spent(to, master),
        MasterNotice::Short { up, of, need } => note_short(to, up, of, need, master),
    }
}

/// Tells what happened to a replica of a master.
fn tell_replica<J: Which, R: Log + Wait>(
    to: &Announcing<'_, '_, J, R>,
    what: ReplicaNotice,
    node: NamedNode,
    master: NamedMaster<'_>,
) {
    match what {
        ReplicaNotice::Down => to.tell_replica(Channel::SubjectivelyDown, node, master),
        ReplicaNotice::Up => to.tell_replica(Channel::SubjectivelyUp, node, master),
        ReplicaNotice::Chosen => {
            to.tell_replica(Channel::SelectedReplica, node, master);
            to.tell_replica(Channel::SendReplicaOfNoOne, node, master);
        }
        ReplicaNotice::Promoted => to.tell_replica(Channel::PromotedReplica, node, master),
        ReplicaNotice::Ordered => to.tell_replica(Channel::ReplicaReconfigured, node, master),
        ReplicaNotice::Converted => to.tell_replica(Channel::ConvertToReplica, node, master),
        ReplicaNotice::Corrected => to.tell_replica(Channel::FixReplicaConfig, node, master),
        ReplicaNotice::GivenUp => note_given_up(to, node, master),
        ReplicaNotice::Unfit(why) => note_unfit(to, why, node, master),
    }
}

/// Tells something of a Sentinel that watches a master.
fn tell_sentinel<J: Which, R: Log + Wait>(
    to: &Announcing<'_, '_, J, R>,
    channel: Channel,
    sentinel: NamedSentinel,
    master: NamedMaster<'_>,
) {
    to.tell(channel, format_args!("sentinel {sentinel} @ {master}"));
}

/// The channel of a Sentinel that is down, or no longer.
fn channel_of_down(down: bool) -> Channel {
    if down {
        Channel::SubjectivelyDown
    } else {
        Channel::SubjectivelyUp
    }
}

/// Tells what a Sentinel's rules noted. What names nothing of the roster is left out.
pub(crate) fn tell_notice<J: Which, R: Log + Wait>(
    to: &Announcing<'_, '_, J, R>,
    roster: &Roster,
    notice: Notice,
) {
    match notice {
        Notice::Tilted(is_tilted) => tell_tilt(to, is_tilted),
        Notice::NewEpoch(epoch) => to.tell(Channel::NewEpoch, epoch),
        Notice::Voted { leader, epoch } => tell_vote(to, leader, epoch),
        Notice::Ghost(id) => note_ghost(to, id),
        Notice::OfMaster { of, what } => {
            if let Some(master) = named(roster, of) {
                tell_master(to, what, master);
            }
        }
        Notice::OfReplica { of, place, what } => {
            if let Some(master) = named(roster, of)
                && let Some(addr) = roster.nodes(of.master).get(place as usize)
            {
                tell_replica(to, what, NamedNode::at(*addr), master);
            }
        }
        Notice::OfSentinel { of, place, down } => {
            if let Some(master) = named(roster, of)
                && let Some(sentinel) = roster.sentinels().get(place as usize)
            {
                tell_sentinel(
                    to,
                    channel_of_down(down),
                    NamedSentinel::of(*sentinel),
                    master,
                );
            }
        }
        Notice::Brought { of, by } => {
            if let Some(master) = named(roster, of) {
                tell_sentinel(to, Channel::ConfigUpdateFrom, NamedSentinel::of(by), master);
            }
        }
    }
}
