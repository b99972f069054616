//! What rows say of nodes for those who ask.

ghost use Rattle.std.specs.Prelude.{◌≡◌};
ghost use Rattle.ballot_law.specs.Clocks.{clock};
ghost use Rattle.port_answers.specs.Limits.{IsContactRow, IsSaidRow, IsLinkRow, IsPlaceIfAny, IsSpanIfAny};
ghost use Rattle.sentinel_rules.specs.Answers.{tilted_for};
ghost use Rattle.sentinel_rules.specs.Profiles.{down_for};
ghost use Rattle.sentinel_rules.specs.Rows.{waiting_for, contact_row, told_id, told_role, said_row, link_row, stage_of, heard_leader, heard_epoch};

use crate::inputs::facts::down_for;
use ballot_law::{Addr, DataRole, HeardVote, Info, RunId, clock_of};
use down_detector::Watch;
use failover_states::FailoverState;
use port_answers::{ContactRow, FailoverStage, LinkRow, SaidRow};
use sentinel_rules::{ASSUMED_INFO, Contact, LINK_MAX_S};
use sentinel_state::{Core, Node};

/// For how long a PING has waited; `at` is a moment of at most 2^62, here and below, and `period` the time between two
/// PINGs.
fn waiting_for(period: u64, at: u64, watch: Watch, contact: Contact) -> u64
    ensures { result ≡ waiting_for period at watch contact }
{
    if period < at.saturating_sub(watch.silent_from()) {
        down_for(contact.waiting, at)
    } else {
        0
    }
}

/// When a node replied; `since` is since when it has been down.
pub(crate) fn contact_row(
    period: u64,
    at: u64,
    watch: Watch,
    contact: Contact,
    since: Option<u64>,
) -> ContactRow
    ensures value { result ≡ contact_row period at watch contact since }
    ensures fits { IsContactRow result }
{
    ContactRow {
        ping_ms: waiting_for(period, at, watch, contact),
        valid_ms: at.saturating_sub(watch.silent_from()),
        reply_ms: at.saturating_sub(contact.replied),
        down_ms: down_for(since, at),
    }
}

/// The run id that an INFO told.
fn told_id(info: Option<Info>) -> Option<RunId>
    ensures { result ≡ told_id info }
{
    match info {
        Some(info) => info.id,
        None => None,
    }
}

/// The role that an INFO told, or the one that the node should have.
fn told_role(assumed: DataRole, info: Option<Info>) -> DataRole
    ensures { result ≡ told_role assumed info }
{
    match info {
        Some(info) => info.role,
        None => assumed,
    }
}

/// What a data node's INFO said of the node, which should have this role.
pub(crate) fn said_row(at: u64, assumed: DataRole, node: &Node) -> SaidRow
    ensures value { result ≡ said_row at assumed node.now }
    ensures fits { IsSaidRow result }
{
    SaidRow {
        id: told_id(node.info),
        info_ms: down_for(node.info_at, at),
        role: told_role(assumed, node.info),
        role_ms: at.saturating_sub(node.role_since),
    }
}

/// The address of its master that a replica's INFO told.
fn told_master(info: Info) -> Option<Addr>
    ensures value { result ≡ info.master }
    ensures fits { IsPlaceIfAny result }
{
    match info.master {
        Some(addr) => Some(addr),
        None => None,
    }
}

/// What a replica's INFO said of its master.
pub(crate) fn link_row(node: &Node) -> LinkRow
    ensures value { result ≡ link_row node.now }
    ensures fits { IsLinkRow result }
{
    let info = node.info.unwrap_or(ASSUMED_INFO);
    LinkRow {
        down_ms: info.link_down_s.min(LINK_MAX_S) * 1_000,
        up: info.link_up,
        master: told_master(info),
        announced: node.announced,
    }
}

/// For how many milliseconds the Sentinel has been in TILT, where it is.
pub(crate) fn tilted_for(core: &Core, now: u64) -> Option<u64>
    ensures value { result ≡ tilted_for core.now (clock now) }
    ensures fits { IsSpanIfAny result }
{
    match core.tilted_since() {
        Some(since) => Some(clock_of(now).saturating_sub(since)),
        None => None,
    }
}

/// How far a failover is.
pub(crate) fn stage_of(state: FailoverState) -> FailoverStage
    ensures { result ≡ stage_of state }
{
    match state {
        FailoverState::Idle => FailoverStage::NoFailover,
        FailoverState::WaitStart { .. } => FailoverStage::WaitStart,
        FailoverState::SelectReplica { .. } => FailoverStage::SelectReplica,
        FailoverState::SendPromotion { .. } => FailoverStage::SendPromotion,
        FailoverState::WaitPromotion { .. } => FailoverStage::WaitPromotion,
        FailoverState::ReconfReplicas { .. } => FailoverStage::ReconfReplicas,
        FailoverState::UpdateConfig { .. } => FailoverStage::UpdateConfig,
    }
}

/// The candidate of a vote that was heard.
pub(crate) fn heard_leader(given: Option<HeardVote>) -> Option<RunId>
    ensures { result ≡ heard_leader given }
{
    match given {
        Some(given) => Some(given.candidate),
        None => None,
    }
}

/// The epoch of a vote that was heard; 0 where none was.
pub(crate) fn heard_epoch(given: Option<HeardVote>) -> u64
    ensures { result ≡ heard_epoch given }
{
    match given {
        Some(given) => given.epoch,
        None => 0,
    }
}
