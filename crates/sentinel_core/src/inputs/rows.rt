//! What answers say of masters, replicas and Sentinels.

ghost use Rattle.std.specs.Prelude.{◌≡◌, ◌≤◌, ◌<◌, ◌++◌, [], false, ◌==◌, if◌then◌else◌, length, map, vec_capacity};
ghost use Rattle.ballot_law.specs.declared.messages.TheConstants.{SHOWN_MAX};
ghost use Rattle.ballot_law.specs.Clocks.{clock};
ghost use Rattle.ballot_law.specs.Rosters.{no_member};
ghost use Rattle.resp2.specs.Framing.Frame.{spelling};
ghost use Rattle.port_answers.specs.Room.{bounded};
ghost use Rattle.port_answers.specs.Limits.{IsMasterRow, IsReplicaRow, IsSentinelRow, IsMasterLine};
ghost use Rattle.sentinel_rules.specs.Answers.{master_row, master_line, info_frame, replica_row, sentinel_row, replica_rows, sentinel_rows, places_but, all_masters, is_usable, usable_count, quorum_frame};
ghost use Rattle.sentinel_rules.specs.Rows.{is_left_out, places_told, master_frame_by, masters_frame_by, replica_frame_by, replicas_frame_by, sentinel_frame_by, sentinels_frame_by};
ghost use Rattle.sentinel_rules.specs.Parts.{shown_of};
ghost use Rattle.sentinel_rules.specs.States.{card_place};
ghost use Rattle.sentinel_rules.specs.Plans.{roster_of, master_count, nodes_of, addr_at};

use crate::inputs::facts::down_for;
use crate::inputs::known::{
    contact_row, heard_epoch, heard_leader, link_row, said_row, stage_of, tilted_for,
};
use ballot_law::{Addr, DataRole, Member, RunId, Shown, clock_of};
use port_answers::{AnswerText, InfoSection, MasterLine, MasterRow, ReplicaRow, SentinelRow};
use sentinel_rules::{ASSUMED_INFO, Profile};
use sentinel_state::{Core, Plan, ping_period};

/// The number of places, the one left out not counted.
#[tactic(auto, using(crate::proofs::InputsLemmas::AnswerRows::but_within, crate::proofs::InputsLemmas::AnswerRows::but_without))]
fn count_without(one: usize, count: usize) -> usize
    ensures { result ≡ length (places_but one 0 count) }
{
    if one < count {
        return count - 1;
    }
    count
}

/// A master's configuration, as an answer shows it.
pub(crate) fn shown_card(core: &Core, master: u16) -> Shown
    ensures { result ≡ shown_of core.now master }
{
    Shown {
        master,
        card: core.card(master),
    }
}

/// What an answer says of a master.
pub(crate) fn master_row(plan: &Plan, core: &Core, now: u64, m: u16) -> MasterRow
    requires { m < master_count plan.now }
    ensures value { result ≡ master_row plan.now core.now (clock now) m }
    ensures fits { IsMasterRow result }
{
    let card = core.card(m);
    let settings = plan.settings(m);
    let card_at = core.card_place(plan, m);
    let node = core.node(m, card_at);
    let since = core.node_down_since(plan, m, now, card_at, card_at);
    let at = clock_of(now);
    MasterRow {
        name: plan.name(m),
        addr: card.addr,
        down: since.is_some(),
        odown: core.is_odown(plan, m, now, since.is_some()),
        disconnected: node.lost,
        failing_over: core.is_failing_over(m),
        replicas: (plan.node_count(m) as u64).saturating_sub(1),
        others: u64::from(plan.group_size()).saturating_sub(1),
        quorum: plan.quorum(m),
        after_ms: settings.after_ms,
        timeout: settings.timeout,
        parallel_syncs: settings.parallel_syncs,
        epoch: card.epoch,
        odown_ms: down_for(core.odown_since(m), at),
        stage: stage_of(core.stage(m)),
        contact: contact_row(ping_period(plan, m), at, node.watch, node.contact, since),
        said: said_row(at, DataRole::Master, &node),
    }
}

/// What INFO says of a master.
fn master_line(plan: &Plan, core: &Core, now: u64, m: u16) -> MasterLine
    requires { m < master_count plan.now }
    ensures value { result ≡ master_line plan.now core.now (clock now) m }
    ensures fits { IsMasterLine result }
{
    let down = core.is_master_down(plan, m, now);
    MasterLine {
        name: plan.name(m),
        addr: core.card(m).addr,
        down,
        odown: core.is_odown(plan, m, now, down),
        replicas: (plan.node_count(m) as u64).saturating_sub(1),
        sentinels: u64::from(plan.group_size()).saturating_sub(1) + 1,
    }
}

/// What an answer says of a data node; `card_at` is the place of the node that the configuration names.
fn replica_row(plan: &Plan, core: &Core, now: u64, m: u16, card_at: usize, k: usize) -> ReplicaRow
    requires { card_at ≡ card_place plan.now core.now m }
    ensures value { result ≡ replica_row plan.now core.now (clock now) m k }
    ensures fits { IsReplicaRow result }
{
    let node = core.node(m, k);
    let info = node.info.unwrap_or(ASSUMED_INFO);
    let since = core.node_down_since(plan, m, now, card_at, k);
    let at = clock_of(now);
    ReplicaRow {
        addr: plan.addr_at(m, k),
        down: since.is_some(),
        disconnected: node.lost,
        priority: info.priority,
        offset: info.offset,
        after_ms: plan.settings(m).after_ms,
        contact: contact_row(ping_period(plan, m), at, node.watch, node.contact, since),
        said: said_row(at, DataRole::Replica, &node),
        link: link_row(&node),
    }
}

/// What an answer says of a Sentinel as one that watches a master.
fn sentinel_row(plan: &Plan, core: &Core, now: u64, m: u16, place: u16) -> SentinelRow
    ensures value { result ≡ sentinel_row plan.now core.now (clock now) m place }
    ensures fits { IsSentinelRow result }
{
    let Member { id, addr } = plan.member(place as usize);
    let peer = core.peer(place as usize);
    let since = core.peer_down_since(plan, now, place as usize);
    let given = core.heard_vote(m, place);
    let at = clock_of(now);
    SentinelRow {
        id,
        addr,
        down: since.is_some(),
        disconnected: peer.lost,
        masters: u64::from(plan.master_count()),
        after_ms: plan.settings(0).after_ms,
        hello_ms: at.saturating_sub(peer.greeted),
        leader: heard_leader(given),
        leader_epoch: heard_epoch(given),
        contact: contact_row(ping_period(plan, 0), at, peer.watch, peer.contact, since),
    }
}

/// Writes a master as the profile does.
pub(crate) fn add_master(profile: Profile, row: &MasterRow, text: &mut AnswerText)
    ensures { text.new ≡ bounded (text.old ++ spelling (master_frame_by profile row.now)) }
{
    match profile {
        Profile::Strict => text.add_master(row),
        Profile::Redis => text.add_redis_master(row),
    }
}

/// Writes a replica as the profile does.
fn add_replica(profile: Profile, row: &ReplicaRow, text: &mut AnswerText)
    ensures { text.new ≡ bounded (text.old ++ spelling (replica_frame_by profile row.now)) }
{
    match profile {
        Profile::Strict => text.add_replica(row),
        Profile::Redis => text.add_redis_replica(row),
    }
}

/// Writes a Sentinel as the profile does.
fn add_sentinel(profile: Profile, row: &SentinelRow, text: &mut AnswerText)
    ensures { text.new ≡ bounded (text.old ++ spelling (sentinel_frame_by profile row.now)) }
{
    match profile {
        Profile::Strict => text.add_sentinel(row),
        Profile::Redis => text.add_redis_sentinel(row),
    }
}

/// Writes all masters.
pub(crate) fn add_masters(plan: &Plan, core: &Core, now: u64, text: &mut AnswerText)
    requires { text.old ≡ [] }
    ensures { text.new ≡ spelling (masters_frame_by plan.now.profile (map (master_row plan.now core.now (clock now)) (all_masters plan.now))) }
{
    let count = plan.master_count();
    text.add_count(u64::from(count));
    for m in 0..count {
        add_master(plan.profile(), &master_row(plan, core, now, m), text);
    }
}

/// Writes the section of INFO that tells of this Sentinel and of all masters.
pub(crate) fn add_info(plan: &Plan, core: &Core, now: u64, text: &mut AnswerText)
    requires { text.old ≡ [] }
    ensures { text.new ≡ spelling (info_frame plan.now core.now (clock now)) }
{
    let mut section = InfoSection::new();
    let count = plan.master_count();
    let masters = u64::from(count);
    let tilt = tilted_for(core, now);
    section.add_front(masters, tilt);
    for m in 0..count {
        let n = u64::from(m);
        let line = master_line(plan, core, now, m);
        section.add_master(n, &line);
    }
    text.add_section(&section);
}

/// The configurations of all masters.
pub(crate) fn shown_masters(plan: &Plan, core: &Core, shown: Vec<Shown>) -> Vec<Shown>
    requires room { SHOWN_MAX ≤ vec_capacity shown }
    requires empty { shown.items ≡ [] }
    ensures { result.items ≡ map (shown_of core.now) (all_masters plan.now) }
{
    let mut shown = shown;
    for m in 0..plan.master_count() {
        shown.push_reserved(shown_card(core, m));
    }
    shown
}

/// Whether a data node isn't told as a replica: that of the configuration, and by the profile one that says so.
fn is_left_out(plan: &Plan, core: &Core, m: u16, card_at: usize, k: usize) -> bool
    requires { card_at ≡ card_place plan.now core.now m }
    ensures { result ≡ is_left_out plan.now core.now m k }
{
    k == card_at || (plan.profile().is_redis() && !core.is_announced(m, k))
}

/// How many data nodes are told as replicas.
#[tactic(auto, using(crate::proofs::InputsLemmas::AnswerRows::told_one, crate::proofs::InputsLemmas::AnswerRows::told_none))]
fn count_told(plan: &Plan, core: &Core, m: u16, card_at: usize) -> u64
    requires { card_at ≡ card_place plan.now core.now m }
    ensures { result ≡ length (places_told (is_left_out plan.now core.now m) 0 (length (nodes_of plan.now m))) }
{
    let mut count = 0;
    for k in 0..plan.node_count(m) {
        if !is_left_out(plan, core, m, card_at, k) {
            count += 1;
        }
    }
    count
}

/// Writes a replica, unless it isn't told.
///
/// Many parameters: the place of the configuration's node is found once for all rows.
#[tactic(auto, using(crate::proofs::InputsLemmas::AnswerRows::same_text))]
fn add_replica_but(
    plan: &Plan,
    core: &Core,
    now: u64,
    m: u16,
    card_at: usize,
    k: usize,
    text: &mut AnswerText,
)
    requires { card_at ≡ card_place plan.now core.now m }
    ensures value { text.new ≡ bounded (text.old ++ (if is_left_out plan.now core.now m k then []
        else spelling (replica_frame_by plan.now.profile (replica_row plan.now core.now (clock now) m k)))) }
    ensures fits { is_left_out plan.now core.now m k ≡ false → IsReplicaRow (replica_row plan.now core.now (clock now) m k) }
{
    if is_left_out(plan, core, m, card_at, k) {
        let _whole = text.as_slice();
        return;
    }
    let row = replica_row(plan, core, now, m, card_at, k);
    add_replica(plan.profile(), &row, text);
}

/// Writes each node of a master that is told as a replica.
pub(crate) fn add_replicas(plan: &Plan, core: &Core, now: u64, m: u16, text: &mut AnswerText)
    requires { text.old ≡ [] }
    ensures { text.new ≡ spelling (replicas_frame_by plan.now.profile (replica_rows plan.now core.now (clock now) m)) }
{
    let own = core.card_place(plan, m);
    let count = plan.node_count(m);
    text.add_count(count_told(plan, core, m, own));
    for k in 0..count {
        add_replica_but(plan, core, now, m, own, k, text);
    }
}

/// Writes a Sentinel, unless it is at this place.
#[tactic(auto, using(crate::proofs::InputsLemmas::AnswerRows::same_text))]
fn add_sentinel_but(plan: &Plan, core: &Core, now: u64, m: u16, place: u16, text: &mut AnswerText)
    ensures value { text.new ≡ bounded (text.old ++ (if place == plan.now.place then []
        else spelling (sentinel_frame_by plan.now.profile (sentinel_row plan.now core.now (clock now) m place)))) }
    ensures fits { (place == plan.now.place) ≡ false → IsSentinelRow (sentinel_row plan.now core.now (clock now) m place) }
{
    if place == plan.place() {
        let _whole = text.as_slice();
        return;
    }
    let row = sentinel_row(plan, core, now, m, place);
    add_sentinel(plan.profile(), &row, text);
}

/// Writes each other Sentinel as one that watches a master.
pub(crate) fn add_sentinels(plan: &Plan, core: &Core, now: u64, m: u16, text: &mut AnswerText)
    requires { text.old ≡ [] }
    ensures { text.new ≡ spelling (sentinels_frame_by plan.now.profile (sentinel_rows plan.now core.now (clock now) m)) }
{
    let own = plan.place() as usize;
    let count = plan.group_size();
    text.add_count(count_without(own, count as usize) as u64);
    for place in 0..count {
        add_sentinel_but(plan, core, now, m, place, text);
    }
}

/// Whether a Sentinel can take part: this one, and each other one that isn't down.
fn is_usable(plan: &Plan, core: &Core, now: u64, place: u16) -> bool
    ensures { result ≡ is_usable plan.now core.now (clock now) place }
{
    if place == plan.place() {
        return true;
    }
    !core.is_peer_down(plan, now, place as usize)
}

/// How many Sentinels can take part.
fn usable_count(plan: &Plan, core: &Core, now: u64) -> u64
    ensures { result ≡ usable_count plan.now core.now (clock now) }
{
    let mut count = 0;
    for place in 0..plan.group_size() {
        if is_usable(plan, core, now, place) {
            count += 1;
        }
    }
    count
}

/// Writes whether enough Sentinels can take part for a failover of the master.
#[tactic(auto, using(crate::proofs::InputsLemmas::AnswerRows::reached_whole, crate::proofs::InputsLemmas::AnswerRows::lost_whole, crate::proofs::InputsLemmas::AnswerRows::redis_reached_whole, crate::proofs::InputsLemmas::AnswerRows::redis_lost_whole))]
pub(crate) fn add_quorum(plan: &Plan, core: &Core, now: u64, m: u16, text: &mut AnswerText)
    requires known { m < master_count plan.now }
    requires empty { text.old ≡ [] }
    ensures { text.new ≡ spelling (quorum_frame plan.now core.now (clock now) m) }
{
    let usable = usable_count(plan, core, now);
    let is_reached = u64::from(plan.need(m)) <= usable;
    match (plan.profile(), is_reached) {
        (Profile::Strict, true) => text.add_quorum_reached(usable),
        (Profile::Strict, false) => text.add_no_quorum(usable),
        (Profile::Redis, true) => text.add_redis_quorum_reached(usable),
        (Profile::Redis, false) => {
            let quorum = u64::from(plan.quorum(m));
            text.add_redis_no_quorum(usable, quorum, u64::from(plan.group_size()));
        }
    }
}
