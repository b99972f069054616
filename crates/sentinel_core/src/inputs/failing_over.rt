//! The failover of a master: its start, and the row that it takes at each tick.

ghost use Rattle.std.specs.Prelude.{◌≡◌, ◌++◌, ◌<◌, ◌≤◌, ◌&&◌, ◌||◌, not, true, false, IfSome, IsTrue, length};
ghost use Rattle.ballot_law.specs.declared.rosters.TheConstants.{NODES_MAX};
ghost use Rattle.ballot_law.specs.Clocks.{clock};
ghost use Rattle.failover_states.specs.Calls.{choice_of};
ghost use Rattle.failover_states.specs.Known.{known};
ghost use Rattle.failover_states.specs.Replicas.{replica_at};
ghost use Rattle.failover_states.specs.Table.{turned};
ghost use Rattle.sentinel_rules.specs.Parts.{frames_from};
ghost use Rattle.sentinel_rules.specs.Plans.{master_count};
ghost use Rattle.sentinel_rules.specs.Profiles.{with_pause, awaited_up, disobeyed, with_failed, is_switch_due};
ghost use Rattle.sentinel_rules.specs.States.{failover_of, is_unrefused, with_failover, is_wished, master_of};
ghost use Rattle.sentinel_rules.specs.Ticks.{campaign_epoch, known_of, turn_of, with_vote, with_win, hands_over, order_to, promote_frames, order_frames, row_part, is_start_due, start_part, starts_now, is_own_pause};
ghost use Rattle.sentinel_state.specs.Parts.{with_part};
ghost use Rattle.sentinel_state.specs.Nodes.Room.{added};
ghost use Rattle.sentinel_core.specs.Inputs.Rows.{is_promotion, is_too_late, looked_at};

use crate::inputs::facts::{
    best_for, card_place_for, count_for, down_for_rows, is_own_pause, pick_for,
};
use crate::inputs::unfit::note_unfit;
use ballot_law::{DataRole, Heir, Win};
use failover_states::{Act, Facts, FailoverState, Row};
use sentinel_rules::Frame;
use sentinel_state::{Core, FrameList, MasterNotice, Plan, State};

/// Whether the row tells the choice that it is the master.
fn is_promotion(row: Option<Row>) -> bool
    ensures { result ≡ is_promotion row }
{
    matches!(row, Some(Row::Promote))
}

/// Whether the failover ends since its choice didn't become a master in time.
fn is_too_late(row: Option<Row>) -> bool
    ensures { result ≡ is_too_late row }
{
    matches!(row, Some(Row::PromotionTimeout))
}

/// Whether there is a reason for a failover: a client asked that the master hand over, the master was objectively down
/// when that was last looked at, or it was handed over at the nodes.
fn is_called_for(state: &State, m: u16, now: u64) -> bool
    ensures value { result ≡ (is_wished state.now.core m (clock now)
        || (((master_of state.now.core m).odown && not (is_own_pause state.now.plan state.now.core m (clock now)))
        || is_switch_due state.now.plan state.now.core m (clock now))) }
    ensures here { IsTrue result → m < length state.now.core.masters }
{
    if state.core.is_wished(m, now) {
        return true;
    }
    if state.core.was_odown(m) && !is_own_pause(state, m, now) {
        return true;
    }
    state.core.is_switch_due(&state.plan, m, now)
}

/// Whether there is one, and the own campaign may begin.
fn is_start_due(state: &State, m: u16, now: u64) -> bool
    ensures value { result ≡ is_start_due state.now.plan state.now.core m (clock now) }
    ensures here { result ≡ true → m < length state.now.core.masters }
{
    is_called_for(state, m, now) && state.core.may_begin(&state.plan, m, now)
}

/// Starts a failover where none runs and one is due, and tells whether it did. A failover that starts opens the epoch
/// after the current one for its campaign, and keeps it; where it is that of a switch which a client asked for, its
/// epoch is kept for that too.
pub(crate) fn start_failover(state: &mut State, m: u16, now: u64) -> bool
    requires { m < master_count state.old.plan }
    ensures started { result ≡ starts_now state.old.plan state.old.core m (clock now) }
    ensures state { state.new ≡ with_part state.old (start_part state.old.plan m (clock now) state.old.core) }
{
    if state.core.is_failing_over(m) {
        return false;
    }
    let odown = is_start_due(state, m, now);
    let act = turn(state, m, now, odown);
    if act.row.is_none() {
        return false;
    }
    let epoch = state.core.campaign_epoch(m);
    state.core.set_current(epoch);
    state.core.plan_switch(m, now);
    true
}

/// The failover takes the first row that fits: it may give a vote, end an election, tell the choice that it is the
/// master, and tell replicas to follow the new one.
pub(crate) fn take_row(state: &mut State, m: u16, now: u64)
    requires { m < master_count state.old.plan }
    ensures { state.new ≡ with_part state.old (row_part state.old.plan m (clock now) state.old.core) }
{
    let campaign = campaign_of(state, m, now);
    let switch = switch_of(&state.core, m);
    let hands_over = hands_over(state, m, now);
    let act = turn(state, m, now, false);
    put_orders(state, m, switch, hands_over, act.row);
    end_row(&mut state.core, &state.plan, m, now, campaign, &act);
    note_unfit(state, m, now, act.row);
}

/// Tells the choice that it is the master, and replicas to follow the new one, where the row does.
fn put_orders(state: &mut State, m: u16, switch: Switch, hands_over: bool, row: Option<Row>)
    ensures { state.new ≡ record state.old {
      frames = added state.old.frames
          (promote_frames state.old.plan state.old.core m switch.unrefused hands_over row (choice_of (failover_of state.old.core m).state)
          ++ frames_from (order_frames state.old.plan m) 0 (failover_of state.old.core m).replicas);
    } }
{
    promote_choice(state, m, switch, hands_over, row);
    order_replicas(&state.core, &state.plan, m, &mut state.frames);
}

/// Of a failover before a turn: the epoch of its campaign, and the replica that was told that it is the master, where
/// it is up.
#[derive(Clone, Copy)]
struct Campaign {
    epoch: u64,
    awaited: Option<u16>,
}

/// What the failover of a master is as a campaign.
fn campaign_of(state: &State, m: u16, now: u64) -> Campaign
    ensures epoch { result.epoch ≡ campaign_epoch state.now.core m }
    ensures awaited { result.awaited ≡ awaited_up state.now.plan state.now.core m (clock now) }
{
    Campaign {
        epoch: state.core.campaign_epoch(m),
        awaited: state.core.awaited_up(&state.plan, m, now),
    }
}

/// Gives the vote of a row, notes an election that it won, has the next campaign wait where it ends one, and keeps it
/// of the replica that was awaited where it gives that up.
fn end_row(core: &mut Core, plan: &Plan, m: u16, now: u64, campaign: Campaign, act: &Act)
    ensures { core.new ≡ with_failed m (clock now) (disobeyed act.now.row campaign.awaited) (with_pause plan.now m (clock now) act.now.row
        (with_win m campaign.epoch act.now.row (with_vote plan.now m (clock now) campaign.epoch act.now.vote core.old))) }
{
    core.give_vote(plan, m, now, campaign.epoch, act.vote);
    note_win(core, m, campaign.epoch, act.row);
    core.rest_after(plan, m, now, act.row);
    core.pass_over(m, now, act.row, campaign.awaited);
}

/// A turn of the failover: the facts that its rows don't look at are left out. Without a master with this number
/// nothing was found down.
fn turn(state: &mut State, m: u16, now: u64, odown: bool) -> Act
    requires plan { m < master_count state.old.plan }
    requires odown { odown ≡ true → m < length state.old.core.masters }
    ensures state { state.new ≡ record state.old {
      core
          = with_failover state.old.core m (turn_of state.old.plan state.old.core m (clock now) odown).failover;
    } }
    ensures failover { failover_of state.new.core m ≡ (turn_of state.old.plan state.old.core m (clock now) odown).failover }
    ensures row { result.row ≡ (turn_of state.old.plan state.old.core m (clock now) odown).row }
    ensures vote { result.vote ≡ (turn_of state.old.plan state.old.core m (clock now) odown).vote }
{
    let stage = state.core.stage(m);
    let down = down_for_rows(state, m, now, stage);
    let facts = facts(state, m, now, odown, stage, down.as_slice());
    state.core.take_turn(m, &facts)
}

/// What a turn of the failover in this state looks at: it is the same with all facts as with those alone that its rows
/// look at.
fn facts<'a>(
    state: &State,
    m: u16,
    now: u64,
    odown: bool,
    stage: FailoverState,
    down: &'a [bool],
) -> Facts<'a>
    requires plan { m < master_count state.now.plan }
    requires stage { stage ≡ (failover_of state.now.core m).state }
    requires down { down.now ≡ (looked_at stage (known_of state.now.plan state.now.core m (clock now) odown)).down }
    ensures turn { turned (failover_of state.now.core m) (known result) ≡ turn_of state.now.plan state.now.core m (clock now) odown }
    ensures odown { result.odown ≡ odown }
    ensures few { IfSome result.best (λ best. best.0 ≤ NODES_MAX) }
{
    let settings = state.plan.settings(m);
    let epoch = state.core.campaign_epoch(m);
    Facts {
        now,
        random: state.core.random(),
        odown,
        current: state.core.kept().current,
        voted: state.core.voted(m),
        own: state.core.leader(m),
        me: state.plan.me(),
        need: state.plan.need(m),
        pick: pick_for(state, m, epoch, stage),
        count: count_for(state, m, now, epoch, stage),
        best: best_for(state, m, now, stage),
        card_place: card_place_for(state, m, stage),
        down,
        timeout: state.core.patience(&state.plan, m, now),
        parallel_syncs: settings.parallel_syncs,
    }
}

/// Whether the master is told to hand over to the choice: in a switch that a client asked for, where it is up.
#[tactic(auto, unfolding(sentinel_rules::specs::Ticks::hands_over))]
fn hands_over(state: &State, m: u16, now: u64) -> bool
    ensures { result ≡ hands_over state.now.plan state.now.core m (clock now) }
{
    state.core.is_planned(m) && !state.core.is_master_down(&state.plan, m, now)
}

/// The order by which the choice is to be the master: to itself, or to the master that hands over to it.
fn order_to(state: &State, m: u16, k: usize, hands_over: bool) -> Frame
    requires { k ≤ NODES_MAX }
    ensures { result ≡ order_to state.now.plan state.now.core m k hands_over }
{
    if hands_over {
        let place = state.core.card_place(&state.plan, m);
        return Frame::HandOverTo {
            target: state.plan.node_name(m, place),
            heir: Some(Heir {
                node: state.plan.node_name(m, k),
                addr: state.plan.addr_at(m, k),
            }),
        };
    }
    Frame::PromoteTo(state.plan.node_name(m, k))
}

/// Of a failover: whether somebody wished for it, and whether the master didn't refuse to hand over in it.
#[derive(Clone, Copy)]
struct Switch {
    planned: bool,
    unrefused: bool,
}

/// What the failover of a master is as a switch.
fn switch_of(core: &Core, m: u16) -> Switch
    ensures { result.unrefused ≡ is_unrefused core.now m }
{
    Switch {
        planned: core.is_planned(m),
        unrefused: core.is_unrefused(m),
    }
}

/// Whether the node at a place last said that it is a master.
fn says_master(core: &Core, m: u16, place: usize) -> bool {
    match core.info(m, place) {
        Some(info) => matches!(info.role, DataRole::Master),
        None => false,
    }
}

/// Has the choice be the master, where the row does; a master that was to hand over, and neither did in time nor
/// refused, is told to stay.
fn promote_choice(state: &mut State, m: u16, switch: Switch, hands_over: bool, row: Option<Row>)
    ensures { state.new ≡ record state.old {
      frames = added state.old.frames
          (promote_frames state.old.plan state.old.core m switch.unrefused hands_over row (choice_of (failover_of state.old.core m).state));
    } }
{
    let choice = state.core.choice(m);
    let order = order_to(state, m, choice.unwrap_or(0) as usize, hands_over);
    state
        .frames
        .push_if(is_promotion(row) && choice.is_some(), order);
    let place = state.core.card_place(&state.plan, m);
    let stay = Frame::HandOverTo {
        target: state.plan.node_name(m, place),
        heir: None,
    };
    state
        .frames
        .push_if(switch.unrefused && is_too_late(row), stay);
    let stays = switch.planned && is_too_late(row) && says_master(&state.core, m, place);
    state.core.note_master_if(stays, m, MasterNotice::Stays);
}

/// Tells replicas to follow the new master, by address.
fn order_replicas(core: &Core, plan: &Plan, m: u16, frames: &mut FrameList)
    ensures { frames.new ≡ added frames.old (frames_from (order_frames plan.now m) 0 (failover_of core.now m).replicas) }
{
    for k in 0..core.place_count(m) {
        order_replica(core, plan, m, k, frames);
    }
}

/// Tells the replica at a place to follow the new master, where the last turn does.
fn order_replica(core: &Core, plan: &Plan, m: u16, k: usize, frames: &mut FrameList)
    requires { k ≤ NODES_MAX }
    ensures { frames.new ≡ added frames.old (order_frames plan.now m k (replica_at (failover_of core.now m).replicas k)) }
{
    let target = plan.node_name(m, k);
    let is_ordered = core.is_ordered(m, k as u16);
    frames.push_if(is_ordered, Frame::FollowTo { target, master: m });
}

/// An election is noted.
fn note_win(core: &mut Core, m: u16, epoch: u64, row: Option<Row>)
    ensures { core.new ≡ with_win m epoch row core.old }
{
    if let Some(Row::Elected) = row {
        core.set_win(Win { master: m, epoch });
    }
}
