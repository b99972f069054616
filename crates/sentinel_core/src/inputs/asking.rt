//! The questions to the other Sentinels whether a master is down.

ghost use Rattle.std.specs.Prelude.{◌≡◌, ◌≤◌, length};
ghost use Rattle.ballot_law.specs.declared.rosters.TheConstants.{SENTINELS_MAX};
ghost use Rattle.ballot_law.specs.Clocks.{clock};
ghost use Rattle.sentinel_state.specs.Nodes.Room.{added};
ghost use Rattle.sentinel_rules.specs.Parts.{frames_from};
ghost use Rattle.sentinel_rules.specs.States.{is_failing_over, is_master_down, master_of};
ghost use Rattle.sentinel_rules.specs.Profiles.{by_profile};
ghost use Rattle.sentinel_rules.specs.Ticks.{is_ask_due, awaits_votes, ask_candidate, ask_frames, ask_part};
ghost use Rattle.sentinel_state.specs.Parts.{with_part};

use ballot_law::{RunId, clock_of};
use sentinel_rules::{ASK_MS, Frame, Profile};
use sentinel_state::{Core, FrameList, Peer, Plan, State};

/// Asks each other Sentinel whether a master is down, and for its vote where there is a candidate.
fn ask_each(peers: &[Peer], plan: &Plan, m: u16, candidate: Option<RunId>, frames: &mut FrameList)
    requires { length peers.now ≤ SENTINELS_MAX }
    ensures { frames.new ≡ added frames.old (frames_from (ask_frames plan.now m candidate) 0 peers.now) }
{
    let own = plan.place() as usize;
    for place in 0..peers.len() {
        let question = Frame::AskTo {
            place: place as u16,
            master: m,
            candidate,
        };
        frames.push_if(place != own, question);
    }
}

/// Whether the other Sentinels are to be asked: at the start of a failover, where they never were, and one second
/// later.
fn is_ask_due(core: &Core, m: u16, now: u64, started: bool) -> bool
    ensures { result ≡ is_ask_due started (master_of core.now m).ask_sent now }
{
    match core.ask_sent(m) {
        Some(sent) => started || now.saturating_sub(sent) >= ASK_MS,
        None => true,
    }
}

/// Whether the others are asked for their votes: while a failover runs, by the profile while votes are awaited.
fn asks_votes(state: &State, m: u16) -> bool
    ensures { result ≡ by_profile state.now.plan.profile (is_failing_over state.now.core m) (awaits_votes state.now.core m) }
{
    match state.plan.profile() {
        Profile::Strict => state.core.is_failing_over(m),
        Profile::Redis => state.core.awaits_votes(m),
    }
}

/// Whose vote is asked for: the own run id, or nobody's.
fn ask_candidate(state: &State, m: u16) -> Option<RunId>
    ensures { result ≡ ask_candidate state.now.plan state.now.core m }
{
    if asks_votes(state, m) {
        Some(state.plan.me())
    } else {
        None
    }
}

/// While a master is down, asks the other Sentinels whether they find it down too, once a second and at a start, and
/// for their votes while a failover runs; by the profile for their votes of a master that is up, too. `started` tells
/// whether a failover of the master started with this tick, `down` whether this Sentinel finds the master down.
pub(crate) fn ask_others(state: &mut State, m: u16, now: u64, started: bool, down: bool)
    requires { down ≡ is_master_down state.old.plan state.old.core m (clock now) }
    ensures { state.new ≡ with_part state.old (ask_part state.old.plan m (clock now) started state.old.core) }
{
    let at = clock_of(now);
    let asks = state.core.is_asking(&state.plan, m, now, down);
    if asks && is_ask_due(&state.core, m, at, started) {
        let candidate = ask_candidate(state, m);
        ask_each(
            state.core.peers(),
            &state.plan,
            m,
            candidate,
            &mut state.frames,
        );
        state.core.set_ask_sent(m, at);
    }
}
