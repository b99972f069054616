//! The answers to the commands of a Sentinel's port.

ghost use Rattle.std.specs.Prelude.{◌≡◌, ◌≤◌, ◌<◌, ◌↔◌, ◌∷◌, [], true, false, codes, length, map, vec_capacity, IsSome, IfSome};
ghost use Rattle.ballot_law.specs.declared.messages.Body.TheVariants.{PingText, PortReply};
ghost use Rattle.ballot_law.specs.declared.messages.TheConstants.{ANSWER_MAX, SHOWN_MAX};
ghost use Rattle.ballot_law.specs.Clocks.{clock};
ghost use Rattle.resp2.specs.Framing.Frame.{spelling};
ghost use Rattle.port_answers.specs.Answers.{no_such_master, ok_line, in_progress, in_tilt, no_good_replica, id_frame, subscribed, command_fault};
ghost use Rattle.sentinel_rules.specs.Answers.{master_with_card, asked_of, master_row, all_masters, info_frame, reply, named, about, address_of, is_engaged, switch_at, asked_to_switch, commanded};
ghost use Rattle.sentinel_rules.specs.Plans.{roster_of, me, master_count};
ghost use Rattle.sentinel_rules.specs.Rows.{masters_frame_by};
ghost use Rattle.sentinel_core.specs.Inputs.Plain.{is_plain, is_switch, answer_about};
ghost use Rattle.resp2.specs.declared.command.CommandFault.TheVariants.{UnknownCommand};

use crate::inputs::facts::has_heir;
use crate::inputs::rows::{
    add_info, add_master, add_masters, add_quorum, add_replicas, add_sentinels, master_row,
    shown_card, shown_masters,
};
use ballot_law::{Addr, Body, Command, Name, RunId, ShortText, Shown, ShownList};
use port_answers::AnswerText;
use resp2::CommandFault;
use sentinel_rules::Profile;
use sentinel_state::{Core, Plan};

/// What a command asks about one master.
#[derive(Clone, Copy)]
pub(crate) enum Asked {
    /// `SENTINEL MASTER`.
    Whole,
    /// `SENTINEL REPLICAS`, `SENTINEL SLAVES`.
    Replicas,
    /// `SENTINEL SENTINELS`.
    Sentinels,
    /// `SENTINEL CKQUORUM`.
    Quorum,
}

/// The answer to PING.
fn pong() -> Body
    ensures { result ≡ PingText false (codes "PONG") }
{
    let text = ShortText::from_slice(b"PONG").unwrap();
    Body::PingText {
        is_error: false,
        text,
    }
}

/// The answer with these bytes, which shows these configurations.
fn reply(text: AnswerText, shown: Vec<Shown>) -> Body
    ensures { result ≡ PortReply shown.items text }
{
    Body::PortReply {
        shown: ShownList::from_vec(shown),
        text: text.into_text(),
    }
}

/// The answer about a name that no master has.
#[tactic(auto, using(crate::proofs::InputsLemmas::AnswerRows::unknown_whole))]
fn no_such_master(text: AnswerText, shown: Vec<Shown>) -> Body
    requires { text ≡ [] }
    ensures { result ≡ PortReply shown.items (spelling no_such_master) }
{
    let mut text = text;
    text.add_no_such_master();
    reply(text, shown)
}

/// The answer to a command that needs no text: PING, `SENTINEL IS-MASTER-DOWN-BY-ADDR`, which may give a vote, and
/// `SENTINEL GET-MASTER-ADDR-BY-NAME`. For the others there is none, and nothing changes: `answer_switch` answers
/// `SENTINEL FAILOVER`.
pub fn answer_plainly(plan: &Plan, core: &mut Core, now: u64, command: &Command) -> Option<Body>
    ensures plain { IsSome result ↔ (is_plain command.now ≡ true) }
    ensures core { is_plain command.now ≡ true → core.new ≡ (commanded plan.now (clock now) command.now core.old).core }
    ensures other { is_plain command.now ≡ false → core.new ≡ core.old }
    ensures body { IfSome result (λ body. body ≡ (commanded plan.now (clock now) command.now core.old).body) }
{
    match *command {
        Command::Ping => Some(pong()),
        Command::IsMasterDownByAddr {
            addr,
            epoch,
            candidate,
        } => {
            let heeded = plan.candidate_heeded(candidate);
            core.note_ghost(now, candidate, heeded);
            Some(answer_down(plan, core, now, addr, epoch, heeded))
        }
        Command::GetMasterAddrByName(name) => {
            Some(Body::AddressAnswer(shown_by_name(plan, core, name)))
        }
        Command::Masters
        | Command::Master(_)
        | Command::Replicas(_)
        | Command::Sentinels(_)
        | Command::MyId
        | Command::CkQuorum(_)
        | Command::Failover(_)
        | Command::FlushConfig
        | Command::Subscribe
        | Command::Info => None,
    }
}

/// The answer to any other command, in the room of these two buffers: `ANSWER_MAX` bytes and `SHOWN_MAX` configurations
/// hold every answer. No memory is taken.
pub fn answer_by_text(
    plan: &Plan,
    core: &Core,
    now: u64,
    command: &Command,
    text: Vec<u8>,
    shown: Vec<Shown>,
) -> Body
    requires text { ANSWER_MAX ≤ vec_capacity text }
    requires list { SHOWN_MAX ≤ vec_capacity shown }
    requires empty { (text.items ≡ []) × (shown.items ≡ []) }
    requires kind { is_plain command.now ≡ false }
    requires other { is_switch command.now ≡ false }
    ensures body { result ≡ (commanded plan.now (clock now) command.now core.now).body }
    ensures core { (commanded plan.now (clock now) command.now core.now).core ≡ core.now }
{
    let text = AnswerText::from_vec(text);
    match *command {
        Command::Masters => answer_masters(plan, core, now, text, shown),
        Command::Master(name) => answer_about(plan, core, now, name, Asked::Whole, text, shown),
        Command::Replicas(name) => answer_about(
            plan,
            core,
            now,
            name,
            Asked::Replicas,
            text,
            shown,
        ),
        Command::Sentinels(name) => answer_about(
            plan,
            core,
            now,
            name,
            Asked::Sentinels,
            text,
            shown,
        ),
        Command::MyId => answer_id(plan, text, shown),
        Command::CkQuorum(name) => answer_about(plan, core, now, name, Asked::Quorum, text, shown),
        Command::FlushConfig => answer_done(text, shown),
        Command::Subscribe => answer_subscribed(text, shown),
        Command::Info => answer_info(plan, core, now, text, shown),
        Command::Ping
        | Command::IsMasterDownByAddr { .. }
        | Command::GetMasterAddrByName(_)
        | Command::Failover(_) => unreachable!(),
    }
}

/// Whether the master at the address is down, and the vote that a candidate asks for.
fn answer_down(
    plan: &Plan,
    core: &mut Core,
    now: u64,
    addr: Addr,
    epoch: u64,
    candidate: Option<RunId>,
) -> Body
    ensures core { core.new ≡ (asked_of plan.now (clock now) addr epoch candidate (master_with_card core.old.kept.masters addr) core.old).core }
    ensures body { result ≡ (asked_of plan.now (clock now) addr epoch candidate (master_with_card core.old.kept.masters addr) core.old).body }
{
    let Some(master) = core.master_with_card(addr) else {
        return Body::Answer {
            master: plan.listing(addr).unwrap_or(0),
            addr,
            down: false,
            leader: None,
            epoch: 0,
        };
    };
    let down = core.is_master_down(plan, master, now) && !core.is_tilted();
    let Some(candidate) = candidate else {
        return Body::Answer {
            master,
            addr,
            down,
            leader: None,
            epoch: 0,
        };
    };
    core.ask_vote(plan, master, now, epoch, candidate);
    Body::Answer {
        master,
        addr,
        down,
        leader: core.leader(master),
        epoch: core.voted(master),
    }
}

/// The configuration of the master with this name.
fn shown_by_name(plan: &Plan, core: &Core, name: Option<Name>) -> Option<Shown>
    ensures { result ≡ address_of core.now (named plan.now name) }
{
    match plan.named(name) {
        Some(master) => Some(shown_card(core, master)),
        None => None,
    }
}

fn answer_masters(plan: &Plan, core: &Core, now: u64, text: AnswerText, shown: Vec<Shown>) -> Body
    requires text { text ≡ [] }
    requires room { SHOWN_MAX ≤ vec_capacity shown }
    requires list { shown.items ≡ [] }
    ensures { result ≡ reply core.now (all_masters plan.now) (masters_frame_by plan.now.profile (map (master_row plan.now core.now (clock now)) (all_masters plan.now))) }
{
    let mut text = text;
    add_masters(plan, core, now, &mut text);
    reply(text, shown_masters(plan, core, shown))
}

/// The section of INFO that tells of the Sentinel.
fn answer_info(plan: &Plan, core: &Core, now: u64, text: AnswerText, shown: Vec<Shown>) -> Body
    requires text { text ≡ [] }
    requires room { SHOWN_MAX ≤ vec_capacity shown }
    requires list { shown.items ≡ [] }
    ensures { result ≡ reply core.now (all_masters plan.now) (info_frame plan.now core.now (clock now)) }
{
    let mut text = text;
    add_info(plan, core, now, &mut text);
    reply(text, shown_masters(plan, core, shown))
}

/// The answer to what is asked about the master with this name.
///
/// Many parameters: the room of the answer is handed in by its two parts, so that no answer takes memory.
#[tactic(auto, using(crate::proofs::InputsLemmas::AnswerRows::master_whole))]
fn answer_about(
    plan: &Plan,
    core: &Core,
    now: u64,
    name: Option<Name>,
    asked: Asked,
    text: AnswerText,
    shown: Vec<Shown>,
) -> Body
    requires text { text ≡ [] }
    requires room { SHOWN_MAX ≤ vec_capacity shown }
    requires list { shown.items ≡ [] }
    ensures { result ≡ about core.now (named plan.now name) (answer_about plan.now core.now (clock now) asked) }
{
    let Some(m) = plan.named(name) else {
        return no_such_master(text, shown);
    };
    let mut text = text;
    let mut shown = shown;
    match asked {
        Asked::Whole => {
            let row = master_row(plan, core, now, m);
            add_master(plan.profile(), &row, &mut text);
            shown.push_reserved(shown_card(core, m));
            reply(text, shown)
        }
        Asked::Replicas => {
            add_replicas(plan, core, now, m, &mut text);
            reply(text, shown)
        }
        Asked::Sentinels => {
            add_sentinels(plan, core, now, m, &mut text);
            reply(text, shown)
        }
        Asked::Quorum => {
            add_quorum(plan, core, now, m, &mut text);
            reply(text, shown)
        }
    }
}

/// The own run id.
#[tactic(auto, using(crate::proofs::InputsLemmas::AnswerRows::id_whole))]
fn answer_id(plan: &Plan, text: AnswerText, shown: Vec<Shown>) -> Body
    requires text { text ≡ [] }
    ensures { result ≡ PortReply shown.items (spelling (id_frame (me plan.now))) }
{
    let mut text = text;
    text.add_id(plan.me());
    reply(text, shown)
}

/// That the connection listens on the channel of notes. Whether it does is the connection's own matter.
#[tactic(auto, using(crate::proofs::InputsLemmas::AnswerRows::subscribed_whole))]
fn answer_subscribed(text: AnswerText, shown: Vec<Shown>) -> Body
    requires text { text ≡ [] }
    ensures { result ≡ PortReply shown.items (spelling subscribed) }
{
    let mut text = text;
    text.add_subscribed();
    reply(text, shown)
}

/// That the command was done.
#[tactic(auto, using(crate::proofs::InputsLemmas::AnswerRows::ok_whole))]
fn answer_done(text: AnswerText, shown: Vec<Shown>) -> Body
    requires text { text ≡ [] }
    ensures { result ≡ PortReply shown.items (spelling ok_line) }
{
    let mut text = text;
    text.add_ok();
    reply(text, shown)
}

/// The answer to a command that the Sentinel doesn't know.
#[tactic(auto, using(crate::proofs::InputsLemmas::AnswerRows::unknown_command_whole))]
fn answer_unknown(text: AnswerText, shown: Vec<Shown>) -> Body
    requires { text ≡ [] }
    ensures { result ≡ PortReply shown.items (spelling (command_fault UnknownCommand)) }
{
    let mut text = text;
    text.add_command_fault(CommandFault::UnknownCommand);
    reply(text, shown)
}

/// The answer where a failover is under way already.
#[tactic(auto, using(crate::proofs::InputsLemmas::AnswerRows::in_progress_whole))]
fn answer_in_progress(text: AnswerText, shown: Vec<Shown>) -> Body
    requires { text ≡ [] }
    ensures { result ≡ PortReply shown.items (spelling in_progress) }
{
    let mut text = text;
    text.add_in_progress();
    reply(text, shown)
}

/// The answer where the clock isn't to be trusted.
#[tactic(auto, using(crate::proofs::InputsLemmas::AnswerRows::in_tilt_whole))]
fn answer_in_tilt(text: AnswerText, shown: Vec<Shown>) -> Body
    requires { text ≡ [] }
    ensures { result ≡ PortReply shown.items (spelling in_tilt) }
{
    let mut text = text;
    text.add_in_tilt();
    reply(text, shown)
}

/// The answer where no replica can be promoted.
#[tactic(auto, using(crate::proofs::InputsLemmas::AnswerRows::no_good_replica_whole))]
fn answer_no_good_replica(text: AnswerText, shown: Vec<Shown>) -> Body
    requires { text ≡ [] }
    ensures { result ≡ PortReply shown.items (spelling no_good_replica) }
{
    let mut text = text;
    text.add_no_good_replica();
    reply(text, shown)
}

/// Whether no switch may be asked for now. One that nobody could take over isn't put off: it is refused for that.
fn is_engaged(plan: &Plan, core: &Core, m: u16, now: u64) -> bool
    ensures { result ≡ is_engaged plan.now core.now m (clock now) }
{
    core.is_in_progress(m, now) || (core.is_put_off(m, now) && has_heir(plan, core, m, now))
}

/// The answer to SENTINEL FAILOVER of this master, whose campaign begins with the next tick where nothing is against
/// it.
fn answer_switch_at(
    plan: &Plan,
    core: &mut Core,
    now: u64,
    m: u16,
    text: AnswerText,
    shown: Vec<Shown>,
) -> Body
    requires text { text ≡ [] }
    requires list { shown.items ≡ [] }
    ensures core { core.new ≡ (switch_at plan.now m (clock now) core.old).core }
    ensures body { result ≡ (switch_at plan.now m (clock now) core.old).body }
{
    if is_engaged(plan, core, m, now) {
        return answer_in_progress(text, shown);
    }
    if core.is_tilted() {
        return answer_in_tilt(text, shown);
    }
    if !has_heir(plan, core, m, now) {
        return answer_no_good_replica(text, shown);
    }
    core.wish(m, now);
    answer_done(text, shown)
}

/// The answer to SENTINEL FAILOVER of the master with this name.
fn answer_switch_of(
    plan: &Plan,
    core: &mut Core,
    now: u64,
    name: Option<Name>,
    text: AnswerText,
    shown: Vec<Shown>,
) -> Body
    requires text { text ≡ [] }
    requires list { shown.items ≡ [] }
    ensures core { core.new ≡ (asked_to_switch plan.now (clock now) (named plan.now name) core.old).core }
    ensures body { result ≡ (asked_to_switch plan.now (clock now) (named plan.now name) core.old).body }
{
    match plan.named(name) {
        Some(m) => answer_switch_at(plan, core, now, m, text, shown),
        None => no_such_master(text, shown),
    }
}

/// The answer to SENTINEL FAILOVER, in the room of these two buffers, as that of `answer_by_text`. A strict Sentinel
/// doesn't know it.
pub fn answer_switch(
    plan: &Plan,
    core: &mut Core,
    now: u64,
    name: Option<Name>,
    text: Vec<u8>,
    shown: Vec<Shown>,
) -> Body
    requires text { ANSWER_MAX ≤ vec_capacity text }
    requires empty { (text.items ≡ []) × (shown.items ≡ []) }
    ensures core { core.new ≡ (commanded plan.now (clock now) (Command.Failover name) core.old).core }
    ensures body { result ≡ (commanded plan.now (clock now) (Command.Failover name) core.old).body }
{
    let text = AnswerText::from_vec(text);
    match plan.profile() {
        Profile::Strict => answer_unknown(text, shown),
        Profile::Redis => answer_switch_of(plan, core, now, name, text, shown),
    }
}
