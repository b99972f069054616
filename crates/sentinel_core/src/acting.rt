//! What an input does, and what it puts out.

ghost use Rattle.std.specs.Prelude.{◌≡◌, ◌≤◌, ◌<◌, length, map, false};
ghost use Rattle.std.specs.List.{AllByRecursion};
ghost use Rattle.ballot_law.specs.declared.messages.TheConstants.{OUTPUTS_MAX, ANSWER_MAX, SHOWN_MAX};
ghost use Rattle.ballot_law.specs.Clocks.{clock};
ghost use Rattle.sentinel_outbox.specs.Outboxes.{Fits, room_of_sentinel};
ghost use Rattle.sentinel_core.specs.Formers.{former_of, put_back};
ghost use Rattle.sentinel_core.specs.Sentinels.{is_command};
ghost use Rattle.sentinel_rules.specs.Answers.{commanded};
ghost use Rattle.node_texts.specs.declared.faults.TextFault.{TextFault};
ghost use Rattle.node_texts.specs.Hellos.{hello_of};
ghost use Rattle.sentinel_rules.specs.Changes.{IsAhead, asked_about, concerned, listed_by, told_of};
ghost use Rattle.sentinel_rules.specs.Facts.{IsSoundPlan, IsSound};
ghost use Rattle.ballot_law.specs.Limits.{IsWithinEvent};
ghost use Rattle.sentinel_rules.specs.Named.{IsNamed};
ghost use Rattle.sentinel_rules.specs.News.{hello_read};
ghost use Rattle.sentinel_rules.specs.Parts.{output_of, send, hello_of_master};
ghost use Rattle.sentinel_rules.specs.Plans.{master_count, node_named};
ghost use Rattle.sentinel_rules.specs.Takes.{next, next_at, part_of, answer_to};
ghost use Rattle.sentinel_state.specs.Parts.{with_part};

use crate::inputs::{
    answer_by_text, answer_plainly, answer_switch, hear_answer, hear_loss, hear_pong, hear_refusal,
    take_hello, take_info, tick,
};
use crate::undo::Undo;
use ballot_law::{Body, Command, Event, Hello, Input, Message, NodeName, Note, Output};
use node_texts::{TextFault, read_hello};
use sentinel_outbox::{Outbox, Phase, Stores};
use sentinel_rules::{
    Frame, law_hellos_name_masters, law_inputs_change_one_card, law_inputs_keep_sound,
};
use sentinel_state::{Core, Plan, State};

/// The part of a Sentinel that takes an input: it adds to what is held, and is never in the phase in which that is
/// shown.
#[derive(Clone, Copy)]
struct Taking;

impl Stores for Taking {
    ghost use Rattle.sentinel_outbox.specs.declared.phase.Phase.TheVariants.{Ready};

    ghost phase = { λ _. Ready };

    fn phase(&self) -> Phase {
        Phase::Ready
    }
}

/// A message of this Sentinel.
fn send(plan: &Plan, target: NodeName, body: Body) -> Output
    ensures { result ≡ send plan.now target body }
{
    Output::Send(Message {
        sender: NodeName::SentinelAt(plan.place()),
        target,
        body,
    })
}

/// The hello of a master, with what is kept now.
fn hello_of(plan: &Plan, core: &Core, m: u16) -> Hello
    requires { m < master_count plan.now }
    ensures { result ≡ hello_of_master plan.now core.now m }
{
    Hello {
        addr: plan.addr(),
        id: plan.me(),
        current: core.kept().current,
        master: plan.name(m),
        card: core.card(m),
    }
}

/// What a frame shows now.
fn output_of(plan: &Plan, core: &Core, frame: Frame) -> Output
    requires { IsNamed plan.now frame }
    ensures { result ≡ output_of plan.now core.now frame }
{
    match frame {
        Frame::PingTo(target) => send(plan, target, Body::Ping),
        Frame::InfoTo(target) => send(plan, target, Body::InfoAsk),
        Frame::HelloTo { target, master } => {
            send(plan, target, Body::Publish(hello_of(plan, core, master)))
        }
        Frame::AskTo {
            place,
            master,
            candidate,
        } => {
            let ask = Body::Ask {
                master,
                addr: core.card(master).addr,
                epoch: core.kept().current,
                candidate,
            };
            send(plan, NodeName::SentinelAt(place), ask)
        }
        Frame::PromoteTo(target) => send(plan, target, Body::ReplicaOf(None)),
        Frame::HandOverTo { target, heir } => send(plan, target, Body::HandOver(heir)),
        Frame::FollowTo { target, master } => {
            send(plan, target, Body::ReplicaOf(Some(core.card(master).addr)))
        }
        Frame::NoteOf { master, old } => Output::Tell(Note {
            master,
            old,
            card: core.card(master),
        }),
    }
}

/// The answer to a command, in the outbox's buffers where it needs them.
fn answer(state: &mut State, now: u64, command: &Command, outbox: &mut Outbox) -> Body
    requires text { ANSWER_MAX ≤ outbox.old.text_room }
    requires list { SHOWN_MAX ≤ outbox.old.list_room }
    ensures state { state.new
        ≡ record state.old { core = (commanded state.old.plan (clock now) command.now state.old.core).core } }
    ensures body { result ≡ (commanded state.old.plan (clock now) command.now state.old.core).body }
    ensures held { outbox.new.held ≡ outbox.old.held }
    ensures shown { outbox.new.shown ≡ outbox.old.shown }
    ensures held_room { outbox.new.held_room ≡ outbox.old.held_room }
    ensures shown_room { outbox.new.shown_room ≡ outbox.old.shown_room }
{
    if let Some(body) = answer_plainly(&state.plan, &mut state.core, now, command) {
        return body;
    }
    let text = outbox.take_text();
    let shown = outbox.take_list();
    if let Command::Failover(name) = *command {
        return answer_switch(&state.plan, &mut state.core, now, name, text, shown);
    }
    answer_by_text(&state.plan, &state.core, now, command, text, shown)
}

/// The master whose entry a command may change: that of a question, which may be a request for a vote.
fn asked_about(command: &Command, core: &Core) -> Option<u16>
    ensures { result ≡ asked_about command.now core.now.kept }
{
    match *command {
        Command::IsMasterDownByAddr { addr, .. } => core.master_with_card(addr),
        _ => None,
    }
}

/// The master whose data node this is.
fn listed_by(plan: &Plan, node: NodeName) -> Option<u16>
    ensures { result ≡ listed_by (node_named plan.now node) }
{
    let at = plan.node_named(node)?;
    Some(at.master)
}

/// The master that a hello names, as it was read.
fn told_of(plan: &Plan, hello: &Result<Hello, TextFault>) -> Option<u16>
    ensures { result ≡ told_of plan.now hello.now }
{
    match hello {
        Ok(hello) => plan.master_named(&hello.master),
        Err(_) => None,
    }
}

/// Saves in `former` what the hello may change, then takes it.
fn hear_hello(state: &mut State, now: u64, text: &[u8], former: &mut Undo)
    ensures former { former.new ≡ former_of state.old.core.kept (told_of state.old.plan (hello_of text.now)) }
    ensures state { state.new ≡ with_part state.old (hello_read state.old.plan (clock now) (hello_of text.now) state.old.core) }
{
    let hello = read_hello(text);
    former.begin(state.core.kept(), told_of(&state.plan, &hello));
    take_hello(state, now, hello);
}

/// Saves in `former` what the event may change, then takes it. `act_on` answers commands itself.
fn hear(state: &mut State, now: u64, event: &Event, former: &mut Undo)
    ensures former { former.new ≡ former_of state.old.core.kept (concerned state.old.plan event.now state.old.core.kept) }
    ensures state { state.new ≡ with_part state.old (part_of state.old.plan (clock now) event.now state.old.core) }
{
    let kept = state.core.kept();
    match event {
        Event::Tick { master, random } => {
            former.begin(kept, Some(*master));
            tick(state, *master, *random, now);
        }
        Event::InfoRead { node, text } => {
            former.begin(kept, listed_by(&state.plan, *node));
            take_info(state, *node, now, text.as_slice());
        }
        Event::HelloRead { text } => hear_hello(state, now, text.as_slice(), former),
        Event::Answered {
            voter,
            master,
            addr,
            down,
            leader,
            epoch,
        } => {
            former.begin(kept, None);
            hear_answer(state, *voter, *master, now, *addr, *down, *leader, *epoch);
        }
        Event::Pinged { node, reply } => {
            former.begin(kept, None);
            hear_pong(state, *node, now, *reply);
        }
        Event::Disconnected { node } => {
            former.begin(kept, None);
            hear_loss(state, *node);
        }
        Event::Refused { node } => {
            former.begin(kept, None);
            hear_refusal(state, *node);
        }
        Event::Command { command, .. } => {
            former.begin(kept, asked_about(command, &state.core));
        }
        Event::Become { .. } | Event::Handed(_) => former.begin(kept, None),
    }
}

/// Saves in `former` what the command may change, then holds its answer.
fn hold_answer(
    state: &mut State,
    now: u64,
    sender: NodeName,
    command: &Command,
    outbox: &mut Outbox,
    former: &mut Undo,
)
    requires { Fits outbox.old room_of_sentinel }
    ensures former { former.new ≡ former_of state.old.core.kept (asked_about command.now state.old.core.kept) }
    ensures plan { state.new.plan ≡ state.old.plan }
    ensures core { state.new.core
        ≡ (answer_to state.old.plan sender (commanded state.old.plan (clock now) command.now state.old.core)).core }
    ensures held { outbox.new.held
        ≡ (answer_to state.old.plan sender (commanded state.old.plan (clock now) command.now state.old.core)).outputs }
    ensures shown { outbox.new.shown ≡ outbox.old.shown }
    ensures room { length outbox.new.held ≤ outbox.new.shown_room }
{
    former.begin(state.core.kept(), asked_about(command, &state.core));
    let body = answer(state, now, command, outbox);
    outbox.hold_output(&Taking, send(&state.plan, sender, body));
}

/// Holds what each frame shows now.
fn hold_frames(state: &State, outbox: &mut Outbox)
    requires named { AllByRecursion (IsNamed state.now.plan) state.now.frames }
    requires fits { Fits outbox.old room_of_sentinel }
    requires few { length state.now.frames ≤ OUTPUTS_MAX }
    ensures held { outbox.new.held ≡ map (output_of state.now.plan state.now.core) state.now.frames }
    ensures shown { outbox.new.shown ≡ outbox.old.shown }
    ensures room { length outbox.new.held ≤ outbox.new.shown_room }
{
    let mut left = state.frames.as_slice();
    while let [frame, more @ ..] = left {
        outbox.hold_output(&Taking, output_of(&state.plan, &state.core, *frame));
        left = more;
    }
}

/// What an event does that is no command. What it may overwrite of what is kept is taken down.
fn act_on_news(state: &mut State, input: &Input, outbox: &mut Outbox, former: &mut Undo)
    requires kind { is_command input.now.event ≡ false }
    requires few { length (part_of state.old.plan (clock input.now.now) input.now.event state.old.core).frames ≤ OUTPUTS_MAX }
    requires fits { Fits outbox.old room_of_sentinel }
    ensures former { former.new
        ≡ former_of state.old.core.kept (concerned state.old.plan input.entry.now.event state.old.core.kept) }
    ensures plan { state.new.plan ≡ state.old.plan }
    ensures core { state.new.core
        ≡ (next_at state.old.plan (clock input.entry.now.now) input.entry.now.event state.old.core).core }
    ensures held { outbox.new.held
        ≡ (next_at state.old.plan (clock input.entry.now.now) input.entry.now.event state.old.core).outputs }
    ensures shown { outbox.new.shown ≡ outbox.old.shown }
    ensures room { length outbox.new.held ≤ outbox.new.shown_room }
{
    law_hellos_name_masters();
    state.frames.clear();
    hear(state, input.now, &input.event, former);
    hold_frames(state, outbox);
}

/// What an event does that may be a command. What it may overwrite of what is kept is taken down.
fn act_on(state: &mut State, input: &Input, outbox: &mut Outbox, former: &mut Undo)
    requires few { length (part_of state.old.plan (clock input.now.now) input.now.event state.old.core).frames ≤ OUTPUTS_MAX }
    requires fits { Fits outbox.old room_of_sentinel }
    ensures former { former.new
        ≡ former_of state.old.core.kept (concerned state.old.plan input.entry.now.event state.old.core.kept) }
    ensures plan { state.new.plan ≡ state.old.plan }
    ensures core { state.new.core
        ≡ (next_at state.old.plan (clock input.entry.now.now) input.entry.now.event state.old.core).core }
    ensures held { outbox.new.held
        ≡ (next_at state.old.plan (clock input.entry.now.now) input.entry.now.event state.old.core).outputs }
    ensures shown { outbox.new.shown ≡ outbox.old.shown }
    ensures room { length outbox.new.held ≤ outbox.new.shown_room }
{
    match &input.event {
        Event::Command { sender, command } => {
            hold_answer(state, input.now, *sender, command, outbox, former)
        }
        _ => act_on_news(state, input, outbox, former),
    }
}

/// What an input does: the state after it, and its outputs, held in the outbox. What the input overwrote of what is
/// kept is taken down.
///
/// Many clauses: one for each part of the state, since each caller needs another.
pub(crate) fn act(state: &mut State, input: &Input, outbox: &mut Outbox, former: &mut Undo)
    requires plan { IsSoundPlan state.old.plan }
    requires sound { IsSound state.old.plan state.old.core }
    requires within { IsWithinEvent input.now.event }
    requires fits { Fits outbox.old room_of_sentinel }
    ensures plan { state.new.plan ≡ state.old.plan }
    ensures core { state.new.core ≡ (next state.old.plan state.old.core input.entry.now.now input.entry.now.event).core }
    ensures held { outbox.new.held ≡ (next state.old.plan state.old.core input.entry.now.now input.entry.now.event).outputs }
    ensures shown { outbox.new.shown ≡ outbox.old.shown }
    ensures room { length outbox.new.held ≤ outbox.new.shown_room }
    ensures sound_after { IsSound state.new.plan state.new.core }
    ensures ahead { IsAhead state.old.core → IsAhead state.new.core }
    ensures former { put_back state.new.core.kept former.new ≡ state.old.core.kept }
{
    law_inputs_keep_sound();
    law_inputs_change_one_card();
    state.core.forget_win();
    act_on(state, input, outbox, former)
}
