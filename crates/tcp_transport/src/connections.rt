//! All connections of a Sentinel.

ghost use Rattle.std.specs.Prelude.{◌≡◌, ◌<◌, IfOk};
ghost use Rattle.std.specs.List.{AllByRecursion};
ghost use Rattle.links.specs.declared.target.Target.{Target};
ghost use Rattle.links.specs.Speaking.{login_bytes};
ghost use Rattle.links.specs.Targets.{connection_count};
ghost use Rattle.tcp_transport.specs.Logins.{sent_to};
ghost use Rattle.tcp_transport.specs.Places.{IsPlaceOf, IsOfRoster, IsAt, AreOf, IsReached, target_at, targets_of};
ghost use Rattle.tcp_transport.specs.declared.connections.PlannedWire.{PlannedWire};

use crate::exchange::{Outgoing, SentinelEnd, TransportEnd, WatchState, exchange};
use crate::fault_notes::note_ended;
use crate::logins::Logins;
use crate::peer_connection::PeerConnection;
use crate::refusal_notes::RefusalNotes;
use crate::roster_rows::RowNotes;
use crate::sockets::Connects;
use crate::traffic::PIECE;
use ballot_law::{Body, Event, Message, NodeName, Roster};
use links::{
    KEEP_MS, Login, REST_MS, RecentFaults, Target, TickSchedule, connection_count, ping_each,
    place_of, target_at,
};
use log::Log;
use mio::{Events, Poll, Token};
use sentinel_conf::Conf;
use sentinel_runtime::{RunFault, Which};
use std::alloc::{AllocError, Global};
use std::io::{self, ErrorKind};
use std::net::Net;
use std::rt::Clock;
use std::sync::Wait;
use std::sync::atomic::Ordering;
use std::thread;
use std::time::Duration;

/// How many connections the system tells of at once.
const EVENTS: usize = 256;

/// How many messages are put out before the connections are heard again.
const MESSAGES_MAX: u32 = 1_024;

/// A connection that is to be: to which node, and how long it is between two PINGs.
#[derive(Clone, Copy)]
struct PlannedWire {
    target: Target,
    ping_each: u64,
}

/// The connections of the Sentinel at the place `own` of the roster before its threads run, none of which is open: each
/// is to the roster's node at its place.
#[derive(Drop)]
pub struct PlannedConnections {
    poll: Poll,
    told: Events<Global>,
    plans: Vec<Option<PlannedWire>>,
    roster: Roster,
    own: u16,
    logins: Logins,
    epoch: u64,
    room: Vec<u8>,
    alloc: Global,
    ghost reach: { ∥ AreOf roster own (targets_of (λ (plan : PlannedWire). plan.target) plans.items) ∥₁ },
}

/// The connections of one Sentinel, each at its place (`target_at`); its own place has none. Their sockets come from
/// `net`, and are to nodes that its connections may be to. Nothing goes out on them but what the Sentinel may say, and
/// what they hand on it may be told.
#[derive(Drop)]
pub struct Connections<J: Which, C: Connects<J>> {
    net: C,
    poll: Poll,
    told: Events<Global>,
    wires: Vec<Option<PeerConnection<J, C>>>,
    roster: Roster,
    logins: Logins,
    near: TransportEnd<J>,
    faults: RecentFaults,
    refusals: RefusalNotes,
    keep_ms: u64,
    rows: RowNotes,
    room: Vec<u8>,
    alloc: Global,
}

/// The connection at this place that the Sentinel of this conf is to have, where it stands at the place `own`.
#[tactic(auto, using(crate::proofs::Places::own_has_none))]
fn plan_at(conf: &Conf, own: u16, place: usize) -> Option<PlannedWire>
    requires { place < connection_count conf.now.roster }
    ensures { IsAt conf.now.roster own place (target_at (λ (plan : PlannedWire). plan.target) result) }
{
    let target = target_at(conf.roster(), own, place)?;
    Some(PlannedWire {
        target,
        ping_each: pings_of(conf, target.node),
    })
}

/// The connections that the Sentinel of this conf is to have, where it stands at the place `own`.
fn plans_of(alloc: Global, conf: &Conf, own: u16) -> Result<Vec<Option<PlannedWire>>, AllocError>
    ensures { IfOk result (λ plans. AreOf conf.now.roster own (targets_of (λ (plan : PlannedWire). plan.target) plans.items)) }
{
    let mut plans = Vec::new(alloc);
    for place in 0..connection_count(conf.roster()) {
        plans.push(plan_at(conf, own, place))?;
    }
    Ok(plans)
}

/// This connection, which isn't open.
fn wire_of<J: Which, C: Connects<J>>(
    alloc: Global,
    plan: Option<PlannedWire>,
) -> Option<PeerConnection<J, C>>
    requires { IsReached J.reaches (target_at (λ (p : PlannedWire). p.target) plan) }
    ensures { target_at (λ wire. wire.link.target) result ≡ target_at (λ (p : PlannedWire). p.target) plan }
{
    match plan {
        Some(plan) => Some(PeerConnection::new(alloc, plan.target, plan.ping_each)),
        None => None,
    }
}

/// These connections, none of which is open.
fn wires_of<J: Which, C: Connects<J>>(
    alloc: Global,
    plans: &[Option<PlannedWire>],
) -> Result<Vec<Option<PeerConnection<J, C>>>, AllocError>
    requires { AllByRecursion (IsReached J.reaches) (targets_of (λ (plan : PlannedWire). plan.target) plans.now) }
    ensures { IfOk result (λ wires. targets_of (λ wire. wire.link.target) wires.items ≡ targets_of (λ (plan : PlannedWire). plan.target) plans.now) }
{
    let mut wires = Vec::new(alloc);
    for plan in plans {
        wires.push(wire_of::<J, C>(alloc, *plan))?;
    }
    Ok(wires)
}

/// How long it is between two PINGs to this node, in milliseconds: by the settings of its master; for another Sentinel
/// by those of the first one, by which it is down.
fn pings_of(conf: &Conf, node: NodeName) -> u64 {
    let master = match node {
        NodeName::StoreAt(number) => conf
            .roster()
            .node_numbered(number)
            .map_or(0, |at| at.master),
        _ => 0,
    };
    match conf.settings(master) {
        Some(settings) => ping_each(settings.after_ms),
        None => ping_each(0),
    }
}

/// How long it is between two times at which these connections are kept, in milliseconds: `KEEP_MS`, or half of the
/// shortest time between two PINGs.
fn keep_ms_of(plans: &[Option<PlannedWire>]) -> u64 {
    let mut least = KEEP_MS;
    for plan in plans.iter().flatten() {
        least = least.min(plan.ping_each / 2);
    }
    least
}

/// The login of a node: that of its master's nodes, or that of all other Sentinels.
fn login_of<'a>(roster: &Roster, logins: &'a Logins, node: NodeName) -> Login<'a>
    ensures { login_bytes result ≡ sent_to roster.now logins.now.of_masters.items logins.now.of_sentinels node }
{
    let NodeName::StoreAt(number) = node else {
        return logins.of_sentinels();
    };
    match roster.node_numbered(number) {
        Some(at) => logins.of_master(at.master),
        None => Login::Without,
    }
}

impl PlannedConnections {
    /// The connections of the Sentinel of this conf, with these logins. The error is the system's; `OutOfMemory` is a
    /// refused allocation.
    pub fn of<N: Net>(
        net: &N,
        alloc: Global,
        conf: &Conf,
        logins: Logins,
    ) -> io::Result<PlannedConnections>
        ensures roster { IfOk result (λ planned. planned.roster ≡ conf.now.roster) }
        ensures own { IfOk result (λ planned. IsPlaceOf conf.now.roster conf.now.id planned.own) }
        ensures logins { IfOk result (λ planned. planned.logins ≡ logins) }
    {
        let own = conf.place();
        let Ok(roster) = conf.roster().copy(alloc) else {
            return Err(io::Error::from(ErrorKind::OutOfMemory));
        };
        Ok(PlannedConnections {
            poll: Poll::new(net)?,
            told: Events::with_capacity(alloc, EVENTS)?,
            plans: plans_of(alloc, conf, own)?,
            roster,
            own,
            logins,
            epoch: conf.kept().current,
            room: vec![in alloc; 0; PIECE]?,
            alloc,
        })
    }

    /// They are those of this Sentinel, by these sockets: they, and the Sentinel's end of them. Each is to the roster's
    /// node at its place. The error is the system's; `OutOfMemory` is a refused allocation.
    pub fn named<J: Which, C: Connects<J> + Drop>(
        self,
        net: C,
    ) -> io::Result<(Connections<J, C>, SentinelEnd<J>)>
        requires reaches { (target : Target) → IsOfRoster self.roster target → ∥ J.reaches target ∥₁ }
        ensures roster { IfOk result (λ both. both.0.roster ≡ self.roster) }
        ensures wires { IfOk result (λ both. ∥ AreOf self.roster self.own (targets_of (λ wire. wire.link.target) both.0.wires.items) ∥₁) }
        ensures logins { IfOk result (λ both. both.0.logins ≡ self.logins) }
    {
        let PlannedConnections {
            poll,
            told,
            plans,
            roster,
            own: _,
            logins,
            epoch,
            room,
            alloc,
        } = self;
        let (near, far) = exchange::<J>(alloc, poll.registry(), epoch)?;
        let keep_ms = keep_ms_of(plans.as_slice());
        let wires = Connections {
            net,
            poll,
            told,
            wires: wires_of::<J, C>(alloc, plans.as_slice())?,
            roster,
            logins,
            near,
            faults: RecentFaults::new(alloc),
            refusals: RefusalNotes::new(alloc),
            keep_ms,
            rows: RowNotes::new(),
            room,
            alloc,
        };
        Ok((wires, far))
    }
}

impl<J: Which, C: Connects<J>> Connections<J, C> {
    /// Closes connections of no use, opens those that are due, asks what they ask by themselves, and tells the Sentinel
    /// which were lost, at this reading of the clock.
    fn keep_all<R: Wait + Log>(&mut self, rt: &R, now: u64) {
        for place in 0..self.wires.len() {
            if let Some(Some(wire)) = self.wires.get_mut(place) {
                let node = wire.node();
                let login = login_of(&self.roster, &self.logins, node);
                wire.keep(&self.net, self.poll.registry(), Token(place), login, now);
                wire.ask_row(&self.roster, now);
                if wire.take_loss(now) {
                    self.near.hand_on(rt, Event::Disconnected { node }, now);
                }
            }
            self.note_ended(rt, place, now);
        }
    }

    /// Sends each node a PING, and forgets for how long it was silent: this Sentinel stood still.
    fn ask_all_anew(&mut self, now: u64) {
        for wire in self.wires.iter_mut().flatten() {
            wire.ask_anew(now);
        }
    }

    /// Whether a connection may have more to read.
    fn goes_on(&self) -> bool {
        self.wires.iter().flatten().any(|wire| wire.goes_on())
    }

    /// Whether a connection is to be opened now.
    fn is_due(&self, now: u64) -> bool {
        self.wires.iter().flatten().any(|wire| wire.is_due(now))
    }

    /// When the connections are to be kept next, at this time at the latest.
    fn next_due(&self, latest: u64) -> u64 {
        let mut due = latest;
        for wire in self.wires.iter().flatten() {
            due = due.min(wire.next_due().unwrap_or(latest));
        }
        due
    }

    /// Waits until the system tells of a connection, or so many milliseconds; not at all where one may have more to
    /// read. The error is the system's, where it tells of no connection any more.
    fn wait(&mut self, millis: u64) -> io::Result<()> {
        let millis = if self.goes_on() { 0 } else { millis };
        match self
            .poll
            .poll(&mut self.told, Some(Duration::from_millis(millis)))
        {
            Ok(()) => Ok(()),
            Err(error) => {
                self.told.clear();
                if error.kind() == ErrorKind::Interrupted {
                    return Ok(());
                }
                Err(error)
            }
        }
    }

    /// Serves the connection at this place, of whose end the system told or didn't, at this reading of the clock.
    fn serve<R: Wait + Log>(&mut self, rt: &R, place: usize, is_ending: bool, now: u64) {
        if let Some(Some(wire)) = self.wires.get_mut(place) {
            if is_ending {
                wire.note_end();
            }
            wire.serve(rt, &mut self.near, self.room.as_mut_slice(), now);
        }
        self.note_ended(rt, place, now);
        self.note_refused(rt, place, now);
        self.note_row(rt, place, now);
    }

    /// Notes the errors by which the node of the connection at this place refused what was asked.
    fn note_refused<R: Log>(&mut self, rt: &R, place: usize, now: u64) {
        let Some(Some(wire)) = self.wires.get_mut(place) else {
            return;
        };
        let target = wire.target();
        let node = place_of(&self.roster, target.node).unwrap_or(place);
        for refused in wire.take_refused() {
            self.refusals.hear(rt, node, target, &refused, now);
        }
    }

    /// Notes in what the file of the Sentinel differs that the connection at this place is to, where it answered with a
    /// row.
    fn note_row<R: Log>(&mut self, rt: &R, place: usize, now: u64) {
        if let Some(Some(wire)) = self.wires.get_mut(place) {
            if let Some(answer) = wire.take_row() {
                self.rows.hear(rt, &self.roster, wire.target(), answer, now);
            }
        }
    }

    /// Notes why the connection at this place was closed, where none of its node was noted a moment ago.
    fn note_ended<R: Log>(&mut self, rt: &R, place: usize, now: u64) {
        let Some(Some(wire)) = self.wires.get_mut(place) else {
            return;
        };
        let Some(ended) = wire.take_ended() else {
            return;
        };
        let target = wire.target();
        let node = place_of(&self.roster, target.node).unwrap_or(place);
        if self.faults.takes_note(node, now) {
            note_ended(rt, target, ended);
        }
    }

    /// Serves the connections that may have more to read.
    fn serve_busy<R: Wait + Log>(&mut self, rt: &R, now: u64) {
        for place in 0..self.wires.len() {
            let goes_on = matches!(self.wires.get(place), Some(Some(wire)) if wire.goes_on());
            if goes_on {
                self.serve(rt, place, false, now);
            }
        }
    }

    /// The places of the connections of which the system told, and whether it told of the end of one.
    fn places_told(&self) -> Result<Vec<(usize, bool)>, AllocError> {
        let mut places = Vec::new(self.alloc);
        for event in &self.told {
            let is_ending = event.is_read_closed() || event.is_error();
            places.push((event.token().0, is_ending))?;
        }
        Ok(places)
    }

    /// Serves the connections of which the last wait told, at this reading of the clock. The error is a refused
    /// allocation.
    fn serve_told<R: Wait + Log>(&mut self, rt: &R, now: u64) -> io::Result<()> {
        self.serve_busy(rt, now);
        for (place, is_ending) in self.places_told()? {
            self.serve(rt, place, is_ending, now);
        }
        Ok(())
    }

    /// Puts out a message on the connection to its target, and sends what can be sent at once. It is lost where that
    /// isn't open, and where no connection is to the target.
    fn put_out(&mut self, outgoing: &Outgoing<J>, now: u64) {
        let target = outgoing.message().target;
        let Some(place) = place_of(&self.roster, target) else {
            return;
        };
        if let Some(Some(wire)) = self.wires.get_mut(place) {
            if wire.takes(target) {
                wire.ask(outgoing, now);
            }
        }
    }

    /// Where a message has a master hand over to a replica, that is to acknowledge its stream at once. A user of the
    /// file may not be allowed to ask for it, so it isn't asked in a user's name.
    fn hurry_heir(&mut self, message: &Message, now: u64) {
        let Body::HandOver(Some(heir)) = &message.body else {
            return;
        };
        let Some(place) = place_of(&self.roster, heir.node) else {
            return;
        };
        if let Login::User(_, _) = login_of(&self.roster, &self.logins, heir.node) {
            return;
        }
        if let Some(Some(wire)) = self.wires.get_mut(place) {
            wire.hurry(now);
        }
    }

    /// Has the connection to its node keep a message that may have to go out once more: a hello, and the end of a
    /// switch.
    fn keep_message(&mut self, outgoing: Outgoing<J>) {
        let message = outgoing.message();
        let (Body::Publish(_) | Body::HandOver(None)) = &message.body else {
            return;
        };
        let Some(place) = place_of(&self.roster, message.target) else {
            return;
        };
        if let Some(Some(wire)) = self.wires.get_mut(place) {
            wire.keep_message(outgoing);
        }
    }

    /// Puts out the messages that wait, at this reading of the clock.
    fn put_out_all<R: Wait>(&mut self, rt: &R, now: u64) {
        for _ in 0..MESSAGES_MAX {
            let Some(outgoing) = self.near.next(rt) else {
                return;
            };
            self.put_out(&outgoing, now);
            self.hurry_heir(outgoing.message(), now);
            self.keep_message(outgoing);
        }
    }

    /// One turn: hears until a message is to go out or the connections are to be kept, does that, and rests.
    fn turn<R: Wait + Clock + Log>(
        &mut self,
        rt: &R,
        state: &WatchState,
        pace: &mut TickSchedule,
    ) -> io::Result<()> {
        self.wait(pace.until_tick(state.run.clock.now(rt)))?;
        self.serve_told(rt, state.run.clock.now(rt))?;
        let now = state.run.clock.now(rt);
        if pace.stood_still(now) {
            state.stood.store(now, Ordering::SeqCst);
            self.ask_all_anew(now);
        }
        self.put_out_all(rt, now);
        if pace.until_tick(now) == 0 || self.is_due(now) {
            self.keep_all(rt, now);
            pace.tick_due = now.saturating_add(self.keep_ms);
        }
        pace.tick_due = self.next_due(pace.tick_due);
        pace.turn(now);
        state.turned.store(now, Ordering::SeqCst);
        thread::sleep(rt, Duration::from_millis(REST_MS));
        Ok(())
    }

    /// Keeps the connections, hands on what they hear and puts out what is to go out, until the threads end or the
    /// Sentinel is halted. The error is the system's, where it tells of no connection any more, or a refused
    /// allocation.
    pub fn run<R: Wait + Clock + Log>(&mut self, rt: &R, state: &WatchState) -> io::Result<()> {
        let mut pace = TickSchedule::new(state.run.clock.now(rt));
        for _ in rt.forever() {
            if state.ending.load(Ordering::SeqCst) != 0 || state.run.has(RunFault::Halted) {
                return Ok(());
            }
            self.turn(rt, state, &mut pace)?;
        }
        unreachable!()
    }
}
