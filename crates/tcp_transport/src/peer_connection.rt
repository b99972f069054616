//! One connection with its socket.

ghost use Rattle.std.specs.Prelude.{◌≡◌, ◌↔◌, IsTrue, false};
ghost use Rattle.std.specs.List.{AllByRecursion};
ghost use Rattle.links.specs.Sessions.Links.{events_in};
ghost use Rattle.tcp_transport.specs.Hearing.{IsTakeable};

use crate::asides::{Asides, Refused};
use crate::exchange::{Outgoing, TransportEnd};
use crate::fault_notes::Ended;
use crate::roster_rows::{RowHeard, RowLook};
use crate::said_link::SaidLink;
use crate::sockets::Connects;
use crate::traffic::Unheard;
use ballot_law::{Body, NodeName, Roster};
use links::{
    ACKS_MS, FLOW_MS, HELLO_AGAIN_MS, Heard, LOOK_MS, Login, MUTE_MS, RateLimit, Refusal,
    SWITCH_MS, Stage, Stale, Target,
};
use mio::{Registry, Token};
use sentinel_runtime::Which;
use std::alloc::Global;
use std::io::ErrorKind;
use std::sync::Wait;

/// How many reads a connection makes before the next one has its turn.
const READS_MAX: u32 = 16;

/// How long it is between two times at which the last hello goes out once more, in milliseconds.
const HELLO_EACH_MS: u64 = 30;

/// When the last hello goes out once more next, by readings of the clock in milliseconds, and from when on no more.
#[derive(Clone, Copy)]
struct Again {
    at: u64,
    until: u64,
}

/// A connection to a node, by the sockets that `C` makes. `goes_on` is whether it may have more to read, `is_ending`
/// whether the system told of its end, `look_at` when it is to be asked what came of an order, `ended` why it was
/// closed last though it could be read, `asides` what its node told beside events, and `shut_until` until when it stays
/// closed, since too much came on it, `is_lost` whether it was told to be lost since it was open last, `is_barred`
/// whether it was given up for want of a password, which wasn't told yet, `rows` what it asks another Sentinel for its
/// rows, `acks_until` until when its node is asked to acknowledge its master's stream, `hello` the last hello that went
/// out on it, `again` when that goes out once more, `mute_until` until when no hello goes out on it, and `abort` the
/// end of a switch, which goes out once it is open anew.
#[derive(Drop)]
pub(crate) struct PeerConnection<J: Which, C: Connects<J>> {
    link: SaidLink<J, C>,
    goes_on: bool,
    is_ending: bool,
    look_at: Option<u64>,
    ended: Option<Ended>,
    asides: Asides,
    flow: RateLimit,
    shut_until: u64,
    is_lost: bool,
    is_barred: bool,
    rows: RowLook,
    acks_until: u64,
    hello: Option<Outgoing<J>>,
    again: Option<Again>,
    mute_until: u64,
    abort: Option<Outgoing<J>>,
    alloc: Global,
}

impl Again {
    /// The next time after this one, where there is one.
    fn after(now: u64, until: u64) -> Option<Again> {
        (now < until).then_some(Again {
            at: now.saturating_add(HELLO_EACH_MS),
            until,
        })
    }
}

/// Hands the events of what was heard on to the Sentinel, in their order, which it may take, and keeps the rest.
fn hand_on_all<J: Which, R: Wait>(
    rt: &R,
    near: &mut TransportEnd<J>,
    asides: &mut Asides,
    heard: Vec<Heard>,
    now: u64,
)
    requires { AllByRecursion (IsTakeable J.told) (events_in heard.items) }
{
    for told in heard {
        match told {
            Heard::Told(event) => near.hand_on(rt, event, now),
            Heard::Refused(refusal) => {
                let Refusal {
                    question,
                    text,
                    event,
                } = refusal;
                if let Some(event) = event {
                    near.hand_on(rt, event, now);
                }
                asides.refuse(question, text);
            }
            Heard::Row(row) => asides.tell_row(row),
            Heard::Nothing => {}
        }
    }
}

impl<J: Which, C: Connects<J>> PeerConnection<J, C> {
    /// A connection to a node that it may be to, which isn't open, and is to be opened at once, with so many
    /// milliseconds between two PINGs.
    pub(crate) fn new(alloc: Global, target: Target, ping_each: u64) -> PeerConnection<J, C>
        requires { ∥ J.reaches target ∥₁ }
        ensures { result.link.target ≡ target }
    {
        PeerConnection {
            link: SaidLink::new(alloc, target, ping_each),
            goes_on: false,
            is_ending: false,
            look_at: None,
            ended: None,
            asides: Asides::new(alloc),
            flow: RateLimit::new(),
            shut_until: 0,
            is_lost: false,
            is_barred: false,
            rows: RowLook::new(),
            acks_until: 0,
            hello: None,
            again: None,
            mute_until: 0,
            abort: None,
            alloc,
        }
    }

    /// The node that it is to.
    pub(crate) fn node(&self) -> NodeName
        ensures { result ≡ self.now.link.target.node }
    {
        self.link.target().node
    }

    /// Whether it takes the messages of this node.
    pub(crate) fn takes(&self, node: NodeName) -> bool
        ensures { IsTrue result ↔ ((self.now.link.target.node ≡ node) × (self.now.link.target.listens ≡ false)) }
    {
        let target = self.link.target();
        target.node == node && !target.listens
    }

    /// Whether it is to be opened now.
    pub(crate) fn is_due(&self, now: u64) -> bool {
        self.shut_until <= now && self.link.schedule().is_due(now)
    }

    /// Whether it is lost, which wasn't told since it was open last: it was refused, reset or given up, and isn't
    /// opened again at once. One that was given up for want of a password is lost each time, however soon it is opened
    /// again. One that hears hellos tells nothing.
    pub(crate) fn take_loss(&mut self, now: u64) -> bool {
        let schedule = self.link.schedule();
        if schedule.is_open() || self.is_barred {
            self.is_lost = false;
        }
        let is_shut = schedule.stage == Stage::Closed && !self.is_due(now);
        let is_gone = is_shut || self.is_barred;
        self.is_barred = false;
        if !is_gone || self.is_lost || self.link.target().listens {
            return false;
        }
        self.is_lost = true;
        true
    }

    /// Why it was closed since this was asked last, though it could be read.
    pub(crate) fn take_ended(&mut self) -> Option<Ended> {
        self.ended.take()
    }

    /// The errors by which its node refused what was asked, since this was asked last.
    pub(crate) fn take_refused(&mut self) -> Vec<Refused> {
        self.asides.take_refused()
    }

    /// The node that it is to, and at which address.
    pub(crate) fn target(&self) -> Target {
        self.link.target()
    }

    /// Whether it may have more to read.
    pub(crate) fn goes_on(&self) -> bool {
        self.goes_on
    }

    /// The system told that the node ends it, or that it broke: it is read to its end.
    pub(crate) fn note_end(&mut self) {
        self.is_ending = true;
    }

    /// Where the connection is closed, nothing more is to be read, and no row is awaited.
    fn settle(&mut self)
        ensures { self.new.link.target ≡ self.old.link.target }
    {
        if self.link.schedule().stage == Stage::Closed {
            self.goes_on = false;
            self.rows.end();
        }
    }

    /// Begins to open it.
    fn open(&mut self, net: &C, registry: &Registry, token: Token, login: Login<'_>, now: u64) {
        self.is_ending = false;
        self.link.open(net, registry, token, login, now);
    }

    /// Closes it where it is given up, or where a hello holds the other answers up: its node makes writes wait, and
    /// forgets with the connection what it held back. So it is opened again at once, and no hello goes out on it for a
    /// while.
    fn give_up(&mut self, now: u64) {
        if let Some(stale) = self.link.as_link().stale(now) {
            if stale == Stale::Unfinished {
                self.ended = Some(Ended::Unfinished);
            }
            self.link.close(now);
            self.settle();
        } else if self.link.as_link().is_held_up(now) {
            self.mute_until = now.saturating_add(MUTE_MS);
            self.renew(now);
        }
    }

    /// Closes it, to be opened again at once.
    fn renew(&mut self, now: u64)
        ensures { self.new.link.target ≡ self.old.link.target }
    {
        self.link.close(now);
        self.link.forgive();
        self.settle();
    }

    /// Closes it where it is given up, opens it where that is due, and asks what it asks by itself.
    pub(crate) fn keep(
        &mut self,
        net: &C,
        registry: &Registry,
        token: Token,
        login: Login<'_>,
        now: u64,
    ) {
        self.give_up(now);
        if self.is_due(now) {
            self.open(net, registry, token, login, now);
        }
        self.ask_due(now);
    }

    /// Asks what it asks by itself, and sends what it can. A fault has closed it.
    fn ask_due(&mut self, now: u64) {
        self.end_switch(now);
        let _ = self.link.ask_due(now);
        if let Some(at) = self.look_at {
            if at <= now {
                let _ = self.link.look(now);
                self.look_at = None;
            }
        }
        self.greet_again(now);
        self.send_out(now);
    }

    /// Keeps a message of its node: a hello that may go out once more, and the end of a switch until it is open anew.
    pub(crate) fn keep_message(&mut self, outgoing: Outgoing<J>) {
        match &outgoing.message().body {
            Body::HandOver(_) => self.abort = Some(outgoing),
            _ => self.hello = Some(outgoing),
        }
    }

    /// Puts out the end of a switch that was kept, once it is open. A fault has closed it.
    fn end_switch(&mut self, now: u64) {
        if !self.link.schedule().is_open() {
            return;
        }
        if let Some(abort) = self.abort.take() {
            if self.takes(abort.message().target) {
                let _ = self.link.ask(&abort, now);
            }
        }
    }

    /// Puts out the last hello once more, where that is due: again and again for `HELLO_AGAIN_MS` after an order, since
    /// nobody can tell when those who are to hear it are back. A fault has closed it.
    fn greet_again(&mut self, now: u64) {
        let until = match self.again {
            Some(again) if again.at <= now => again.until,
            _ => return,
        };
        self.again = Again::after(now, until);
        if now < self.mute_until {
            return;
        }
        if let Some(hello) = self.hello.take() {
            if self.takes(hello.message().target) {
                let _ = self.link.ask(&hello, now);
            }
            self.hello = Some(hello);
        }
    }

    /// When it is to ask or say something once more next.
    pub(crate) fn next_due(&self) -> Option<u64> {
        match (self.look_at, self.again) {
            (Some(look), Some(again)) => Some(look.min(again.at)),
            (look, None) => look,
            (None, Some(again)) => Some(again.at),
        }
    }

    /// Asks another Sentinel for its row of a master of this roster, one after the other, where that is due. A fault
    /// has closed it.
    pub(crate) fn ask_row(&mut self, roster: &Roster, now: u64) {
        let NodeName::SentinelAt(_) = self.link.target().node else {
            return;
        };
        let number = self.rows.master(roster.masters().len());
        let Some(master) = roster.masters().get(number as usize) else {
            return;
        };
        if self.rows.is_due(now) {
            if let Ok(true) = self.link.ask_row(master.name.as_slice(), now) {
                self.rows.begin(number, now);
            }
            self.send_out(now);
        }
    }

    /// What another Sentinel's row of the master with this number says, where an answer came since this was asked last.
    pub(crate) fn take_row(&mut self) -> Option<(u16, RowHeard)> {
        self.rows.take()
    }

    /// What was silent so far counts no more, and it sends a PING: this Sentinel stood still.
    pub(crate) fn ask_anew(&mut self, now: u64) {
        self.link.excuse(now);
        let _ = self.link.ping(now);
        self.send_out(now);
    }

    /// A master hands over to its node: beside each INFO that is asked of it from now on for `ACKS_MS` it is asked to
    /// acknowledge its master's stream, for which the master waits.
    pub(crate) fn hurry(&mut self, now: u64) {
        self.acks_until = now.saturating_add(ACKS_MS);
    }

    /// Asks its node to acknowledge its master's stream, where it is asked for INFO and a master hands over to it. A
    /// fault has closed it.
    fn ask_ack(&mut self, body: &Body, now: u64)
        ensures { self.new.link.target ≡ self.old.link.target }
    {
        if let Body::InfoAsk = body {
            if now < self.acks_until {
                let _ = self.link.ask_ack(now);
            }
        }
    }

    /// What a message changes before it is put out: whether it is put out now. No hello goes to a node from the order
    /// to hand over on until the switch ends, since a node that hands over makes writes wait, and whatever comes behind
    /// them. The end of a switch goes out once the connection is open anew, so that it waits behind nothing.
    fn prepare(&mut self, body: &Body, now: u64) -> bool
        ensures { self.new.link.target ≡ self.old.link.target }
    {
        match body {
            Body::Publish(_) => return now >= self.mute_until,
            Body::HandOver(Some(_)) => self.mute_until = now.saturating_add(SWITCH_MS),
            Body::HandOver(None) => {
                self.mute_until = 0;
                self.renew(now);
                return false;
            }
            Body::ReplicaOf(_) => self.mute_until = 0,
            _ => {}
        }
        true
    }

    /// Puts out a message where it is open, and sends what it can; else the message is lost. What came of an order to
    /// follow a master, or none, is asked with it and once more soon, and the last hello goes out again. A fault has
    /// closed it.
    pub(crate) fn ask(&mut self, outgoing: &Outgoing<J>, now: u64)
        requires { (self.old.link.target.node ≡ outgoing.now.target) × (self.old.link.target.listens ≡ false) }
    {
        let message = outgoing.message();
        if !self.prepare(&message.body, now) {
            return;
        }
        self.ask_ack(&message.body, now);
        let _ = self.link.ask(outgoing, now);
        if let Body::ReplicaOf(_) = message.body {
            let _ = self.link.look(now);
            self.look_at = Some(now.saturating_add(LOOK_MS));
            self.again = Again::after(now, now.saturating_add(HELLO_AGAIN_MS));
        }
        self.send_out(now);
    }

    /// Sends what is unsent, where it is open. A socket that takes no more closes it.
    fn send_out(&mut self, now: u64) {
        if self.link.schedule().is_open() && !self.link.send() {
            self.link.close(now);
        }
        self.settle();
    }

    /// Takes in what another Sentinel answered that was asked for its row of a master, if it did.
    fn hear_row(&mut self) {
        if let Some(row) = self.asides.take_row() {
            self.rows.hear(row);
        }
        if let Some(error) = self.asides.row_refused() {
            self.rows.refuse(error);
        }
    }

    /// Reads one piece and hands on its events: its length. `InvalidData`: the node exceeded the message rate, and the
    /// link is closed for one second. `PermissionDenied`: the node wants a password first.
    #[tactic(auto, using(crate::proofs::Hearing::all_takeable))]
    fn read_once<R: Wait>(
        &mut self,
        rt: &R,
        near: &mut TransportEnd<J>,
        room: &mut [u8],
        now: u64,
    ) -> Result<usize, ErrorKind> {
        let mut heard = Vec::new(self.alloc);
        let read = self.link.hear(room, now, &mut heard);
        let is_flooded = self.flow.add(now, heard.len() as u64);
        hand_on_all(rt, near, &mut self.asides, heard, now);
        self.hear_row();
        if is_flooded {
            self.shut_until = now.saturating_add(FLOW_MS);
            return Err(ErrorKind::InvalidData);
        }
        match read {
            Ok(count) => {
                if self.asides.take_wish() {
                    self.is_barred = true;
                    return Err(ErrorKind::PermissionDenied);
                }
                Ok(count)
            }
            Err(Unheard::Stream(kind)) => Err(kind),
            Err(Unheard::Fault(fault)) => {
                self.ended = Some(Ended::Fault(fault));
                Err(ErrorKind::InvalidData)
            }
        }
    }

    /// Reads what came, and hands on what that tells: whether the socket is whole. After many reads the next connection
    /// has its turn. A read that gave less than it asked for took all that was there: what comes later is told by the
    /// system, an end that it told of before isn't.
    fn read_in<R: Wait>(
        &mut self,
        rt: &R,
        near: &mut TransportEnd<J>,
        room: &mut [u8],
        now: u64,
    ) -> bool {
        self.goes_on = false;
        for _ in 0..READS_MAX {
            match self.read_once(rt, near, room, now) {
                Ok(count) if count < room.len() && !self.is_ending => return true,
                Ok(_) | Err(ErrorKind::Interrupted) => {}
                Err(ErrorKind::WouldBlock) => return true,
                Err(_) => return false,
            }
        }
        self.goes_on = true;
        true
    }

    /// Whether it is open, once the system has told of it; a socket that can't be had closes it.
    fn has_reached(&mut self, now: u64) -> bool {
        if self.link.schedule().is_open() {
            return true;
        }
        match self.link.is_connected() {
            Some(true) => self.link.reach(now),
            Some(false) => self.link.close(now),
            None => {}
        }
        self.link.schedule().is_open()
    }

    /// Goes on once the system has told of it: reads what came, hands on what that tells, and sends what is unsent and
    /// due. Where the node ends a connection that had lasted, it is to be opened again at once.
    pub(crate) fn serve<R: Wait>(
        &mut self,
        rt: &R,
        near: &mut TransportEnd<J>,
        room: &mut [u8],
        now: u64,
    ) {
        let is_lasting = self.link.schedule().is_lasting(now);
        if self.has_reached(now) && !self.read_in(rt, near, room, now) {
            self.link.close(now);
            if is_lasting {
                self.link.forgive();
            }
        }
        self.ask_due(now);
    }
}
