//! The turns of a port's connections: who is answered, sent to and told of what happened, and in which order.

ghost use Rattle.std.specs.Prelude.{◌≡◌, ◌≢◌, ◌⊎◌, ℕ, Some, IfSome, true};
ghost use Rattle.slab.specs.Slab.{get};
ghost use Rattle.courteous_sessions.specs.Clients.{listens_of};
ghost use Rattle.client_port.specs.Admitting.{is_stuck};

use crate::clients::Clients;
use crate::waiting::Line;
use mio::event::Event;
use sentinel_conf::ConfStore;
use sentinel_runtime::{News, RunState, RunningSentinel, ThreadSeat, Which};
use std::rt::Clock;
use std::sync::Wait;
use std::sync::atomic::{AtomicU64, Ordering};

/// How long it is at least between two looks at those that are silent, in milliseconds; for so long one is set aside
/// that may not go.
const LOOK_MS: u64 = 1_000;

/// How long a round of one line lasts before the next line has its own, and the system is asked what came, in
/// milliseconds; the turn in hand ends after it.
const ROUND_MS: u64 = 20;

/// How many unsent bytes a connection may leave in any case; from so many on it sends them before others are answered.
const LEFT_MAX: usize = 16_384;

/// How many connections may have room in which nothing is held, beside those that have a turn: as many as the system
/// tells of at once, so that what those were answered that give it back is sent.
const ROOMY_MAX: usize = 256;

/// How many subscribers are told of what happened before the other connections have their turn.
const TOLD_AT_ONCE: usize = 128;

impl Clients {
    /// Whether a round that began at this reading of the clock is over, or the group ends.
    fn is_round_over(&self, began: u64, ending: &AtomicU64) -> bool {
        self.reading.saturating_sub(began) >= ROUND_MS || ending.load(Ordering::SeqCst) != 0
    }

    /// Notes what the system told of one connection: it waits for its turn where it has something to do, and to send
    /// what it can.
    #[tactic(auto, using(crate::proofs::Keeping::kept_few, crate::proofs::Keeping::others_kept, crate::proofs::Keeping::others_closed))]
    pub(crate) fn note_event(&mut self, event: &Event) {
        let key = event.token().0;
        let Some(connection) = self.connections.get_mut(key) else {
            return;
        };
        let half = event.is_read_closed() || event.is_error();
        if half || event.is_readable() {
            connection.note_readable(half);
        }
        if connection.wants_turn() {
            self.waiting.join(connection.line(), key);
        }
        self.waiting.sending.join(key);
    }

    /// Whether a connection that waited in this line has something to do there. One that waits elsewhere by now joins
    /// that line.
    fn is_in(&mut self, line: Line, key: usize) -> bool
        ensures { self.new.connections ≡ self.old.connections }
    {
        let Some(connection) = self.connections.get(key) else {
            return false;
        };
        if !connection.wants_turn() {
            return false;
        }
        let found = connection.line();
        if found == line {
            return true;
        }
        self.waiting.join(found, key);
        false
    }

    /// Has one connection read and answer, and drops it where it is broken. The clock's reading is that of its end.
    #[tactic(auto, using(crate::proofs::Keeping::kept_few, crate::proofs::Keeping::others_kept, crate::proofs::Keeping::others_closed))]
    fn answer_one<J: Which, S: ConfStore, R: Wait + Clock>(
        &mut self,
        rt: &R,
        state: &RunState,
        member: &RunningSentinel<J, S>,
        seat: &mut ThreadSeat<J>,
        key: usize,
    )
        ensures others { (other : ℕ) → other ≢ key → get self.new.connections other ≡ get self.old.connections other }
    {
        let Some(connection) = self.connections.get_mut(key) else {
            return;
        };
        let began = state.clock.now(rt);
        self.reading = began;
        self.roll.count(&*self.seats, began);
        self.roll.swap(connection);
        let is_whole = connection.turn(rt, state, member, seat, began);
        self.reading = state.clock.now(rt);
        self.roll.swap(connection);
        self.roll.note(key, connection);
        self.seats.note_answered(connection.take_answered());
        if self.roll.is_killed(key) {
            connection.end();
        }
        if !is_whole {
            return self.close(key);
        }
        if connection.listens() {
            self.waiting.listeners.join(key);
        }
        self.waiting.active.join(key);
    }

    /// Counts what a connection leaves unsent, and closes it where that is too much for all of them together.
    #[tactic(auto, using(crate::proofs::Keeping::kept_few, crate::proofs::Keeping::others_kept, crate::proofs::Keeping::others_closed))]
    fn count_unsent(&mut self, key: usize)
        ensures others { (other : ℕ) → other ≢ key → get self.new.connections other ≡ get self.old.connections other }
    {
        let Some(connection) = self.connections.get_mut(key) else {
            return;
        };
        let before = connection.counted();
        let after = connection.count_unsent(self.reading);
        self.unsent = self.unsent.saturating_sub(before).saturating_add(after);
        if self.terms.makes_room && after >= LEFT_MAX && self.unsent > self.unsent_max() {
            self.close(key);
        }
    }

    /// Sends what one connection can send, and closes it where it ended.
    #[tactic(auto, using(crate::proofs::Keeping::kept_few, crate::proofs::Keeping::others_kept, crate::proofs::Keeping::others_closed))]
    fn send_one(&mut self, key: usize)
        ensures others { (other : ℕ) → other ≢ key → get self.new.connections other ≡ get self.old.connections other }
    {
        let Some(client) = self.connections.get_mut(key) else {
            return;
        };
        if !client.send() || client.is_done() {
            return self.close(key);
        }
        if client.wants_turn() {
            self.waiting.join(client.line(), key);
            self.busy = true;
        }
        self.count_unsent(key);
    }

    /// How many bytes of a connection are unsent.
    fn left_of(&self, key: usize) -> usize {
        match self.connections.get(key) {
            Some(connection) => connection.left(),
            None => 0,
        }
    }

    /// Serves those of the addresses of other Sentinels, each at once.
    fn serve_peers<J: Which, S: ConfStore, R: Wait + Clock>(
        &mut self,
        rt: &R,
        state: &RunState,
        member: &RunningSentinel<J, S>,
        seat: &mut ThreadSeat<J>,
        ending: &AtomicU64,
    ) {
        let began = self.reading;
        for _ in 0..self.waiting.peers.len() {
            if self.is_round_over(began, ending) {
                return;
            }
            if let Some(key) = self.waiting.peers.next()
                && self.is_in(Line::Peer, key)
            {
                self.answer_one(rt, state, member, seat, key);
                self.send_one(key);
            }
        }
    }

    /// Has the others read and answer that wait for nothing that may be stored. What is sent to them comes after that,
    /// as then a client that waits is woken once for all of its connections; but who leaves much is sent it at once.
    fn answer_plain<J: Which, S: ConfStore, R: Wait + Clock>(
        &mut self,
        rt: &R,
        state: &RunState,
        member: &RunningSentinel<J, S>,
        seat: &mut ThreadSeat<J>,
        ending: &AtomicU64,
    ) {
        let began = self.reading;
        for _ in 0..self.waiting.plain.len() {
            if self.is_round_over(began, ending) {
                return;
            }
            if let Some(key) = self.waiting.plain.next()
                && self.is_in(Line::Plain, key)
            {
                self.answer_one(rt, state, member, seat, key);
                if self.left_of(key) < LEFT_MAX {
                    self.waiting.sending.join(key);
                } else {
                    self.send_one(key);
                }
                self.rest_first();
            }
        }
    }

    /// Sends to all that may have something to send.
    fn send_all(&mut self) {
        for _ in 0..self.waiting.sending.len() {
            if let Some(key) = self.waiting.sending.next() {
                self.send_one(key);
            }
        }
    }

    /// Whether a connection has something to do before the next wait.
    fn waits(&self, key: usize) -> bool {
        match self.connections.get(key) {
            Some(connection) => connection.wants_turn(),
            None => false,
        }
    }

    /// The connection that is next among those that wait for what may be stored and have something to do, where there
    /// is one.
    fn next_voter(&mut self) -> Option<usize>
        ensures { self.new.connections ≡ self.old.connections }
    {
        for _ in 0..self.waiting.voter_count() {
            let key = self.waiting.next_voter()?;
            if self.waits(key) {
                return Some(key);
            }
        }
        None
    }

    /// Serves those that have something to do: first those of the addresses of other Sentinels, each at once; then the
    /// others, whom they are sent to together; and then at most one whose value may be stored, so nobody waits for two
    /// fsyncs. Each of the first two rounds ends after `ROUND_MS`, and all of it when the group ends.
    pub(crate) fn serve<J: Which, S: ConfStore, R: Wait + Clock>(
        &mut self,
        rt: &R,
        state: &RunState,
        member: &RunningSentinel<J, S>,
        seat: &mut ThreadSeat<J>,
        ending: &AtomicU64,
    ) {
        self.reading = state.clock.now(rt);
        self.serve_peers(rt, state, member, seat, ending);
        self.answer_plain(rt, state, member, seat, ending);
        self.close_killed();
        self.send_all();
        if let Some(key) = self.next_voter() {
            self.answer_one(rt, state, member, seat, key);
            self.send_one(key);
            self.close_killed();
        }
        self.busy = self.waiting.is_busy();
    }

    /// Tells one connection of what happened, and closes it where it has no memory for that.
    #[tactic(auto, using(crate::proofs::Keeping::kept_few, crate::proofs::Keeping::others_kept, crate::proofs::Keeping::others_closed))]
    fn tell_one<J: Which, S: ConfStore>(
        &mut self,
        member: &RunningSentinel<J, S>,
        told: &[News<J>],
        key: usize,
    )
        ensures others { (other : ℕ) → other ≢ key → get self.new.connections other ≡ get self.old.connections other }
    {
        let Some(connection) = self.connections.get_mut(key) else {
            return;
        };
        if !connection.listens() {
            return;
        }
        if !connection.tell(member, told) {
            return self.close(key);
        }
        self.waiting.listeners.join(key);
        self.waiting.active.join(key);
        self.count_unsent(key);
    }

    /// Tells the next `TOLD_AT_ONCE` of the subscribers that aren't told yet of what happened, or fewer where that
    /// lasts for `ROUND_MS`. Those that listen no more leave the line.
    fn tell_next<J: Which, S: ConfStore, R: Wait + Clock>(
        &mut self,
        rt: &R,
        state: &RunState,
        member: &RunningSentinel<J, S>,
        told: &[News<J>],
    ) {
        let began = state.clock.now(rt);
        for _ in 0..self.untold.min(TOLD_AT_ONCE) {
            self.untold = self.untold.saturating_sub(1);
            if let Some(key) = self.waiting.listeners.next() {
                self.tell_one(member, told, key);
                self.rest_first();
            }
            if state.clock.now(rt).saturating_sub(began) >= ROUND_MS {
                break;
            }
        }
        if self.untold > 0 {
            self.busy = true;
        }
    }

    /// Nothing that happened yet.
    pub(crate) fn no_news<J: Which>(&self) -> Vec<News<J>> {
        Vec::new(self.alloc)
    }

    /// Delivers pending events to this thread's subscribers, oldest first; other events than new addresses only in
    /// Redis's profile. If there are many subscribers, some are told in this turn and the others in the next ones, so
    /// no other client waits for all of them. `told` has what is being told until all were told.
    pub(crate) fn tell_news<J: Which, S: ConfStore, R: Wait + Clock>(
        &mut self,
        rt: &R,
        state: &RunState,
        member: &RunningSentinel<J, S>,
        thread: u16,
        told: &mut Vec<News<J>>,
    ) {
        if self.untold == 0 {
            *told = member.take_news(rt, thread);
            if told.is_empty() {
                return;
            }
            self.untold = self.waiting.listeners.len();
        }
        self.tell_next(rt, state, member, told.as_slice());
    }

    /// Has a connection give back its room where no byte came of it for `LOOK_MS`; else it is looked at again later.
    #[tactic(auto, using(crate::proofs::Keeping::kept_few, crate::proofs::Keeping::others_kept))]
    fn rest_one(&mut self, key: usize)
        ensures others { (other : ℕ) → other ≢ key → get self.new.connections other ≡ get self.old.connections other }
    {
        let Some(connection) = self.connections.get_mut(key) else {
            return;
        };
        if self.reading.saturating_sub(connection.heard()) >= LOOK_MS {
            connection.rest();
        } else {
            self.waiting.active.join(key);
        }
    }

    /// Where more than `ROOMY_MAX` may have room in which nothing is held, the one gives it back that has had it for
    /// longest: else many that had a turn each within `LOOK_MS` would all have some.
    #[tactic(auto, using(crate::proofs::Keeping::kept_few))]
    fn rest_first(&mut self) {
        if self.waiting.active.len() <= ROOMY_MAX {
            return;
        }
        if let Some(key) = self.waiting.active.next()
            && let Some(connection) = self.connections.get_mut(key)
        {
            connection.rest();
        }
    }

    /// Has those give back their room from which no byte came for `LOOK_MS`.
    fn rest_silent(&mut self) {
        for _ in 0..self.waiting.active.len() {
            if let Some(key) = self.waiting.active.next() {
                self.rest_one(key);
            }
        }
    }

    /// Looks at a connection that listened: one that listens stays in the line, unless it left what it was told unsent
    /// for `STUCK_MS`: then it is closed.
    #[tactic(auto, using(crate::proofs::Keeping::all_stay))]
    fn look_at_listener(&mut self, key: usize)
        ensures others { (other : ℕ) → other ≢ key → get self.new.connections other ≡ get self.old.connections other }
        ensures stuck { IfSome (get self.old.connections key) (λ c. (get self.new.connections key ≡ Some c)
            ⊎ ((listens_of c.session ≡ true) × (is_stuck c.stuck self.old.reading ≡ true))) }
    {
        let Some(connection) = self.connections.get(key) else {
            return;
        };
        if !connection.listens() {
            return;
        }
        if connection.is_stuck(self.reading) {
            return self.close(key);
        }
        self.waiting.listeners.join(key);
    }

    /// Looks at all that listen, but while some of them are still to be told of something.
    fn look_at_listeners(&mut self) {
        if self.untold > 0 {
            return;
        }
        for _ in 0..self.waiting.listeners.len() {
            if let Some(key) = self.waiting.listeners.next() {
                self.look_at_listener(key);
            }
        }
    }

    /// Closes those that are idle for long.
    fn close_idle(&mut self) {
        for _ in 0..self.connections.len() {
            let next = self
                .seating
                .next_idle(&self.connections, self.terms.idle_ms, self.reading);
            let Some(key) = next else {
                return;
            };
            self.close(key);
        }
    }

    /// Has those that are silent give back their room, and closes those that are idle for long and those that don't
    /// read what they are told. It looks at most once in `LOOK_MS`: whether it looked.
    pub(crate) fn look_at_silent(&mut self) -> bool {
        if self.reading < self.next_look {
            return false;
        }
        self.next_look = self.reading.saturating_add(LOOK_MS);
        self.rest_silent();
        self.look_at_listeners();
        self.seating.look_again(&self.connections);
        self.close_idle();
        true
    }
}
