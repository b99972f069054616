//! The failover of one master.

ghost use Rattle.std.specs.Prelude.{◌≡◌, ℕ, ◌*◌, None, Some, IfOk, length, replicate};
ghost use Rattle.ballot_law.specs.Clocks.{clock};
ghost use Rattle.failover_states.specs.Calls.{epoch_of, choice_of, promoted_card, promoted, recalled, recalled_to, reconfigured};
ghost use Rattle.failover_states.specs.Failovers.{entering, ended};
ghost use Rattle.failover_states.specs.Known.{known};
ghost use Rattle.failover_states.specs.Replicas.{untouched, replica_at};
ghost use Rattle.failover_states.specs.Table.{is_long_ago, is_over, expiring, turn_in, turned};

use crate::periods::{ELECTION_MS, SPREAD_MS};
use crate::replicas::{Masters, Progress, Replica, clear_orders, expire, forget};
use crate::states::{Choice, FailoverState, Row};
use crate::turns::{Act, Facts};
use ballot_law::{Card, NoMemory, clock_of};
use std::alloc::Global;
use std::marker::Model;

/// The failover of one master: how far it has come and since when, the moment of the last start, and what was sent to
/// each of the master's nodes.
#[derive(Drop)]
pub struct Failover {
    state: FailoverState,
    entered: u64,
    last_start: Option<u64>,
    replicas: Vec<Replica>,
    moment: u64,
}

impl Model for Failover {
    ghost use Rattle.failover_states.specs.Failovers.{Failover as FailoverModel};

    ghost Value = { FailoverModel };

    ghost view = { λ f. record {
      state = f.state;
      entered = f.entered;
      last_start = f.last_start;
      replicas = f.replicas.items;
      moment = f.moment;
    } };
}

/// Whether two timeouts have passed since the last start.
fn is_past_last_start(last_start: Option<u64>, timeout: u64, now: u64) -> bool
    ensures { result ≡ is_long_ago last_start (2 * timeout) now }
{
    match last_start {
        Some(start) => {
            let past = now.saturating_sub(start);
            past / 2 >= timeout
        }
        None => true,
    }
}

/// The state in which the choice is told once more, where it is awaited; else the same one.
fn recalled_to(state: FailoverState) -> FailoverState
    ensures { result ≡ recalled_to state }
{
    match state {
        FailoverState::WaitPromotion { epoch, choice, .. } => {
            FailoverState::SendPromotion { epoch, choice }
        }
        _ => state,
    }
}

impl Failover {
    /// No failover, and none started yet, of a master with `n` nodes.
    pub fn new(alloc: Global, n: u16) -> Result<Failover, NoMemory>
        ensures { IfOk result (λ f. f ≡ record {
          state = FailoverState.Idle;
          entered = 0;
          last_start = None;
          replicas = replicate n untouched;
          moment = 0;
        }) }
    {
        let untouched = Replica {
            progress: Progress::Unsent,
            ordered: false,
        };
        Ok(Failover {
            state: FailoverState::Idle,
            entered: 0,
            last_start: None,
            replicas: vec![in alloc; untouched; n as usize]?,
            moment: 0,
        })
    }

    /// How far the failover has come.
    pub fn state(&self) -> FailoverState
        ensures { result ≡ self.now.state }
    {
        self.state
    }

    /// The epoch of the failover's campaign; none where no failover runs.
    pub fn epoch(&self) -> Option<u64>
        ensures { result ≡ epoch_of self.now.state }
    {
        match self.state {
            FailoverState::Idle => None,
            FailoverState::WaitStart { epoch } => Some(epoch),
            FailoverState::SelectReplica { epoch } => Some(epoch),
            FailoverState::SendPromotion { epoch, .. } => Some(epoch),
            FailoverState::WaitPromotion { epoch, .. } => Some(epoch),
            FailoverState::ReconfReplicas { epoch, .. } => Some(epoch),
            FailoverState::UpdateConfig { epoch, .. } => Some(epoch),
        }
    }

    /// The place of the chosen replica; none before one was chosen.
    pub fn choice(&self) -> Option<u16>
        ensures { result ≡ choice_of self.now.state }
    {
        match self.state {
            FailoverState::Idle
            | FailoverState::WaitStart { .. }
            | FailoverState::SelectReplica { .. } => None,
            FailoverState::SendPromotion { choice, .. } => Some(choice.place),
            FailoverState::WaitPromotion { choice, .. } => Some(choice.place),
            FailoverState::ReconfReplicas { choice, .. } => Some(choice.place),
            FailoverState::UpdateConfig { choice, .. } => Some(choice.place),
        }
    }

    /// How many nodes the master has.
    pub fn node_count(&self) -> usize
        ensures { result ≡ length self.now.replicas }
    {
        self.replicas.len()
    }

    /// Whether the last turn tells the node at a place to follow the new master, by REPLICAOF with the address of its
    /// configuration. False where the master has no such node.
    pub fn ordered(&self, place: u16) -> bool
        ensures { result ≡ (replica_at self.now.replicas place).ordered }
    {
        let place = place as usize;
        place < self.replicas.len() && self.replicas[place].ordered
    }

    /// Sets the moment of the last start, as after a vote for another Sentinel: the next failover of this Sentinel
    /// starts two timeouts later at the earliest.
    pub fn mark(&mut self, at: u64)
        ensures { self.new ≡ record self.old { last_start = Some (clock at) } }
    {
        self.last_start = Some(clock_of(at));
    }

    /// The moment of the last start; none where none is kept.
    pub fn last_start(&self) -> Option<u64>
        ensures { result ≡ self.now.last_start }
    {
        self.last_start
    }

    /// Forgets the last start, as where the master is another one now: the next failover waits for none.
    pub fn forget_start(&mut self)
        ensures { self.new ≡ record self.old { last_start = None } }
    {
        self.last_start = None;
    }

    /// Sets the moment at which the next [`Failover::promoted`] counts as seen, 0 at first.
    pub fn at(&mut self, now: u64)
        ensures { self.new ≡ record self.old { moment = clock now } }
    {
        self.moment = clock_of(now);
    }

    /// The chosen replica says that it is a master. While its promotion is awaited this gives the master's new
    /// configuration, and the other replicas are reconfigured from now on, counted from the moment of the last
    /// [`Failover::at`]. Elsewhere the answer is None and nothing changes.
    pub fn promoted(&mut self) -> Option<Card>
        ensures card { result ≡ promoted_card self.old.state }
        ensures after { self.new ≡ promoted self.old.state self.old }
    {
        match self.state {
            FailoverState::WaitPromotion {
                epoch,
                choice,
                former,
            } => {
                forget(&mut self.replicas);
                let moment = self.moment;
                self.enter(
                    FailoverState::ReconfReplicas {
                        epoch,
                        choice,
                        former,
                    },
                    moment,
                );
                Some(Card {
                    epoch,
                    addr: choice.addr,
                })
            }
            _ => None,
        }
    }

    /// A choice that is awaited is to be told once more that it is the master, by the next turn; the state that the
    /// failover is in counts as entered now.
    pub fn recall(&mut self, now: u64)
        ensures { self.new ≡ recalled (clock now) self.old }
    {
        let state = recalled_to(self.state);
        self.enter(state, clock_of(now));
    }

    /// The node at a place follows the new master, and its link to it is up. While replicas are reconfigured one that
    /// was sent to is done; in every other case nothing changes. A replica that is done keeps no moment, so the time of
    /// the news has no part in it.
    pub fn reconf(&mut self, place: u16, _now: u64)
        ensures { self.new ≡ reconfigured self.old.state self.old place }
    {
        if let FailoverState::ReconfReplicas { .. } = self.state {
            let place = place as usize;
            if place < self.replicas.len() {
                self.replicas[place] = self.replicas[place].follows();
            }
        }
    }

    /// Ends the failover, as where a newer configuration of the master is adopted. The moment of the last start stays.
    pub fn end(&mut self)
        ensures { self.new ≡ ended self.old }
    {
        self.state = FailoverState::Idle;
        forget(&mut self.replicas);
    }

    /// Takes the first row of the failover's state that fits, and tells which. While votes are awaited the own vote is
    /// given first, and counts in that row. While replicas are reconfigured those that were told more than 10,000 ms
    /// ago count as done first. [`Failover::ordered`] then shows whom this turn tells to follow the new master.
    pub fn turn(&mut self, facts: &Facts) -> Act
        ensures { record { failover = self.new; row = result.row; vote = result.vote }
            ≡ turned self.old (known facts.entry.now) }
    {
        clear_orders(&mut self.replicas);
        match self.state {
            FailoverState::Idle => self.idle(facts),
            FailoverState::WaitStart { epoch } => self.wait_start(epoch, facts),
            FailoverState::SelectReplica { epoch } => self.select_replica(epoch, facts),
            FailoverState::SendPromotion { epoch, choice } => self.send_promotion(
                epoch, choice, facts,
            ),
            FailoverState::WaitPromotion { .. } => self.wait_promotion(facts),
            FailoverState::ReconfReplicas {
                epoch,
                choice,
                former,
            } => self.reconf_replicas(epoch, Masters { choice, former }, facts),
            FailoverState::UpdateConfig { .. } => self.update_config(),
        }
    }
}

/// The rows of each state.
impl Failover {
    fn enter(&mut self, state: FailoverState, now: u64)
        ensures { self.new ≡ entering state now self.old }
    {
        self.state = state;
        self.entered = now;
    }

    /// Whether the state was entered longer ago than that.
    fn is_over(&self, bound: u64, facts: &Facts) -> bool
        ensures { result ≡ is_over bound self.now (known facts.entry.now) }
    {
        clock_of(facts.now).saturating_sub(self.entered) > bound
    }

    fn idle(&mut self, facts: &Facts) -> Act
        ensures { record { failover = self.new; row = result.row; vote = result.vote }
            ≡ turn_in FailoverState.Idle self.old (known facts.entry.now) }
    {
        let now = clock_of(facts.now);
        if facts.odown
            && is_past_last_start(self.last_start, facts.timeout, now)
            && let Some(epoch) = facts.book().open_campaign()
        {
            self.last_start = Some(now + facts.random % SPREAD_MS);
            self.enter(FailoverState::WaitStart { epoch }, now);
            return Act::of(Row::StartFailover);
        }
        Act {
            row: None,
            vote: None,
        }
    }

    fn wait_start(&mut self, epoch: u64, facts: &Facts) -> Act
        ensures { record { failover = self.new; row = result.row; vote = result.vote }
            ≡ turn_in (FailoverState.WaitStart epoch) self.old (known facts.entry.now) }
    {
        let vote = facts.vote_in(epoch);
        if facts.is_elected(epoch) {
            self.enter(FailoverState::SelectReplica { epoch }, clock_of(facts.now));
            return Act {
                row: Some(Row::Elected),
                vote,
            };
        }
        if self.is_over(facts.timeout.min(ELECTION_MS), facts) {
            self.end();
            return Act {
                row: Some(Row::ElectionTimeout),
                vote,
            };
        }
        Act {
            row: Some(Row::AwaitVotes),
            vote,
        }
    }

    fn select_replica(&mut self, epoch: u64, facts: &Facts) -> Act
        ensures { record { failover = self.new; row = result.row; vote = result.vote }
            ≡ turn_in (FailoverState.SelectReplica epoch) self.old (known facts.entry.now) }
    {
        match facts.best {
            Some((place, addr)) => {
                let choice = Choice { place, addr };
                self.enter(
                    FailoverState::SendPromotion { epoch, choice },
                    clock_of(facts.now),
                );
                Act::of(Row::ReplicaChosen)
            }
            None => {
                self.end();
                Act::of(Row::NoReplica)
            }
        }
    }

    fn send_promotion(&mut self, epoch: u64, choice: Choice, facts: &Facts) -> Act
        ensures { record { failover = self.new; row = result.row; vote = result.vote }
            ≡ turn_in (FailoverState.SendPromotion epoch choice) self.old (known facts.entry.now) }
    {
        if !facts.is_down(choice.place as usize) {
            let former = facts.card_place;
            self.enter(
                FailoverState::WaitPromotion {
                    epoch,
                    choice,
                    former,
                },
                clock_of(facts.now),
            );
            return Act::of(Row::Promote);
        }
        if self.is_over(facts.timeout, facts) {
            self.end();
            return Act::of(Row::ChoiceTimeout);
        }
        Act::of(Row::AwaitChoice)
    }

    fn wait_promotion(&mut self, facts: &Facts) -> Act
        ensures { (epoch : ℕ) (choice : Choice) (former : ℕ)
            → record { failover = self.new; row = result.row; vote = result.vote }
            ≡ turn_in (FailoverState.WaitPromotion epoch choice former) self.old (known facts.entry.now) }
    {
        if self.is_over(facts.timeout, facts) {
            self.end();
            return Act::of(Row::PromotionTimeout);
        }
        Act::of(Row::AwaitPromotion)
    }

    fn reconf_replicas(&mut self, epoch: u64, masters: Masters, facts: &Facts) -> Act
        ensures { let state = FailoverState.ReconfReplicas epoch masters.choice masters.former in
            let told = expiring state (clock facts.entry.now.now) self.old in
            record { failover = self.new; row = result.row; vote = result.vote }
            ≡ turn_in state told (known facts.entry.now) }
    {
        let now = clock_of(facts.now);
        let choice = masters.choice;
        expire(&mut self.replicas, now);
        if self.is_over(facts.timeout, facts) {
            masters.tell_all(facts, &mut self.replicas);
            self.enter(FailoverState::UpdateConfig { epoch, choice }, now);
            return Act::of(Row::ReconfTimeout);
        }
        if masters.are_settled(facts, &self.replicas) {
            self.enter(FailoverState::UpdateConfig { epoch, choice }, now);
            return Act::of(Row::ReconfDone);
        }
        masters.tell_next(facts, &mut self.replicas);
        Act::of(Row::Reconfigure)
    }

    fn update_config(&mut self) -> Act
        ensures over { self.new ≡ ended self.old }
        ensures act { result ≡ record { row = Some Row.ConfigUpdated; vote = None } }
    {
        self.end();
        Act::of(Row::ConfigUpdated)
    }
}
