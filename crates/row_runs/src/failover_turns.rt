//! The failover of one master, and what the Sentinel knows at its turns.

use crate::given::{id, maybe_id, number, number_16, number_32, says, text};
use crate::told::{Told, Unplayed};
use ballot_law::{Addr, RunId};
use failover_states::{Facts, Failover, FailoverState, Row};
use std::alloc::Global;

/// The Sentinel's own run id.
const ME: RunId = RunId { hi: 10, lo: 1 };

/// The best replica.
const BEST: Addr = Addr {
    ip: 2_130_706_433,
    port: 6_380,
};

/// What the Sentinel knows where no row tells otherwise.
const FACTS: Facts<'static> = Facts {
    now: 0,
    random: 0,
    odown: true,
    current: 4,
    voted: 0,
    own: None,
    me: ME,
    need: 2,
    pick: ME,
    count: 0,
    best: Some((1, BEST)),
    card_place: 0,
    down: &[],
    timeout: 3_000,
    parallel_syncs: 1,
};

/// A failover with what is known at its turns, and the vote of the last one.
#[derive(Drop)]
pub(crate) struct Turns {
    alloc: Global,
    failover: Option<Failover>,
    known: Facts<'static>,
    down: Vec<bool>,
    vote: Option<RunId>,
}

/// The name of a state.
fn state_name(state: FailoverState) -> &'static str {
    match state {
        FailoverState::Idle => "Idle",
        FailoverState::WaitStart { .. } => "WaitStart",
        FailoverState::SelectReplica { .. } => "SelectReplica",
        FailoverState::SendPromotion { .. } => "SendPromotion",
        FailoverState::WaitPromotion { .. } => "WaitPromotion",
        FailoverState::ReconfReplicas { .. } => "ReconfReplicas",
        FailoverState::UpdateConfig { .. } => "UpdateConfig",
    }
}

/// The name of a row.
fn row_name(row: Option<Row>) -> &'static str {
    let Some(row) = row else {
        return "None";
    };
    match row {
        Row::StartFailover => "StartFailover",
        Row::Elected => "Elected",
        Row::ElectionTimeout => "ElectionTimeout",
        Row::AwaitVotes => "AwaitVotes",
        Row::ReplicaChosen => "ReplicaChosen",
        Row::NoReplica => "NoReplica",
        Row::ChoiceTimeout => "ChoiceTimeout",
        Row::AwaitChoice => "AwaitChoice",
        Row::Promote => "Promote",
        Row::PromotionTimeout => "PromotionTimeout",
        Row::AwaitPromotion => "AwaitPromotion",
        Row::ReconfTimeout => "ReconfTimeout",
        Row::ReconfDone => "ReconfDone",
        Row::Reconfigure => "Reconfigure",
        Row::ConfigUpdated => "ConfigUpdated",
    }
}

/// Tells the places of the replicas that the last turn gave an order.
fn tell_ordered(failover: &Failover, told: &mut Told) -> Result<(), Unplayed> {
    let mut is_none = true;
    for place in 0..failover.node_count() {
        let Ok(place) = u16::try_from(place) else {
            return Err(Unplayed::OutOfRange);
        };
        if failover.ordered(place) {
            told.number(u64::from(place))?;
            is_none = false;
        }
    }
    if is_none {
        return told.word("None");
    }
    Ok(())
}

/// Tells the configuration that the promotion brings.
fn tell_promoted(failover: &mut Failover, told: &mut Told) -> Result<(), Unplayed> {
    match failover.promoted() {
        Some(card) => {
            told.number(card.epoch)?;
            told.address(card.addr)
        }
        None => told.word("None"),
    }
}

/// Tells what comes of a call of a failover but a turn.
fn play_failover(
    failover: &mut Failover,
    call: &str,
    words: &[Vec<u8>],
    told: &mut Told,
) -> Result<(), Unplayed> {
    match (call, words) {
        ("state", []) => told.word(state_name(failover.state())),
        ("epoch", []) => told.maybe_number(failover.epoch()),
        ("choice", []) => told.maybe_number(failover.choice().map(u64::from)),
        ("ordered", []) => tell_ordered(failover, told),
        ("mark", [now]) => {
            failover.mark(number(now)?);
            told.ok()
        }
        ("at", [now]) => {
            failover.at(number(now)?);
            told.ok()
        }
        ("promoted", []) => tell_promoted(failover, told),
        ("reconf", [place, now]) => {
            failover.reconf(number_16(place)?, number(now)?);
            told.ok()
        }
        ("end", []) => {
            failover.end();
            told.ok()
        }
        _ => Err(Unplayed::NoSuchCall),
    }
}

impl Turns {
    /// No failover is known.
    pub(crate) fn new(alloc: Global) -> Turns {
        Turns {
            alloc,
            failover: None,
            known: FACTS,
            down: Vec::new(alloc),
            vote: None,
        }
    }

    /// A failover of a master with this number of nodes begins.
    fn begin(&mut self, nodes: u16) -> Result<(), Unplayed> {
        self.failover = Some(Failover::new(self.alloc, nodes)?);
        self.known = FACTS;
        self.down.clear();
        Ok(())
    }

    /// The nodes at these places are down, and no others.
    fn know_down(&mut self, places: &[Vec<u8>]) -> Result<(), Unplayed> {
        self.down.clear();
        for place in places {
            let place = usize::from(number_16(place)?);
            for _ in self.down.len()..=place {
                self.down.push(false)?;
            }
            if let Some(down) = self.down.get_mut(place) {
                *down = true;
            }
        }
        Ok(())
    }

    /// A fact is this from now on.
    fn know(&mut self, fact: &[u8], value: &[u8]) -> Result<(), Unplayed> {
        let known = &mut self.known;
        match text(fact)? {
            "odown" => known.odown = says(value, "true", "false")?,
            "current" => known.current = number(value)?,
            "voted" => known.voted = number(value)?,
            "own" => known.own = maybe_id(value)?,
            "need" => known.need = number_32(value)?,
            "pick" => known.pick = id(value)?,
            "count" => known.count = number_32(value)?,
            "best" => known.best = if says(value, "true", "false")? {
                FACTS.best
            } else {
                None
            },
            "card" => known.card_place = number_16(value)?,
            "timeout" => known.timeout = number(value)?,
            "syncs" => known.parallel_syncs = number(value)?,
            "random" => known.random = number(value)?,
            _ => return Err(Unplayed::WrongWords),
        }
        Ok(())
    }

    /// A turn at this moment: the row that it takes.
    fn turn(&mut self, now: u64) -> Result<Option<Row>, Unplayed> {
        let failover = self.failover.as_mut().ok_or(Unplayed::OutOfRange)?;
        let act = failover.turn(&Facts {
            now,
            down: &self.down,
            ..self.known
        });
        self.vote = act.vote;
        Ok(act.row)
    }

    /// Tells what comes of a call with these words.
    pub(crate) fn play(
        &mut self,
        call: &str,
        words: &[Vec<u8>],
        told: &mut Told,
    ) -> Result<(), Unplayed> {
        match (call, words) {
            ("failover", [nodes]) => {
                self.begin(number_16(nodes)?)?;
                told.ok()
            }
            ("know", [fact, places @ ..]) if fact.as_slice() == b"down".as_slice() => {
                self.know_down(places)?;
                told.ok()
            }
            ("know", [fact, value]) => {
                self.know(fact, value)?;
                told.ok()
            }
            ("turn", [now]) => {
                let row = self.turn(number(now)?)?;
                told.word(row_name(row))
            }
            ("vote", []) => told.maybe_id(self.vote),
            _ => {
                let failover = self.failover.as_mut().ok_or(Unplayed::OutOfRange)?;
                play_failover(failover, call, words, told)
            }
        }
    }
}
