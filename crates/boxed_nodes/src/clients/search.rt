//! A client's search between two inputs.

ghost use Rattle.std.specs.Prelude.{◌≡◌, ◌<◌, false, length, slice_get, IfOk, IfSome};
ghost use Rattle.client_queries.specs.declared.moves.Move.TheVariants.{Ask};
ghost use Rattle.client_queries.specs.Queries.{query, Answered, Connected, RoleWas};
ghost use Rattle.boxed_nodes.specs.Clients.Searches.{ticked, told, heard, after_event, is_question, is_master, addr_shown};

use ballot_law::{Addr, Body, Event, NoMemory, Role};
use client_queries::{Move, Quest};
use std::alloc::Global;
use std::marker::Model;

/// A search, and whether a question of it was sent that has no answer yet.
#[derive(Drop)]
pub(crate) struct Search {
    quest: Quest,
    outstanding: bool,
}

impl Model for Search {
    ghost use Rattle.boxed_nodes.specs.Clients.Searches.{Search as SearchModel};

    ghost Value = { SearchModel };

    ghost view = { λ search. record { query = search.quest; outstanding = search.outstanding } };
}

impl Search {
    /// A search over these Sentinels, of which there are 1 to 64.
    pub(crate) fn new(alloc: Global, sentinels: &[Addr]) -> Result<Search, NoMemory>
        ensures { IfOk result (λ search. search ≡ record { query = query sentinels.now (Ask 0); outstanding = false }) }
    {
        match Quest::new(alloc, sentinels) {
            Ok(quest) => Ok(Search {
                quest,
                outstanding: false,
            }),
            Err(_) => Err(NoMemory),
        }
    }

    /// Whether a question was sent that has no answer yet.
    pub(crate) fn is_outstanding(&self) -> bool
        ensures { result ≡ self.now.outstanding }
    {
        self.outstanding
    }

    /// What the client does next.
    pub(crate) fn next_move(&self) -> Move
        ensures { result ≡ self.now.query.next }
    {
        self.quest.next_move()
    }

    /// The Sentinel at a place of the list as it now stands.
    pub(crate) fn at(&self, place: usize) -> Option<Addr>
        ensures { result ≡ slice_get self.now.query.sentinels place }
    {
        self.quest.at(place)
    }

    /// The client's timer: an answer that is outstanding has failed, a client that waits has waited, and any other
    /// sends the question of its move, if it has one.
    fn tick(&mut self)
        ensures { self.new ≡ ticked self.old }
    {
        if self.outstanding {
            if self.quest.failed() {
                self.outstanding = false;
            }
        } else if !self.quest.waited() {
            self.outstanding = match self.quest.next_move() {
                Move::Ask(_) => true,
                Move::CheckRole(_) => true,
                Move::Connect(_) => false,
                Move::Wait => false,
                Move::NoSentinel => false,
                Move::Done(_) => false,
            };
        }
    }

    /// The address that a Sentinel gave, or none. The connection to it stands at once.
    fn hear_address(&mut self, addr: Option<Addr>)
        ensures { self.new ≡ told Connected (told (Answered addr) self.old) }
    {
        if self.quest.answered(addr) {
            self.outstanding = false;
        }
        if self.quest.connected() {
            self.outstanding = false;
        }
    }

    /// The role that a server told.
    fn hear_role(&mut self, role: Role)
        ensures { self.new ≡ told (RoleWas (is_master role)) self.old }
    {
        if self.quest.role_was(matches!(role, Role::Master { .. })) {
            self.outstanding = false;
        }
    }

    /// Goes on as the event says.
    pub(crate) fn take(&mut self, event: &Event)
        ensures { self.new ≡ after_event event.now self.old }
    {
        match event {
            Event::Tick { .. } => self.tick(),
            Event::Handed(message) => match message.body {
                Body::AddressAnswer(shown) => self.hear_address(shown.map(|s| s.card.addr)),
                Body::RoleText(role) => self.hear_role(role),
                _ => {}
            },
            _ => {}
        }
    }
}
