//! A client's search for a master.

ghost use Rattle.std.specs.Prelude.{◌≡◌, ◌↔◌, ◌<◌, length, slice_get, IfOk, IsErrOf, unwrap_or};
ghost use Rattle.std.specs.Option.{is_some};
ghost use Rattle.ballot_law.specs.declared.rosters.TheConstants.{SENTINELS_MAX};
ghost use Rattle.client_queries.specs.declared.moves.Move.TheVariants.{Ask};
ghost use Rattle.client_queries.specs.Queries.{query, to_front, ask_after, after, Answered, Connected, Failed, RoleWas, Waited, IsSound};

use crate::moves::Move;
use ballot_law::{Addr, SENTINELS_MAX};
use std::alloc::{AllocError, Global};
use std::marker::Model;
use thiserror::Error;

/// Why a list of Sentinels is refused. The text of each is the variant's name.
#[derive(Clone, Copy, Debug, PartialEq, Eq, Error)]
pub enum QuestFault {
    /// The list has no Sentinel.
    #[error("Empty")]
    Empty,
    /// The list has more than 64 Sentinels.
    #[error("TooMany")]
    TooMany,
    /// Memory was refused.
    #[error("NoMemory")]
    NoMemory,
}

impl From<AllocError> for QuestFault {
    ghost use Rattle.client_queries.specs.declared.quests.QuestFault.TheVariants.{NoMemory};

    ghost from_gives = { λ _ fault. fault ≡ NoMemory };

    fn from(_error: AllocError) -> QuestFault {
        QuestFault::NoMemory
    }
}

/// A client's search for the address of a master: the Sentinels in the order in which it asks them, and what it does
/// next.
///
/// The caller does what `next_move` says, and then tells what came of it by one of `answered`, `connected`, `failed`,
/// `role_was` and `waited`. Each of these is false, and changes nothing, where it can't come of that move; so an answer
/// that comes too late does no harm. Only `new` takes memory.
#[derive(Drop)]
pub struct Quest {
    sentinels: Vec<Addr>,
    next: Move,
}

impl Model for Quest {
    ghost use Rattle.client_queries.specs.Queries.{Query, query, IsSound};

    ghost Value = { Query };

    ghost view = { λ quest. query quest.sentinels.items quest.next };

    ghost invariant = { λ quest. IsSound (query quest.sentinels.items quest.next) };
}

/// Puts the one at this place to the front; the others keep their order.
fn bring_to_front(sentinels: &mut [Addr], place: usize)
    requires { place < length sentinels.old }
    ensures { sentinels.new ≡ to_front place sentinels.old }
{
    sentinels[..=place].rotate_right(1);
}

/// The move after the Sentinel at this place gave no address.
fn ask_after(sentinels: &[Addr], place: usize) -> Move
    requires { place < length sentinels.now }
    ensures { result ≡ ask_after place sentinels.now }
{
    if place + 1 < sentinels.len() {
        Move::Ask(place + 1)
    } else {
        Move::NoSentinel
    }
}

impl Quest {
    /// A search that begins with the first Sentinel of the list, of 1 to 64 of them.
    ///
    /// The only other error is a refused allocation.
    pub fn new(alloc: Global, list: &[Addr]) -> Result<Quest, QuestFault>
        ensures first { IfOk result (λ quest. quest ≡ query list.now (Ask 0)) }
        ensures empty { IsErrOf result QuestFault.Empty ↔ (length list.now ≡ 0) }
        ensures too_many { IsErrOf result QuestFault.TooMany ↔ (SENTINELS_MAX < length list.now) }
    {
        if list.is_empty() {
            return Err(QuestFault::Empty);
        }
        if list.len() > SENTINELS_MAX {
            return Err(QuestFault::TooMany);
        }
        Ok(Quest {
            sentinels: Vec::from_slice(alloc, list)?,
            next: Move::Ask(0),
        })
    }

    /// The Sentinel at this place of the list as it now stands, the first being 0; none behind its end.
    pub fn at(&self, i: usize) -> Option<Addr>
        ensures { result ≡ slice_get self.now.sentinels i }
    {
        self.sentinels.get(i).copied()
    }

    /// What the client does next. A Sentinel that is to be asked is one of the list.
    pub fn next_move(&self) -> Move
        ensures next { result ≡ self.now.next }
        ensures sound { IsSound self.now }
    {
        self.next
    }

    /// The Sentinel that was asked gave this address, or none since it knows no such master.
    ///
    /// One that gave an address goes to the front of the list, so that it is asked first the next time, and the address
    /// is connected to. Else the next one of the list is asked; after the last one no Sentinel is left.
    pub fn answered(&mut self, addr: Option<Addr>) -> bool
        ensures fits { result ≡ is_some (after (Answered addr) self.old) }
        ensures query { self.new ≡ unwrap_or (after (Answered addr) self.old) self.old }
    {
        let Move::Ask(place) = self.next else {
            return false;
        };
        match addr {
            Some(master) => {
                bring_to_front(&mut self.sentinels, place);
                self.next = Move::Connect(master);
            }
            None => self.next = ask_after(&self.sentinels, place),
        }
        true
    }

    /// The connection to the address stands: its role is asked next.
    pub fn connected(&mut self) -> bool
        ensures fits { result ≡ is_some (after Connected self.old) }
        ensures query { self.new ≡ unwrap_or (after Connected self.old) self.old }
    {
        let Move::Connect(master) = self.next else {
            return false;
        };
        self.next = Move::CheckRole(master);
        true
    }

    /// There was no connection, or no answer, in the time that the caller gives for it.
    ///
    /// The next Sentinel is asked, or none is left; where the address was tried, the client waits.
    pub fn failed(&mut self) -> bool
        ensures fits { result ≡ is_some (after Failed self.old) }
        ensures query { self.new ≡ unwrap_or (after Failed self.old) self.old }
    {
        self.next = match self.next {
            Move::Ask(place) => ask_after(&self.sentinels, place),
            Move::Connect(_) => Move::Wait,
            Move::CheckRole(_) => Move::Wait,
            Move::Wait => return false,
            Move::NoSentinel => return false,
            Move::Done(_) => return false,
        };
        true
    }

    /// The server at the address told its role: the search has ended if it is a master, else the client waits.
    pub fn role_was(&mut self, is_master: bool) -> bool
        ensures fits { result ≡ is_some (after (RoleWas is_master) self.old) }
        ensures query { self.new ≡ unwrap_or (after (RoleWas is_master) self.old) self.old }
    {
        let Move::CheckRole(master) = self.next else {
            return false;
        };
        self.next = if is_master {
            Move::Done(master)
        } else {
            Move::Wait
        };
        true
    }

    /// The client has waited: the Sentinels are asked again, from the first of the list on. The guidelines leave it to
    /// the client whether it tries again where no Sentinel gave an address; here it may.
    pub fn waited(&mut self) -> bool
        ensures fits { result ≡ is_some (after Waited self.old) }
        ensures query { self.new ≡ unwrap_or (after Waited self.old) self.old }
    {
        match self.next {
            Move::Wait => {}
            Move::NoSentinel => {}
            Move::Ask(_) => return false,
            Move::Connect(_) => return false,
            Move::CheckRole(_) => return false,
            Move::Done(_) => return false,
        }
        self.next = Move::Ask(0);
        true
    }
}
