//! A configuration in one word: its epoch, and the place of its address in the master's list.

ghost use Rattle.std.specs.Prelude.{◌≡◌, ◌<◌, ◌≤◌, ◌/◌, ◌%◌, length, Contains};
ghost use Rattle.ballot_law.specs.declared.cards.TheConstants.{MAX_EPOCH};
ghost use Rattle.ballot_law.specs.Rosters.{master_at};
ghost use Rattle.sentinel_cell.specs.Words.{node_at};
ghost use Rattle.sentinel_cell.specs.Turns.{unpacked};

use ballot_law::{Addr, Card, Roster};

fn packed(epoch: u64, place: u16) -> u64
    requires { epoch ≤ MAX_EPOCH }
    ensures epoch { result / 65536 ≡ epoch }
    ensures place { result % 65536 ≡ place }
{
    epoch * 65536 + place as u64
}

/// The word of a configuration of this master: its epoch times 65,536, and the place of its address in the master's
/// list.
#[tactic(auto, using(crate::proofs::Places::not_there))]
pub fn word_of(roster: &Roster, m: u16, card: Card) -> u64
    requires master { m < length roster.now.masters }
    requires card { (card.epoch ≤ MAX_EPOCH) × Contains (master_at roster.now m).nodes card.addr }
    ensures { unpacked (node_at roster.now) m result ≡ card }
{
    let place = roster.place_of(m, card.addr).unwrap();
    packed(card.epoch, place)
}

/// The configuration in a word of this master.
pub(crate) fn card_in(roster: &Roster, m: u16, word: u64) -> Card
    requires { m < length roster.now.masters }
    ensures { result ≡ unpacked (node_at roster.now) m word }
{
    let nodes = roster.masters()[m as usize].nodes();
    let addr = match nodes.get((word % 65536) as usize) {
        Some(addr) => *addr,
        None => Addr { ip: 0, port: 0 },
    };
    Card {
        epoch: word / 65536,
        addr,
    }
}
