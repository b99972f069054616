//! Hellos of other Sentinels.

ghost use Rattle.std.specs.Prelude.{◌≡◌};
ghost use Rattle.ballot_law.specs.Clocks.{clock};
ghost use Rattle.ballot_law.specs.Rosters.{master_named};
ghost use Rattle.sentinel_rules.specs.News.{is_newer, raised_to, adopted, greeted, hello_of_known, hello_heeded, hello_read};
ghost use Rattle.sentinel_rules.specs.Plans.{roster_of};
ghost use Rattle.sentinel_state.specs.Parts.{with_part};

use crate::inputs::cards::take_card;
use ballot_law::{Card, Hello};
use node_texts::TextFault;
use sentinel_state::{Core, Plan, State};

/// Whether a configuration has a greater epoch than the kept one, and names a node of the master.
fn is_newer(state: &State, m: u16, card: Card) -> bool
    ensures { result ≡ is_newer state.now.plan state.now.core m card }
{
    state.core.card(m).epoch < card.epoch && state.plan.has_node(m, card.addr)
}

/// The current epoch is at least this one.
fn raise(core: &mut Core, m: u16, epoch: u64)
    ensures { core.new ≡ raised_to epoch core.old }
{
    let mut book = core.book(m);
    book.raise(epoch);
    core.set_current(book.current());
}

/// Adopts a newer configuration: a failover of the master ends.
fn adopt(state: &mut State, m: u16, now: u64, card: Card)
    ensures { state.new ≡ with_part state.old (adopted state.old.plan m (clock now) card state.old.core) }
{
    raise(&mut state.core, m, card.epoch);
    state.core.end_failover(m);
    take_card(state, m, now, card);
}

/// Takes the hello of another Sentinel of the roster: a greater current epoch raises the own one, and a newer
/// configuration is adopted.
fn hear_hello(state: &mut State, m: u16, now: u64, hello: &Hello)
    ensures { state.new ≡ with_part state.old (hello_of_known state.old.plan m (clock now) hello.now state.old.core) }
{
    raise(&mut state.core, m, hello.current);
    if is_newer(state, m, hello.card) {
        state.core.note_source(m, hello);
        adopt(state, m, now, hello.card);
    }
}

/// When the last hello of a Sentinel came is kept.
fn greet(core: &mut Core, plan: &Plan, now: u64, hello: &Hello)
    ensures { core.new ≡ greeted plan.now (clock now) hello.now core.old }
{
    if let Some(place) = plan.candidate_place(Some(hello.id)) {
        let mut peer = core.peer(place);
        peer.greet(now);
        core.set_peer(place, peer);
    }
}

/// Takes the hello of another Sentinel of the roster; one that names no master of it changes nothing.
fn heed_hello(state: &mut State, now: u64, hello: &Hello)
    ensures { state.new ≡ with_part state.old (hello_heeded state.old.plan (clock now)
        (master_named (roster_of state.old.plan) hello.now.master) hello.now state.old.core) }
{
    if let Some(m) = state.plan.master_named(&hello.master) {
        greet(&mut state.core, &state.plan, now, hello);
        hear_hello(state, m, now, hello);
    }
}

/// Takes a hello that a data node passed on, as it was read. One that can't be read, that isn't from another Sentinel
/// of the roster, or that names no master of it changes nothing.
pub fn take_hello(state: &mut State, now: u64, hello: Result<Hello, TextFault>)
    ensures { state.new ≡ with_part state.old (hello_read state.old.plan (clock now) hello state.old.core) }
{
    if let Ok(hello) = hello
        && state.plan.heeds(&hello)
    {
        heed_hello(state, now, &hello);
    }
}
