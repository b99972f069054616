//! A master's configuration is taken.

ghost use Rattle.std.specs.Prelude.{◌≡◌};
ghost use Rattle.ballot_law.specs.Clocks.{clock};
ghost use Rattle.sentinel_rules.specs.News.{card_taken};
ghost use Rattle.sentinel_state.specs.Parts.{with_part};

use ballot_law::Card;
use sentinel_rules::Frame;
use sentinel_state::State;

/// Takes a configuration of a master: its nodes are sent hellos at the next tick, and where the address is a new one,
/// what was said of the old one is forgotten and a note tells of the change.
pub(crate) fn take_card(state: &mut State, m: u16, now: u64, card: Card)
    ensures { state.new ≡ with_part state.old (card_taken state.old.plan m (clock now) card state.old.core) }
{
    let old = state.core.card(m).addr;
    if old.is_same(&card.addr) {
        state.core.stay(m);
    } else {
        state.core.relocate(&state.plan, m, now);
        state.frames.push(Frame::NoteOf { master: m, old });
    }
    state.core.set_card(m, card);
}
