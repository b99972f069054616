//! The commands of Pub/Sub.

ghost use Rattle.std.specs.Prelude.{◌≡◌};
ghost use Rattle.pubsub.specs.Answering.{is_called, verb_of};

use crate::kind::Kind;

/// A command that a connection's subscriptions answer.
#[derive(Clone, Copy)]
pub(crate) enum Verb {
    /// SUBSCRIBE or PSUBSCRIBE.
    Adds(Kind),
    /// UNSUBSCRIBE or PUNSUBSCRIBE.
    Removes(Kind),
    /// PING, where the connection listens.
    Pings,
}

/// Whether the word is this name, whatever the case of its letters.
fn is_called(name: &[u8], word: &[u8]) -> bool
    ensures { result ≡ is_called name.now word.now }
{
    word.eq_ignore_ascii_case(name)
}

/// The command with this name. Its length tells which one name it may be, so that nearly all others are told by that
/// alone.
pub(crate) fn verb_of(name: &[u8]) -> Option<Verb>
    ensures { result ≡ verb_of name.now }
{
    let (is_so, verb) = match name.len() {
        4 => (is_called(b"ping", name), Verb::Pings),
        9 => (is_called(b"subscribe", name), Verb::Adds(Kind::Channels)),
        10 => (is_called(b"psubscribe", name), Verb::Adds(Kind::Patterns)),
        11 => (
            is_called(b"unsubscribe", name),
            Verb::Removes(Kind::Channels),
        ),
        12 => (
            is_called(b"punsubscribe", name),
            Verb::Removes(Kind::Patterns),
        ),
        _ => return None,
    };
    if is_so { Some(verb) } else { None }
}
