//! Which version of the protocol a connection speaks.

ghost use Rattle.std.specs.Prelude.{◌≡◌, true};
ghost use Rattle.client_commands.specs.declared.protocols.Protocol.TheVariants.{Two};
ghost use Rattle.client_commands.specs.Protocols.{version, is_two, protocol_named, protocol_asked};

use ballot_law::Text;

/// A version of the protocol.
#[derive(Clone, Copy)]
pub enum Protocol {
    /// RESP2, which each connection speaks in the beginning.
    Two,
    /// RESP3, for which HELLO asks.
    Three,
}

impl Protocol {
    /// Whether it is the one of the beginning.
    pub fn is_two(self) -> bool
        ensures { result ≡ is_two self }
    {
        matches!(self, Protocol::Two)
    }

    /// Its number.
    pub(crate) fn version(self) -> u64
        ensures { result ≡ version self }
    {
        match self {
            Protocol::Two => 2,
            Protocol::Three => 3,
        }
    }
}

/// The protocol whose number the word is.
fn protocol_named(word: &[u8]) -> Option<Protocol>
    ensures { result ≡ protocol_named word.now }
{
    if word == b"2".as_slice() {
        return Some(Protocol::Two);
    }
    if word == b"3".as_slice() {
        return Some(Protocol::Three);
    }
    None
}

/// The protocol for which HELLO with these words asks, of a connection that speaks this one; none where there is no
/// such.
pub(crate) fn protocol_asked(speaks: Protocol, words: &[Text]) -> Option<Protocol>
    ensures { result ≡ protocol_asked speaks words.now }
{
    match words.split_first() {
        Some((word, _)) => protocol_named(word.as_slice()),
        None => Some(speaks),
    }
}
