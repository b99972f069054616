//! Hellos whose epochs are too far above the Sentinel's own one.

ghost use Rattle.std.specs.Prelude.{◌≡◌};
ghost use Rattle.tcp_transport.specs.Hearing.{is_far_hello, is_far_from, is_far_text, is_lost};

use ballot_law::{Event, Hello};
use courteous_sessions::is_far;
use node_texts::read_hello;

/// Whether one of the two epochs of a hello, the sender's current one or that of the configuration, is too far above
/// this current one.
pub(crate) fn is_far_hello(hello: &Hello, current: u64) -> bool
    ensures { result ≡ is_far_hello hello.now current }
{
    is_far(hello.current, current) || is_far(hello.card.epoch, current)
}

/// The same of one that stands in a text; one that can't be read has no epoch.
fn is_far_text(text: &[u8], current: u64) -> bool
    ensures { result ≡ is_far_text text.now current }
{
    match read_hello(text) {
        Ok(hello) => is_far_hello(&hello, current),
        Err(_) => false,
    }
}

/// Whether an event is lost, as any message may be, before a Sentinel hears it whose current epoch is known to be this
/// one at least: it is a hello that is too far ahead. Where no epoch is known none is lost.
pub(crate) fn is_lost(known: Option<u64>, event: &Event) -> bool
    ensures { result ≡ is_lost known event.now }
{
    match (known, event) {
        (Some(current), Event::HelloRead { text }) => is_far_text(text.as_slice(), current),
        _ => false,
    }
}
