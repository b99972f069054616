//! A name to which a connection listens.

ghost use Rattle.std.specs.Prelude.{◌≡◌, IfOk};
ghost use Rattle.pubsub.specs.Globs.{matches};

use crate::channel::Channel;
use crate::globs::is_match;
use ballot_law::{NoMemory, Text};
use std::alloc::Global;
use std::marker::Model;

/// Whether a name, as a pattern, matches the channel of an event.
#[derive(Clone, Copy)]
struct Matched {
    channel: Channel,
    is_match: bool,
}

/// The name of a channel, or a pattern, with what was found out of the channels that it matches. Contracts see its
/// bytes.
#[derive(Drop)]
pub struct Name {
    text: Text,
    found: Vec<Matched>,
}

impl Model for Name {
    ghost use Rattle.std.specs.Prelude.{◌≡◌, ℕ, List};
    ghost use Rattle.std.specs.List.{All};
    ghost use Rattle.pubsub.specs.Globs.{matches};
    ghost use Rattle.pubsub.specs.Telling.{channel_name};

    ghost Value = { List ℕ };

    ghost view = { λ name. name.text };

    ghost invariant = { λ name. All (λ found. found.is_match ≡ matches name.text (channel_name found.channel)) name.found.items };
}

impl Name {
    /// One of these bytes, of which nothing was found out.
    pub(crate) fn of(alloc: Global, bytes: &[u8]) -> Result<Name, NoMemory>
        ensures { IfOk result (λ name. name ≡ bytes.now) }
    {
        Ok(Name {
            text: Text::from_slice(alloc, bytes)?,
            found: Vec::new(alloc),
        })
    }

    /// Its bytes.
    pub fn as_slice(&self) -> &[u8]
        ensures { result.now ≡ self.now }
    {
        self.text.as_slice()
    }

    /// Whether it was found out if it matches this channel.
    fn is_found(&self, channel: Channel) -> bool {
        self.found.iter().any(|found| found.channel == channel)
    }

    /// Finds out whether it matches this channel, as a pattern, where that wasn't found out yet. Where memory is
    /// refused for it, it is found out anew each time.
    pub(crate) fn find_out(&mut self, channel: Channel)
        ensures { self.new ≡ self.old }
    {
        if self.is_found(channel) {
            return;
        }
        let is_match = is_match(self.text.as_slice(), channel.name());
        match self.found.push(Matched { channel, is_match }) {
            Ok(()) | Err(_) => {}
        }
    }

    /// Whether it matches the channel, as a pattern.
    pub(crate) fn is_match(&self, channel: &[u8]) -> bool
        ensures { result ≡ matches self.now channel.now }
    {
        for found in &self.found {
            if found.channel.name() == channel {
                return found.is_match;
            }
        }
        is_match(self.text.as_slice(), channel)
    }
}
