//! To what a connection listens.

ghost use Rattle.std.specs.Prelude.{◌≡◌, ◌≤◌, ◌++◌, [], OnOk, OnErr, length};
ghost use Rattle.resp2.specs.Framing.Frame.{spellings};
ghost use Rattle.pubsub.specs.declared.kind.Kind.TheVariants.{Channels, Patterns};
ghost use Rattle.pubsub.specs.declared.names.TheConstants.{NAMES_MAX};
ghost use Rattle.pubsub.specs.Listening.{with_names, Refuses, count, is_listening};
ghost use Rattle.pubsub.specs.Confirming.{added, removed_or_all, left};
ghost use Rattle.pubsub.specs.Answering.{names_of, others_of, with_these};
ghost use Rattle.pubsub.specs.Telling.{channel_name, hears, told};

use crate::changes::{add_all, remove};
use crate::channel::{Channel, Event};
use crate::fault::ChannelFault;
use crate::kind::Kind;
use crate::name::Name;
use crate::names::NameList;
use crate::telling::{add_for_patterns, add_message, is_matched};
use ballot_law::{NoMemory, Text};
use resp2::OutText;
use std::alloc::Global;
use std::marker::Model;

/// To which channels and patterns a connection listens, in the order in which it began to: at most `NAMES_MAX` of each,
/// with at most `NAME_BYTES_MAX` bytes each. Contracts see both lists.
#[derive(Drop)]
pub struct Subscriptions {
    alloc: Global,
    channels: NameList,
    patterns: NameList,
}

impl Model for Subscriptions {
    ghost use Rattle.pubsub.specs.Listening.{Listening};

    ghost Value = { Listening };

    ghost view = { λ held. record { channels = held.channels; patterns = held.patterns } };
}

impl Subscriptions {
    /// Those of a connection that listens to nothing. No memory is taken.
    pub fn new(alloc: Global) -> Subscriptions
        ensures { result ≡ record { channels = []; patterns = [] } }
    {
        Subscriptions {
            alloc,
            channels: NameList::new(alloc),
            patterns: NameList::new(alloc),
        }
    }

    /// Where memory is taken from.
    pub(crate) fn alloc(&self) -> Global {
        self.alloc
    }

    /// The channels, in order.
    pub fn channels(&self) -> &[Name]
        ensures same { result.now ≡ self.now.channels }
        ensures few { length self.now.channels ≤ NAMES_MAX }
    {
        self.channels.as_slice()
    }

    /// The patterns, in order.
    pub fn patterns(&self) -> &[Name]
        ensures same { result.now ≡ self.now.patterns }
        ensures few { length self.now.patterns ≤ NAMES_MAX }
    {
        self.patterns.as_slice()
    }

    /// How many channels and patterns there are together: at most twice `NAMES_MAX`.
    pub fn count(&self) -> usize
        ensures { result ≡ count self.now }
    {
        self.channels.len() + self.patterns.len()
    }

    /// Whether the connection listens to anything.
    pub fn is_listening(&self) -> bool
        ensures { result ≡ is_listening self.now }
    {
        self.count() > 0
    }

    /// Whether it is told anything on this channel: it listens to that, or one of its patterns matches it.
    pub fn hears(&self, channel: &[u8]) -> bool
        ensures { result ≡ hears self.now channel.now }
    {
        self.channels.holds(channel) || is_matched(self.patterns.as_slice(), channel)
    }

    /// Finds out which of the patterns match this channel, each of them once for as long as it stands: what the
    /// connection is told on the channel from then on matches none of them anew.
    pub fn find_out(&mut self, channel: Channel)
        ensures { self.new ≡ self.old }
    {
        self.patterns.find_out(channel);
    }

    /// SUBSCRIBE of these channels: has `out` be the confirmations, one for each name, in order. A channel that the
    /// connection listens to already is confirmed and changes nothing. At a fault nothing changes, `out` is empty, and
    /// `ChannelFault::text` is the line that the client is answered.
    pub fn subscribe(&mut self, names: &[Text], out: &mut OutText) -> Result<(), ChannelFault>
        ensures refused { Refuses Channels self.old.channels names.now result }
        ensures names { OnOk result (self.new ≡ record self.old { channels = with_names self.old.channels names.now }) }
        ensures text { OnOk result (out.new ≡ spellings (added Channels (length self.old.patterns) self.old.channels names.now)) }
        ensures stays { OnErr result (self.new ≡ self.old) }
        ensures silent { OnErr result (out.new ≡ []) }
    {
        let others = self.patterns.len();
        add_all(
            self.alloc,
            Kind::Channels,
            &mut self.channels,
            others,
            names,
            out,
        )
    }

    /// PSUBSCRIBE of these patterns, as `subscribe`.
    pub fn psubscribe(&mut self, names: &[Text], out: &mut OutText) -> Result<(), ChannelFault>
        ensures refused { Refuses Patterns self.old.patterns names.now result }
        ensures names { OnOk result (self.new ≡ record self.old { patterns = with_names self.old.patterns names.now }) }
        ensures text { OnOk result (out.new ≡ spellings (added Patterns (length self.old.channels) self.old.patterns names.now)) }
        ensures stays { OnErr result (self.new ≡ self.old) }
        ensures silent { OnErr result (out.new ≡ []) }
    {
        let others = self.channels.len();
        add_all(
            self.alloc,
            Kind::Patterns,
            &mut self.patterns,
            others,
            names,
            out,
        )
    }

    /// UNSUBSCRIBE of these channels, or of all where none is named: has `out` be the confirmations, one for each name,
    /// in order; where none is named and there are none, one without a name. `NoMemory`: memory was refused, and some
    /// of the names may be removed; the connection is to be closed.
    pub fn unsubscribe(&mut self, names: &[Text], out: &mut OutText) -> Result<(), NoMemory>
        ensures names { OnOk result (self.new ≡ record self.old { channels = left self.old.channels names.now }) }
        ensures text { OnOk result (out.new ≡ spellings (removed_or_all Channels (length self.old.patterns) self.old.channels names.now)) }
    {
        let others = self.patterns.len();
        remove(Kind::Channels, &mut self.channels, others, names, out)
    }

    /// PUNSUBSCRIBE of these patterns, as `unsubscribe`.
    pub fn punsubscribe(&mut self, names: &[Text], out: &mut OutText) -> Result<(), NoMemory>
        ensures names { OnOk result (self.new ≡ record self.old { patterns = left self.old.patterns names.now }) }
        ensures text { OnOk result (out.new ≡ spellings (removed_or_all Patterns (length self.old.channels) self.old.patterns names.now)) }
    {
        let others = self.channels.len();
        remove(Kind::Patterns, &mut self.patterns, others, names, out)
    }

    /// Adds names of this kind.
    pub(crate) fn add(
        &mut self,
        kind: Kind,
        names: &[Text],
        out: &mut OutText,
    ) -> Result<(), ChannelFault>
        ensures refused { Refuses kind (names_of kind self.old) names.now result }
        ensures names { OnOk result (self.new ≡ with_these kind (with_names (names_of kind self.old) names.now) self.old) }
        ensures text { OnOk result (out.new ≡ spellings (added kind (length (others_of kind self.old)) (names_of kind self.old) names.now)) }
        ensures stays { OnErr result (self.new ≡ self.old) }
        ensures silent { OnErr result (out.new ≡ []) }
    {
        match kind {
            Kind::Channels => self.subscribe(names, out),
            Kind::Patterns => self.psubscribe(names, out),
        }
    }

    /// Adds what the connection is told of a text on a channel: one message where it listens to the channel, then one
    /// for each of its patterns that match the channel, in their order. `NoMemory`: memory was refused, and what `out`
    /// then holds isn't told; the connection is to be closed.
    pub fn tell(&self, channel: &[u8], text: &[u8], out: &mut OutText) -> Result<(), NoMemory>
        ensures { OnOk result (out.new ≡ out.old ++ spellings (told self.now channel.now text.now)) }
    {
        if self.channels.holds(channel) {
            add_message(out, channel, text)?;
        }
        add_for_patterns(out, self.patterns.as_slice(), channel, text)
    }

    /// Adds what the connection is told of an event, as `tell`.
    pub fn tell_event(&self, event: &Event, out: &mut OutText) -> Result<(), NoMemory>
        ensures { OnOk result (out.new ≡ out.old ++ spellings (told self.now (channel_name event.now.channel) event.now.text)) }
    {
        self.tell(event.channel.name(), event.text.as_slice(), out)
    }
}
