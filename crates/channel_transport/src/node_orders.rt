//! What the data nodes are to do.

ghost use Rattle.std.specs.Prelude.{◌≡◌, ◌≢◌, ◌⊎◌, ◌<◌, ◌^◌, Some, None};
ghost use Rattle.boxed_nodes.specs.Sendable.{IsTakeable, IsSendable};
ghost use Rattle.ballot_law.specs.declared.events.Event.TheVariants.{Handed};
ghost use Rattle.channel_transport.specs.Dispatches.{taking, becoming, stopping, starting};

use ballot_law::{Event, Message};
use std::marker::Model;

/// The greatest priority, offset or link down time of a data node.
pub const GREATEST: u64 = 9_223_372_036_854_775_807;

/// An event that a data node may take: what is handed over was sent, and the numbers of a change are at most 2^63 - 1.
/// Contracts see the event.
#[derive(Drop)]
pub struct Takeable {
    event: Event,
}

impl Model for Takeable {
    ghost use Rattle.ballot_law.specs.declared.events.Event.{Event};
    ghost use Rattle.boxed_nodes.specs.Sendable.{IsTakeable};

    ghost Value = { Event };

    ghost view = { λ takeable. takeable.event };

    ghost invariant = { λ takeable. IsTakeable takeable.event };
}

impl Takeable {
    /// The event.
    pub fn into_event(self) -> Event
        ensures takeable { IsTakeable result }
        ensures event { result ≡ self }
    {
        let Takeable { event } = self;
        event
    }
}

/// What a data node does.
#[derive(Drop)]
pub enum Action {
    /// It takes an event.
    Take(Takeable),
    /// It stops.
    Stop,
    /// It starts, as it was when it stopped.
    Start,
}

/// What the data node with this number is to do. The numbers go master by master in the roster's order, each master's
/// nodes by address.
#[derive(Drop)]
pub struct NodeOrder {
    pub number: u16,
    pub action: Action,
}

impl NodeOrder {
    /// The data node takes a message.
    pub fn handed(number: u16, message: Message) -> NodeOrder
        requires sendable { IsSendable message }
        ensures order { result ≡ taking number (Handed message) }
    {
        let event = Event::Handed(message);
        NodeOrder {
            number,
            action: Action::Take(Takeable { event }),
        }
    }

    /// The data node gets a priority, a replication offset, and a link to its master that has been down for so many
    /// seconds, or is up at 0. None where one of them is above 2^63 - 1.
    pub fn becoming(number: u16, priority: u64, offset: u64, link_down: u64) -> Option<NodeOrder>
        ensures order { result ≢ None → result ≡ Some (becoming number priority offset link_down) }
        ensures none { result ≡ None → (GREATEST < priority) ⊎ (GREATEST < offset) ⊎ (GREATEST < link_down) }
        ensures some { result ≢ None → (priority < 2 ^ 63) × (offset < 2 ^ 63) × (link_down < 2 ^ 63) }
    {
        if priority > GREATEST || offset > GREATEST || link_down > GREATEST {
            return None;
        }
        let event = Event::Become {
            priority,
            offset,
            link_down,
        };
        Some(NodeOrder {
            number,
            action: Action::Take(Takeable { event }),
        })
    }

    /// The data node stops.
    pub fn stopping(number: u16) -> NodeOrder
        ensures order { result ≡ stopping number }
    {
        NodeOrder {
            number,
            action: Action::Stop,
        }
    }

    /// The data node starts.
    pub fn starting(number: u16) -> NodeOrder
        ensures order { result ≡ starting number }
    {
        NodeOrder {
            number,
            action: Action::Start,
        }
    }
}
