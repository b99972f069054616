//! What is delivered to a Sentinel.

ghost use Rattle.std.specs.Prelude.{◌≡◌};
ghost use Rattle.ballot_law.specs.Limits.{IsWithinEvent};

use ballot_law::Event;
use std::marker::Model;

/// A message on its way to a Sentinel, as the event that it is there. The epoch of a command in it is at most
/// `MAX_EPOCH`, so the Sentinel may take it. Contracts see the event.
#[derive(Drop)]
pub struct Delivery {
    event: Event,
}

impl Model for Delivery {
    ghost use Rattle.ballot_law.specs.declared.events.Event.{Event};
    ghost use Rattle.ballot_law.specs.Limits.{IsWithinEvent};

    ghost Value = { Event };

    ghost view = { λ delivery. delivery.event };

    ghost invariant = { λ delivery. IsWithinEvent delivery.event };
}

impl Delivery {
    /// The delivery that is this event.
    pub fn of(event: Event) -> Delivery
        requires within { IsWithinEvent event }
        ensures event { result ≡ event }
    {
        Delivery { event }
    }

    /// The event.
    pub fn into_event(self) -> Event
        ensures within { IsWithinEvent result }
        ensures event { result ≡ self }
    {
        let Delivery { event } = self;
        event
    }
}
