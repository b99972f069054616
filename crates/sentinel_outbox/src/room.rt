//! How much room the outputs of one input take.

ghost use Rattle.std.specs.Prelude.{◌≡◌};
ghost use Rattle.sentinel_outbox.specs.Outboxes.{room_of_sentinel};

use ballot_law::{ANSWER_MAX, OUTPUTS_MAX, SHOWN_MAX};

/// How much room an `Outbox` needs for the outputs of one input.
#[derive(Clone, Copy, PartialEq, Eq)]
pub struct Room {
    /// How many outputs.
    pub(crate) outputs: u32,
    /// How many bytes the text of one answer has.
    pub(crate) text: u32,
    /// How many configurations an answer shows.
    pub(crate) shown: u32,
}

impl Room {
    /// Room for so many messages of a node that isn't a Sentinel.
    pub fn messages(n: u32) -> Room
        ensures { result ≡ record { outputs = n; text = 0; shown = 0 } }
    {
        Room {
            outputs: n,
            text: 0,
            shown: 0,
        }
    }

    /// Enough room for the outputs of any one input of a Sentinel.
    pub fn of_sentinel() -> Room
        ensures { result ≡ room_of_sentinel }
    {
        Room {
            outputs: OUTPUTS_MAX as u32,
            text: ANSWER_MAX as u32,
            shown: SHOWN_MAX as u32,
        }
    }
}
