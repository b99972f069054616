//! Channels and patterns.

ghost use Rattle.std.specs.Prelude.{◌≡◌};
ghost use Rattle.pubsub.specs.Listening.{too_many};
ghost use Rattle.pubsub.specs.Confirming.{add_verb, remove_verb};

use crate::fault::ChannelFault;

/// What the names are to which a connection listens.
#[derive(Clone, Copy)]
pub(crate) enum Kind {
    /// Channels.
    Channels,
    /// Patterns of such.
    Patterns,
}

impl Kind {
    /// The command that adds names.
    pub(crate) fn add_verb(self) -> &'static [u8]
        ensures { result.now ≡ add_verb self }
    {
        match self {
            Kind::Channels => b"subscribe",
            Kind::Patterns => b"psubscribe",
        }
    }

    /// The command that removes names.
    pub(crate) fn remove_verb(self) -> &'static [u8]
        ensures { result.now ≡ remove_verb self }
    {
        match self {
            Kind::Channels => b"unsubscribe",
            Kind::Patterns => b"punsubscribe",
        }
    }

    /// Why no further name is added.
    pub(crate) fn too_many(self) -> ChannelFault
        ensures { result ≡ too_many self }
    {
        match self {
            Kind::Channels => ChannelFault::TooManyChannels,
            Kind::Patterns => ChannelFault::TooManyPatterns,
        }
    }
}
