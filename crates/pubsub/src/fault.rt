//! Why names aren't added.

ghost use Rattle.std.specs.Prelude.{◌≡◌};
ghost use Rattle.pubsub.specs.Answering.{fault_text};

use ballot_law::NoMemory;
use thiserror::Error;

/// Why a connection doesn't listen to more channels or patterns. What it listened to before stays as it was. The text
/// of each is the variant's name.
#[derive(Clone, Copy, Debug, PartialEq, Eq, Error)]
pub enum ChannelFault {
    /// A name or a pattern has more than `NAME_BYTES_MAX` bytes.
    #[error("NameTooLong")]
    NameTooLong,
    /// It would be more than `NAMES_MAX` channels.
    #[error("TooManyChannels")]
    TooManyChannels,
    /// It would be more than `NAMES_MAX` patterns.
    #[error("TooManyPatterns")]
    TooManyPatterns,
    /// Memory was refused.
    #[error("NoMemory")]
    NoMemory,
}

impl From<NoMemory> for ChannelFault {
    ghost use Rattle.pubsub.specs.declared.fault.ChannelFault.TheVariants.{NoMemory};

    ghost from_gives = { λ _ fault. fault ≡ NoMemory };

    fn from(_refused: NoMemory) -> ChannelFault {
        ChannelFault::NoMemory
    }
}

impl ChannelFault {
    /// The line that a client is answered, without its first byte; none where memory was refused.
    pub fn text(self) -> &'static [u8]
        ensures { result.now ≡ fault_text self }
    {
        match self {
            ChannelFault::NameTooLong => b"ERR channel name too long: at most 256 bytes",
            ChannelFault::TooManyChannels => b"ERR too many channels: at most 64",
            ChannelFault::TooManyPatterns => b"ERR too many patterns: at most 64",
            ChannelFault::NoMemory => b"",
        }
    }
}
