//! What keeps a text from being read or written.

use thiserror::Error;

/// Why a text can't be read or written. Each is shown as its name, and `BadField` with its number: `BadField(7)`.
///
/// Of several faults of one text the first of this list is told, except that `NotUtf8` comes before all others.
#[derive(Clone, Copy, Debug, PartialEq, Eq, Error)]
pub enum TextFault {
    /// A hello hasn't eight fields, or an answer to ROLE isn't an array of the length that its kind has.
    #[error("FieldCount")]
    FieldCount,
    /// The field with this number, counted from 1, is bad or missing. Of several the smallest is told.
    #[error("BadField({0})")]
    BadField(u8),
    /// The bytes aren't UTF-8.
    #[error("NotUtf8")]
    NotUtf8,
    /// An epoch of a hello is a decimal number above `MAX_EPOCH`, and nothing else is wrong.
    #[error("EpochTooLarge")]
    EpochTooLarge,
    /// Memory was refused while writing; the text is as it was.
    #[error("NoMemory")]
    NoMemory,
}
