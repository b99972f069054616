//! Decimal digits.

ghost use Rattle.std.specs.Prelude.{◌≡◌};
ghost use Rattle.ballot_law.specs.Words.{are_digits, has_leading_zero, is_decimal};

/// Whether these are one or more ASCII digits, of any number.
pub fn are_digits(bytes: &[u8]) -> bool
    ensures { result ≡ are_digits bytes.now }
{
    for byte in bytes {
        if !byte.is_ascii_digit() {
            return false;
        }
    }
    !bytes.is_empty()
}

/// Whether a zero stands before other bytes.
pub(crate) fn has_leading_zero(bytes: &[u8]) -> bool
    ensures { result ≡ has_leading_zero bytes.now }
{
    bytes.len() > 1 && bytes[0] == b'0'
}

/// Whether these are the digits of a number, of any size, without leading zeros. Zero is `0`.
pub fn is_decimal(bytes: &[u8]) -> bool
    ensures { result ≡ is_decimal bytes.now }
{
    are_digits(bytes) && !has_leading_zero(bytes)
}
