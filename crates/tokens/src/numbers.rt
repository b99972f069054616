//! Decimal numbers.

ghost use Rattle.std.specs.Prelude.{◌≡◌, ◌+◌, ◌-◌, ◌*◌, ◌^◌, ◌<◌, ◌≤◌, ◌&&◌, ◌++◌, nat_lt, length, decimal, IfSome, OnOk, OnErr, vec_len, vec_capacity};
ghost use Rattle.ballot_law.specs.Words.{some_if, is_digit, number_within, canonical_within};

use crate::digits::has_leading_zero;
use ballot_law::NoMemory;
use itoa::Buffer;

/// The number that one more decimal digit makes, where it is a digit and the number fits 64 bits.
fn with_digit(number: u64, digit: u8) -> Option<u64>
    ensures { result ≡ some_if (is_digit digit && nat_lt (number * 10 + (digit - 48)) (2 ^ 64))
        (number * 10 + (digit - 48)) }
{
    if !digit.is_ascii_digit() {
        return None;
    }
    number.checked_mul(10)?.checked_add(u64::from(digit - b'0'))
}

/// The number that one or more decimal digits spell, where it is from `low` to `high`.
///
/// Leading zeros are allowed, and so is any number of digits. A sign, a space or any other byte is `None`.
pub fn number_of(bytes: &[u8], low: u64, high: u64) -> Option<u64>
    ensures value { result ≡ number_within low high bytes.now }
    ensures range { IfSome result (λ number. (low ≤ number) × (number ≤ high)) }
{
    if bytes.is_empty() {
        return None;
    }
    let mut number: u64 = 0;
    for digit in bytes {
        number = with_digit(number, *digit)?;
    }
    if low <= number && number <= high {
        Some(number)
    } else {
        None
    }
}

/// The number from `low` to `high` that is spelled so: decimal digits without leading zeros.
///
/// Zero is spelled `0`.
pub fn canonical_number_of(bytes: &[u8], low: u64, high: u64) -> Option<u64>
    ensures value { result ≡ canonical_within low high bytes.now }
    ensures range { IfSome result (λ number. (low ≤ number) × (number ≤ high)) }
{
    let number = number_of(bytes, low, high)?;
    if has_leading_zero(bytes) {
        None
    } else {
        Some(number)
    }
}

/// Adds a number in decimal at the end of a text.
///
/// `NoMemory` leaves the text as it was, and comes only if the text has no room for the digits.
pub fn add_number(out: &mut Vec<u8>, number: u64) -> Result<(), NoMemory>
    ensures added { OnOk result (out.new.items ≡ out.old.items ++ decimal number) }
    ensures len { OnOk result (vec_len out.new ≡ vec_len out.old + length (decimal number)) }
    ensures kept { OnErr result (out.new.items ≡ out.old.items) }
    ensures capacity { vec_capacity out.old ≤ vec_capacity out.new }
    ensures full { OnErr result (vec_capacity out.old < vec_len out.old + length (decimal number)) }
{
    let mut buffer = Buffer::new();
    out.extend_from_slice(buffer.format(number).as_bytes())?;
    Ok(())
}
