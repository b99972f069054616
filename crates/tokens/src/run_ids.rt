//! Run ids.

ghost use Rattle.std.specs.Prelude.{◌≡◌, ◌+◌, ◌/◌, ◌%◌, ◌^◌, ◌<◌, ◌≤◌, ◌++◌, length, IfSome};
ghost use Rattle.std.specs.List.{list_all};
ghost use Rattle.ballot_law.specs.Words.{some_if, is_hex, hex_value, hex_on, run_id, hex_digit, hex, id_text};
ghost use Rattle.arrayvec.specs.ArrayVec.{array_vec_len};

use arrayvec::ArrayVec;
use ballot_law::RunId;

/// How many hex digits a run id has.
pub const RUN_ID_LENGTH: usize = 40;

/// How many of its digits stand in the high part.
const HIGH_LENGTH: usize = 32;

/// How many numbers 16 hex digits spell.
const SIXTEEN_DIGITS: u128 = 0x1_0000_0000_0000_0000;

/// The value of each byte as a lower case hex digit; 16 where it is none.
const WEIGHTS: [u8; 256] = [
    16, 16, 16, 16, 16, 16, 16, 16, 16, 16, 16, 16, 16, 16, 16, 16, 16, 16, 16, 16, 16, 16, 16, 16,
    16, 16, 16, 16, 16, 16, 16, 16, 16, 16, 16, 16, 16, 16, 16, 16, 16, 16, 16, 16, 16, 16, 16, 16,
    0, 1, 2, 3, 4, 5, 6, 7, 8, 9, 16, 16, 16, 16, 16, 16, 16, 16, 16, 16, 16, 16, 16, 16, 16, 16,
    16, 16, 16, 16, 16, 16, 16, 16, 16, 16, 16, 16, 16, 16, 16, 16, 16, 16, 16, 16, 16, 16, 16, 10,
    11, 12, 13, 14, 15, 16, 16, 16, 16, 16, 16, 16, 16, 16, 16, 16, 16, 16, 16, 16, 16, 16, 16, 16,
    16, 16, 16, 16, 16, 16, 16, 16, 16, 16, 16, 16, 16, 16, 16, 16, 16, 16, 16, 16, 16, 16, 16, 16,
    16, 16, 16, 16, 16, 16, 16, 16, 16, 16, 16, 16, 16, 16, 16, 16, 16, 16, 16, 16, 16, 16, 16, 16,
    16, 16, 16, 16, 16, 16, 16, 16, 16, 16, 16, 16, 16, 16, 16, 16, 16, 16, 16, 16, 16, 16, 16, 16,
    16, 16, 16, 16, 16, 16, 16, 16, 16, 16, 16, 16, 16, 16, 16, 16, 16, 16, 16, 16, 16, 16, 16, 16,
    16, 16, 16, 16, 16, 16, 16, 16, 16, 16, 16, 16, 16, 16, 16, 16, 16, 16, 16, 16, 16, 16, 16, 16,
    16, 16, 16, 16, 16, 16, 16, 16, 16, 16, 16, 16, 16, 16,
];

/// The value of a lower case hex digit.
fn hex_digit_of(byte: u8) -> Option<u8>
    ensures value { result ≡ some_if (is_hex byte) (hex_value byte) }
    ensures range { IfSome result (λ digit. digit < 16) }
{
    let weight = WEIGHTS[byte as usize];
    if weight < 16 { Some(weight) } else { None }
}

/// The number of at most 16 lower case hex digits.
fn hex_of(digits: &[u8]) -> Option<u64>
    requires { length digits.now ≤ 16 }
    ensures value { result ≡ some_if (list_all is_hex digits.now) (hex_on 0 digits.now) }
    ensures range { IfSome result (λ number. number < 16 ^ length digits.now) }
{
    let mut number: u64 = 0;
    for digit in digits {
        number = number * 16 + u64::from(hex_digit_of(*digit)?);
    }
    Some(number)
}

/// The number of 32 lower case hex digits.
#[tactic(auto, using(crate::proofs::HexLemmas::hex_halves))]
fn high_of(digits: &[u8]) -> Option<u128>
    requires { length digits.now ≡ 32 }
    ensures { result ≡ some_if (list_all is_hex digits.now) (hex_on 0 digits.now) }
{
    let (front, back) = digits.split_at(HIGH_LENGTH / 2);
    let front = hex_of(front)?;
    let back = hex_of(back)?;
    Some(u128::from(front) * SIXTEEN_DIGITS + u128::from(back))
}

/// The run id that is spelled so: 40 lower case hex digits.
pub fn run_id_of(bytes: &[u8]) -> Option<RunId>
    ensures { result ≡ run_id bytes.now }
{
    if bytes.len() != RUN_ID_LENGTH {
        return None;
    }
    let (high, low) = bytes.split_at(HIGH_LENGTH);
    let hi = high_of(high)?;
    let lo = hex_of(low)?;
    Some(RunId { hi, lo: lo as u32 })
}

/// The two lower case hex digits of each byte, one behind the other.
const PAIRS: [u8; 512] = *b"\
000102030405060708090a0b0c0d0e0f\
101112131415161718191a1b1c1d1e1f\
202122232425262728292a2b2c2d2e2f\
303132333435363738393a3b3c3d3e3f\
404142434445464748494a4b4c4d4e4f\
505152535455565758595a5b5c5d5e5f\
606162636465666768696a6b6c6d6e6f\
707172737475767778797a7b7c7d7e7f\
808182838485868788898a8b8c8d8e8f\
909192939495969798999a9b9c9d9e9f\
a0a1a2a3a4a5a6a7a8a9aaabacadaeaf\
b0b1b2b3b4b5b6b7b8b9babbbcbdbebf\
c0c1c2c3c4c5c6c7c8c9cacbcccdcecf\
d0d1d2d3d4d5d6d7d8d9dadbdcdddedf\
e0e1e2e3e4e5e6e7e8e9eaebecedeeef\
f0f1f2f3f4f5f6f7f8f9fafbfcfdfeff";

/// The last two hex digits of a number.
fn last_two(number: u128) -> (u8, u8)
    ensures first { result.0 ≡ hex_digit (number / 16 % 16) }
    ensures second { result.1 ≡ hex_digit (number % 16) }
{
    let at = (number % 256) as usize * 2;
    (PAIRS[at], PAIRS[at + 1])
}

/// What stands before the last eight hex digits of a number.
fn before_eight(number: u128) -> u128
    ensures { result ≡ number / 16 / 16 / 16 / 16 / 16 / 16 / 16 / 16 }
{
    number / 16 / 16 / 16 / 16 / 16 / 16 / 16 / 16
}

/// The last eight hex digits of a number.
#[tactic(auto, using(crate::proofs::HexLemmas::eight_digits))]
fn eight_digits(number: u128) -> [u8; 8]
    ensures { result ≡ hex 8 number }
{
    let third = number / 16 / 16;
    let second = third / 16 / 16;
    let (first_digit, second_digit) = last_two(second / 16 / 16);
    let (third_digit, fourth_digit) = last_two(second);
    let (fifth_digit, sixth_digit) = last_two(third);
    let (seventh_digit, eighth_digit) = last_two(number);
    [
        first_digit,
        second_digit,
        third_digit,
        fourth_digit,
        fifth_digit,
        sixth_digit,
        seventh_digit,
        eighth_digit,
    ]
}

/// Adds the last eight hex digits of a number.
fn push_eight(text: &mut ArrayVec<u8, RUN_ID_LENGTH>, number: u128)
    requires { array_vec_len text.old + 8 ≤ 40 }
    ensures items { text.new.items ≡ text.old.items ++ hex 8 number }
    ensures len { array_vec_len text.new ≡ array_vec_len text.old + 8 }
{
    text.try_extend_from_slice(&eight_digits(number)).unwrap()
}

/// A run id as a text: 40 lower case hex digits.
pub fn run_id_text(id: RunId) -> ArrayVec<u8, RUN_ID_LENGTH>
    ensures items { result.items ≡ id_text id }
    ensures len { array_vec_len result ≡ 40 }
{
    let third = before_eight(id.hi);
    let second = before_eight(third);
    let mut text = ArrayVec::new();
    push_eight(&mut text, before_eight(second));
    push_eight(&mut text, second);
    push_eight(&mut text, third);
    push_eight(&mut text, id.hi);
    push_eight(&mut text, u128::from(id.lo));
    text
}
