//! IPv4 addresses and TCP ports.

ghost use Rattle.std.specs.Prelude.{◌≡◌, ◌+◌, ◌*◌, ◌<◌, ◌≤◌, ◌++◌, decimal};
ghost use Rattle.arrayvec.specs.ArrayVec.{array_vec_len};
ghost use Rattle.ballot_law.specs.Words.{ip_part, ip, ip_text, port, canonical_port, address, canonical_address};

use crate::cuts::split_at_byte;
use crate::numbers::{canonical_number_of, number_of};
use arrayvec::ArrayVec;
use ballot_law::Addr;

/// The greatest TCP port.
pub const PORT_MAX: u64 = 65_535;

/// How many bytes the longest IPv4 address has as a text.
pub const IP_TEXT_MAX: usize = 15;

/// One of the four parts of an address: 0 to 255, without leading zeros.
fn part_of(bytes: &[u8]) -> Option<u8>
    ensures { result ≡ ip_part bytes.now }
{
    let part = canonical_number_of(bytes, 0, 255)?;
    Some(part as u8)
}

/// The address of four parts.
fn joined(a: u8, b: u8, c: u8, d: u8) -> u32
    ensures { result ≡ ((a * 256 + b) * 256 + c) * 256 + d }
{
    ((u32::from(a) * 256 + u32::from(b)) * 256 + u32::from(c)) * 256 + u32::from(d)
}

/// The IPv4 address that is spelled so: four numbers from 0 to 255 without leading zeros, with dots between them.
pub fn ip_of(bytes: &[u8]) -> Option<u32>
    ensures { result ≡ ip bytes.now }
{
    let (first, rest) = split_at_byte(bytes, b'.')?;
    let (second, rest) = split_at_byte(rest, b'.')?;
    let (third, fourth) = split_at_byte(rest, b'.')?;
    if split_at_byte(fourth, b'.').is_some() {
        return None;
    }
    Some(joined(
        part_of(first)?,
        part_of(second)?,
        part_of(third)?,
        part_of(fourth)?,
    ))
}

/// The TCP port that is spelled so: 1 to 65,535, leading zeros allowed.
pub fn port_of(bytes: &[u8]) -> Option<u16>
    ensures { result ≡ port bytes.now }
{
    let port = number_of(bytes, 1, PORT_MAX)?;
    Some(port as u16)
}

/// The TCP port that is spelled so: 1 to 65,535, without leading zeros.
pub fn canonical_port_of(bytes: &[u8]) -> Option<u16>
    ensures { result ≡ canonical_port bytes.now }
{
    let port = canonical_number_of(bytes, 1, PORT_MAX)?;
    Some(port as u16)
}

/// The address of an IPv4 address and a port, leading zeros allowed in the port.
pub fn address_of(ip_bytes: &[u8], port_bytes: &[u8]) -> Option<Addr>
    ensures { result ≡ address ip_bytes.now port_bytes.now }
{
    let ip = ip_of(ip_bytes)?;
    let port = port_of(port_bytes)?;
    Some(Addr { ip, port })
}

/// The address of an IPv4 address and a port, both without leading zeros.
pub fn canonical_address_of(ip_bytes: &[u8], port_bytes: &[u8]) -> Option<Addr>
    ensures { result ≡ canonical_address ip_bytes.now port_bytes.now }
{
    let ip = ip_of(ip_bytes)?;
    let port = canonical_port_of(port_bytes)?;
    Some(Addr { ip, port })
}

/// A decimal digit.
fn digit(value: u8) -> u8
    requires { value < 10 }
    ensures { result ≡ 48 + value }
{
    b'0' + value
}

/// A number below 100 of two digits.
#[tactic(auto, using(crate::proofs::PartDigits::two_digits))]
fn two_digits(number: u8) -> [u8; 2]
    requires low { 10 ≤ number }
    requires high { number < 100 }
    ensures { result ≡ decimal number }
{
    [digit(number / 10), digit(number % 10)]
}

/// A number below 256 of three digits.
#[tactic(auto, using(crate::proofs::PartDigits::three_digits))]
fn three_digits(number: u8) -> [u8; 3]
    requires { 100 ≤ number }
    ensures { result ≡ decimal number }
{
    [
        digit(number / 10 / 10),
        digit(number / 10 % 10),
        digit(number % 10),
    ]
}

/// A number of one digit.
#[tactic(auto, using(crate::proofs::PartDigits::one_digit))]
fn one_digit(number: u8) -> [u8; 1]
    requires { number < 10 }
    ensures { result ≡ decimal number }
{
    [digit(number)]
}

/// Adds one of the four parts of an address in decimal.
fn push_part(text: &mut ArrayVec<u8, IP_TEXT_MAX>, part: u8)
    requires { array_vec_len text.old + 3 ≤ 15 }
    ensures items { text.new.items ≡ text.old.items ++ decimal part }
    ensures len { array_vec_len text.new ≤ array_vec_len text.old + 3 }
{
    if part < 10 {
        text.try_extend_from_slice(&one_digit(part)).unwrap()
    } else if part < 100 {
        text.try_extend_from_slice(&two_digits(part)).unwrap()
    } else {
        text.try_extend_from_slice(&three_digits(part)).unwrap()
    }
}

/// An IPv4 address as a text: its four parts in decimal, with dots between them.
pub fn ip_text(ip: u32) -> ArrayVec<u8, IP_TEXT_MAX>
    ensures { result.items ≡ ip_text ip }
{
    let mut text = ArrayVec::new();
    push_part(&mut text, (ip / 256 / 256 / 256) as u8);
    text.push(b'.');
    push_part(&mut text, (ip / 256 / 256 % 256) as u8);
    text.push(b'.');
    push_part(&mut text, (ip / 256 % 256) as u8);
    text.push(b'.');
    push_part(&mut text, (ip % 256) as u8);
    text
}
