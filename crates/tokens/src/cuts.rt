//! Texts cut at a byte.

ghost use Rattle.std.specs.Prelude.{◌≡◌, ◌<◌, ◌≤◌, ◌∷◌, ◌==◌, [], length, MatchOption};
ghost use Rattle.ballot_law.specs.Cuts.{cut_at, lines, IsEnd};

use memchr::memchr;

/// How many bytes stand before the first one of this value; all of them where none has it.
fn place_of(byte: u8, bytes: &[u8]) -> usize
    ensures { IsEnd (λ b. b == byte) bytes.now result }
{
    memchr(byte, bytes).unwrap_or(bytes.len())
}

/// What stands before the first byte of this value, and what stands behind it; `None` where no byte has it.
pub fn split_at_byte(bytes: &[u8], byte: u8) -> Option<(&[u8], &[u8])>
    ensures { MatchOption result (cut_at byte bytes.now ≡ bytes.now ∷ [])
        (λ pair. cut_at byte bytes.now ≡ pair.0.now ∷ cut_at byte pair.1.now) }
{
    let (before, tail) = bytes.split_at(place_of(byte, bytes));
    let (_, behind) = tail.split_first()?;
    Some((before, behind))
}

/// The first line of a text that isn't empty, without its LF, and what stands behind it. The last line may lack the LF.
pub fn split_line(bytes: &[u8]) -> (&[u8], &[u8])
    requires { 0 < length bytes.now }
    ensures lines { lines bytes.now ≡ result.0.now ∷ lines result.1.now }
    ensures shorter { length result.1.now < length bytes.now }
{
    let (line, tail) = bytes.split_at(place_of(b'\n', bytes));
    match tail.split_first() {
        None => (line, tail),
        Some((_, behind)) => (line, behind),
    }
}
