//! Passwords.

ghost use Rattle.std.specs.Prelude.{◌≡◌, bytes_eq};

/// Whether the word is the password. No byte of it is passed over, wherever the first other one is: the time depends on
/// the lengths of both alone.
pub(crate) fn is_same(word: &[u8], password: &[u8]) -> bool
    ensures { result ≡ bytes_eq word.now password.now }
{
    let mut is_same = true;
    let mut rest = word;
    let mut wanted = password;
    while let ([byte, more @ ..], [other, others @ ..]) = (rest, wanted) {
        is_same = is_same & (*byte == *other);
        rest = more;
        wanted = others;
    }
    is_same & rest.is_empty() & wanted.is_empty()
}
