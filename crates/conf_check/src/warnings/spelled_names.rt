//! The names with which a line begins.

ghost use Rattle.std.specs.Prelude.{◌≡◌, ◌≤◌, length};
ghost use Rattle.conf_check.specs.Warnings.SpelledNames.{is_between, from_name, name_length, first_name, behind_name};

/// Whether the byte stands between names: white space, as Redis takes it, or a quote.
fn is_between(byte: u8) -> bool
    ensures { result ≡ is_between byte }
{
    byte == b' ' || byte == b'"' || byte == b'\'' || (b'\t' <= byte && byte <= b'\r')
}

/// The text from its first byte on that stands in a name.
fn from_name(text: &[u8]) -> &[u8]
    ensures { result.now ≡ from_name text.now }
{
    let mut rest = text;
    while let [first, more @ ..] = rest {
        if !is_between(*first) {
            return rest;
        }
        rest = more;
    }
    rest
}

/// How many bytes the name has with which the text begins.
fn name_length(text: &[u8]) -> usize
    ensures value { result ≡ name_length text.now }
    ensures within { result ≤ length text.now }
{
    let mut count = 0;
    let mut rest = text;
    while let [first, more @ ..] = rest {
        if is_between(*first) {
            return count;
        }
        count += 1;
        rest = more;
    }
    count
}

/// The first name of a text, without the white space and the quotes round it, and what stands behind it. A text without
/// a name has an empty one.
pub fn first_name(text: &[u8]) -> (&[u8], &[u8])
    ensures name { result.0.now ≡ first_name text.now }
    ensures behind { result.1.now ≡ behind_name text.now }
{
    let start = from_name(text);
    start.split_at(name_length(start))
}
