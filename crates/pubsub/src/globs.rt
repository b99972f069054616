//! Patterns of channels.

ghost use Rattle.std.specs.Prelude.{◌≡◌, ◌≤◌, ◌∷◌, ◌&&◌, true, false, IfSome, IfNone, length};
ghost use Rattle.pubsub.specs.Globs.{place, is_within, first_has, after_first, is_listed, after_listed, class_has, after_class, takes, after_item, is_open, fits, is_empty, matches, IsStep};

/// Where a byte has its place within a span.
fn place(byte: u8) -> u8
    ensures { result ≡ place byte }
{
    byte ^ 128
}

/// Whether the byte is one of those from `one` to `other`, in whichever order they stand.
fn is_within(one: u8, other: u8, byte: u8) -> bool
    ensures { result ≡ is_within one other byte }
{
    let (one, other, byte) = (place(one), place(other), place(byte));
    (one <= byte && byte <= other) || (other <= byte && byte <= one)
}

/// Whether what a class lists first, a byte or a span that begins with `first`, has the byte, and what is after it.
fn first_listed(first: u8, more: &[u8], byte: u8) -> (bool, &[u8])
    ensures has { result.0 ≡ first_has first more.now byte }
    ensures rest { result.1.now ≡ after_first first more.now }
{
    if let Some((second, rest)) = more.split_first() {
        if first == b'\\' {
            return (*second == byte, rest);
        }
        if let Some((other, after)) = rest.split_first() {
            if *second == b'-' {
                return (is_within(first, *other, byte), after);
            }
        }
    }
    (first == byte, more)
}

/// Whether the byte is among what a class lists, and the pattern after the class.
#[tactic(auto, using(crate::proofs::Listed::closes, crate::proofs::Listed::closes_after))]
fn listed(list: &[u8], byte: u8) -> (bool, &[u8])
    ensures has { result.0 ≡ is_listed list.now byte }
    ensures rest { result.1.now ≡ after_listed list.now }
{
    let mut found = false;
    let mut rest = list;
    while let Some((first, more)) = rest.split_first() {
        if *first == b']' {
            return (found, more);
        }
        let (has, after) = first_listed(*first, more, byte);
        found = found || has;
        rest = after;
    }
    (found, rest)
}

/// Whether the class after a `[` has the byte, and the pattern after the class.
fn class(class: &[u8], byte: u8) -> (bool, &[u8])
    ensures has { result.0 ≡ class_has class.now byte }
    ensures rest { result.1.now ≡ after_class class.now }
{
    match class {
        [b'^', list @ ..] => {
            let (found, rest) = listed(list, byte);
            (!found, rest)
        }
        list => listed(list, byte),
    }
}

/// Whether the first item of the pattern takes the byte, and the pattern after that item.
fn first_item(pattern: &[u8], byte: u8) -> (bool, &[u8])
    ensures takes { result.0 ≡ takes pattern.now byte }
    ensures rest { result.1.now ≡ after_item pattern.now }
{
    match pattern {
        [] => (false, pattern),
        [b'?', rest @ ..] => (true, rest),
        [b'[', list @ ..] => class(list, byte),
        [b'\\', escaped, rest @ ..] => (*escaped == byte, rest),
        [item, rest @ ..] => (*item == byte, rest),
    }
}

/// Whether the pattern begins with a `*`.
fn is_open(pattern: &[u8]) -> bool
    ensures { result ≡ is_open pattern.now }
{
    match pattern {
        [b'*', ..] => true,
        _ => false,
    }
}

/// The pattern after the `*` that it begins with; none where it begins with another item or is empty.
fn after_star(pattern: &[u8]) -> Option<&[u8]>
    ensures star { IfSome result (λ after. pattern.now ≡ 42 ∷ after.now) }
    ensures other { IfNone result (is_open pattern.now ≡ false) }
{
    match pattern.split_first() {
        Some((first, after)) if *first == b'*' => Some(after),
        _ => None,
    }
}

/// What is left of a pattern and a text where the first item takes the first byte; none at a `*`, at an end, or where
/// the item doesn't take the byte.
#[tactic(auto, using(crate::proofs::Fitting::stuck_ended, crate::proofs::Fitting::text_ended))]
fn step<'a>(pattern: &'a [u8], text: &'a [u8]) -> Option<(&'a [u8], &'a [u8])>
    ensures stepped { IfSome result (λ left. IsStep pattern.now text.now left.0.now left.1.now) }
    ensures ended { IfNone result (is_open pattern.now ≡ false → fits pattern.now text.now ≡ (is_empty pattern.now && is_empty text.now)) }
{
    let Some((byte, later)) = text.split_first() else {
        return None;
    };
    if is_open(pattern) {
        return None;
    }
    let (takes, after) = first_item(pattern, *byte);
    if takes { Some((after, later)) } else { None }
}

/// What is left of a pattern and a text after the items that take byte after byte, up to a `*`, to an end, or to an
/// item that doesn't take its byte.
fn run<'a>(pattern: &'a [u8], text: &'a [u8]) -> (&'a [u8], &'a [u8])
    ensures here { fits pattern.now text.now ≡ fits result.0.now result.1.now }
    ensures later { fits (42 ∷ pattern.now) text.now ≡ true → fits (42 ∷ result.0.now) result.1.now ≡ true }
    ensures ended { is_open result.0.now ≡ false → fits result.0.now result.1.now ≡ (is_empty result.0.now && is_empty result.1.now) }
    ensures shorter { length result.0.now ≤ length pattern.now }
    ensures fewer { length result.1.now ≤ length text.now }
{
    let mut left = pattern;
    let mut rest = text;
    while let Some((after, later)) = step(left, rest) {
        left = after;
        rest = later;
    }
    (left, rest)
}

/// Whether the pattern fits the text from some byte on. Once the items before a `*` fit somewhere, no later place can
/// serve better, so none is tried: each byte is tried at most once with each item between two `*`.
#[tactic(auto, using(crate::proofs::Fitting::committed, crate::proofs::Fitting::missed, crate::proofs::Fitting::weaker))]
fn is_found(pattern: &[u8], text: &[u8]) -> bool
    ensures { result ≡ fits (42 ∷ pattern.now) text.now }
{
    let mut pattern = pattern;
    let mut text = text;
    loop {
        let (left, rest) = run(pattern, text);
        if let Some(after) = after_star(left) {
            pattern = after;
            text = rest;
        } else if left.is_empty() && rest.is_empty() {
            return true;
        } else if let Some((_, later)) = text.split_first() {
            text = later;
        } else {
            return false;
        }
    }
}

/// Whether the pattern matches the text, as Redis matches patterns of channels: `*` stands for any bytes, `?` for one
/// byte, `[ab]`, `[a-c]` and `[^a]` for one of those bytes or none of them, and a backslash has the byte after it stand
/// for itself. The work is at most the length of the pattern times that of the text.
pub fn is_match(pattern: &[u8], text: &[u8]) -> bool
    ensures { result ≡ matches pattern.now text.now }
{
    if text.is_empty() {
        return pattern.is_empty();
    }
    let (left, rest) = run(pattern, text);
    match after_star(left) {
        Some(after) => is_found(after, rest),
        None => left.is_empty() && rest.is_empty(),
    }
}
