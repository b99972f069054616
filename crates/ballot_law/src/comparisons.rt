//! Comparisons of texts, byte by byte.

ghost use Rattle.std.specs.Prelude.{◌≡◌};
ghost use Rattle.ballot_law.specs.Orders.{same_bytes, bytes_before};

/// Whether the two texts are the same.
pub fn is_same_bytes(first: &[u8], second: &[u8]) -> bool
    ensures { result ≡ same_bytes first.now second.now }
{
    first == second
}

/// Whether the first text stands before the second in the order of their bytes.
pub fn is_bytes_before(first: &[u8], second: &[u8]) -> bool
    ensures { result ≡ bytes_before first.now second.now }
{
    first.cmp(second).is_lt()
}
