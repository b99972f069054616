//! Short texts in fields of fixed size.

ghost use Rattle.std.specs.Prelude.{◌≡◌, ◌≤◌, ◌++◌, ◌-◌, length};
ghost use Rattle.ballot_law.specs.Padding.{zeros};

/// The bytes, and zeros after them.
pub(crate) fn padded<const SIZE: usize>(bytes: &[u8]) -> [u8; SIZE]
    requires { length bytes.now ≤ SIZE }
    ensures whole { result ≡ bytes.now ++ zeros (SIZE - length bytes.now) }
    ensures len { length result ≡ SIZE }
{
    let mut held = [0u8; SIZE];
    held[..bytes.len()].copy_from_slice(bytes);
    held
}
