//! A run id for a new file.

ghost use Rattle.std.specs.Prelude.{◌≡◌, ◌∷◌, ◌++◌, [], IfOk, string_bytes};
ghost use Rattle.hex.specs.Hex.{encode_lower};

use std::alloc::{AllocError, Global};

/// How many bytes a run id has: two hex digits stand for each.
pub const ID_BYTES: usize = 20;

/// The run id of these bytes as a line: 40 lower case hex digits, and LF. AllocError: memory was refused.
pub fn id_line(alloc: Global, bytes: &[u8; ID_BYTES]) -> Result<String, AllocError>
    ensures { IfOk result (λ line. string_bytes line ≡ encode_lower bytes.now ++ 10 ∷ []) }
{
    let mut line = hex::encode(alloc, bytes.as_slice())?;
    line.push_str("\n")?;
    Ok(line)
}
