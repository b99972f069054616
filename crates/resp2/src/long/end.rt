//! The end of a line or of a bulk string.

ghost use Rattle.std.specs.Prelude.{◌≡◌, ◌≤◌, length, drop, Ok, Err, true, false, IfErr};
ghost use Rattle.resp2.specs.declared.framing.fault.FrameFault.TheVariants.{MissingEnd};
ghost use Rattle.resp2.specs.declared.framing.fault.Unread.TheVariants.{NeedsMore, Faulty};
ghost use Rattle.resp2.specs.Framing.Reading.{end_at};

use crate::framing::FrameFault;

/// Whether CR LF stands whole at the front; `MissingEnd` where other bytes stand there.
pub(crate) fn has_end(bytes: &[u8]) -> Result<bool, FrameFault>
    ensures whole { result ≡ Ok true → (2 ≤ length bytes.now) × (end_at bytes.now ≡ Ok (drop 2 bytes.now)) }
    ensures waits { result ≡ Ok false → (length bytes.now ≤ 1) × (end_at bytes.now ≡ Err NeedsMore) }
    ensures fault { IfErr result (λ fault. (fault ≡ MissingEnd) × (end_at bytes.now ≡ Err (Faulty MissingEnd))) }
{
    let Some((first, rest)) = bytes.split_first() else {
        return Ok(false);
    };
    if *first != b'\r' {
        return Err(FrameFault::MissingEnd);
    }
    let Some((second, _)) = rest.split_first() else {
        return Ok(false);
    };
    if *second != b'\n' {
        return Err(FrameFault::MissingEnd);
    }
    Ok(true)
}
