//! Writing to a writer that may take less than it is given.

ghost use Rattle.std.specs.Prelude.{◌≡◌, OnOk, IfErr, ℕ, take};
ghost use Rattle.std.specs.Io.KnownBytes.{Appends};

use crate::serving::fault::ServeFault;
use std::io::{ErrorKind, Write};

/// Writes all of the bytes. Where the writer fails or takes no more, the answer is `Write`, and what it holds more is a
/// first part of them. A write that was interrupted is tried again.
pub fn write_whole<W: Write>(writer: &mut W, bytes: &[u8]) -> Result<(), ServeFault>
    ensures whole { OnOk result (Appends (W.contents writer.old) (W.contents writer.new) bytes.now) }
    ensures part { (count : ℕ) × Appends (W.contents writer.old) (W.contents writer.new) (take count bytes.now) }
    ensures write { IfErr result (λ fault. fault ≡ ServeFault.Write) }
{
    let mut done = 0;
    for _ in 0..u64::MAX {
        if done == bytes.len() {
            return Ok(());
        }
        match writer.write(&bytes[done..]) {
            Ok(0) => return Err(ServeFault::Write),
            Ok(count) => done += count,
            Err(error) => {
                if error.kind() != ErrorKind::Interrupted {
                    return Err(ServeFault::Write);
                }
            }
        }
    }
    Err(ServeFault::Write)
}
