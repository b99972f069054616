//! Texts that are made in a place of fixed size before they are added to another text at once.

ghost use Rattle.std.specs.Prelude.{◌≡◌, ◌≤◌, ◌+◌, ◌++◌, length, decimal, OnOk, OnErr, IfErr};
ghost use Rattle.arrayvec.specs.ArrayVec.{array_vec_len};
ghost use Rattle.ballot_law.specs.Words.{ip_text, id_text};

use crate::faults::TextFault;
use arrayvec::ArrayVec;
use ballot_law::RunId;
use itoa::Buffer;
use resp2::OutText;
use tokens::{ip_text, run_id_text};

/// How many bytes a text may have that is made here: more than any hello or INFO.
const DRAFT_MAX: usize = 512;

/// A text that is being made.
pub(crate) type Draft = ArrayVec<u8, DRAFT_MAX>;

/// Adds these bytes.
pub(crate) fn put(draft: &mut Draft, bytes: &[u8])
    requires { array_vec_len draft.old + length bytes.now ≤ 512 }
    ensures items { draft.new.items ≡ draft.old.items ++ bytes.now }
    ensures len { array_vec_len draft.new ≡ array_vec_len draft.old + length bytes.now }
{
    draft.try_extend_from_slice(bytes).unwrap()
}

/// Adds a number in decimal.
pub(crate) fn put_number(draft: &mut Draft, number: u64)
    requires { array_vec_len draft.old + 20 ≤ 512 }
    ensures items { draft.new.items ≡ draft.old.items ++ decimal number }
    ensures len { array_vec_len draft.new ≤ array_vec_len draft.old + 20 }
{
    let mut buffer = Buffer::new();
    put(draft, buffer.format(number).as_bytes());
}

/// Adds an IPv4 address.
pub(crate) fn put_ip(draft: &mut Draft, ip: u32)
    requires { array_vec_len draft.old + 15 ≤ 512 }
    ensures items { draft.new.items ≡ draft.old.items ++ ip_text ip }
    ensures len { array_vec_len draft.new ≤ array_vec_len draft.old + 15 }
{
    put(draft, ip_text(ip).as_slice());
}

/// Adds a run id.
pub(crate) fn put_id(draft: &mut Draft, id: RunId)
    requires { array_vec_len draft.old + 40 ≤ 512 }
    ensures items { draft.new.items ≡ draft.old.items ++ id_text id }
    ensures len { array_vec_len draft.new ≡ array_vec_len draft.old + 40 }
{
    put(draft, run_id_text(id).as_slice());
}

/// Adds a draft to a text at once.
pub(crate) fn add(draft: &Draft, text: &mut OutText) -> Result<(), TextFault>
    ensures ok { OnOk result (text.new ≡ text.old ++ draft.now.items) }
    ensures unchanged { OnErr result (text.new ≡ text.old) }
    ensures err { IfErr result (λ fault. fault ≡ TextFault.NoMemory) }
    ensures fits { length draft.now.items ≤ 512 }
{
    match text.add(draft.as_slice()) {
        Ok(()) => Ok(()),
        Err(_) => Err(TextFault::NoMemory),
    }
}
