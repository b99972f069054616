//! Confirmations.

ghost use Rattle.std.specs.Prelude.{◌≡◌, ◌++◌, OnOk};
ghost use Rattle.resp2.specs.Framing.Frame.{bulk, null_bulk, spelling};
ghost use Rattle.pubsub.specs.Confirming.{total_bytes, confirmation};

use ballot_law::NoMemory;
use itoa::Buffer;
use resp2::{OutText, push_bulk};

/// Adds how many names a connection listens to.
fn add_total(out: &mut OutText, total: usize) -> Result<(), NoMemory>
    ensures { OnOk result (out.new ≡ out.old ++ total_bytes total) }
{
    out.add(b":")?;
    let mut buffer = Buffer::new();
    out.add(buffer.format(total).as_bytes())?;
    out.add(b"\r\n")
}

/// Adds a command, a name and a total after a text.
fn add_named(
    out: &mut OutText,
    front: &[u8],
    verb: &[u8],
    name: &[u8],
    total: usize,
) -> Result<(), NoMemory>
    ensures { OnOk result (out.new ≡ out.old ++ (front.now ++ (spelling (bulk verb.now) ++ (spelling (bulk name.now) ++ total_bytes total)))) }
{
    out.add(front)?;
    push_bulk(out, verb)?;
    push_bulk(out, name)?;
    add_total(out, total)
}

/// Adds a command, a text and a total after a text.
fn add_bare(
    out: &mut OutText,
    front: &[u8],
    verb: &[u8],
    null: &[u8],
    total: usize,
) -> Result<(), NoMemory>
    ensures { OnOk result (out.new ≡ out.old ++ (front.now ++ (spelling (bulk verb.now) ++ (null.now ++ total_bytes total)))) }
{
    out.add(front)?;
    push_bulk(out, verb)?;
    out.add(null)?;
    add_total(out, total)
}

/// Adds the confirmation of a command for a name, where the connection listens to `total` channels and patterns then.
pub(crate) fn add_confirmation(
    out: &mut OutText,
    verb: &[u8],
    name: &[u8],
    total: usize,
) -> Result<(), NoMemory>
    ensures { OnOk result (out.new ≡ out.old ++ spelling (confirmation verb.now (bulk name.now) total)) }
{
    add_named(out, b"*3\r\n", verb, name, total)
}

/// Adds the confirmation of a command that found no name.
pub(crate) fn add_unnamed(out: &mut OutText, verb: &[u8], total: usize) -> Result<(), NoMemory>
    ensures { OnOk result (out.new ≡ out.old ++ spelling (confirmation verb.now null_bulk total)) }
{
    add_bare(out, b"*3\r\n", verb, b"$-1\r\n", total)
}
