//! Comments of a scenario.

ghost use Rattle.std.specs.Prelude.{◌≡◌, ◌++◌, OnOk, OnErr, map};
ghost use Rattle.fault_world.specs.Scenarios.Lines.{shown, comment};
ghost use Rattle.resp2.specs.Framing.Writing.{Begins};

use ballot_law::NoMemory;
use resp2::OutText;

/// The byte as it is shown: one that isn't a printable one of ASCII is a space.
fn shown(byte: u8) -> u8
    ensures { result ≡ shown byte }
{
    if byte < 32 {
        b' '
    } else if byte < 127 {
        byte
    } else {
        b' '
    }
}

/// Adds these bytes as they are shown.
fn add_shown(text: &mut OutText, bytes: &[u8]) -> Result<(), NoMemory>
    ensures ok { OnOk result (text.new ≡ text.old ++ map shown bytes.now) }
    ensures err { OnErr result (Begins text.old text.new) }
{
    for byte in bytes {
        text.add(&[shown(*byte)])?;
    }
    Ok(())
}

/// Adds a comment line: a number sign, a space, the words with a space for each byte that isn't a printable one of
/// ASCII, and the line's end. So it is one line, whatever the words are. `NoMemory` leaves the text unchanged.
pub fn add_comment(text: &mut OutText, words: &[u8]) -> Result<(), NoMemory>
    ensures ok { OnOk result (text.new ≡ text.old ++ comment words.now) }
    ensures err { OnErr result (text.new ≡ text.old) }
{
    let len = text.len();
    match add_line(text, words) {
        Ok(()) => Ok(()),
        Err(_) => {
            text.truncate(len);
            Err(NoMemory)
        }
    }
}

/// Adds the parts of a comment line.
fn add_line(text: &mut OutText, words: &[u8]) -> Result<(), NoMemory>
    ensures ok { OnOk result (text.new ≡ text.old ++ comment words.now) }
    ensures err { OnErr result (Begins text.old text.new) }
{
    text.add(b"# ")?;
    add_shown(text, words)?;
    text.add(b"\n")
}
