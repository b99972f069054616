//! Entries as lines of text.

ghost use Rattle.std.specs.Prelude.{◌≡◌, ◌∷◌, ◌++◌, [], decimal, OnOk, OnErr};
ghost use Rattle.std.specs.List.{flat_map};
ghost use Rattle.ballot_law.specs.Words.{ip_text, id_text};
ghost use Rattle.resp2.specs.Framing.Writing.{Begins};
ghost use Rattle.fault_world.specs.Told.{line_of, elected_words, said_words, line};

use crate::entry::Entry;
use ballot_law::{Card, Name, NoMemory, RunId};
use itoa::Buffer;
use resp2::OutText;
use tokens::{ip_text, run_id_text};

/// Adds a word and the byte behind it.
fn add_word(text: &mut OutText, word: &[u8], end: u8) -> Result<(), NoMemory>
    ensures ok { OnOk result (text.new ≡ text.old ++ (word.now ++ end ∷ [])) }
    ensures err { OnErr result (Begins text.old text.new) }
{
    text.add(word)?;
    text.add(&[end])
}

/// Adds a number in decimal and the byte behind it.
fn add_number(text: &mut OutText, number: u64, end: u8) -> Result<(), NoMemory>
    ensures ok { OnOk result (text.new ≡ text.old ++ (decimal number ++ end ∷ [])) }
    ensures err { OnErr result (Begins text.old text.new) }
{
    let mut buffer = Buffer::new();
    add_word(text, buffer.format(number).as_bytes(), end)
}

/// Adds a run id and the byte behind it.
fn add_id(text: &mut OutText, id: RunId, end: u8) -> Result<(), NoMemory>
    ensures ok { OnOk result (text.new ≡ text.old ++ (id_text id ++ end ∷ [])) }
    ensures err { OnErr result (Begins text.old text.new) }
{
    add_word(text, run_id_text(id).as_slice(), end)
}

/// Adds an IPv4 address and the byte behind it.
fn add_ip(text: &mut OutText, ip: u32, end: u8) -> Result<(), NoMemory>
    ensures ok { OnOk result (text.new ≡ text.old ++ (ip_text ip ++ end ∷ [])) }
    ensures err { OnErr result (Begins text.old text.new) }
{
    add_word(text, ip_text(ip).as_slice(), end)
}

/// Adds the line of an election.
fn add_elected(text: &mut OutText, master: &Name, epoch: u64, id: RunId) -> Result<(), NoMemory>
    ensures ok { OnOk result (text.new ≡ text.old ++ line (elected_words master.now epoch id)) }
    ensures err { OnErr result (Begins text.old text.new) }
{
    add_word(text, b"elected", b' ')?;
    add_word(text, master.as_slice(), b' ')?;
    add_number(text, epoch, b' ')?;
    add_id(text, id, b'\n')
}

/// Adds the line of a configuration that was shown.
fn add_said(text: &mut OutText, id: RunId, master: &Name, card: Card) -> Result<(), NoMemory>
    ensures ok { OnOk result (text.new ≡ text.old ++ line (said_words id master.now card)) }
    ensures err { OnErr result (Begins text.old text.new) }
{
    add_word(text, b"said", b' ')?;
    add_id(text, id, b' ')?;
    add_word(text, master.as_slice(), b' ')?;
    add_number(text, card.epoch, b' ')?;
    add_ip(text, card.addr.ip, b' ')?;
    add_number(text, u64::from(card.addr.port), b'\n')
}

/// Adds the line of an entry.
fn add_entry(text: &mut OutText, entry: &Entry) -> Result<(), NoMemory>
    ensures ok { OnOk result (text.new ≡ text.old ++ line_of entry.now) }
    ensures err { OnErr result (Begins text.old text.new) }
{
    match entry {
        Entry::Elected { master, epoch, id } => add_elected(text, master, *epoch, *id),
        Entry::Said { id, master, card } => add_said(text, *id, master, *card),
    }
}

/// Adds the line of each entry.
fn add_entries(text: &mut OutText, entries: &[Entry]) -> Result<(), NoMemory>
    ensures ok { OnOk result (text.new ≡ text.old ++ flat_map line_of entries.now) }
    ensures err { OnErr result (Begins text.old text.new) }
{
    for entry in entries {
        add_entry(text, entry)?;
    }
    Ok(())
}

/// Adds the line of each entry; `NoMemory` leaves the text unchanged.
pub(crate) fn add_lines(text: &mut OutText, entries: &[Entry]) -> Result<(), NoMemory>
    ensures ok { OnOk result (text.new ≡ text.old ++ flat_map line_of entries.now) }
    ensures err { OnErr result (text.new ≡ text.old) }
{
    let len = text.len();
    match add_entries(text, entries) {
        Ok(()) => Ok(()),
        Err(_) => {
            text.truncate(len);
            Err(NoMemory)
        }
    }
}
