//! Answers that a table of the program holds piece by piece, and their writer.

ghost use Rattle.std.specs.Prelude.{◌≡◌, ◌++◌, ◌∷◌, OnOk, decimal};
ghost use Rattle.resp2.specs.Framing.Frame.{spelling, simple, bulk, line_end};
ghost use Rattle.client_commands.specs.Pieces.{parts_in, all_in, all_bytes_of};

use ballot_law::NoMemory;
use resp2::{OutText, push_bulk, push_kind, push_size};

/// A piece of an answer.
#[derive(Clone, Copy)]
pub(crate) enum TablePiece {
    /// A bulk string.
    Text(&'static [u8]),
    /// A simple string.
    Mark(&'static [u8]),
    /// A name and its text, two bulk strings.
    Field(&'static [u8], &'static [u8]),
    /// A version and what it changed, an array.
    Change(&'static [u8], &'static [u8]),
    /// A name, and the header of an array of so many items, which follow.
    Many(&'static [u8], usize),
    /// The header of an argument that has so many names and values, and its name and kind. The other names and values
    /// follow.
    Argument(usize, &'static [u8], &'static [u8]),
}

/// Adds the header of an array of so many items.
pub(crate) fn add_header(out: &mut OutText, size: usize) -> Result<(), NoMemory>
    ensures { OnOk result (out.new ≡ out.old ++ (42 ∷ (decimal size ++ line_end))) }
{
    push_size(out, b'*', size)
}

/// Adds a simple string.
fn add_mark(out: &mut OutText, mark: &[u8]) -> Result<(), NoMemory>
    ensures { OnOk result (out.new ≡ out.old ++ spelling (simple mark.now)) }
{
    push_kind(out, b'+', mark)
}

/// Adds two bulk strings.
fn add_field(out: &mut OutText, name: &[u8], text: &[u8]) -> Result<(), NoMemory>
    ensures { OnOk result (out.new ≡ out.old ++ (spelling (bulk name.now) ++ spelling (bulk text.now))) }
{
    push_bulk(out, name)?;
    push_bulk(out, text)
}

/// Adds a piece.
pub(crate) fn add_piece(out: &mut OutText, piece: TablePiece) -> Result<(), NoMemory>
    ensures { OnOk result (out.new ≡ out.old ++ all_bytes_of (parts_in piece)) }
{
    match piece {
        TablePiece::Text(text) => push_bulk(out, text),
        TablePiece::Mark(mark) => add_mark(out, mark),
        TablePiece::Field(name, text) => add_field(out, name, text),
        TablePiece::Change(version, text) => {
            add_header(out, 2)?;
            add_field(out, version, text)
        }
        TablePiece::Many(name, size) => {
            push_bulk(out, name)?;
            add_header(out, size)
        }
        TablePiece::Argument(size, name, kind) => {
            add_header(out, size)?;
            add_field(out, b"name", name)?;
            add_field(out, b"type", kind)
        }
    }
}

/// Adds pieces.
pub(crate) fn add_pieces(out: &mut OutText, pieces: &[TablePiece]) -> Result<(), NoMemory>
    ensures { OnOk result (out.new ≡ out.old ++ all_bytes_of (all_in pieces.now)) }
{
    let mut rest = pieces;
    while let [piece, more @ ..] = rest {
        add_piece(out, *piece)?;
        rest = more;
    }
    Ok(())
}
