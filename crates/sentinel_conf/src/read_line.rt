//! The lines of a file, each cut and read once.

ghost use Rattle.std.specs.Prelude.{◌≡◌, ◌++◌, ◌∷◌, [], IfOk, OnOk};
ghost use Rattle.ballot_law.specs.Cuts.{lines};
ghost use Rattle.conf_lines.specs.Lines.{line_of};

use conf_lines::{Line, line_of};
use std::alloc::{AllocError, Global};
use std::marker::Model;
use tokens::split_line;

/// A line of a file, with what it says. Contracts see its text.
#[derive(Drop)]
pub struct ReadLine<'a> {
    text: &'a [u8],
    line: Line,
}

impl<'a> Model for ReadLine<'a> {
    ghost use Rattle.std.specs.Prelude.{◌≡◌, List, ℕ};
    ghost use Rattle.conf_lines.specs.Lines.{line_of};

    ghost Value = { List ℕ };

    ghost view = { λ read. read.text.now };

    ghost invariant = { λ read. read.line ≡ line_of read.text.now };
}

impl<'a> ReadLine<'a> {
    /// The line with this text.
    fn of(text: &'a [u8]) -> ReadLine<'a>
        ensures { result ≡ text.now }
    {
        let line = line_of(text);
        ReadLine { text, line }
    }

    /// The line as it stands, without its LF.
    pub fn text(&self) -> &'a [u8]
        ensures { result.now ≡ self.now }
    {
        self.text
    }

    /// What it says.
    pub fn line(&self) -> &Line
        ensures { result.now ≡ line_of self.now }
    {
        &self.line
    }
}

/// Adds the line with this text.
fn add<'a>(list: &mut Vec<ReadLine<'a>>, text: &'a [u8]) -> Result<(), AllocError>
    ensures { OnOk result (list.new.items ≡ list.old.items ++ text.now ∷ []) }
{
    list.push(ReadLine::of(text))?;
    Ok(())
}

/// The lines of these bytes, in order: that with the number 1 is the first. AllocError: memory was refused.
pub fn read_lines<'a>(alloc: Global, bytes: &'a [u8]) -> Result<Vec<ReadLine<'a>>, AllocError>
    ensures { IfOk result (λ list. list.items ≡ lines bytes.now) }
{
    let mut list = Vec::new(alloc);
    let mut rest = bytes;
    while !rest.is_empty() {
        let (text, more) = split_line(rest);
        add(&mut list, text)?;
        rest = more;
    }
    Ok(list)
}
