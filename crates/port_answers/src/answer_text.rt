//! The text of answers, in room that was made beforehand.

ghost use Rattle.std.specs.Prelude.{◌≡◌, ◌≤◌, ◌∷◌, ◌++◌, [], IfOk, length, decimal, vec_capacity};
ghost use Rattle.resp2.specs.Framing.Frame as frames;
ghost use Rattle.resp2.specs.Framing.Frame.{spelling, line_end};
ghost use Rattle.ballot_law.specs.declared.messages.TheConstants.{ANSWER_MAX};
ghost use Rattle.port_answers.specs.Room.{bounded};

use ballot_law::{ANSWER_MAX, NoMemory, Text};
use bounded_list::BoundedList;
use resp2::{ByteSink, push_bulk, push_kind, push_line, push_size};
use std::alloc::Global;
use std::marker::Model;

/// Answers, one behind the other, in room of `ANSWER_MAX` bytes that was made beforehand, so that writing them takes no
/// memory. What has no room is cut. Contracts see the list of the bytes.
#[derive(Drop)]
pub struct AnswerText {
    bytes: BoundedList<u8, ANSWER_MAX>,
}

impl Model for AnswerText {
    ghost use Rattle.std.specs.Prelude.{List, ℕ};

    ghost Value = { List ℕ };

    ghost view = { λ text. text.bytes };
}

impl AnswerText {
    /// An empty text with its room; `NoMemory` where there is no memory for it.
    pub fn with_room(alloc: Global) -> Result<AnswerText, NoMemory>
        ensures { IfOk result (λ answers. answers ≡ []) }
    {
        let bytes = BoundedList::with_room(alloc)?;
        Ok(AnswerText { bytes })
    }

    /// The bytes of the answers, at most `ANSWER_MAX`.
    pub fn as_slice(&self) -> &[u8]
        ensures value { result.now ≡ self.now }
        ensures whole { bounded self.now ≡ self.now }
        ensures few { length self.now ≤ ANSWER_MAX }
    {
        self.bytes.as_slice()
    }

    /// The answers as a text, with the room they stand in. No memory is taken.
    pub fn into_text(self) -> Text
        ensures value { result ≡ self }
        ensures whole { bounded self ≡ self }
    {
        Text::from_vec(self.bytes.into_vec())
    }

    /// An empty text in the room of these bytes, which are gone. No memory is taken.
    pub fn from_vec(bytes: Vec<u8>) -> AnswerText
        requires { ANSWER_MAX ≤ vec_capacity bytes }
        ensures { result ≡ [] }
    {
        AnswerText {
            bytes: BoundedList::from_vec(bytes),
        }
    }

    /// Adds what there is room for.
    pub(crate) fn add(&mut self, piece: &[u8])
        ensures { self.new ≡ bounded (self.old ++ piece.now) }
    {
        self.bytes.extend_from_slice(piece);
    }

    /// Adds these bytes and CR LF.
    pub(crate) fn add_line(&mut self, line: &[u8])
        ensures { self.new ≡ bounded (self.old ++ (line.now ++ line_end)) }
    {
        let _ = push_line(self, line);
    }

    /// Adds the byte of a kind, these bytes, and CR LF.
    pub(crate) fn add_kind(&mut self, kind: u8, line: &[u8])
        ensures { self.new ≡ bounded (self.old ++ kind ∷ (line.now ++ line_end)) }
    {
        let _ = push_kind(self, kind, line);
    }

    /// Adds the byte of a kind, a number, and CR LF.
    pub(crate) fn add_size(&mut self, kind: u8, size: usize)
        ensures { self.new ≡ bounded (self.old ++ kind ∷ (decimal size ++ line_end)) }
    {
        let _ = push_size(self, kind, size);
    }

    /// Adds a bulk string.
    pub(crate) fn add_bulk(&mut self, bytes: &[u8])
        ensures { self.new ≡ bounded (self.old ++ spelling (frames.bulk bytes.now)) }
    {
        let _ = push_bulk(self, bytes);
    }
}

impl ByteSink for AnswerText {
    ghost bytes = { λ text. text };

    ghost within = { λ text. bounded text ≡ text };

    ghost full = { λ text. length text ≡ ANSWER_MAX };

    fn push(&mut self, piece: &[u8]) -> Result<(), NoMemory> {
        let room = ANSWER_MAX - self.as_slice().len();
        self.add(piece);
        if piece.len() > room {
            return Err(NoMemory);
        }
        Ok(())
    }
}
