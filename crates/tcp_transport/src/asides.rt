//! What the replies of a node tell beside events.

use ballot_law::Text;
use links::{Question, Row};
use std::alloc::Global;
use std::mem;

/// How many errors are kept until they are noted; a further one is lost.
const REFUSALS_MAX: usize = 64;

/// An error by which a node refused a question.
#[derive(Drop)]
pub(crate) struct Refused {
    pub(crate) question: Question,
    pub(crate) text: Text,
}

impl Refused {
    /// Whether its code is this one, which ends in a space.
    pub(crate) fn is_of(&self, code: &[u8]) -> bool {
        self.text.as_slice().starts_with(code)
    }
}

/// What the replies of a node told beside events, until somebody takes it: errors, oldest first, another Sentinel's row
/// of a master, and whether the node wants a password first.
#[derive(Drop)]
pub(crate) struct Asides {
    refused: Vec<Refused>,
    row: Option<Row>,
    wants_login: bool,
    alloc: Global,
}

impl Asides {
    /// Nothing was told.
    pub(crate) fn new(alloc: Global) -> Asides {
        Asides {
            refused: Vec::new(alloc),
            row: None,
            wants_login: false,
            alloc,
        }
    }

    /// The node refused this question with this error.
    pub(crate) fn refuse(&mut self, question: Question, text: Text) {
        let refused = Refused { question, text };
        self.wants_login |= refused.is_of(b"NOAUTH ");
        if self.refused.len() < REFUSALS_MAX {
            drop(self.refused.push(refused));
        }
    }

    /// The node told this row.
    pub(crate) fn tell_row(&mut self, row: Row) {
        self.row = Some(row);
    }

    /// The errors that weren't taken yet.
    pub(crate) fn take_refused(&mut self) -> Vec<Refused> {
        mem::replace(&mut self.refused, Vec::new(self.alloc))
    }

    /// The error that refused the question for a row, if one did that wasn't taken yet.
    pub(crate) fn row_refused(&self) -> Option<&[u8]> {
        for refused in &self.refused {
            if refused.question == Question::Row {
                return Some(refused.text.as_slice());
            }
        }
        None
    }

    /// The row, if one was told that wasn't taken yet.
    pub(crate) fn take_row(&mut self) -> Option<Row> {
        self.row.take()
    }

    /// Whether the node wanted a password since this was asked last.
    pub(crate) fn take_wish(&mut self) -> bool {
        mem::replace(&mut self.wants_login, false)
    }
}
