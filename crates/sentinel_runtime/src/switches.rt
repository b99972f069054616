//! The notes of new addresses, as they come to the subscribers of a Sentinel's port.

ghost use Rattle.std.specs.Prelude.{◌≡◌, IfSome, option_map};
ghost use Rattle.sentinel_runtime.specs.Running.{note_of};
ghost use Rattle.sentinel_runtime.specs.Saying.{MayNote};

use crate::running_sentinel::Which;
use ballot_law::{Note, Output};
use std::alloc::AllocError;
use std::marker::PhantomData;

/// A note that a stored call of the Sentinel showed, and how many calls of its threads stand before that one.
pub struct Switch<J: Which> {
    pub note: Note,
    pub entry: u64,
    of: PhantomData<J>,
    ghost noted: { ∥ J.noted note entry ∥₁ },
}

impl<J: Which> Clone for Switch<J> {
    ghost use Rattle.std.specs.Prelude.{◌≡◌};

    ghost is_clone = { λ value copy. copy ≡ value };

    ghost is_infallible = { λ _. Unit {0} };

    fn clone(&self) -> Result<Switch<J>, AllocError> {
        Ok(*self)
    }
}

impl<J: Which> Copy for Switch<J> {}

/// The note that an output of the call with this entry is.
pub(crate) fn switch_of<J: Which>(output: &Output, entry: u64) -> Option<Switch<J>>
    requires noted { MayNote J.noted entry output.now }
    ensures note { option_map (λ switch. switch.note) result ≡ note_of output.now }
    ensures entry { IfSome result (λ switch. switch.entry ≡ entry) }
{
    match output {
        Output::Tell(note) => Some(Switch {
            note: *note,
            entry,
            of: PhantomData,
        }),
        Output::Send(_) => None,
    }
}
