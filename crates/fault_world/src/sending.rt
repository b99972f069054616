//! The messages among outputs.

ghost use Rattle.std.specs.Prelude.{◌≡◌, ◌≤◌, ◌+◌, ◌++◌, [], vec_len, vec_capacity};
ghost use Rattle.ballot_law.specs.Messages.{sent};

use ballot_law::{Message, Output};

/// Moves the messages among outputs to the end of a list that has room for them, in order; the notes are dropped. No
/// memory is taken.
pub(crate) fn send_all(outputs: &mut Vec<Output>, messages: &mut Vec<Message>)
    requires { vec_len messages.old + vec_len outputs.old ≤ vec_capacity messages.old }
    ensures sent { messages.new.items ≡ messages.old.items ++ sent outputs.old.items }
    ensures empty { outputs.new.items ≡ [] }
{
    for output in outputs.drain(..) {
        if let Output::Send(message) = output {
            messages.push_reserved(message);
        }
    }
}
