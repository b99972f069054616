//! Where what a Sentinel says goes.

ghost use Rattle.std.specs.Prelude.{◌≡◌, ◌++◌, Some, IfSome};
ghost use Rattle.std.specs.List.{AllByRecursion};
ghost use Rattle.ballot_law.specs.Messages.{sent};
ghost use Rattle.boxed_nodes.specs.Sendable.{IsSendableOutput};
ghost use Rattle.sentinel_runtime.specs.Saying.{IsSaid};

use crate::running_sentinel::Which;
use ballot_law::{Message, Output};

/// A place where the messages of a Sentinel go out, as its channels or its connections: nothing goes out in its name
/// but what it may say.
///
/// `handed` has all messages that it was handed, oldest first, for an outlet that keeps them, as one of a test does.
/// Channels and connections keep none, and say nothing. What hands messages on can't tell the one from the other.
pub trait Outlet<J: Which> {
    ghost use Rattle.std.specs.Prelude.{◌≡◌, ◌++◌, ◌∷◌, [], List, Option, None, Some, IfSome};
    ghost use Rattle.ballot_law.specs.declared.messages.Message.{Message};
    ghost use Rattle.boxed_nodes.specs.Sendable.{IsSendable};

    ghost handed: { Self → Option (List Message) } = { λ _. None };

    /// Sends a message to its target; it may be lost on the way.
    fn send(&mut self, message: &Message)
        requires sendable { IsSendable message.now }
        requires said { ∥ J.said message.now ∥₁ }
        ensures handed { IfSome (handed self.old) (λ before. handed self.new ≡ Some (before ++ message.now ∷ [])) };
}

/// Sends each message among these outputs once, in their order, and nothing else.
pub fn send_all<J: Which, O: Outlet<J>>(outlet: &mut O, outputs: &[Output])
    requires sendable { AllByRecursion IsSendableOutput outputs.now }
    requires said { AllByRecursion (IsSaid J.said) outputs.now }
    ensures handed { IfSome (O.handed outlet.old) (λ before. O.handed outlet.new ≡ Some (before ++ sent outputs.now)) }
{
    for output in outputs {
        match output {
            Output::Send(message) => outlet.send(message),
            Output::Tell(_) => {}
        }
    }
}
