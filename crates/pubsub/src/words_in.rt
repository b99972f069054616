//! Whose command the words of a value are, and the second of them.

ghost use Rattle.std.specs.Prelude.{◌≡◌, IfOk};
ghost use Rattle.ballot_law.specs.Words.{lower};
ghost use Rattle.pubsub.specs.Answering.{is_own, second};

use ballot_law::{Command, NoMemory, Text};
use resp2::CommandFault;
use std::alloc::Global;

/// Whether the Sentinel's rules know the command.
pub(crate) fn is_own(asked: &Result<Command, CommandFault>) -> bool
    ensures { result ≡ is_own asked.now }
{
    match asked {
        Err(CommandFault::NotACommand) => false,
        Err(CommandFault::UnknownCommand) => false,
        Err(CommandFault::WrongArguments) => false,
        _ => true,
    }
}

/// The word after the first, and none where there is no such word.
fn second(words: &[Text]) -> &[u8]
    ensures { result.now ≡ second words.now }
{
    match words {
        [_, word, ..] => word.as_slice(),
        _ => &[],
    }
}

/// That word in lower case.
pub(crate) fn lower_second(alloc: Global, words: &[Text]) -> Result<Text, NoMemory>
    ensures { IfOk result (λ word. word ≡ lower (second words.now)) }
{
    let mut bytes = Vec::from_slice(alloc, second(words))?;
    bytes.make_ascii_lowercase();
    Ok(Text::from_vec(bytes))
}
