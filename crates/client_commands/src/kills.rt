//! CLIENT KILL.

ghost use Rattle.std.specs.Prelude.{◌≡◌, ◌++◌, ℕ, List, OnOk, length};
ghost use Rattle.resp2.specs.Framing.Frame.{spelling};
ghost use Rattle.client_commands.specs.Choosing.{chosen_by};
ghost use Rattle.client_commands.specs.Courtesies.{doomed, killed_of, kill};

use crate::choosing::chosen_by;
use crate::client_info::ClientInfo;
use crate::clients::say_number;
use crate::refusals::say;
use ballot_law::{NoMemory, Text};
use resp2::OutText;
use std::alloc::Global;

/// The answer where so many clients are closed, named by an address or by options.
fn say_killed(by_address: bool, count: usize, out: &mut OutText) -> Result<(), NoMemory>
    ensures { OnOk result (out.new ≡ spelling (killed_of by_address count)) }
{
    if !by_address {
        return say_number(out, count as u64);
    }
    if count == 0 {
        return say(out, b"-ERR No such client\r\n");
    }
    say(out, b"+OK\r\n")
}

/// CLIENT KILL with these words: the clients that they name are to be closed.
#[tactic(auto, using(crate::proofs::SubBytes::chosen_is, crate::proofs::SubBytes::unchosen_text, crate::proofs::SubBytes::unchosen_none))]
pub(crate) fn kill(
    alloc: Global,
    asker: &mut ClientInfo,
    words: &[Text],
    out: &mut OutText,
) -> Result<(), NoMemory>
    ensures text { OnOk result (out.new ≡ spelling (kill asker.old words.now)) }
    ensures asker { OnOk result (asker.new ≡ record asker.old {
      port = record asker.old.port { killed = asker.old.port.killed ++ doomed asker.old (chosen_by words.now) };
    }) }
{
    match chosen_by(alloc, words, out)? {
        Some(wanted) => {
            let places = wanted.places(alloc, asker.id(), asker.port())?;
            say_killed(words.len() == 1, places.len(), out)?;
            asker.kill(places.as_slice())
        }
        None => Ok(()),
    }
}
