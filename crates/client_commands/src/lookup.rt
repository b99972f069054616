//! Which command the words are.

ghost use Rattle.std.specs.Prelude.{◌≡◌, ◌++◌, ◌∷◌, IfOk, OnOk, option_map, map, codes};
ghost use Rattle.ballot_law.specs.Words.{lower};
ghost use Rattle.resp2.specs.Framing.Frame.{spelling};
ghost use Rattle.pubsub.specs.Answering.{wrong_arguments};
ghost use Rattle.client_commands.specs.Refusals.{printed_byte};
ghost use Rattle.client_commands.specs.Courtesies.{found, text_after, taken, clients_named, client_named, client, command, subcommand, sentinel, other_named, looked_up};
ghost use Rattle.client_commands.specs.Subcommands.{all_subs, sub_among};

use crate::refusals::{is_called, printed_byte, refuse_command, refuse_subcommand};
use crate::subcommands::sub_named;
use crate::verbs::Verb;
use ballot_law::{NoMemory, Text};
use pubsub::say_wrong_arguments;
use resp2::OutText;

/// The command, where it has as many words as it takes.
fn taken<'a>(
    verb: Verb,
    fits: bool,
    words: &'a [Text],
    out: &mut OutText,
) -> Result<Option<(Verb, &'a [Text])>, NoMemory>
    ensures known { IfOk result (λ known. option_map (λ x. (x.0, x.1.now)) known ≡ found (taken verb fits words.now)) }
    ensures text { OnOk result (out.new ≡ text_after out.old (taken verb fits words.now)) }
{
    if fits {
        return Ok(Some((verb, words)));
    }
    say_wrong_arguments(out, verb.name())?;
    Ok(None)
}

/// The subcommand of CLIENT about the clients of a port that is called so.
fn clients_named<'a>(
    word: &[u8],
    words: &'a [Text],
    out: &mut OutText,
) -> Result<Option<(Verb, &'a [Text])>, NoMemory>
    ensures known { IfOk result (λ known. option_map (λ x. (x.0, x.1.now)) known ≡ found (clients_named word.now words.now)) }
    ensures text { OnOk result (out.new ≡ text_after out.old (clients_named word.now words.now)) }
{
    if is_called(b"list", word) {
        return Ok(Some((Verb::OfClients, words)));
    }
    if is_called(b"info", word) {
        return taken(Verb::Own, words.len() == 0, words, out);
    }
    if is_called(b"kill", word) {
        return taken(Verb::Kill, 0 < words.len(), words, out);
    }
    if is_called(b"help", word) {
        return taken(Verb::HelpOfClient, words.len() == 0, words, out);
    }
    refuse_subcommand(out, b"CLIENT HELP.", word)?;
    Ok(None)
}

/// The subcommand of CLIENT that is called so.
fn client_named<'a>(
    word: &[u8],
    words: &'a [Text],
    out: &mut OutText,
) -> Result<Option<(Verb, &'a [Text])>, NoMemory>
    ensures known { IfOk result (λ known. option_map (λ x. (x.0, x.1.now)) known ≡ found (client_named word.now words.now)) }
    ensures text { OnOk result (out.new ≡ text_after out.old (client_named word.now words.now)) }
{
    if is_called(b"setname", word) {
        return taken(Verb::SetName, words.len() == 1, words, out);
    }
    if is_called(b"setinfo", word) {
        return taken(Verb::SetInfo, words.len() == 2, words, out);
    }
    if is_called(b"getname", word) {
        return taken(Verb::GetName, words.len() == 0, words, out);
    }
    if is_called(b"id", word) {
        return taken(Verb::Id, words.len() == 0, words, out);
    }
    if is_called(b"no-evict", word) {
        return taken(Verb::NoEvict, words.len() == 1, words, out);
    }
    if is_called(b"reply", word) {
        return taken(Verb::Reply, words.len() == 1, words, out);
    }
    clients_named(word, words, out)
}

/// The subcommand of CLIENT that these words are.
fn client<'a>(words: &'a [Text], out: &mut OutText) -> Result<Option<(Verb, &'a [Text])>, NoMemory>
    ensures known { IfOk result (λ known. option_map (λ x. (x.0, x.1.now)) known ≡ found (client words.now)) }
    ensures text { OnOk result (out.new ≡ text_after out.old (client words.now)) }
{
    let Some((word, more)) = words.split_first() else {
        say_wrong_arguments(out, b"client")?;
        return Ok(None);
    };
    client_named(word.as_slice(), more, out)
}

/// COMMAND or the subcommand of it that these words are.
fn command<'a>(words: &'a [Text], out: &mut OutText) -> Result<Option<(Verb, &'a [Text])>, NoMemory>
    ensures known { IfOk result (λ known. option_map (λ x. (x.0, x.1.now)) known ≡ found (command words.now)) }
    ensures text { OnOk result (out.new ≡ text_after out.old (command words.now)) }
{
    let Some((word, more)) = words.split_first() else {
        return Ok(Some((Verb::Commands, words)));
    };
    if is_called(b"docs", word.as_slice()) {
        return Ok(Some((Verb::Docs, more)));
    }
    if is_called(b"count", word.as_slice()) {
        return taken(Verb::Count, more.len() == 0, more, out);
    }
    if is_called(b"info", word.as_slice()) {
        return Ok(Some((Verb::InfoOfCommands, more)));
    }
    if is_called(b"list", word.as_slice()) {
        return Ok(Some((Verb::ListOfCommands, more)));
    }
    if is_called(b"help", word.as_slice()) {
        return taken(Verb::HelpOfCommand, more.len() == 0, more, out);
    }
    refuse_subcommand(out, b"COMMAND HELP.", word.as_slice())?;
    Ok(None)
}

/// A subcommand of the Sentinel's rules has another number of words.
fn refuse_miscounted(out: &mut OutText, word: &[u8]) -> Result<(), NoMemory>
    ensures { OnOk result (out.new ≡ spelling (wrong_arguments (codes "sentinel|" ++ map printed_byte (lower word.now)))) }
{
    out.clear();
    out.add(b"-ERR wrong number of arguments for 'sentinel|")?;
    add_lower(out, word)?;
    out.add(b"' command\r\n")
}

/// Adds the word in lower case, with a space for each CR and LF.
fn add_lower(out: &mut OutText, word: &[u8]) -> Result<(), NoMemory>
    ensures { OnOk result (out.new ≡ out.old ++ map printed_byte (lower word.now)) }
{
    let mut rest = word;
    while let [byte, more @ ..] = rest {
        out.add(&[printed_byte(byte.to_ascii_lowercase())])?;
        rest = more;
    }
    Ok(())
}

/// The subcommand of SENTINEL that is called so and that the Sentinel's rules don't know.
fn subcommand<'a>(
    word: &[u8],
    words: &'a [Text],
    out: &mut OutText,
) -> Result<Option<(Verb, &'a [Text])>, NoMemory>
    ensures known { IfOk result (λ known. option_map (λ x. (x.0, x.1.now)) known ≡ found (subcommand (sub_among all_subs word.now) word.now words.now)) }
    ensures text { OnOk result (out.new ≡ text_after out.old (subcommand (sub_among all_subs word.now) word.now words.now)) }
{
    match sub_named(word) {
        Some(sub) => {
            let fits = sub.takes_count(words.len());
            taken(Verb::Sentinel(sub), fits, words, out)
        }
        None => {
            refuse_subcommand(out, b"SENTINEL HELP.", word)?;
            Ok(None)
        }
    }
}

/// SENTINEL with this word and those after it, as `sentinel`.
fn sentinel_of<'a>(
    miscounted: bool,
    word: &[u8],
    words: &'a [Text],
    out: &mut OutText,
) -> Result<Option<(Verb, &'a [Text])>, NoMemory>
    ensures known { IfOk result (λ known. option_map (λ x. (x.0, x.1.now)) known ≡ found (sentinel miscounted (word.now ∷ words.now))) }
    ensures text { OnOk result (out.new ≡ text_after out.old (sentinel miscounted (word.now ∷ words.now))) }
{
    if miscounted {
        refuse_miscounted(out, word)?;
        return Ok(None);
    }
    subcommand(word, words, out)
}

/// SENTINEL with these words, whose number the Sentinel's rules refused or of which they know no subcommand.
fn sentinel<'a>(
    miscounted: bool,
    words: &'a [Text],
    out: &mut OutText,
) -> Result<Option<(Verb, &'a [Text])>, NoMemory>
    ensures known { IfOk result (λ known. option_map (λ x. (x.0, x.1.now)) known ≡ found (sentinel miscounted words.now)) }
    ensures text { OnOk result (out.new ≡ text_after out.old (sentinel miscounted words.now)) }
{
    match words {
        [] => {
            say_wrong_arguments(out, b"sentinel")?;
            Ok(None)
        }
        [word, more @ ..] => sentinel_of(miscounted, word.as_slice(), more, out),
    }
}

/// A command that is none of those of a connection.
fn other_named<'a>(
    miscounted: bool,
    name: &[u8],
    words: &'a [Text],
    out: &mut OutText,
) -> Result<Option<(Verb, &'a [Text])>, NoMemory>
    ensures known { IfOk result (λ known. option_map (λ x. (x.0, x.1.now)) known ≡ found (other_named miscounted name.now words.now)) }
    ensures text { OnOk result (out.new ≡ text_after out.old (other_named miscounted name.now words.now)) }
{
    if is_called(b"role", name) {
        return taken(Verb::Role, words.len() == 0, words, out);
    }
    if is_called(b"publish", name) {
        return taken(Verb::Publish, words.len() == 2, words, out);
    }
    if is_called(b"info", name) {
        return Ok(Some((Verb::Info, words)));
    }
    if is_called(b"sentinel", name) {
        return sentinel(miscounted, words, out);
    }
    if is_called(b"subscribe", name) {
        say_wrong_arguments(out, b"subscribe")?;
    } else {
        refuse_command(out, name, words)?;
    }
    Ok(None)
}

/// The command with this name and the words after it; none where it is refused, and then `out` is the line that says
/// so. Where the Sentinel's rules know the command, they refused it as `miscounted`.
pub(crate) fn looked_up<'a>(
    miscounted: bool,
    name: &[u8],
    words: &'a [Text],
    out: &mut OutText,
) -> Result<Option<(Verb, &'a [Text])>, NoMemory>
    ensures known { IfOk result (λ known. option_map (λ x. (x.0, x.1.now)) known ≡ found (looked_up miscounted name.now words.now)) }
    ensures text { OnOk result (out.new ≡ text_after out.old (looked_up miscounted name.now words.now)) }
{
    if is_called(b"ping", name) {
        return taken(Verb::Ping, words.len() <= 1, words, out);
    }
    if is_called(b"hello", name) {
        return Ok(Some((Verb::Hello, words)));
    }
    if is_called(b"auth", name) {
        return taken(Verb::Auth, 0 < words.len(), words, out);
    }
    if is_called(b"client", name) {
        return client(words, out);
    }
    if is_called(b"command", name) {
        return command(words, out);
    }
    other_named(miscounted, name, words, out)
}
