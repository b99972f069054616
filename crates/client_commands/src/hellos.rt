//! HELLO and AUTH.

ghost use Rattle.std.specs.Prelude.{◌≡◌, ◌++◌, ℕ, List, [], Option, IfOk, OnOk, decimal};
ghost use Rattle.resp2.specs.Framing.Frame.{spelling, line_end};
ghost use Rattle.client_commands.specs.Courtesies.{first, after_first, is_client_name, may_be_name, bad_name, is_user, hello_map, is_negative, is_integer, expected, greeted, is_some, refusal_text, greeted_by, greeting_of, welcome, hello, hello_name, hello_admitted, hello_protocol, speaks_then, no_version, admits, unadmitted, auth, set_name};

use crate::client_info::ClientInfo;
use crate::clients::add_number;
use crate::protocols::{Protocol, protocol_asked};
use crate::refusals::{is_called, refuse_option, say};
use ballot_law::{NoMemory, Text};
use resp2::OutText;
use tokens::canonical_number_of;

const OK: &[u8] = b"+OK\r\n";

const WRONG_PASSWORD: &[u8] = b"-WRONGPASS invalid username-password pair or user is disabled.\r\n";

const NO_AUTH_YET: &[u8] =
    b"-NOAUTH HELLO must be called with the client already authenticated, otherwise the HELLO AUTH <user> <pass> \
    option can be used to authenticate the client and select the RESP protocol version at the same time\r\n";

const NO_NAME: &[u8] =
    b"-ERR Client names cannot contain spaces, newlines or special characters.\r\n";

/// How many bytes the name of a connection has at most.
pub(crate) const NAME_MAX: usize = 256;

const LONG_NAME: &[u8] = b"-ERR Client names cannot be longer than 256 bytes.\r\n";

/// The first word, and no bytes where there is none.
pub(crate) fn first(words: &[Text]) -> &[u8]
    ensures { result.now ≡ first words.now }
{
    match words.split_first() {
        Some((word, _)) => word.as_slice(),
        None => &[],
    }
}

/// The words after the first.
pub(crate) fn after_first(words: &[Text]) -> &[Text]
    ensures { result.now ≡ after_first words.now }
{
    match words.split_first() {
        Some((_, more)) => more,
        None => &[],
    }
}

/// Whether the word has no space, and nothing that isn't printed, as the name of a connection.
fn is_client_name(word: &[u8]) -> bool
    ensures { result ≡ is_client_name word.now }
{
    word.iter().all(|byte| 33 <= *byte && *byte <= 126)
}

/// Whether the word can be the name of a connection: such a word of no more than `NAME_MAX` bytes.
pub(crate) fn may_be_name(word: &[u8]) -> bool
    ensures { result ≡ may_be_name word.now }
{
    is_client_name(word) && word.len() <= NAME_MAX
}

/// The answer to a command that names a connection with a word that can't be its name.
fn refuse_name(word: &[u8], out: &mut OutText) -> Result<(), NoMemory>
    ensures { OnOk result (out.new ≡ spelling (bad_name word.now)) }
{
    if is_client_name(word) {
        return say(out, LONG_NAME);
    }
    say(out, NO_NAME)
}

/// Whether there is a user of this name.
fn is_user(word: &[u8]) -> bool
    ensures { result ≡ is_user word.now }
{
    word == b"default".as_slice()
}

/// Whether the word is the number of a negative integer of 64 bits.
fn is_negative(word: &[u8]) -> bool
    ensures { result ≡ is_negative word.now }
{
    let Some((sign, digits)) = word.split_first() else {
        return false;
    };
    *sign == b'-' && canonical_number_of(digits, 1, 9_223_372_036_854_775_808).is_some()
}

/// Whether the word is the number of an integer of 64 bits with a sign.
pub(crate) fn is_integer(word: &[u8]) -> bool
    ensures { result ≡ is_integer word.now }
{
    canonical_number_of(word, 0, 9_223_372_036_854_775_807).is_some() || is_negative(word)
}

/// What the next word of HELLO is to be.
#[derive(Clone, Copy)]
pub(crate) enum Expects {
    /// The name of an option.
    Start,
    /// The user of AUTH.
    User,
    /// The password of AUTH, whose user is there or isn't.
    Password(bool),
    /// The name of SETNAME.
    NewName,
}

/// What the next word is to be after the name of an option; none where there is no such option.
fn expected_after(word: &[u8]) -> Option<Expects>
    ensures { result ≡ expected word.now }
{
    if is_called(b"auth", word) {
        return Some(Expects::User);
    }
    if is_called(b"setname", word) {
        return Some(Expects::NewName);
    }
    None
}

/// What the options of HELLO leave a connection.
#[derive(Clone, Copy)]
pub(crate) struct Greeting<'a> {
    /// Its name.
    pub(crate) name: &'a [u8],
    /// Whether its client gave the password.
    pub(crate) admitted: bool,
    /// Whether an option was refused.
    pub(crate) refused: bool,
}

/// What HELLO leaves a connection.
#[derive(Clone, Copy)]
pub(crate) struct Welcome<'a> {
    /// Its name.
    pub(crate) name: &'a [u8],
    /// Whether its client gave the password.
    pub(crate) admitted: bool,
    /// Which protocol it speaks.
    pub(crate) protocol: Protocol,
}

/// What the options of HELLO leave a connection. The answer is the refusal of the first option that has one, and is
/// left as it is where none has.
fn greeted<'a>(
    asker: &'a ClientInfo,
    options: &'a [Text],
    out: &mut OutText,
) -> Result<Greeting<'a>, NoMemory>
    ensures name { IfOk result (λ left. left.name.now ≡ (greeted asker.now.password Expects.Start [] asker.now.name asker.now.admitted options.now).name) }
    ensures admitted { IfOk result (λ left. left.admitted ≡ (greeted asker.now.password Expects.Start [] asker.now.name asker.now.admitted options.now).admitted) }
    ensures refused { IfOk result (λ left. left.refused ≡ is_some (greeted asker.now.password Expects.Start [] asker.now.name asker.now.admitted options.now).refusal) }
    ensures text { OnOk result (out.new ≡ refusal_text out.old (greeted asker.now.password Expects.Start [] asker.now.name asker.now.admitted options.now).refusal) }
{
    let mut expects = Expects::Start;
    let mut option: &[u8] = &[];
    let mut left = Greeting {
        name: asker.name(),
        admitted: asker.admitted(),
        refused: true,
    };
    let mut rest = options;
    while let [word, more @ ..] = rest {
        let word = word.as_slice();
        match expects {
            Expects::Start => {
                let Some(next) = expected_after(word) else {
                    refuse_option(out, word)?;
                    return Ok(left);
                };
                expects = next;
                option = word;
            }
            Expects::User => expects = Expects::Password(is_user(word)),
            Expects::Password(familiar) => {
                if !(familiar && asker.is_password(word)) {
                    say(out, WRONG_PASSWORD)?;
                    return Ok(left);
                }
                left.admitted = true;
                expects = Expects::Start;
            }
            Expects::NewName => {
                if !may_be_name(word) {
                    refuse_name(word, out)?;
                    return Ok(left);
                }
                left.name = word;
                expects = Expects::Start;
            }
        }
        rest = more;
    }
    if let Expects::Start = expects {
        left.refused = false;
        return Ok(left);
    }
    refuse_option(out, option)?;
    Ok(left)
}

/// The answer is a number and the end of its line between two texts.
fn say_numbered(out: &mut OutText, before: &[u8], number: u64, after: &[u8]) -> Result<(), NoMemory>
    ensures { OnOk result (out.new ≡ before.now ++ ((decimal number ++ line_end) ++ after.now)) }
{
    say(out, before)?;
    add_number(out, number)?;
    out.add(after)
}

/// The answer is what HELLO says of the Sentinel to a client of protocol 2.
fn say_hello_in_2(out: &mut OutText, id: u64) -> Result<(), NoMemory>
    ensures { OnOk result (out.new ≡ spelling (hello_map Protocol.Two id)) }
{
    say_numbered(
        out,
        b"*12\r\n$6\r\nserver\r\n$5\r\nredis\r\n$7\r\nversion\r\n$5\r\n7.2.0\r\n$5\r\nproto\r\n:2\r\n$2\r\nid\r\n:",
        id,
        b"$4\r\nmode\r\n$8\r\nsentinel\r\n$7\r\nmodules\r\n*0\r\n",
    )
}

/// The same to one of protocol 3, before it is told as a map.
fn say_hello_in_3(out: &mut OutText, id: u64) -> Result<(), NoMemory>
    ensures { OnOk result (out.new ≡ spelling (hello_map Protocol.Three id)) }
{
    say_numbered(
        out,
        b"*12\r\n$6\r\nserver\r\n$5\r\nredis\r\n$7\r\nversion\r\n$5\r\n7.2.0\r\n$5\r\nproto\r\n:3\r\n$2\r\nid\r\n:",
        id,
        b"$4\r\nmode\r\n$8\r\nsentinel\r\n$7\r\nmodules\r\n*0\r\n",
    )
}

/// The answer is what HELLO for this protocol says of the Sentinel.
fn say_hello(out: &mut OutText, protocol: Protocol, id: u64) -> Result<(), NoMemory>
    ensures { OnOk result (out.new ≡ spelling (hello_map protocol id)) }
{
    match protocol {
        Protocol::Two => say_hello_in_2(out, id),
        Protocol::Three => say_hello_in_3(out, id),
    }
}

/// The answer to HELLO for this protocol of which no option is refused, where its client gave the password or didn't,
/// as is told.
fn say_welcome(
    asker: &ClientInfo,
    protocol: Protocol,
    admitted: bool,
    out: &mut OutText,
) -> Result<(), NoMemory>
    ensures { OnOk result (out.new ≡ spelling (greeting_of asker.now protocol admitted)) }
{
    if asker.lacks_password(admitted) {
        return say(out, NO_AUTH_YET);
    }
    say_hello(out, protocol, asker.id())
}

/// What the options of HELLO for this protocol leave a connection, and the answer.
#[tactic(auto, using(crate::proofs::Bytes::refused_welcome, crate::proofs::Bytes::plain_welcome))]
fn welcomed<'a>(
    asker: &'a ClientInfo,
    protocol: Protocol,
    words: &'a [Text],
    out: &mut OutText,
) -> Result<Greeting<'a>, NoMemory>
    ensures name { IfOk result (λ left. left.name.now ≡ (greeted_by asker.now words.now).name) }
    ensures admitted { IfOk result (λ left. left.admitted ≡ (greeted_by asker.now words.now).admitted) }
    ensures refused { IfOk result (λ left. left.refused ≡ is_some (greeted_by asker.now words.now).refusal) }
    ensures text { OnOk result (out.new ≡ spelling (welcome asker.now protocol (greeted_by asker.now words.now))) }
{
    let left = greeted(asker, after_first(words), out)?;
    if !left.refused {
        say_welcome(asker, protocol, left.admitted, out)?;
    }
    Ok(left)
}

/// Which protocol a connection speaks after HELLO for this one, of which an option was refused or none, and after which
/// its client gave the password or didn't.
fn speaks_then(asker: &ClientInfo, refused: bool, admitted: bool, protocol: Protocol) -> Protocol
    ensures { result ≡ speaks_then asker.now refused admitted protocol }
{
    if refused || asker.lacks_password(admitted) {
        return asker.protocol();
    }
    protocol
}

/// The answer to HELLO whose first word is the number of no protocol.
fn refuse_version(word: &[u8], out: &mut OutText) -> Result<(), NoMemory>
    ensures { OnOk result (out.new ≡ spelling (no_version word.now)) }
{
    if is_integer(word) {
        return say(out, b"-NOPROTO unsupported protocol version\r\n");
    }
    say(
        out,
        b"-ERR Protocol version is not an integer or out of range\r\n",
    )
}

/// The answer to HELLO with these words. What is given back is what they leave the connection.
pub(crate) fn hello<'a>(
    asker: &'a ClientInfo,
    words: &'a [Text],
    out: &mut OutText,
) -> Result<Welcome<'a>, NoMemory>
    ensures name { IfOk result (λ left. left.name.now ≡ hello_name asker.now words.now) }
    ensures admitted { IfOk result (λ left. left.admitted ≡ hello_admitted asker.now words.now) }
    ensures protocol { IfOk result (λ left. left.protocol ≡ hello_protocol asker.now words.now) }
    ensures text { OnOk result (out.new ≡ spelling (hello asker.now words.now)) }
{
    match protocol_asked(asker.protocol(), words) {
        Some(protocol) => {
            let left = welcomed(asker, protocol, words, out)?;
            Ok(Welcome {
                name: left.name,
                admitted: left.admitted,
                protocol: speaks_then(asker, left.refused, left.admitted, protocol),
            })
        }
        None => {
            refuse_version(first(words), out)?;
            Ok(Welcome {
                name: asker.name(),
                admitted: asker.admitted(),
                protocol: asker.protocol(),
            })
        }
    }
}

/// Whether AUTH with these words is answered OK.
fn admits(asker: &ClientInfo, words: &[Text]) -> bool
    ensures { result ≡ admits asker.now.password words.now }
{
    match words {
        [word] => asker.wants_password() && asker.is_password(word.as_slice()),
        [user, word] => is_user(user.as_slice()) && asker.is_password(word.as_slice()),
        _ => false,
    }
}

/// The answer to AUTH with so many words, which isn't answered OK.
fn refuse_auth(out: &mut OutText, wants_password: bool, count: usize) -> Result<(), NoMemory>
    ensures { (wanted : Option (List ℕ)) → is_some wanted ≡ wants_password → OnOk result (out.new ≡ spelling (unadmitted wanted count)) }
{
    if count == 1 && !wants_password {
        return say(
            out,
            b"-ERR AUTH <password> called without any password configured for the default user. \
            Are you sure your configuration is correct?\r\n",
        );
    }
    if count != 1 && count != 2 {
        return say(out, b"-ERR syntax error\r\n");
    }
    say(out, WRONG_PASSWORD)
}

/// The answer to AUTH with these words: whether it is OK.
pub(crate) fn auth(asker: &ClientInfo, words: &[Text], out: &mut OutText) -> Result<bool, NoMemory>
    ensures admits { IfOk result (λ is. is ≡ admits asker.now.password words.now) }
    ensures text { OnOk result (out.new ≡ spelling (auth asker.now.password words.now)) }
{
    if admits(asker, words) {
        say(out, OK)?;
        return Ok(true);
    }
    refuse_auth(out, asker.wants_password(), words.len())?;
    Ok(false)
}

/// The answer to CLIENT SETNAME with these words.
pub(crate) fn set_name(words: &[Text], out: &mut OutText) -> Result<(), NoMemory>
    ensures { OnOk result (out.new ≡ spelling (set_name words.now)) }
{
    if may_be_name(first(words)) {
        return say(out, OK);
    }
    refuse_name(first(words), out)
}
