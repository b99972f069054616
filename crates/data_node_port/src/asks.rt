//! What the words of a command ask of a data node.

ghost use Rattle.std.specs.Prelude.{◌≡◌, IfOk, codes};
ghost use Rattle.data_node_port.specs.Asks.{is_called, asks_for, is_among, is_told, sections_of, ping, role, is_no_one, followed, replica_of, ask_of};

use ballot_law::{Addr, NoMemory, Text};
use std::alloc::Global;
use tokens::{ip_of, port_of};

/// The sections of INFO that are asked for. Those that a data node here doesn't have are told as none.
#[derive(Clone, Copy, PartialEq, Eq)]
pub struct Sections {
    /// `# Server`.
    pub server: bool,
    /// `# Replication`.
    pub replication: bool,
}

/// Why a command is refused.
#[derive(Clone, Copy, PartialEq, Eq)]
pub enum Refusal {
    /// No command here has this name.
    UnknownCommand,
    /// PING with two words or more.
    PingArguments,
    /// ROLE with a word.
    RoleArguments,
    /// REPLICAOF with another number of words than two.
    ReplicaOfArguments,
    /// REPLICAOF to a port that isn't a number from 1 to 65,535.
    BadPort,
    /// REPLICAOF to a host that isn't an IPv4 address.
    BadHost,
}

/// What a command asks of a data node.
#[derive(Drop)]
pub enum Ask {
    /// An array of no words, or an empty line: it gets no answer.
    Nothing,
    /// PING.
    Ping,
    /// PING with a text, which comes back.
    Echo(Text),
    /// INFO.
    Info(Sections),
    /// ROLE.
    Role,
    /// REPLICAOF with an address, or REPLICAOF NO ONE.
    Follow(Option<Addr>),
    /// QUIT, after whose answer the connection is closed.
    Quit,
    /// A command that is refused.
    Refused(Refusal),
}

/// Whether the word is this name, which is given in lower case, whatever the case of its letters.
fn is_called(name: &[u8], word: &[u8]) -> bool
    ensures { result ≡ is_called name.now word.now }
{
    word.eq_ignore_ascii_case(name)
}

/// Whether the word asks for the section, or for all.
fn asks_for(section: &[u8], word: &[u8]) -> bool
    ensures { result ≡ asks_for section.now word.now }
{
    is_called(section, word)
        || is_called(b"default", word)
        || is_called(b"all", word)
        || is_called(b"everything", word)
}

/// Whether one of the words asks for the section.
fn is_among(section: &[u8], args: &[Text]) -> bool
    ensures { result ≡ is_among section.now args.now }
{
    let mut rest = args;
    while let [word, more @ ..] = rest {
        if asks_for(section, word.as_slice()) {
            return true;
        }
        rest = more;
    }
    false
}

/// Whether the section is told at these words.
fn is_told(section: &[u8], args: &[Text]) -> bool
    ensures { result ≡ is_told section.now args.now }
{
    args.is_empty() || is_among(section, args)
}

/// The sections that INFO with these words asks for.
fn sections_of(args: &[Text]) -> Sections
    ensures { result ≡ sections_of args.now }
{
    Sections {
        server: is_told(b"server", args),
        replication: is_told(b"replication", args),
    }
}

/// PING with these words.
fn ping(alloc: Global, args: &[Text]) -> Result<Ask, NoMemory>
    ensures { IfOk result (λ ask. ask ≡ ping args.now) }
{
    match args {
        [] => Ok(Ask::Ping),
        [text] => Ok(Ask::Echo(Text::from_slice(alloc, text.as_slice())?)),
        _ => Ok(Ask::Refused(Refusal::PingArguments)),
    }
}

/// ROLE with these words.
fn role(args: &[Text]) -> Ask
    ensures { result ≡ role args.now }
{
    if args.is_empty() {
        return Ask::Role;
    }
    Ask::Refused(Refusal::RoleArguments)
}

/// Whether these words are NO ONE.
fn is_no_one(host: &[u8], port: &[u8]) -> bool
    ensures { result ≡ is_no_one host.now port.now }
{
    is_called(b"no", host) && is_called(b"one", port)
}

/// REPLICAOF with this host and port.
fn followed(host: &[u8], port: &[u8]) -> Ask
    ensures { result ≡ followed host.now port.now }
{
    let Some(port) = port_of(port) else {
        return Ask::Refused(Refusal::BadPort);
    };
    let Some(ip) = ip_of(host) else {
        return Ask::Refused(Refusal::BadHost);
    };
    Ask::Follow(Some(Addr { ip, port }))
}

/// REPLICAOF with these words.
fn replica_of(args: &[Text]) -> Ask
    ensures { result ≡ replica_of args.now }
{
    match args {
        [host, port] => {
            if is_no_one(host.as_slice(), port.as_slice()) {
                return Ask::Follow(None);
            }
            followed(host.as_slice(), port.as_slice())
        }
        _ => Ask::Refused(Refusal::ReplicaOfArguments),
    }
}

/// What a command of these words asks. `NoMemory` leaves nothing.
pub(crate) fn ask_of(alloc: Global, words: &[Text]) -> Result<Ask, NoMemory>
    ensures { IfOk result (λ ask. ask ≡ ask_of words.now) }
{
    let Some((name, args)) = words.split_first() else {
        return Ok(Ask::Nothing);
    };
    let name = name.as_slice();
    if is_called(b"ping", name) {
        return ping(alloc, args);
    }
    if is_called(b"info", name) {
        return Ok(Ask::Info(sections_of(args)));
    }
    if is_called(b"role", name) {
        return Ok(role(args));
    }
    if is_called(b"replicaof", name) {
        return Ok(replica_of(args));
    }
    if is_called(b"quit", name) {
        return Ok(Ask::Quit);
    }
    Ok(Ask::Refused(Refusal::UnknownCommand))
}
