//! The commands beside a Sentinel's own.

ghost use Rattle.std.specs.Prelude.{◌≡◌};
ghost use Rattle.client_commands.specs.Courtesies.{verb_name};

use crate::subcommands::Sub;

/// A command beside a Sentinel's own.
#[derive(Clone, Copy)]
pub(crate) enum Verb {
    Ping,
    Hello,
    Auth,
    SetName,
    SetInfo,
    GetName,
    Id,
    OfClients,
    Own,
    Kill,
    NoEvict,
    Reply,
    HelpOfClient,
    Commands,
    Docs,
    Count,
    InfoOfCommands,
    ListOfCommands,
    HelpOfCommand,
    Role,
    Publish,
    Info,
    Sentinel(Sub),
}

impl Verb {
    /// Its name, that of a subcommand after that of its command.
    pub(crate) fn name(self) -> &'static [u8]
        ensures { result.now ≡ verb_name self }
    {
        match self {
            Verb::Ping => b"ping",
            Verb::Hello => b"hello",
            Verb::Auth => b"auth",
            Verb::SetName => b"client|setname",
            Verb::SetInfo => b"client|setinfo",
            Verb::GetName => b"client|getname",
            Verb::Id => b"client|id",
            Verb::OfClients => b"client|list",
            Verb::Own => b"client|info",
            Verb::Kill => b"client|kill",
            Verb::NoEvict => b"client|no-evict",
            Verb::Reply => b"client|reply",
            Verb::HelpOfClient => b"client|help",
            Verb::Commands => b"command",
            Verb::Docs => b"command|docs",
            Verb::Count => b"command|count",
            Verb::InfoOfCommands => b"command|info",
            Verb::ListOfCommands => b"command|list",
            Verb::HelpOfCommand => b"command|help",
            Verb::Role => b"role",
            Verb::Publish => b"publish",
            Verb::Info => b"info",
            Verb::Sentinel(sub) => sub.name(),
        }
    }
}
