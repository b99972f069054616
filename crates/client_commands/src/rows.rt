//! The commands and subcommands that COMMAND tells of: those of this port that redis-sentinel has too.

ghost use Rattle.std.specs.Prelude.{◌≡◌, true};
ghost use Rattle.client_commands.specs.Rows.{name, arity, class_of, is_sub, subs_of, families, all_commands};

use crate::classes::Class;

/// A command or a subcommand of one.
#[derive(Clone, Copy)]
pub(crate) enum KnownCommand {
    Ping,
    Hello,
    Auth,
    Client,
    Command,
    Role,
    Publish,
    Info,
    Sentinel,
    Subscribe,
    Unsubscribe,
    PSubscribe,
    PUnsubscribe,
    ClientSetName,
    ClientGetName,
    ClientId,
    ClientList,
    ClientInfo,
    ClientKill,
    ClientNoEvict,
    ClientReply,
    ClientHelp,
    CommandCount,
    CommandDocs,
    CommandInfo,
    CommandList,
    CommandHelp,
    SentinelMasters,
    SentinelMaster,
    SentinelReplicas,
    SentinelSlaves,
    SentinelSentinels,
    SentinelMyId,
    SentinelCkQuorum,
    SentinelFailover,
    SentinelFlushConfig,
    SentinelGetMasterAddr,
    SentinelIsMasterDown,
    SentinelHelp,
    SentinelPendingScripts,
    SentinelInfoCache,
    SentinelConfig,
}

const FAMILIES: &[KnownCommand] = &[
    KnownCommand::Ping,
    KnownCommand::Hello,
    KnownCommand::Auth,
    KnownCommand::Client,
    KnownCommand::Command,
    KnownCommand::Role,
    KnownCommand::Publish,
    KnownCommand::Info,
    KnownCommand::Sentinel,
    KnownCommand::Subscribe,
    KnownCommand::Unsubscribe,
    KnownCommand::PSubscribe,
    KnownCommand::PUnsubscribe,
];

const COMMANDS: &[KnownCommand] = &[
    KnownCommand::Ping,
    KnownCommand::Hello,
    KnownCommand::Auth,
    KnownCommand::Client,
    KnownCommand::ClientSetName,
    KnownCommand::ClientGetName,
    KnownCommand::ClientId,
    KnownCommand::ClientList,
    KnownCommand::ClientInfo,
    KnownCommand::ClientKill,
    KnownCommand::ClientNoEvict,
    KnownCommand::ClientReply,
    KnownCommand::ClientHelp,
    KnownCommand::Command,
    KnownCommand::CommandCount,
    KnownCommand::CommandDocs,
    KnownCommand::CommandInfo,
    KnownCommand::CommandList,
    KnownCommand::CommandHelp,
    KnownCommand::Role,
    KnownCommand::Publish,
    KnownCommand::Info,
    KnownCommand::Sentinel,
    KnownCommand::SentinelMasters,
    KnownCommand::SentinelMaster,
    KnownCommand::SentinelReplicas,
    KnownCommand::SentinelSlaves,
    KnownCommand::SentinelSentinels,
    KnownCommand::SentinelMyId,
    KnownCommand::SentinelCkQuorum,
    KnownCommand::SentinelFailover,
    KnownCommand::SentinelFlushConfig,
    KnownCommand::SentinelGetMasterAddr,
    KnownCommand::SentinelIsMasterDown,
    KnownCommand::SentinelHelp,
    KnownCommand::SentinelPendingScripts,
    KnownCommand::SentinelInfoCache,
    KnownCommand::SentinelConfig,
    KnownCommand::Subscribe,
    KnownCommand::Unsubscribe,
    KnownCommand::PSubscribe,
    KnownCommand::PUnsubscribe,
];

const OF_CLIENT: &[KnownCommand] = &[
    KnownCommand::ClientSetName,
    KnownCommand::ClientGetName,
    KnownCommand::ClientId,
    KnownCommand::ClientList,
    KnownCommand::ClientInfo,
    KnownCommand::ClientKill,
    KnownCommand::ClientNoEvict,
    KnownCommand::ClientReply,
    KnownCommand::ClientHelp,
];

const OF_COMMAND: &[KnownCommand] = &[
    KnownCommand::CommandCount,
    KnownCommand::CommandDocs,
    KnownCommand::CommandInfo,
    KnownCommand::CommandList,
    KnownCommand::CommandHelp,
];

const OF_SENTINEL: &[KnownCommand] = &[
    KnownCommand::SentinelMasters,
    KnownCommand::SentinelMaster,
    KnownCommand::SentinelReplicas,
    KnownCommand::SentinelSlaves,
    KnownCommand::SentinelSentinels,
    KnownCommand::SentinelMyId,
    KnownCommand::SentinelCkQuorum,
    KnownCommand::SentinelFailover,
    KnownCommand::SentinelFlushConfig,
    KnownCommand::SentinelGetMasterAddr,
    KnownCommand::SentinelIsMasterDown,
    KnownCommand::SentinelHelp,
    KnownCommand::SentinelPendingScripts,
    KnownCommand::SentinelInfoCache,
    KnownCommand::SentinelConfig,
];

/// The commands that aren't subcommands.
pub(crate) fn families() -> &'static [KnownCommand]
    ensures { result.now ≡ families }
{
    FAMILIES
}

/// Each of these with its subcommands after it.
pub(crate) fn all_commands() -> &'static [KnownCommand]
    ensures { result.now ≡ all_commands }
{
    COMMANDS
}

impl KnownCommand {
    /// Its name, that of a subcommand after that of its command.
    pub(crate) fn name(self) -> &'static [u8]
        ensures { result.now ≡ name self }
    {
        match self {
            KnownCommand::Ping => b"ping",
            KnownCommand::Hello => b"hello",
            KnownCommand::Auth => b"auth",
            KnownCommand::Client => b"client",
            KnownCommand::Command => b"command",
            KnownCommand::Role => b"role",
            KnownCommand::Publish => b"publish",
            KnownCommand::Info => b"info",
            KnownCommand::Sentinel => b"sentinel",
            KnownCommand::Subscribe => b"subscribe",
            KnownCommand::Unsubscribe => b"unsubscribe",
            KnownCommand::PSubscribe => b"psubscribe",
            KnownCommand::PUnsubscribe => b"punsubscribe",
            _ => self.sub_name(),
        }
    }

    /// The name of a subcommand; none of another command.
    fn sub_name(self) -> &'static [u8]
        ensures { is_sub self ≡ true → result.now ≡ name self }
    {
        match self {
            KnownCommand::ClientSetName => b"client|setname",
            KnownCommand::ClientGetName => b"client|getname",
            KnownCommand::ClientId => b"client|id",
            KnownCommand::ClientList => b"client|list",
            KnownCommand::ClientInfo => b"client|info",
            KnownCommand::ClientKill => b"client|kill",
            KnownCommand::ClientNoEvict => b"client|no-evict",
            KnownCommand::ClientReply => b"client|reply",
            KnownCommand::ClientHelp => b"client|help",
            KnownCommand::CommandCount => b"command|count",
            KnownCommand::CommandDocs => b"command|docs",
            KnownCommand::CommandInfo => b"command|info",
            KnownCommand::CommandList => b"command|list",
            KnownCommand::CommandHelp => b"command|help",
            KnownCommand::SentinelMasters => b"sentinel|masters",
            KnownCommand::SentinelMaster => b"sentinel|master",
            KnownCommand::SentinelReplicas => b"sentinel|replicas",
            KnownCommand::SentinelSlaves => b"sentinel|slaves",
            KnownCommand::SentinelSentinels => b"sentinel|sentinels",
            KnownCommand::SentinelMyId => b"sentinel|myid",
            KnownCommand::SentinelCkQuorum => b"sentinel|ckquorum",
            KnownCommand::SentinelFailover => b"sentinel|failover",
            KnownCommand::SentinelFlushConfig => b"sentinel|flushconfig",
            KnownCommand::SentinelGetMasterAddr => b"sentinel|get-master-addr-by-name",
            KnownCommand::SentinelIsMasterDown => b"sentinel|is-master-down-by-addr",
            KnownCommand::SentinelHelp => b"sentinel|help",
            KnownCommand::SentinelPendingScripts => b"sentinel|pending-scripts",
            KnownCommand::SentinelInfoCache => b"sentinel|info-cache",
            KnownCommand::SentinelConfig => b"sentinel|config",
            _ => b"",
        }
    }

    /// How many words it has, its name too; negative where there may be more.
    pub(crate) fn arity(self) -> i64
        ensures { result ≡ arity self }
    {
        match self {
            KnownCommand::Ping | KnownCommand::Hello | KnownCommand::Command => -1,
            KnownCommand::Info | KnownCommand::Unsubscribe | KnownCommand::PUnsubscribe => -1,
            KnownCommand::Auth | KnownCommand::Client | KnownCommand::Sentinel => -2,
            KnownCommand::Subscribe | KnownCommand::PSubscribe | KnownCommand::ClientList => -2,
            KnownCommand::CommandDocs | KnownCommand::CommandInfo => -2,
            KnownCommand::CommandList => -2,
            KnownCommand::Role => 1,
            KnownCommand::ClientGetName | KnownCommand::ClientId | KnownCommand::ClientInfo => 2,
            KnownCommand::ClientHelp | KnownCommand::CommandCount => 2,
            KnownCommand::CommandHelp | KnownCommand::SentinelMasters => 2,
            KnownCommand::SentinelMyId | KnownCommand::SentinelFlushConfig => 2,
            KnownCommand::SentinelHelp | KnownCommand::SentinelPendingScripts => 2,
            KnownCommand::ClientKill | KnownCommand::SentinelInfoCache => -3,
            KnownCommand::SentinelConfig => -3,
            KnownCommand::SentinelIsMasterDown => 6,
            _ => 3,
        }
    }

    /// Its class.
    pub(crate) fn class(self) -> Class
        ensures { result ≡ class_of self }
    {
        match self {
            KnownCommand::Ping => Class::Probe,
            KnownCommand::Hello | KnownCommand::Auth => Class::Greeting,
            KnownCommand::Client => Class::Container,
            KnownCommand::Command | KnownCommand::CommandDocs => Class::Table,
            KnownCommand::CommandInfo | KnownCommand::CommandList => Class::Table,
            KnownCommand::Role => Class::Status,
            KnownCommand::Publish => Class::Publishing,
            KnownCommand::Info => Class::Figures,
            KnownCommand::Subscribe | KnownCommand::Unsubscribe => Class::Listening,
            KnownCommand::PSubscribe | KnownCommand::PUnsubscribe => Class::Listening,
            KnownCommand::ClientSetName | KnownCommand::ClientGetName => Class::Own,
            KnownCommand::ClientId | KnownCommand::ClientReply => Class::Own,
            KnownCommand::ClientList => Class::Clients,
            KnownCommand::ClientInfo => Class::OwnLine,
            KnownCommand::ClientKill | KnownCommand::ClientNoEvict => Class::Control,
            KnownCommand::ClientHelp | KnownCommand::CommandCount => Class::Counting,
            KnownCommand::CommandHelp => Class::Counting,
            KnownCommand::SentinelHelp => Class::Advice,
            _ => Class::Ruled,
        }
    }

    /// Its subcommands.
    pub(crate) fn subs(self) -> &'static [KnownCommand]
        ensures { result.now ≡ subs_of self }
    {
        match self {
            KnownCommand::Client => OF_CLIENT,
            KnownCommand::Command => OF_COMMAND,
            KnownCommand::Sentinel => OF_SENTINEL,
            _ => &[],
        }
    }
}
