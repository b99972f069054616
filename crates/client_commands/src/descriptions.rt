//! What COMMAND DOCS says of each command, in the words of redis-sentinel.

ghost use Rattle.std.specs.Prelude.{◌≡◌, ◌<◌, ◌*◌, true, length};
ghost use Rattle.client_commands.specs.Rows.{is_sub};
ghost use Rattle.client_commands.specs.Pieces.{all_in, all_parts_of};
ghost use Rattle.client_commands.specs.Descriptions.{fields, pairs_of};

use crate::pieces::TablePiece;
use crate::rows::KnownCommand;

const PING: &[TablePiece] = &[
    TablePiece::Field(b"summary", b"Ping the server"),
    TablePiece::Field(b"since", b"1.0.0"),
    TablePiece::Field(b"group", b"connection"),
    TablePiece::Field(b"complexity", b"O(1)"),
    TablePiece::Many(b"arguments", 1),
    TablePiece::Argument(6, b"message", b"string"),
    TablePiece::Many(b"flags", 1),
    TablePiece::Mark(b"optional"),
];

const HELLO: &[TablePiece] = &[
    TablePiece::Field(b"summary", b"Handshake with Redis"),
    TablePiece::Field(b"since", b"6.0.0"),
    TablePiece::Field(b"group", b"connection"),
    TablePiece::Field(b"complexity", b"O(1)"),
    TablePiece::Many(b"history", 1),
    TablePiece::Change(
        b"6.2.0",
        b"`protover` made optional; when called without arguments the command \
        reports the current connection's context.",
    ),
    TablePiece::Many(b"arguments", 1),
    TablePiece::Argument(8, b"arguments", b"block"),
    TablePiece::Many(b"flags", 1),
    TablePiece::Mark(b"optional"),
    TablePiece::Many(b"arguments", 3),
    TablePiece::Argument(4, b"protover", b"integer"),
    TablePiece::Argument(10, b"username_password", b"block"),
    TablePiece::Field(b"token", b"AUTH"),
    TablePiece::Many(b"flags", 1),
    TablePiece::Mark(b"optional"),
    TablePiece::Many(b"arguments", 2),
    TablePiece::Argument(4, b"username", b"string"),
    TablePiece::Argument(4, b"password", b"string"),
    TablePiece::Argument(8, b"clientname", b"string"),
    TablePiece::Field(b"token", b"SETNAME"),
    TablePiece::Many(b"flags", 1),
    TablePiece::Mark(b"optional"),
];

const AUTH: &[TablePiece] = &[
    TablePiece::Field(b"summary", b"Authenticate to the server"),
    TablePiece::Field(b"since", b"1.0.0"),
    TablePiece::Field(b"group", b"connection"),
    TablePiece::Field(
        b"complexity",
        b"O(N) where N is the number of passwords defined for the user",
    ),
    TablePiece::Many(b"history", 1),
    TablePiece::Change(b"6.0.0", b"Added ACL style (username and password)."),
    TablePiece::Many(b"arguments", 2),
    TablePiece::Argument(8, b"username", b"string"),
    TablePiece::Field(b"since", b"6.0.0"),
    TablePiece::Many(b"flags", 1),
    TablePiece::Mark(b"optional"),
    TablePiece::Argument(4, b"password", b"string"),
];

const CLIENT: &[TablePiece] = &[
    TablePiece::Field(b"summary", b"A container for client connection commands"),
    TablePiece::Field(b"since", b"2.4.0"),
    TablePiece::Field(b"group", b"connection"),
    TablePiece::Field(b"complexity", b"Depends on subcommand."),
];

const COMMAND: &[TablePiece] = &[
    TablePiece::Field(b"summary", b"Get array of Redis command details"),
    TablePiece::Field(b"since", b"2.8.13"),
    TablePiece::Field(b"group", b"server"),
    TablePiece::Field(
        b"complexity",
        b"O(N) where N is the total number of Redis commands",
    ),
];

const ROLE: &[TablePiece] = &[
    TablePiece::Field(
        b"summary",
        b"Return the role of the instance in the context of replication",
    ),
    TablePiece::Field(b"since", b"2.8.12"),
    TablePiece::Field(b"group", b"server"),
    TablePiece::Field(b"complexity", b"O(1)"),
];

const PUBLISH: &[TablePiece] = &[
    TablePiece::Field(b"summary", b"Post a message to a channel"),
    TablePiece::Field(b"since", b"2.0.0"),
    TablePiece::Field(b"group", b"pubsub"),
    TablePiece::Field(
        b"complexity",
        b"O(N+M) where N is the number of clients subscribed to the receiving \
        channel and M is the total number of subscribed patterns (by any client).",
    ),
    TablePiece::Many(b"arguments", 2),
    TablePiece::Argument(4, b"channel", b"string"),
    TablePiece::Argument(4, b"message", b"string"),
];

const INFO: &[TablePiece] = &[
    TablePiece::Field(
        b"summary",
        b"Get information and statistics about the server",
    ),
    TablePiece::Field(b"since", b"1.0.0"),
    TablePiece::Field(b"group", b"server"),
    TablePiece::Field(b"complexity", b"O(1)"),
    TablePiece::Many(b"history", 1),
    TablePiece::Change(
        b"7.0.0",
        b"Added support for taking multiple section arguments.",
    ),
    TablePiece::Many(b"arguments", 1),
    TablePiece::Argument(6, b"section", b"string"),
    TablePiece::Many(b"flags", 2),
    TablePiece::Mark(b"optional"),
    TablePiece::Mark(b"multiple"),
];

const SENTINEL: &[TablePiece] = &[
    TablePiece::Field(b"summary", b"A container for Sentinel commands"),
    TablePiece::Field(b"since", b"2.8.4"),
    TablePiece::Field(b"group", b"sentinel"),
    TablePiece::Field(b"complexity", b"Depends on subcommand."),
];

const SUBSCRIBE: &[TablePiece] = &[
    TablePiece::Field(
        b"summary",
        b"Listen for messages published to the given channels",
    ),
    TablePiece::Field(b"since", b"2.0.0"),
    TablePiece::Field(b"group", b"pubsub"),
    TablePiece::Field(
        b"complexity",
        b"O(N) where N is the number of channels to subscribe to.",
    ),
    TablePiece::Many(b"arguments", 1),
    TablePiece::Argument(6, b"channel", b"string"),
    TablePiece::Many(b"flags", 1),
    TablePiece::Mark(b"multiple"),
];

const UNSUBSCRIBE: &[TablePiece] = &[
    TablePiece::Field(
        b"summary",
        b"Stop listening for messages posted to the given channels",
    ),
    TablePiece::Field(b"since", b"2.0.0"),
    TablePiece::Field(b"group", b"pubsub"),
    TablePiece::Field(
        b"complexity",
        b"O(N) where N is the number of clients already subscribed to a channel.",
    ),
    TablePiece::Many(b"arguments", 1),
    TablePiece::Argument(6, b"channel", b"string"),
    TablePiece::Many(b"flags", 2),
    TablePiece::Mark(b"optional"),
    TablePiece::Mark(b"multiple"),
];

const PSUBSCRIBE: &[TablePiece] = &[
    TablePiece::Field(
        b"summary",
        b"Listen for messages published to channels matching the given patterns",
    ),
    TablePiece::Field(b"since", b"2.0.0"),
    TablePiece::Field(b"group", b"pubsub"),
    TablePiece::Field(
        b"complexity",
        b"O(N) where N is the number of patterns the client is already subscribed to.",
    ),
    TablePiece::Many(b"arguments", 1),
    TablePiece::Argument(8, b"pattern", b"block"),
    TablePiece::Many(b"flags", 1),
    TablePiece::Mark(b"multiple"),
    TablePiece::Many(b"arguments", 1),
    TablePiece::Argument(4, b"pattern", b"pattern"),
];

const PUNSUBSCRIBE: &[TablePiece] = &[
    TablePiece::Field(
        b"summary",
        b"Stop listening for messages posted to channels matching the given patterns",
    ),
    TablePiece::Field(b"since", b"2.0.0"),
    TablePiece::Field(b"group", b"pubsub"),
    TablePiece::Field(
        b"complexity",
        b"O(N+M) where N is the number of patterns the client is already \
        subscribed and M is the number of total patterns subscribed in the system (by any client).",
    ),
    TablePiece::Many(b"arguments", 1),
    TablePiece::Argument(6, b"pattern", b"pattern"),
    TablePiece::Many(b"flags", 2),
    TablePiece::Mark(b"optional"),
    TablePiece::Mark(b"multiple"),
];

const CLIENT_SETNAME: &[TablePiece] = &[
    TablePiece::Field(b"summary", b"Set the current connection name"),
    TablePiece::Field(b"since", b"2.6.9"),
    TablePiece::Field(b"group", b"connection"),
    TablePiece::Field(b"complexity", b"O(1)"),
    TablePiece::Many(b"arguments", 1),
    TablePiece::Argument(4, b"connection-name", b"string"),
];

const CLIENT_GETNAME: &[TablePiece] = &[
    TablePiece::Field(b"summary", b"Get the current connection name"),
    TablePiece::Field(b"since", b"2.6.9"),
    TablePiece::Field(b"group", b"connection"),
    TablePiece::Field(b"complexity", b"O(1)"),
];

const CLIENT_ID: &[TablePiece] = &[
    TablePiece::Field(
        b"summary",
        b"Returns the client ID for the current connection",
    ),
    TablePiece::Field(b"since", b"5.0.0"),
    TablePiece::Field(b"group", b"connection"),
    TablePiece::Field(b"complexity", b"O(1)"),
];

const CLIENT_LIST: &[TablePiece] = &[
    TablePiece::Field(b"summary", b"Get the list of client connections"),
    TablePiece::Field(b"since", b"2.4.0"),
    TablePiece::Field(b"group", b"connection"),
    TablePiece::Field(
        b"complexity",
        b"O(N) where N is the number of client connections",
    ),
    TablePiece::Many(b"history", 6),
    TablePiece::Change(b"2.8.12", b"Added unique client `id` field."),
    TablePiece::Change(b"5.0.0", b"Added optional `TYPE` filter."),
    TablePiece::Change(b"6.0.0", b"Added `user` field."),
    TablePiece::Change(
        b"6.2.0",
        b"Added `argv-mem`, `tot-mem`, `laddr` and `redir` fields and the \
        optional `ID` filter.",
    ),
    TablePiece::Change(
        b"7.0.0",
        b"Added `resp`, `multi-mem`, `rbs` and `rbp` fields.",
    ),
    TablePiece::Change(b"7.0.3", b"Added `ssub` field."),
    TablePiece::Many(b"arguments", 2),
    TablePiece::Argument(12, b"normal_master_replica_pubsub", b"oneof"),
    TablePiece::Field(b"token", b"TYPE"),
    TablePiece::Field(b"since", b"5.0.0"),
    TablePiece::Many(b"flags", 1),
    TablePiece::Mark(b"optional"),
    TablePiece::Many(b"arguments", 4),
    TablePiece::Argument(6, b"normal", b"pure-token"),
    TablePiece::Field(b"token", b"NORMAL"),
    TablePiece::Argument(6, b"master", b"pure-token"),
    TablePiece::Field(b"token", b"MASTER"),
    TablePiece::Argument(6, b"replica", b"pure-token"),
    TablePiece::Field(b"token", b"REPLICA"),
    TablePiece::Argument(6, b"pubsub", b"pure-token"),
    TablePiece::Field(b"token", b"PUBSUB"),
    TablePiece::Argument(12, b"id", b"block"),
    TablePiece::Field(b"token", b"ID"),
    TablePiece::Field(b"since", b"6.2.0"),
    TablePiece::Many(b"flags", 1),
    TablePiece::Mark(b"optional"),
    TablePiece::Many(b"arguments", 1),
    TablePiece::Argument(6, b"client-id", b"integer"),
    TablePiece::Many(b"flags", 1),
    TablePiece::Mark(b"multiple"),
];

const CLIENT_INFO: &[TablePiece] = &[
    TablePiece::Field(
        b"summary",
        b"Returns information about the current client connection.",
    ),
    TablePiece::Field(b"since", b"6.2.0"),
    TablePiece::Field(b"group", b"connection"),
    TablePiece::Field(b"complexity", b"O(1)"),
];

const CLIENT_KILL: &[TablePiece] = &[
    TablePiece::Field(b"summary", b"Kill the connection of a client"),
    TablePiece::Field(b"since", b"2.4.0"),
    TablePiece::Field(b"group", b"connection"),
    TablePiece::Field(
        b"complexity",
        b"O(N) where N is the number of client connections",
    ),
    TablePiece::Many(b"history", 5),
    TablePiece::Change(b"2.8.12", b"Added new filter format."),
    TablePiece::Change(b"2.8.12", b"`ID` option."),
    TablePiece::Change(b"3.2.0", b"Added `master` type in for `TYPE` option."),
    TablePiece::Change(
        b"5.0.0",
        b"Replaced `slave` `TYPE` with `replica`. `slave` still supported for \
        backward compatibility.",
    ),
    TablePiece::Change(b"6.2.0", b"`LADDR` option."),
    TablePiece::Many(b"arguments", 1),
    TablePiece::Argument(6, b"filter", b"oneof"),
    TablePiece::Many(b"arguments", 2),
    TablePiece::Argument(6, b"ip:port", b"string"),
    TablePiece::Field(b"deprecated_since", b"2.8.12"),
    TablePiece::Argument(8, b"new-format", b"oneof"),
    TablePiece::Many(b"flags", 1),
    TablePiece::Mark(b"multiple"),
    TablePiece::Many(b"arguments", 6),
    TablePiece::Argument(10, b"client-id", b"integer"),
    TablePiece::Field(b"token", b"ID"),
    TablePiece::Field(b"since", b"2.8.12"),
    TablePiece::Many(b"flags", 1),
    TablePiece::Mark(b"optional"),
    TablePiece::Argument(12, b"normal_master_slave_pubsub", b"oneof"),
    TablePiece::Field(b"token", b"TYPE"),
    TablePiece::Field(b"since", b"2.8.12"),
    TablePiece::Many(b"flags", 1),
    TablePiece::Mark(b"optional"),
    TablePiece::Many(b"arguments", 5),
    TablePiece::Argument(6, b"normal", b"pure-token"),
    TablePiece::Field(b"token", b"NORMAL"),
    TablePiece::Argument(8, b"master", b"pure-token"),
    TablePiece::Field(b"token", b"MASTER"),
    TablePiece::Field(b"since", b"3.2.0"),
    TablePiece::Argument(6, b"slave", b"pure-token"),
    TablePiece::Field(b"token", b"SLAVE"),
    TablePiece::Argument(8, b"replica", b"pure-token"),
    TablePiece::Field(b"token", b"REPLICA"),
    TablePiece::Field(b"since", b"5.0.0"),
    TablePiece::Argument(6, b"pubsub", b"pure-token"),
    TablePiece::Field(b"token", b"PUBSUB"),
    TablePiece::Argument(8, b"username", b"string"),
    TablePiece::Field(b"token", b"USER"),
    TablePiece::Many(b"flags", 1),
    TablePiece::Mark(b"optional"),
    TablePiece::Argument(8, b"ip:port", b"string"),
    TablePiece::Field(b"token", b"ADDR"),
    TablePiece::Many(b"flags", 1),
    TablePiece::Mark(b"optional"),
    TablePiece::Argument(10, b"ip:port", b"string"),
    TablePiece::Field(b"token", b"LADDR"),
    TablePiece::Field(b"since", b"6.2.0"),
    TablePiece::Many(b"flags", 1),
    TablePiece::Mark(b"optional"),
    TablePiece::Argument(8, b"yes/no", b"string"),
    TablePiece::Field(b"token", b"SKIPME"),
    TablePiece::Many(b"flags", 1),
    TablePiece::Mark(b"optional"),
];

const CLIENT_NO_EVICT: &[TablePiece] = &[
    TablePiece::Field(
        b"summary",
        b"Set client eviction mode for the current connection",
    ),
    TablePiece::Field(b"since", b"7.0.0"),
    TablePiece::Field(b"group", b"connection"),
    TablePiece::Field(b"complexity", b"O(1)"),
    TablePiece::Many(b"arguments", 1),
    TablePiece::Argument(6, b"enabled", b"oneof"),
    TablePiece::Many(b"arguments", 2),
    TablePiece::Argument(6, b"on", b"pure-token"),
    TablePiece::Field(b"token", b"ON"),
    TablePiece::Argument(6, b"off", b"pure-token"),
    TablePiece::Field(b"token", b"OFF"),
];

const CLIENT_REPLY: &[TablePiece] = &[
    TablePiece::Field(
        b"summary",
        b"Instruct the server whether to reply to commands",
    ),
    TablePiece::Field(b"since", b"3.2.0"),
    TablePiece::Field(b"group", b"connection"),
    TablePiece::Field(b"complexity", b"O(1)"),
    TablePiece::Many(b"arguments", 1),
    TablePiece::Argument(6, b"on_off_skip", b"oneof"),
    TablePiece::Many(b"arguments", 3),
    TablePiece::Argument(6, b"on", b"pure-token"),
    TablePiece::Field(b"token", b"ON"),
    TablePiece::Argument(6, b"off", b"pure-token"),
    TablePiece::Field(b"token", b"OFF"),
    TablePiece::Argument(6, b"skip", b"pure-token"),
    TablePiece::Field(b"token", b"SKIP"),
];

const CLIENT_HELP: &[TablePiece] = &[
    TablePiece::Field(
        b"summary",
        b"Show helpful text about the different subcommands",
    ),
    TablePiece::Field(b"since", b"5.0.0"),
    TablePiece::Field(b"group", b"connection"),
    TablePiece::Field(b"complexity", b"O(1)"),
];

const COMMAND_COUNT: &[TablePiece] = &[
    TablePiece::Field(b"summary", b"Get total number of Redis commands"),
    TablePiece::Field(b"since", b"2.8.13"),
    TablePiece::Field(b"group", b"server"),
    TablePiece::Field(b"complexity", b"O(1)"),
];

const COMMAND_DOCS: &[TablePiece] = &[
    TablePiece::Field(
        b"summary",
        b"Get array of specific Redis command documentation",
    ),
    TablePiece::Field(b"since", b"7.0.0"),
    TablePiece::Field(b"group", b"server"),
    TablePiece::Field(
        b"complexity",
        b"O(N) where N is the number of commands to look up",
    ),
    TablePiece::Many(b"arguments", 1),
    TablePiece::Argument(6, b"command-name", b"string"),
    TablePiece::Many(b"flags", 2),
    TablePiece::Mark(b"optional"),
    TablePiece::Mark(b"multiple"),
];

const COMMAND_INFO: &[TablePiece] = &[
    TablePiece::Field(
        b"summary",
        b"Get array of specific Redis command details, or all when no argument \
        is given.",
    ),
    TablePiece::Field(b"since", b"2.8.13"),
    TablePiece::Field(b"group", b"server"),
    TablePiece::Field(
        b"complexity",
        b"O(N) where N is the number of commands to look up",
    ),
    TablePiece::Many(b"history", 1),
    TablePiece::Change(
        b"7.0.0",
        b"Allowed to be called with no argument to get info on all commands.",
    ),
    TablePiece::Many(b"arguments", 1),
    TablePiece::Argument(6, b"command-name", b"string"),
    TablePiece::Many(b"flags", 2),
    TablePiece::Mark(b"optional"),
    TablePiece::Mark(b"multiple"),
];

const COMMAND_LIST: &[TablePiece] = &[
    TablePiece::Field(b"summary", b"Get an array of Redis command names"),
    TablePiece::Field(b"since", b"7.0.0"),
    TablePiece::Field(b"group", b"server"),
    TablePiece::Field(
        b"complexity",
        b"O(N) where N is the total number of Redis commands",
    ),
    TablePiece::Many(b"arguments", 1),
    TablePiece::Argument(10, b"filterby", b"oneof"),
    TablePiece::Field(b"token", b"FILTERBY"),
    TablePiece::Many(b"flags", 1),
    TablePiece::Mark(b"optional"),
    TablePiece::Many(b"arguments", 3),
    TablePiece::Argument(6, b"module-name", b"string"),
    TablePiece::Field(b"token", b"MODULE"),
    TablePiece::Argument(6, b"category", b"string"),
    TablePiece::Field(b"token", b"ACLCAT"),
    TablePiece::Argument(6, b"pattern", b"pattern"),
    TablePiece::Field(b"token", b"PATTERN"),
];

const COMMAND_HELP: &[TablePiece] = &[
    TablePiece::Field(
        b"summary",
        b"Show helpful text about the different subcommands",
    ),
    TablePiece::Field(b"since", b"5.0.0"),
    TablePiece::Field(b"group", b"server"),
    TablePiece::Field(b"complexity", b"O(1)"),
];

const SENTINEL_MASTERS: &[TablePiece] = &[
    TablePiece::Field(b"summary", b"List the monitored masters"),
    TablePiece::Field(b"since", b"2.8.4"),
    TablePiece::Field(b"group", b"sentinel"),
    TablePiece::Field(b"complexity", b"O(N) where N is the number of masters"),
];

const SENTINEL_MASTER: &[TablePiece] = &[
    TablePiece::Field(b"summary", b"Shows the state of a master"),
    TablePiece::Field(b"since", b"2.8.4"),
    TablePiece::Field(b"group", b"sentinel"),
    TablePiece::Field(b"complexity", b"O(1)"),
    TablePiece::Many(b"arguments", 1),
    TablePiece::Argument(4, b"master-name", b"string"),
];

const SENTINEL_REPLICAS: &[TablePiece] = &[
    TablePiece::Field(b"summary", b"List the monitored replicas"),
    TablePiece::Field(b"since", b"5.0.0"),
    TablePiece::Field(b"group", b"sentinel"),
    TablePiece::Field(b"complexity", b"O(N) where N is the number of replicas"),
    TablePiece::Many(b"arguments", 1),
    TablePiece::Argument(4, b"master-name", b"string"),
];

const SENTINEL_SLAVES: &[TablePiece] = &[
    TablePiece::Field(b"summary", b"List the monitored slaves"),
    TablePiece::Field(b"since", b"2.8.0"),
    TablePiece::Field(b"group", b"sentinel"),
    TablePiece::Field(b"complexity", b"O(N) where N is the number of slaves"),
    TablePiece::Many(b"doc_flags", 1),
    TablePiece::Mark(b"deprecated"),
    TablePiece::Field(b"deprecated_since", b"5.0.0"),
    TablePiece::Field(b"replaced_by", b"`SENTINEL REPLICAS`"),
    TablePiece::Many(b"arguments", 1),
    TablePiece::Argument(4, b"master-name", b"string"),
];

const SENTINEL_SENTINELS: &[TablePiece] = &[
    TablePiece::Field(b"summary", b"List the Sentinel instances"),
    TablePiece::Field(b"since", b"2.8.4"),
    TablePiece::Field(b"group", b"sentinel"),
    TablePiece::Field(b"complexity", b"O(N) where N is the number of Sentinels"),
    TablePiece::Many(b"arguments", 1),
    TablePiece::Argument(4, b"master-name", b"string"),
];

const SENTINEL_MYID: &[TablePiece] = &[
    TablePiece::Field(b"summary", b"Get the Sentinel instance ID"),
    TablePiece::Field(b"since", b"6.2.0"),
    TablePiece::Field(b"group", b"sentinel"),
    TablePiece::Field(b"complexity", b"O(1)"),
];

const SENTINEL_CKQUORUM: &[TablePiece] = &[
    TablePiece::Field(b"summary", b"Check for a Sentinel quorum"),
    TablePiece::Field(b"since", b"2.8.4"),
    TablePiece::Field(b"group", b"sentinel"),
    TablePiece::Many(b"arguments", 1),
    TablePiece::Argument(4, b"master-name", b"string"),
];

const SENTINEL_FAILOVER: &[TablePiece] = &[
    TablePiece::Field(b"summary", b"Force a failover"),
    TablePiece::Field(b"since", b"2.8.4"),
    TablePiece::Field(b"group", b"sentinel"),
    TablePiece::Many(b"arguments", 1),
    TablePiece::Argument(4, b"master-name", b"string"),
];

const SENTINEL_FLUSHCONFIG: &[TablePiece] = &[
    TablePiece::Field(b"summary", b"Rewrite configuration file"),
    TablePiece::Field(b"since", b"2.8.4"),
    TablePiece::Field(b"group", b"sentinel"),
    TablePiece::Field(b"complexity", b"O(1)"),
];

const SENTINEL_GET_MASTER_ADDR_BY_NAME: &[TablePiece] = &[
    TablePiece::Field(b"summary", b"Get port and address of a master"),
    TablePiece::Field(b"since", b"2.8.4"),
    TablePiece::Field(b"group", b"sentinel"),
    TablePiece::Field(b"complexity", b"O(1)"),
    TablePiece::Many(b"arguments", 1),
    TablePiece::Argument(4, b"master-name", b"string"),
];

const SENTINEL_IS_MASTER_DOWN_BY_ADDR: &[TablePiece] = &[
    TablePiece::Field(b"summary", b"Check if a master is down"),
    TablePiece::Field(b"since", b"2.8.4"),
    TablePiece::Field(b"group", b"sentinel"),
    TablePiece::Field(b"complexity", b"O(1)"),
    TablePiece::Many(b"arguments", 4),
    TablePiece::Argument(4, b"ip", b"string"),
    TablePiece::Argument(4, b"port", b"integer"),
    TablePiece::Argument(4, b"current-epoch", b"integer"),
    TablePiece::Argument(4, b"runid", b"string"),
];

const SENTINEL_HELP: &[TablePiece] = &[
    TablePiece::Field(
        b"summary",
        b"Show helpful text about the different subcommands",
    ),
    TablePiece::Field(b"since", b"6.2.0"),
    TablePiece::Field(b"group", b"sentinel"),
    TablePiece::Field(b"complexity", b"O(1)"),
];

const SENTINEL_PENDING_SCRIPTS: &[TablePiece] = &[
    TablePiece::Field(b"summary", b"Get information about pending scripts"),
    TablePiece::Field(b"since", b"2.8.4"),
    TablePiece::Field(b"group", b"sentinel"),
];

const SENTINEL_INFO_CACHE: &[TablePiece] = &[
    TablePiece::Field(
        b"summary",
        b"Get cached INFO from the instances in the deployment",
    ),
    TablePiece::Field(b"since", b"3.2.0"),
    TablePiece::Field(b"group", b"sentinel"),
    TablePiece::Field(b"complexity", b"O(N) where N is the number of instances"),
    TablePiece::Many(b"arguments", 1),
    TablePiece::Argument(6, b"nodename", b"string"),
    TablePiece::Many(b"flags", 1),
    TablePiece::Mark(b"multiple"),
];

const SENTINEL_CONFIG: &[TablePiece] = &[
    TablePiece::Field(b"summary", b"Configure Sentinel"),
    TablePiece::Field(b"since", b"6.2.0"),
    TablePiece::Field(b"group", b"sentinel"),
    TablePiece::Field(b"complexity", b"O(1)"),
    TablePiece::Many(b"arguments", 1),
    TablePiece::Argument(6, b"set_or_get", b"oneof"),
    TablePiece::Many(b"arguments", 2),
    TablePiece::Argument(10, b"set_param_value", b"block"),
    TablePiece::Field(b"token", b"SET"),
    TablePiece::Many(b"flags", 1),
    TablePiece::Mark(b"multiple"),
    TablePiece::Many(b"arguments", 2),
    TablePiece::Argument(4, b"parameter", b"string"),
    TablePiece::Argument(4, b"value", b"string"),
    TablePiece::Argument(8, b"parameter", b"string"),
    TablePiece::Field(b"token", b"GET"),
    TablePiece::Many(b"flags", 1),
    TablePiece::Mark(b"multiple"),
];

/// What is said of it, without the number of its names and values.
pub(crate) fn pieces_about(command: KnownCommand) -> &'static [TablePiece]
    ensures { all_in result.now ≡ all_parts_of (pairs_of (fields command)) }
{
    match command {
        KnownCommand::Ping => PING,
        KnownCommand::Hello => HELLO,
        KnownCommand::Auth => AUTH,
        KnownCommand::Client => CLIENT,
        KnownCommand::Command => COMMAND,
        KnownCommand::Role => ROLE,
        KnownCommand::Publish => PUBLISH,
        KnownCommand::Info => INFO,
        KnownCommand::Sentinel => SENTINEL,
        KnownCommand::Subscribe => SUBSCRIBE,
        KnownCommand::Unsubscribe => UNSUBSCRIBE,
        KnownCommand::PSubscribe => PSUBSCRIBE,
        KnownCommand::PUnsubscribe => PUNSUBSCRIBE,
        _ => pieces_about_sub(command),
    }
}

/// What is said of a subcommand; nothing of another command.
fn pieces_about_sub(sub: KnownCommand) -> &'static [TablePiece]
    ensures { is_sub sub ≡ true → all_in result.now ≡ all_parts_of (pairs_of (fields sub)) }
{
    match sub {
        KnownCommand::ClientSetName => CLIENT_SETNAME,
        KnownCommand::ClientGetName => CLIENT_GETNAME,
        KnownCommand::ClientId => CLIENT_ID,
        KnownCommand::ClientList => CLIENT_LIST,
        KnownCommand::ClientInfo => CLIENT_INFO,
        KnownCommand::ClientKill => CLIENT_KILL,
        KnownCommand::ClientNoEvict => CLIENT_NO_EVICT,
        KnownCommand::ClientReply => CLIENT_REPLY,
        KnownCommand::ClientHelp => CLIENT_HELP,
        KnownCommand::CommandCount => COMMAND_COUNT,
        KnownCommand::CommandDocs => COMMAND_DOCS,
        KnownCommand::CommandInfo => COMMAND_INFO,
        KnownCommand::CommandList => COMMAND_LIST,
        KnownCommand::CommandHelp => COMMAND_HELP,
        KnownCommand::SentinelMasters => SENTINEL_MASTERS,
        KnownCommand::SentinelMaster => SENTINEL_MASTER,
        KnownCommand::SentinelReplicas => SENTINEL_REPLICAS,
        KnownCommand::SentinelSlaves => SENTINEL_SLAVES,
        KnownCommand::SentinelSentinels => SENTINEL_SENTINELS,
        KnownCommand::SentinelMyId => SENTINEL_MYID,
        KnownCommand::SentinelCkQuorum => SENTINEL_CKQUORUM,
        KnownCommand::SentinelFailover => SENTINEL_FAILOVER,
        KnownCommand::SentinelFlushConfig => SENTINEL_FLUSHCONFIG,
        KnownCommand::SentinelGetMasterAddr => SENTINEL_GET_MASTER_ADDR_BY_NAME,
        KnownCommand::SentinelIsMasterDown => SENTINEL_IS_MASTER_DOWN_BY_ADDR,
        KnownCommand::SentinelHelp => SENTINEL_HELP,
        KnownCommand::SentinelPendingScripts => SENTINEL_PENDING_SCRIPTS,
        KnownCommand::SentinelInfoCache => SENTINEL_INFO_CACHE,
        KnownCommand::SentinelConfig => SENTINEL_CONFIG,
        _ => &[],
    }
}

/// How many names and values there are.
pub(crate) fn size_of(command: KnownCommand) -> usize
    ensures size { result ≡ length (fields command) * 2 }
    ensures small { result < 100 }
{
    match command {
        KnownCommand::SentinelSlaves => 16,
        KnownCommand::SentinelPendingScripts => 6,
        KnownCommand::Hello
        | KnownCommand::Auth
        | KnownCommand::Info
        | KnownCommand::ClientList
        | KnownCommand::ClientKill
        | KnownCommand::CommandInfo => 12,
        KnownCommand::Client
        | KnownCommand::Command
        | KnownCommand::Role
        | KnownCommand::Sentinel
        | KnownCommand::ClientGetName
        | KnownCommand::ClientId
        | KnownCommand::ClientInfo
        | KnownCommand::ClientHelp
        | KnownCommand::CommandCount
        | KnownCommand::CommandHelp
        | KnownCommand::SentinelMasters
        | KnownCommand::SentinelMyId
        | KnownCommand::SentinelCkQuorum
        | KnownCommand::SentinelFailover
        | KnownCommand::SentinelFlushConfig
        | KnownCommand::SentinelHelp => 8,
        _ => 10,
    }
}
