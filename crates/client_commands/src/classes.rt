//! What is told alike of several commands: their flags, the categories of access that they are in, and tips.

ghost use Rattle.std.specs.Prelude.{◌≡◌, map, length};
ghost use Rattle.client_commands.specs.Pieces.{mark, text, all_in};
ghost use Rattle.client_commands.specs.Rows.{flags, categories, tips};

use crate::pieces::TablePiece;

/// A class of commands of which the same is told.
#[derive(Clone, Copy)]
pub(crate) enum Class {
    /// PING.
    Probe,
    /// HELLO and AUTH, which a client sends before its password is known.
    Greeting,
    /// CLIENT, whose subcommands have classes of their own.
    Container,
    /// COMMAND, and its subcommands about the table of commands.
    Table,
    /// ROLE.
    Status,
    /// PUBLISH.
    Publishing,
    /// INFO.
    Figures,
    /// SENTINEL and its subcommands.
    Ruled,
    /// SUBSCRIBE and its kin.
    Listening,
    /// What a client sets and asks of its own connection.
    Own,
    /// CLIENT LIST.
    Clients,
    /// CLIENT INFO.
    OwnLine,
    /// CLIENT KILL and NO-EVICT.
    Control,
    /// COMMAND COUNT, and HELP of CLIENT and COMMAND.
    Counting,
    /// HELP of SENTINEL.
    Advice,
}

const FAST: &[TablePiece] = &[TablePiece::Mark(b"fast")];

const BEFORE_A_PASSWORD: &[TablePiece] = &[
    TablePiece::Mark(b"noscript"),
    TablePiece::Mark(b"loading"),
    TablePiece::Mark(b"stale"),
    TablePiece::Mark(b"fast"),
    TablePiece::Mark(b"no_auth"),
    TablePiece::Mark(b"allow_busy"),
];

const NONE: &[TablePiece] = &[];

const AT_ANY_TIME: &[TablePiece] = &[TablePiece::Mark(b"loading"), TablePiece::Mark(b"stale")];

const FAST_AT_ANY_TIME: &[TablePiece] = &[
    TablePiece::Mark(b"noscript"),
    TablePiece::Mark(b"loading"),
    TablePiece::Mark(b"stale"),
    TablePiece::Mark(b"fast"),
];

const PUBLISHES: &[TablePiece] = &[
    TablePiece::Mark(b"pubsub"),
    TablePiece::Mark(b"loading"),
    TablePiece::Mark(b"stale"),
    TablePiece::Mark(b"fast"),
];

const ADMIN: &[TablePiece] = &[TablePiece::Mark(b"admin")];

const LISTENS: &[TablePiece] = &[
    TablePiece::Mark(b"pubsub"),
    TablePiece::Mark(b"noscript"),
    TablePiece::Mark(b"loading"),
    TablePiece::Mark(b"stale"),
];

const IN_NO_SCRIPT: &[TablePiece] = &[
    TablePiece::Mark(b"noscript"),
    TablePiece::Mark(b"loading"),
    TablePiece::Mark(b"stale"),
];

const ADMIN_AT_ANY_TIME: &[TablePiece] = &[
    TablePiece::Mark(b"admin"),
    TablePiece::Mark(b"noscript"),
    TablePiece::Mark(b"loading"),
    TablePiece::Mark(b"stale"),
];

impl Class {
    /// Their flags.
    pub(crate) fn flags(self) -> &'static [TablePiece]
        ensures parts { all_in result.now ≡ map mark (flags self) }
        ensures size { length result.now ≡ length (flags self) }
    {
        match self {
            Class::Probe => FAST,
            Class::Greeting => BEFORE_A_PASSWORD,
            Class::Container => NONE,
            Class::Table | Class::Figures | Class::Counting | Class::Advice => AT_ANY_TIME,
            Class::Status => FAST_AT_ANY_TIME,
            Class::Publishing => PUBLISHES,
            Class::Ruled => ADMIN,
            Class::Listening => LISTENS,
            Class::Own | Class::OwnLine => IN_NO_SCRIPT,
            Class::Clients | Class::Control => ADMIN_AT_ANY_TIME,
        }
    }

    /// The categories of access that they are in, each after an `@`.
    pub(crate) fn categories(self) -> &'static [TablePiece]
        ensures parts { all_in result.now ≡ map mark (categories self) }
        ensures size { length result.now ≡ length (categories self) }
    {
        match self {
            Class::Probe | Class::Greeting => &[
                TablePiece::Mark(b"@fast"),
                TablePiece::Mark(b"@connection"),
            ],
            Class::Container | Class::Advice => &[TablePiece::Mark(b"@slow")],
            Class::Table | Class::Own | Class::OwnLine | Class::Counting => &[
                TablePiece::Mark(b"@slow"),
                TablePiece::Mark(b"@connection"),
            ],
            Class::Status => &[
                TablePiece::Mark(b"@admin"),
                TablePiece::Mark(b"@fast"),
                TablePiece::Mark(b"@dangerous"),
            ],
            Class::Publishing => &[TablePiece::Mark(b"@pubsub"), TablePiece::Mark(b"@fast")],
            Class::Figures => &[TablePiece::Mark(b"@slow"), TablePiece::Mark(b"@dangerous")],
            Class::Ruled => &[
                TablePiece::Mark(b"@admin"),
                TablePiece::Mark(b"@slow"),
                TablePiece::Mark(b"@dangerous"),
            ],
            Class::Listening => &[TablePiece::Mark(b"@pubsub"), TablePiece::Mark(b"@slow")],
            Class::Clients | Class::Control => &[
                TablePiece::Mark(b"@admin"),
                TablePiece::Mark(b"@slow"),
                TablePiece::Mark(b"@dangerous"),
                TablePiece::Mark(b"@connection"),
            ],
        }
    }

    /// What a client of a cluster is to know.
    pub(crate) fn tips(self) -> &'static [TablePiece]
        ensures parts { all_in result.now ≡ map text (tips self) }
        ensures size { length result.now ≡ length (tips self) }
    {
        match self {
            Class::Probe => &[
                TablePiece::Text(b"request_policy:all_shards"),
                TablePiece::Text(b"response_policy:all_succeeded"),
            ],
            Class::Greeting
            | Class::Container
            | Class::Status
            | Class::Publishing
            | Class::Ruled
            | Class::Listening
            | Class::Own
            | Class::Control
            | Class::Counting
            | Class::Advice => &[],
            Class::Table => &[TablePiece::Text(b"nondeterministic_output_order")],
            Class::Figures => &[
                TablePiece::Text(b"nondeterministic_output"),
                TablePiece::Text(b"request_policy:all_shards"),
                TablePiece::Text(b"response_policy:special"),
            ],
            Class::Clients | Class::OwnLine => &[TablePiece::Text(b"nondeterministic_output")],
        }
    }
}
