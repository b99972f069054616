//! The subcommands of SENTINEL that a Sentinel's rules don't know.

ghost use Rattle.std.specs.Prelude.{◌≡◌, ◌++◌, codes};
ghost use Rattle.client_commands.specs.Subcommands.{sub_word, sub_name, all_subs, sub_among, takes_count};

use crate::refusals::is_called;

/// A subcommand of SENTINEL that the rules don't know.
#[derive(Clone, Copy)]
pub(crate) enum Sub {
    Help,
    PendingScripts,
    InfoCache,
    Config,
    SetOption,
    Monitor,
    Remove,
    Reset,
    Simulate,
    Debug,
}

/// How many bytes of each name are `sentinel|`.
const FAMILY: usize = 9;

const ALL: &[Sub] = &[
    Sub::Help,
    Sub::PendingScripts,
    Sub::InfoCache,
    Sub::Config,
    Sub::SetOption,
    Sub::Monitor,
    Sub::Remove,
    Sub::Reset,
    Sub::Simulate,
    Sub::Debug,
];

/// All of them.
fn all() -> &'static [Sub]
    ensures { result.now ≡ all_subs }
{
    ALL
}

impl Sub {
    /// The name of the whole command.
    pub(crate) fn name(self) -> &'static [u8]
        ensures { result.now ≡ sub_name self }
    {
        match self {
            Sub::Help => b"sentinel|help",
            Sub::PendingScripts => b"sentinel|pending-scripts",
            Sub::InfoCache => b"sentinel|info-cache",
            Sub::Config => b"sentinel|config",
            Sub::SetOption => b"sentinel|set",
            Sub::Monitor => b"sentinel|monitor",
            Sub::Remove => b"sentinel|remove",
            Sub::Reset => b"sentinel|reset",
            Sub::Simulate => b"sentinel|simulate-failure",
            Sub::Debug => b"sentinel|debug",
        }
    }

    /// How it is called: its name without the command's own.
    #[tactic(auto, using(crate::proofs::SubNames::name_is_long, crate::proofs::SubNames::word_behind))]
    fn word(self) -> &'static [u8]
        ensures { result.now ≡ sub_word self }
    {
        let (_, word) = self.name().split_at(FAMILY);
        word
    }

    /// Whether it takes so many words.
    pub(crate) fn takes_count(self, count: usize) -> bool
        ensures { result ≡ takes_count self count }
    {
        match self {
            Sub::Help | Sub::PendingScripts => count == 0,
            Sub::InfoCache | Sub::Config | Sub::Simulate => 0 < count,
            Sub::SetOption => 3 <= count,
            Sub::Monitor => count == 4,
            Sub::Remove | Sub::Reset => count == 1,
            Sub::Debug => true,
        }
    }
}

/// The subcommand that is called so.
pub(crate) fn sub_named(word: &[u8]) -> Option<Sub>
    ensures { result ≡ sub_among all_subs word.now }
{
    let mut rest = all();
    while let [sub, more @ ..] = rest {
        if is_called(sub.word(), word) {
            return Some(*sub);
        }
        rest = more;
    }
    None
}
