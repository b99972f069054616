//! What each kind of fault means, in a sentence.

ghost use Rattle.std.specs.Prelude.{◌≡◌};
ghost use Rattle.conf_check.specs.Errors.Sentences.{roster_sentence, sentence};

use ballot_law::RosterFault;
use conf_lines::ConfKind;

/// What the fault of a roster means, and its limits.
fn roster_sentence(fault: RosterFault) -> &'static str
    ensures { result.now ≡ roster_sentence fault }
{
    match fault {
        RosterFault::NoSentinel => "the file names no Sentinel",
        RosterFault::TooManySentinels => "a group has at most 64 Sentinels",
        RosterFault::NoMaster => "the file has no line `sentinel monitor`",
        RosterFault::TooManyMasters => "a group watches at most 16 masters",
        RosterFault::SameName => "two masters have one name",
        RosterFault::NoNode => "a master has no data node",
        RosterFault::TooManyNodes => "a master has at most 256 data nodes, itself among them",
        RosterFault::QuorumZero => "the quorum of a master is 1 or more",
        RosterFault::SameRunId => "one Sentinel has two addresses",
        RosterFault::SharedAddress => "two nodes have one address",
        RosterFault::NoMemory => "memory was refused",
    }
}

/// What the kind of fault means, with the range or the form of what would be right.
pub fn sentence(kind: ConfKind) -> &'static str
    ensures { result.now ≡ sentence kind }
{
    match kind {
        ConfKind::TooLong => {
            "the file, or the longest that a rewrite could make of it, has more than 67,536 bytes"
        }
        ConfKind::NotUtf8 => "the bytes of the file aren't UTF-8",
        ConfKind::BadDirective => {
            "too few or too many words after the directive; a comment stands in a line of its own, and a quote is closed"
        }
        ConfKind::BadNumber => {
            "no number, or out of its range: a port is 1 to 65535, milliseconds 1 to 4294967295, a quorum and parallel-syncs 0 to 4294967295, an epoch 0 to 281474976710655"
        }
        ConfKind::BadAddress => {
            "write the ip, four numbers from 0 to 255 with dots between them, and a port 1 to 65535: names of hosts and IPv6 aren't read"
        }
        ConfKind::BadName => "the name of a master has 1 to 64 letters, digits, `.`, `-` and `_`",
        ConfKind::BadRunId => "a run id has 40 digits, 0 to 9 and a to f in lower case",
        ConfKind::UnknownMaster => {
            "no line `sentinel monitor` of the file that can be read names this master"
        }
        ConfKind::Twice => "a line before says this already, and it may stand once",
        ConfKind::NoMyId => {
            "the file has no line `sentinel myid <id>`; `sentinel_group new-id` prints an id"
        }
        ConfKind::Roster(fault) => roster_sentence(fault),
        ConfKind::NoMemory => "memory was refused",
    }
}
