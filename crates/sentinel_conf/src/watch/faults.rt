//! Why a file that can be read isn't one for `watch`.

use ballot_law::NoMemory;
use thiserror::Error;

/// What is wrong with a line that counts for `watch`, or with the file as a whole. Its words begin with its name, and
/// say what to write.
#[derive(Clone, Copy, Debug, PartialEq, Eq, Error)]
pub enum WatchKind {
    /// Memory was refused.
    #[error("NoMemory")]
    NoMemory,
    /// A directive with a wrong number of words after it.
    #[error("BadDirective: too few or too many words after the directive: write one word, or the name of a master and one word")]
    BadDirective,
    /// A master's name isn't one.
    #[error("BadName: write the name of a master, 1 to 64 letters, digits, `.`, `-` and `_`")]
    BadName,
    /// A number of clients isn't a number from 1 to 4,294,967,295.
    #[error("BadNumber: write how many clients are served, 1 or more")]
    BadNumber,
    /// The words of a line `timeout` aren't one number from 0 to 2,147,483,647.
    #[error("BadSeconds: write after how many seconds `timeout` closes a silent connection, one number from 0, which is never, to 2147483647")]
    BadSeconds,
    /// The words of a line `sentinel master-reboot-down-after-period` aren't the name of a master and one number from 0
    /// to 4,294,967,295.
    #[error("BadMillis: write the name of a master, and for how many milliseconds it may load its data once it was started again, one number from 0, which is for ever, to 4294967295")]
    BadMillis,
    /// The number of a line `sentinel down-after-milliseconds` is below `DOWN_AFTER_LEAST`: PINGs go out each 20 ms at
    /// most, so a node would be down while its answers are on their way.
    #[error("ShortDownAfter: a node that is well would be taken to be down between two PINGs: write 100 milliseconds or more")]
    ShortDownAfter,
    /// A line `bind` has no word, more than `IPS_MAX` words, one that is no ip, or no ip at all.
    #[error("BadBind: write the ips at which this Sentinel listens, as `bind 10.0.0.1 127.0.0.1`, or no such line")]
    BadBind,
    /// A word that should be `yes` or `no` is neither.
    #[error("BadYesNo: write `yes` or `no`")]
    BadYesNo,
    /// A quote of the line doesn't close, or no space is after one that does.
    #[error("BadQuotes: write a word with spaces as \"..\" or '..', with a space or the end of the line after it, and \\\" for a quote in it")]
    BadQuotes,
    /// The line `sentinel resolve-hostnames yes`.
    #[error("NamesOfHosts: names aren't resolved: write the ip of each node and Sentinel, and delete this line")]
    NamesOfHosts,
    /// A line `user` that isn't that of the default user with all rights, and with no password or one that is hashed.
    #[error("AclUser: a `user` line has no effect here, and its passwords and rights would be lost: write `requirepass <password>`, the one password of the port, and delete this line")]
    AclUser,
    /// The line `user default` has the hash of another password than that of `requirepass`.
    #[error("OtherPassword: the hash of this `user default` isn't that of the password of `requirepass`: write that password as `requirepass <password>`, and delete this line")]
    OtherPassword,
    /// A line `aclfile`.
    #[error("AclFile: `aclfile` isn't read, and the passwords and rights of its users would be lost: write `requirepass <password>`, the one password of the port, and delete this line")]
    AclFile,
    /// A line `include`.
    #[error("Include: `include` isn't followed: write the lines of that file in place of this one")]
    Include,
    /// A line `tls-port` with another number than 0.
    #[error("TlsPort: the port doesn't speak TLS: write `tls-port 0`, or delete this line, and encrypt what others send by a tunnel or a network of their own")]
    TlsPort,
    /// A line `tls-replication` with another word than `no`.
    #[error("TlsReplication: no node is spoken to by TLS: write `tls-replication no`, or delete this line, and give the nodes a port without TLS, or a tunnel")]
    TlsReplication,
    /// A line of another directive of TLS, as `tls-cert-file`, with other words than one that turns it off: `no`, `0`
    /// or an empty one.
    #[error("TlsSetting: no TLS is spoken, neither at the port nor to nodes, so what this line sets would be lost: delete it, and encrypt by a tunnel or a network of their own")]
    TlsSetting,
    /// A line `sentinel rename-command`.
    #[error("RenamedCommand: nodes are sent the commands' own names: rename none on the nodes, and delete this `sentinel rename-command`")]
    RenamedCommand,
    /// A line `sentinel` with no directive that a Redis knows.
    #[error("UnknownDirective: no Redis knows this `sentinel` directive, and what it is to set would be left as it is without it: correct its name, or delete this line")]
    UnknownDirective,
    /// A line begins with a byte order mark.
    #[error("ByteOrderMark: this line begins with a byte order mark, and says nothing: save the file without it, as UTF-8")]
    ByteOrderMark,
    /// Another Sentinel or a data node isn't on the loopback, and this Sentinel is known to them by an ip of it.
    #[error("NoAnnounceIp: others aren't on this machine: add `sentinel announce-ip <ip>`, the ip at which they reach this Sentinel")]
    NoAnnounceIp,
}

/// The first fault of a file that is to be one for `watch`. Its text is that of its kind.
#[derive(Clone, Copy, Debug, PartialEq, Eq, Error)]
#[error("{kind}")]
pub struct WatchFault {
    /// The number of the line, the first being 1; 0 for a fault of the file as a whole.
    pub line: u64,
    pub kind: WatchKind,
}

impl From<NoMemory> for WatchFault {
    ghost use Rattle.std.specs.Prelude.{◌≡◌};
    ghost use Rattle.sentinel_conf.specs.Watch.WatchConfs.{no_memory};

    ghost from_gives = { λ _ fault. fault ≡ no_memory };

    fn from(_error: NoMemory) -> WatchFault {
        WatchFault {
            line: 0,
            kind: WatchKind::NoMemory,
        }
    }
}
