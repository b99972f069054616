//! What a line says that counts for `watch` alone.

ghost use Rattle.std.specs.Prelude.{◌≡◌, None, Some, MatchOption};
ghost use Rattle.sentinel_conf.specs.Watch.WatchLines.{binds_of, node_pass_of, node_user_of, own_pass_of, peer_pass_of, peer_user_of, reboot_of, clients_of, seconds_of, protected_of, default_of};

use crate::watch::binds::{Bind, Binds};
use crate::watch::faults::WatchKind;
use ballot_law::{Name, Text, is_same_bytes};

/// How many connections of clients a port keeps at most, and where no line says how many.
pub const CLIENTS_MAX: u16 = 10_000;

/// The most seconds after which a silent connection is closed: 49 days.
pub const IDLE_SECONDS_MAX: u32 = 4_294_967;

/// After how many seconds a silent connection is closed where no line says it: an hour.
pub const IDLE_SECONDS: u32 = 3_600;

/// What a line sets. It can't be printed, since it can hold a password.
#[derive(Drop)]
pub enum WatchSetting {
    /// `bind`: the ips at which the port listens.
    Bind(Binds),
    /// `sentinel auth-pass`: the password for the data nodes of a master.
    NodePass { name: Name, pass: Text },
    /// `sentinel auth-user`: the user at the data nodes of a master.
    NodeUser { name: Name, user: Text },
    /// `requirepass`: the password of the own port.
    OwnPass(Text),
    /// `sentinel sentinel-pass`: the password for the ports of the other Sentinels.
    PeerPass(Text),
    /// `sentinel sentinel-user`: the user at the ports of the other Sentinels.
    PeerUser(Text),
    /// `sentinel master-reboot-down-after-period`: for how many milliseconds a master that was started again may load
    /// its data until it counts as down, 0 to 4,294,967,295; 0 is for ever.
    Reboot { name: Name, ms: u32 },
    /// `maxclients`: how many connections of clients are asked for, 1 to 4,294,967,295; the port keeps `CLIENTS_MAX` of
    /// them at most.
    MaxClients(u32),
    /// `timeout`: after how many seconds a silent connection is to be closed, 0 to 2,147,483,647; 0 is never, and more
    /// than `IDLE_SECONDS_MAX` are that.
    Timeout(u32),
    /// `protected-mode`.
    ProtectedMode(bool),
    /// `user default on #<hash> ..`, with all rights: the digits of a hash, as Redis writes it beside `requirepass`.
    DefaultUser(Text),
}

/// What a line is to `watch`.
#[derive(Drop)]
pub enum WatchLine {
    /// A line that doesn't count for `watch` alone.
    Other,
    Says(WatchSetting),
    Faulty(WatchKind),
}

impl WatchSetting {
    /// The ips at which the port listens.
    pub(crate) fn binds(&self) -> Option<&[Bind]>
        ensures { MatchOption result (binds_of self.now ≡ None) (λ binds. binds_of self.now ≡ Some binds.now) }
    {
        match self {
            WatchSetting::Bind(binds) => Some(binds.as_slice()),
            _ => None,
        }
    }

    /// The password for the data nodes of the master of this name.
    pub(crate) fn node_pass(&self, name: &Name) -> Option<&[u8]>
        ensures { MatchOption result (node_pass_of name.now self.now ≡ None)
            (λ pass. node_pass_of name.now self.now ≡ Some pass.now) }
    {
        match self {
            WatchSetting::NodePass { name: other, pass } => {
                if is_same_bytes(name.as_slice(), other.as_slice()) {
                    return Some(pass.as_slice());
                }
                None
            }
            _ => None,
        }
    }

    /// The user at the data nodes of the master of this name.
    pub(crate) fn node_user(&self, name: &Name) -> Option<&[u8]>
        ensures { MatchOption result (node_user_of name.now self.now ≡ None)
            (λ user. node_user_of name.now self.now ≡ Some user.now) }
    {
        match self {
            WatchSetting::NodeUser { name: other, user } => {
                if is_same_bytes(name.as_slice(), other.as_slice()) {
                    return Some(user.as_slice());
                }
                None
            }
            _ => None,
        }
    }

    /// The password of the own port.
    pub(crate) fn own_pass(&self) -> Option<&[u8]>
        ensures { MatchOption result (own_pass_of self.now ≡ None) (λ pass. own_pass_of self.now ≡ Some pass.now) }
    {
        match self {
            WatchSetting::OwnPass(pass) => Some(pass.as_slice()),
            _ => None,
        }
    }

    /// The password for the ports of the other Sentinels.
    pub(crate) fn peer_pass(&self) -> Option<&[u8]>
        ensures { MatchOption result (peer_pass_of self.now ≡ None) (λ pass. peer_pass_of self.now ≡ Some pass.now) }
    {
        match self {
            WatchSetting::PeerPass(pass) => Some(pass.as_slice()),
            _ => None,
        }
    }

    /// The user at the ports of the other Sentinels.
    pub(crate) fn peer_user(&self) -> Option<&[u8]>
        ensures { MatchOption result (peer_user_of self.now ≡ None) (λ user. peer_user_of self.now ≡ Some user.now) }
    {
        match self {
            WatchSetting::PeerUser(user) => Some(user.as_slice()),
            _ => None,
        }
    }

    /// For how many milliseconds the master of this name may load its data after a restart.
    pub(crate) fn reboot_ms(&self, name: &Name) -> Option<u32>
        ensures { result ≡ reboot_of name.now self.now }
    {
        match self {
            WatchSetting::Reboot { name: other, ms } => {
                if is_same_bytes(name.as_slice(), other.as_slice()) {
                    return Some(*ms);
                }
                None
            }
            _ => None,
        }
    }

    /// How many connections of clients are asked for.
    pub(crate) fn max_clients(&self) -> Option<u32>
        ensures { result ≡ clients_of self.now }
    {
        match self {
            WatchSetting::MaxClients(count) => Some(*count),
            _ => None,
        }
    }

    /// After how many seconds a silent connection is to be closed.
    pub(crate) fn idle_seconds(&self) -> Option<u32>
        ensures { result ≡ seconds_of self.now }
    {
        match self {
            WatchSetting::Timeout(seconds) => Some(*seconds),
            _ => None,
        }
    }

    /// Whether the protected mode is on.
    pub(crate) fn protected_mode(&self) -> Option<bool>
        ensures { result ≡ protected_of self.now }
    {
        match self {
            WatchSetting::ProtectedMode(yes) => Some(*yes),
            _ => None,
        }
    }

    /// The digits of the hash of the default user's password.
    pub(crate) fn default_user(&self) -> Option<&[u8]>
        ensures { MatchOption result (default_of self.now ≡ None) (λ digits. default_of self.now ≡ Some digits.now) }
    {
        match self {
            WatchSetting::DefaultUser(digits) => Some(digits.as_slice()),
            _ => None,
        }
    }
}
