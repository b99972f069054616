//! The settings of a master.

ghost use Rattle.std.specs.Prelude.{◌≡◌, ◌*◌, ◌+◌, ◌^◌};
ghost use Rattle.sentinel_conf.specs.declared.meaning.TheConstants.{DEFAULT_IP, DEFAULT_PORT};
ghost use Rattle.sentinel_conf.specs.declared.settings.TheConstants.{DEFAULT_SETTINGS};

/// The settings of a master.
#[derive(Clone, Copy, PartialEq, Eq)]
pub struct Settings {
    /// `sentinel down-after-milliseconds`: after how many milliseconds without a valid reply a node counts as down; 1
    /// to 4,294,967,295.
    pub after_ms: u64,
    /// `sentinel parallel-syncs`: how many replicas are pointed at a promoted master at one time; 0 to 4,294,967,295.
    pub parallel_syncs: u64,
    /// `sentinel failover-timeout`, in milliseconds; 1 to 4,294,967,295.
    pub timeout: u64,
}

/// What holds of a master for which the file doesn't say otherwise: 30 seconds, one replica at a time, three minutes,
/// as the comments of sentinel.conf have it.
pub const DEFAULT_SETTINGS: Settings = Settings {
    after_ms: 30_000,
    parallel_syncs: 1,
    timeout: 180_000,
};

/// What holds where the file doesn't say otherwise, as numbers: the settings of a master, and this Sentinel's address,
/// 127.0.0.1:26379. Definitions and code cite them by name.
pub fn law_defaults()
    ensures after { DEFAULT_SETTINGS.after_ms ≡ 30000 }
    ensures parallel_syncs { DEFAULT_SETTINGS.parallel_syncs ≡ 1 }
    ensures timeout { DEFAULT_SETTINGS.timeout ≡ 180000 }
    ensures port { DEFAULT_PORT ≡ 26379 }
    ensures ip { DEFAULT_IP ≡ 127 * 2 ^ 24 + 1 }
{}
