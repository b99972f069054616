//! What is assumed of a replica before it tells.

use ballot_law::{DataRole, Info};

/// What is assumed of a replica before its first INFO: no run id, the default priority of a Redis server, and nothing
/// of the master's stream.
pub const ASSUMED_INFO: Info = Info {
    id: None,
    role: DataRole::Replica,
    master: None,
    link_up: false,
    link_down_s: 0,
    priority: 100,
    offset: 0,
};
