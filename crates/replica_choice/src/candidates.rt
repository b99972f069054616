//! What a choice looks at.

ghost use Rattle.std.specs.Prelude.{◌≡◌, nat_le, ◌*◌, ◌+◌};
ghost use Rattle.replica_choice.specs.declared.candidates.TheConstants.{FRESH_MS};
ghost use Rattle.replica_choice.specs.Choices.{is_fresh, is_linked, is_eligible, has_smaller_id, is_better};

use ballot_law::{RunId, clock_of};

/// How long ago a candidate may have been heard of, in milliseconds.
pub const FRESH_MS: u64 = 5_000;

/// That period as a number. The definition of a choice and its code cite it by name.
pub fn law_fresh()
    ensures { FRESH_MS ≡ 5000 }
{}

/// What is known of a replica. Moments are readings of the Sentinel's clock in milliseconds; a reading above 2^62
/// counts as 2^62.
#[derive(Clone, Copy, PartialEq, Eq)]
pub struct Candidate {
    /// Whether the Sentinel finds it down (SDOWN).
    pub sdown: bool,
    /// `replica-priority` (INFO `slave_priority`): a smaller one is preferred, and 0 is never chosen.
    pub priority: u64,
    /// For how many seconds its link to the master has been down (INFO `master_link_down_since_seconds`), 0 where it is
    /// up.
    pub link_down_s: u64,
    /// When its last valid reply to a PING was heard: none where none ever was.
    pub last_ping: Option<u64>,
    /// When its last INFO was read: none where none ever was.
    pub last_info: Option<u64>,
    /// How much of the replication stream it has processed (INFO `slave_repl_offset`): a greater one is preferred.
    pub offset: u64,
    /// Its run id: none where none is known, which stands after every run id.
    pub id: Option<RunId>,
}

/// What bounds the time for which a replica's link to its master may be down.
#[derive(Clone, Copy, PartialEq, Eq)]
pub struct Limits {
    /// `down-after-milliseconds` of the master.
    pub after_ms: u64,
    /// For how many milliseconds the master has been down, as the Sentinel finds it.
    pub master_down_ms: u64,
}

/// Whether the moment was at most five seconds ago.
fn is_recent(moment: Option<u64>, now: u64) -> bool
    ensures { result ≡ is_fresh now moment }
{
    match moment {
        Some(moment) => clock_of(now).saturating_sub(clock_of(moment)) <= FRESH_MS,
        None => false,
    }
}

/// Whether the first run id stands before the second; an unknown one stands last.
fn is_id_before(first: Option<RunId>, second: Option<RunId>) -> bool
    ensures { result ≡ has_smaller_id first second }
{
    match (first, second) {
        (Some(first), Some(second)) => first.is_before(&second),
        (Some(_), None) => true,
        (None, _) => false,
    }
}

impl Limits {
    /// Whether a link may be down for so many seconds: compared in milliseconds, which don't wrap.
    fn allow(&self, link_down_s: u64) -> bool
        ensures { result ≡ is_linked self.now link_down_s }
    {
        link_down_s as u128 * 1_000 <= 10 * self.after_ms as u128 + self.master_down_ms as u128
    }
}

impl Candidate {
    /// Whether it may be chosen: not down, of a priority above 0, its link up or not long down, and heard of lately.
    pub(crate) fn may_be_chosen(&self, now: u64, limits: &Limits) -> bool
        ensures { result ≡ is_eligible now limits.now self.now }
    {
        !self.sdown
            && self.priority > 0
            && limits.allow(self.link_down_s)
            && is_recent(self.last_ping, now)
            && is_recent(self.last_info, now)
    }

    /// Whether it is to be preferred: by the smaller priority, then the greater offset, then the smaller run id.
    pub(crate) fn beats(&self, other: &Candidate) -> bool
        ensures { result ≡ is_better self.now other.now }
    {
        if self.priority != other.priority {
            return self.priority < other.priority;
        }
        if self.offset != other.offset {
            return other.offset < self.offset;
        }
        is_id_before(self.id, other.id)
    }
}
