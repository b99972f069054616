//! How far the current epoch of a Sentinel has come, and how far it had come when the others last had time to hear of
//! that.

ghost use Rattle.std.specs.Prelude.{◌≡◌, ◌<◌, ◌≤◌, ◌-◌, max};

/// How long the others have to hear of an epoch before requests for votes count from it, in milliseconds: five hellos
/// tell of it in that time.
pub(crate) const SETTLE_MS: u64 = 10_000;

/// `current` is the current epoch. A period begins at a reading of the clock, `since`, when it was `next`; when the
/// period before it began, it was `settled`.
#[derive(Clone, Copy)]
pub(crate) struct Settling {
    pub(crate) current: u64,
    pub(crate) next: u64,
    pub(crate) settled: u64,
    pub(crate) since: u64,
}

impl Settling {
    /// The others have heard of this epoch, and a period begins.
    pub(crate) fn begun(epoch: u64, now: u64) -> Settling
        ensures { result ≡ record { current = epoch; next = epoch; settled = epoch; since = now } }
    {
        Settling {
            current: epoch,
            next: epoch,
            settled: epoch,
            since: now,
        }
    }

    /// Takes in the current epoch at a reading of the clock. A period that has lasted for long enough ends.
    pub(crate) fn see(self, epoch: u64, now: u64) -> Settling
        ensures current { result.current ≡ max self.current epoch }
        ensures goes_on { now - self.since < SETTLE_MS → (result.next ≡ self.next) × (result.settled ≡ self.settled) × (result.since ≡ self.since) }
        ensures ends { SETTLE_MS ≤ now - self.since → (result.next ≡ result.current) × (result.settled ≡ self.next) × (result.since ≡ now) }
    {
        let current = self.current.max(epoch);
        if now.saturating_sub(self.since) < SETTLE_MS {
            return Settling { current, ..self };
        }
        Settling {
            current,
            next: current,
            settled: self.next,
            since: now,
        }
    }
}
