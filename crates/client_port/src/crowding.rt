//! When it is noted that a port has few seats left.

ghost use Rattle.std.specs.Prelude.{◌≡◌};
ghost use Rattle.client_port.specs.Admitting.{is_crowded};

/// How long it is at least between two notes, in milliseconds.
const APART_MS: u64 = 60_000;

/// Whether it was noted that nine tenths of the seats are taken, since fewer were, and when it was noted last.
#[derive(Clone, Copy)]
pub(crate) struct Crowding {
    is_noted: bool,
    last: Option<u64>,
}

/// Whether nine tenths of so many seats are taken where `count` are.
fn is_crowded(count: u64, limit: u16) -> bool
    ensures { result ≡ is_crowded count limit }
{
    u128::from(count) * 10 >= u128::from(limit) * 9
}

impl Crowding {
    /// It wasn't noted yet.
    pub(crate) fn new() -> Crowding {
        Crowding {
            is_noted: false,
            last: None,
        }
    }

    /// Whether it is to be noted now, at this reading of the clock in milliseconds: nine tenths are taken, fewer were
    /// since the last note, and that was a minute ago or more.
    pub(crate) fn is_due(&mut self, count: u64, limit: u16, now: u64) -> bool {
        if !is_crowded(count, limit) {
            self.is_noted = false;
            return false;
        }
        let is_late = match self.last {
            Some(last) => now.saturating_sub(last) >= APART_MS,
            None => true,
        };
        if self.is_noted || !is_late {
            return false;
        }
        self.is_noted = true;
        self.last = Some(now);
        true
    }
}
