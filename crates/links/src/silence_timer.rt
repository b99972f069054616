//! For how long something that should come didn't, so that it is noted once.

ghost use Rattle.std.specs.Prelude.{◌≡◌, ◌≤◌, ◌↔◌, ◌⊎◌, ◌-◌, true, false, IsTrue};

/// Since when nothing came, by readings of one clock in milliseconds, and whether that was noted.
#[derive(Clone, Copy)]
pub struct SilenceTimer {
    pub since: u64,
    pub is_noted: bool,
}

impl SilenceTimer {
    /// It is quiet from now on.
    pub fn new(now: u64) -> SilenceTimer
        ensures { result ≡ record { since = now; is_noted = false } }
    {
        SilenceTimer {
            since: now,
            is_noted: false,
        }
    }

    /// Something came: whether it was noted that nothing did.
    pub fn hear(&mut self, now: u64) -> bool
        ensures noted { result ≡ self.old.is_noted }
        ensures anew { self.new ≡ record { since = now; is_noted = false } }
    {
        let was_noted = self.is_noted;
        self.since = now;
        self.is_noted = false;
        was_noted
    }

    /// Whether it is to be noted now that nothing came for so long: it is quiet for that long, and it wasn't noted yet.
    /// A second time it isn't.
    pub fn takes_note(&mut self, now: u64, millis: u64) -> bool
        ensures due { IsTrue result ↔ ((self.old.is_noted ≡ false) × (millis ≤ now - self.old.since)) }
        ensures since { self.new.since ≡ self.old.since }
        ensures noted { IsTrue self.new.is_noted ↔ ((self.old.is_noted ≡ true) ⊎ (millis ≤ now - self.old.since)) }
    {
        let is_long = now.saturating_sub(self.since) >= millis;
        let is_due = is_long && !self.is_noted;
        self.is_noted |= is_long;
        is_due
    }
}
