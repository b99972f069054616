//! What counts where a connection may have to go.

ghost use Rattle.std.specs.Prelude.{◌≡◌, ◌↔◌, ◌≤◌, true};
ghost use Rattle.client_port.specs.declared.standing.Look.TheVariants.{Goes};
ghost use Rattle.client_port.specs.Admitting.{may_go, goes_first, is_idle};

/// What becomes of the first connection of those that may have to go, in an order by readings of the clock.
#[derive(Clone, Copy)]
pub(crate) enum Look {
    /// It goes.
    Goes,
    /// It counts from this later reading on.
    Later(u64),
    /// It may not go now, and is looked at again a while later.
    Aside,
    /// It is none of them any more.
    Leaves,
    /// It doesn't have to go yet, and so none that comes after it.
    Stays,
}

/// A connection as it stands at one time. `came` and `heard` are the clock's readings in milliseconds when it came
/// and when its last byte was read; `has_own_seat` is whether its seat is one of those that are kept for its ip,
/// `owes` whether it is still to give the port's password, and `works` whether anything of it is unsent or to be
/// done.
#[derive(Clone, Copy)]
pub(crate) struct Standing {
    pub(crate) came: u64,
    pub(crate) heard: u64,
    pub(crate) has_own_seat: bool,
    pub(crate) listens: bool,
    pub(crate) owes: bool,
    pub(crate) works: bool,
}

impl Standing {
    /// Whether it goes for a further one, where it has been silent for longest.
    pub(crate) fn may_go(self) -> bool
        ensures { result ≡ may_go self }
    {
        !self.has_own_seat && !self.listens && !self.works
    }

    /// Whether it goes before anybody who was let in: it owes the password.
    pub(crate) fn goes_first(self) -> bool
        ensures { result ≡ goes_first self }
    {
        !self.has_own_seat && self.owes
    }

    /// Whether it is closed, since no byte came of it for so many milliseconds and it listens to nothing. With 0 none
    /// is.
    pub(crate) fn is_idle(self, idle_ms: u64, now: u64) -> bool
        ensures { result ≡ is_idle self idle_ms now }
    {
        idle_ms > 0 && !self.listens && now.saturating_sub(self.heard) >= idle_ms
    }

    /// What becomes of it where it is the first of those that owe the password, which counts since this reading.
    pub(crate) fn among_strangers(self, since: u64) -> Look
        ensures goes { (result ≡ Goes) ↔ ((goes_first self ≡ true) × (self.came ≤ since)) }
    {
        if !self.goes_first() {
            return Look::Leaves;
        }
        if since < self.came {
            return Look::Later(self.came);
        }
        Look::Goes
    }

    /// What becomes of it where it is the first of those that are silent, which counts since this reading, and
    /// another one is to have its seat.
    pub(crate) fn among_silent(self, since: u64) -> Look
        ensures goes { (result ≡ Goes) ↔ ((may_go self ≡ true) × (self.heard ≤ since)) }
    {
        if !self.may_go() {
            return Look::Aside;
        }
        if since < self.heard {
            return Look::Later(self.heard);
        }
        Look::Goes
    }

    /// What becomes of it where it is the first of those that are silent, which counts since this reading, and those
    /// are closed that are idle for so long.
    pub(crate) fn among_idle(self, since: u64, idle_ms: u64, now: u64) -> Look
        ensures goes { (result ≡ Goes) ↔ (is_idle self idle_ms now ≡ true) }
    {
        if self.is_idle(idle_ms, now) {
            return Look::Goes;
        }
        Look::Later(if since < self.heard { self.heard } else { now })
    }
}
