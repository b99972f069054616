//! How many notes wait, and how many were lost.

ghost use Rattle.std.specs.Prelude.{◌≡◌, ◌≤◌, ◌<◌, ◌+◌, ◌-◌, ◌^◌, IfSome, IfNone};
ghost use Rattle.sentinel_runner.specs.declared.log_queue.backlog.TheConstants.{WAITING_MAX};

/// How many notes wait at most; a further one is lost.
pub const WAITING_MAX: u64 = 1024;

/// How many notes wait to be written, and how many were lost after the last of them. A count that has come to 2^64 - 1
/// stays there.
#[derive(Drop)]
pub(crate) struct Backlog {
    waiting: u64,
    lost: u64,
    ghost few: { waiting ≤ WAITING_MAX },
}

impl Backlog {
    /// None wait, and none were lost.
    pub(crate) fn new() -> Backlog
        ensures { (result.waiting ≡ 0) × (result.lost ≡ 0) }
    {
        Backlog {
            waiting: 0,
            lost: 0,
        }
    }

    /// A note is to wait: how many were lost right before it, which it tells from now on. None if, and only if, as many
    /// wait as may: then it is lost.
    pub(crate) fn enter(&mut self) -> Option<u64>
        ensures told { IfSome result (λ lost. (lost ≡ self.old.lost) × (self.new.lost ≡ 0) × (self.new.waiting ≡ self.old.waiting + 1)) }
        ensures full { IfNone result ((self.old.waiting ≡ WAITING_MAX) × (self.new.waiting ≡ WAITING_MAX)) }
        ensures counted { IfNone result (self.old.lost + 1 < 2 ^ 64 → self.new.lost ≡ self.old.lost + 1) }
    {
        if self.waiting >= WAITING_MAX {
            self.lost = self.lost.saturating_add(1);
            return None;
        }
        self.waiting += 1;
        let lost = self.lost;
        self.lost = 0;
        Some(lost)
    }

    /// A note waits no more.
    pub(crate) fn leave(&mut self)
        ensures { (self.new.waiting ≡ self.old.waiting - 1) × (self.new.lost ≡ self.old.lost) }
    {
        self.waiting = self.waiting.saturating_sub(1);
    }

    /// A note that was to wait, and to tell that so many were lost before it, is lost too.
    pub(crate) fn lose(&mut self, lost: u64)
        ensures waiting { self.new.waiting ≡ self.old.waiting - 1 }
        ensures counted { self.old.lost + lost + 1 < 2 ^ 64 → self.new.lost ≡ self.old.lost + lost + 1 }
    {
        self.leave();
        self.lost = self.lost.saturating_add(lost).saturating_add(1);
    }

    /// How many were lost after the last note that waits. They count no more.
    pub(crate) fn take_lost(&mut self) -> u64
        ensures { (result ≡ self.old.lost) × (self.new.lost ≡ 0) × (self.new.waiting ≡ self.old.waiting) }
    {
        let lost = self.lost;
        self.lost = 0;
        lost
    }

    /// How many notes wait.
    pub(crate) fn waiting(&self) -> u64
        ensures value { result ≡ self.now.waiting }
        ensures few { result ≤ WAITING_MAX }
    {
        self.waiting
    }
}
