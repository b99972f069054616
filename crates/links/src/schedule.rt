//! When a connection is opened, given up, and asked besides what the Sentinel asks.

ghost use Rattle.std.specs.Prelude.{◌≡◌, ◌≤◌, ◌<◌, ◌↔◌, ◌+◌, ◌-◌, ◌/◌, ◌^◌, true, false, Some, None, IsTrue, max, min};
ghost use Rattle.links.specs.declared.schedule.Stage.TheVariants.{Closed, Opening, Open};
ghost use Rattle.links.specs.declared.schedule.Stale.TheVariants.{Unreached, Silent, Unfinished, NoHello};
ghost use Rattle.links.specs.Schedules.{IsPast, after_piece, begun, closed, patience};

use crate::times::{
    ASK_INFO_MS, CONNECT_MS, LASTING_MS, LONG_BYTES, LONG_MS, NO_HELLO_MS, PAUSE_MAX_MS,
    PAUSE_MIN_MS, PING_MAX_MS, PING_MIN_MS, PINGS, SILENT_MS,
};

/// Where a connection stands.
#[derive(Clone, Copy, PartialEq, Eq)]
pub enum Stage {
    /// It is closed, since the time of its schedule.
    Closed,
    /// It is being opened.
    Opening,
    /// It is open.
    Open,
}

/// Why a connection is given up by the clock alone.
#[derive(Clone, Copy, Debug, PartialEq, Eq)]
pub enum Stale {
    /// It took too long to be opened.
    Unreached,
    /// An answer is awaited, and nothing came for too long.
    Silent,
    /// An answer is awaited, and what came for too long is no whole one.
    Unfinished,
    /// It listens to hellos, and none came for too long.
    NoHello,
}

/// The times of a connection, readings of one clock in milliseconds: `since` is when its stage began, `quiet` when the
/// silence began that counts, as when the last whole answer came, and `pinged` when it last sent a PING. `came` is how
/// many bytes came in that silence, `ping_each` how long it is between two PINGs, `pause` how long it stays closed, and
/// `infos` the time, of those between two INFOs since it was opened, at which it is to ask for INFO by itself again.
#[derive(Clone, Copy)]
pub struct Schedule {
    pub stage: Stage,
    pub since: u64,
    pub quiet: u64,
    pub came: u64,
    pub pause: u64,
    pub pinged: Option<u64>,
    pub ping_each: u64,
    pub infos: u64,
}

/// How many milliseconds it is between two PINGs to a node that is down after a silence of so many: a third of that, so
/// that one answer that is late makes no node down, and from `PING_MIN_MS` to `PING_MAX_MS`.
pub fn ping_each(down_after: u64) -> u64
    ensures { result ≡ min (max (down_after / PINGS) PING_MIN_MS) PING_MAX_MS }
{
    (down_after / PINGS).max(PING_MIN_MS).min(PING_MAX_MS)
}

/// How long an answer may take of which so many bytes came, in milliseconds.
fn patience(came: u64) -> u64
    ensures { result ≡ patience came }
{
    if came > LONG_BYTES {
        LONG_MS
    } else {
        SILENT_MS
    }
}

impl Schedule {
    /// A connection that is to be opened at once, with so many milliseconds between two PINGs.
    pub fn new(ping_each: u64) -> Schedule
        ensures stage { result.stage ≡ Closed }
        ensures pause { result.pause ≡ 0 }
        ensures ping { result.ping_each ≡ ping_each }
    {
        Schedule {
            stage: Stage::Closed,
            since: 0,
            quiet: 0,
            came: 0,
            pause: 0,
            pinged: None,
            ping_each,
            infos: 0,
        }
    }

    /// Whether it is to be opened now.
    pub fn is_due(&self, now: u64) -> bool
        ensures { IsTrue result ↔ ((self.now.stage ≡ Closed) × (self.now.pause ≤ now - self.now.since)) }
    {
        self.stage == Stage::Closed && self.pause <= now.saturating_sub(self.since)
    }

    /// Why it is to be given up now, where it listens to hellos or doesn't, and an answer is awaited on it or none;
    /// `None` where it isn't.
    pub fn stale(&self, listens: bool, waits: bool, now: u64) -> Option<Stale>
        ensures unreached { result ≡ Some Unreached ↔ ((self.now.stage ≡ Opening) × (CONNECT_MS ≤ now - self.now.since)) }
        ensures silent { result ≡ Some Silent
            ↔ ((self.now.stage ≡ Open) × (listens ≡ false) × (waits ≡ true) × (self.now.came ≡ 0) × (SILENT_MS ≤ now - self.now.quiet)) }
        ensures unfinished { result ≡ Some Unfinished
            ↔ ((self.now.stage ≡ Open) × (listens ≡ false) × (waits ≡ true) × (0 < self.now.came) × (patience self.now.came ≤ now - self.now.quiet)) }
        ensures no_hello { result ≡ Some NoHello
            ↔ ((self.now.stage ≡ Open) × (listens ≡ true) × (NO_HELLO_MS ≤ now - self.now.quiet)) }
    {
        let quiet = now.saturating_sub(self.quiet);
        match self.stage {
            Stage::Closed => None,
            Stage::Opening if now.saturating_sub(self.since) >= CONNECT_MS => Some(
                Stale::Unreached,
            ),
            Stage::Open if listens && quiet >= NO_HELLO_MS => Some(Stale::NoHello),
            Stage::Open if !listens && waits && quiet >= patience(self.came) => {
                if self.came == 0 {
                    Some(Stale::Silent)
                } else {
                    Some(Stale::Unfinished)
                }
            }
            _ => None,
        }
    }

    /// It is being opened from now on.
    pub fn begin(&mut self, now: u64)
        ensures { self.new ≡ begun now self.old }
    {
        self.stage = Stage::Opening;
        self.since = now;
        self.excuse(now);
    }

    /// It is open from now on. A PING and an INFO are due at once.
    pub fn reach(&mut self, now: u64)
        ensures { self.new ≡ record self.old { stage = Open; since = now; quiet = now; came = 0; pinged = None; infos = 0 } }
    {
        self.stage = Stage::Open;
        self.since = now;
        self.excuse(now);
        self.pinged = None;
        self.infos = 0;
    }

    /// Whether it is open.
    pub fn is_open(&self) -> bool
        ensures { IsTrue result ↔ self.now.stage ≡ Open }
    {
        self.stage == Stage::Open
    }

    /// A whole answer or hello came: the next pause is the shortest again.
    pub fn hear(&mut self, now: u64)
        ensures { self.new ≡ record self.old { quiet = now; came = 0; pause = 0 } }
    {
        self.excuse(now);
        self.pause = 0;
    }

    /// So many bytes came, with which whole answers or hellos came or didn't: bytes alone don't end the silence.
    pub fn take_piece(&mut self, answers: bool, now: u64, count: u64)
        ensures { self.new ≡ after_piece answers now count self.old }
    {
        if answers {
            self.hear(now);
        } else {
            self.came = self.came.saturating_add(count);
        }
    }

    /// What was silent so far counts no more: a first answer is awaited, or it was this Sentinel that stood still.
    pub fn excuse(&mut self, now: u64)
        ensures { self.new ≡ record self.old { quiet = now; came = 0 } }
    {
        self.quiet = now;
        self.came = 0;
    }

    /// It is closed from now on. Where nothing was heard since it was last closed, the pause is twice as long as the
    /// last one, and in any case from `PAUSE_MIN_MS` to `PAUSE_MAX_MS`.
    pub fn close(&mut self, now: u64)
        ensures { self.new ≡ closed now self.old }
    {
        self.stage = Stage::Closed;
        self.since = now;
        self.pause = self
            .pause
            .saturating_mul(2)
            .max(PAUSE_MIN_MS)
            .min(PAUSE_MAX_MS);
    }

    /// The next time it is opened comes at once, where it is closed.
    pub fn forgive(&mut self)
        ensures { self.new ≡ record self.old { pause = 0 } }
    {
        self.pause = 0;
    }

    /// Whether it is open, and has been for `LASTING_MS`, so that its node counts as a good one: where such a
    /// connection ends, it is opened again at once.
    pub fn is_lasting(&self, now: u64) -> bool
        ensures { IsTrue result ↔ ((self.now.stage ≡ Open) × (LASTING_MS ≤ now - self.now.since)) }
    {
        self.stage == Stage::Open && now.saturating_sub(self.since) >= LASTING_MS
    }

    /// Whether it is to send a PING now.
    pub fn is_ping_due(&self, now: u64) -> bool
        ensures { IsTrue result ↔ ((self.now.stage ≡ Open) × IsPast self.now.ping_each self.now.pinged now) }
    {
        match self.pinged {
            Some(pinged) => {
                self.stage == Stage::Open && now.saturating_sub(pinged) >= self.ping_each
            }
            None => self.stage == Stage::Open,
        }
    }

    /// It sent a PING.
    pub fn ping(&mut self, now: u64)
        ensures { self.new ≡ record self.old { pinged = Some now } }
    {
        self.pinged = Some(now);
    }

    /// Whether it is to ask for INFO by itself now: at once, and each `ASK_INFO_MS` after it was opened.
    pub fn is_info_due(&self, now: u64) -> bool
        ensures { IsTrue result ↔ ((self.now.stage ≡ Open) × (self.now.infos ≤ (now - self.now.since) / ASK_INFO_MS)) }
    {
        let passed = now.saturating_sub(self.since) / ASK_INFO_MS;
        self.stage == Stage::Open && self.infos <= passed
    }

    /// It asked for INFO: it is to ask again once the next `ASK_INFO_MS` have passed.
    pub fn ask_info(&mut self, now: u64)
        ensures { self.new ≡ record self.old { infos = (now - self.old.since) / ASK_INFO_MS + 1 } }
    {
        let passed = now.saturating_sub(self.since) / ASK_INFO_MS;
        self.infos = passed + 1;
    }
}
