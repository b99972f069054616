//! How many threads serve a port, and how many connections each of them keeps.

ghost use Rattle.std.specs.Prelude.{◌≡◌, ◌≤◌, ◌<◌, ◌+◌, ◌*◌, ◌↔◌, IsTrue, false};
ghost use Rattle.client_port.specs.declared.port_room.TheConstants.{SEATS_MAX};
ghost use Rattle.sentinel_rules.specs.declared.profiles.Profile.{Profile};
ghost use Rattle.sentinel_rules.specs.Profiles.{is_redis};

use sentinel_rules::Profile;

/// How many connections a port keeps at most in all of its threads, unless it is opened for more; a further one is
/// closed.
pub const CONNECTIONS_MAX: usize = 256;

/// How many connections any port keeps at most, in all of its threads: 10,000, the kept seats of 63 Sentinels, and
/// those that come to a thread while others go.
pub const SEATS_MAX: usize = 11_264;

/// How many threads serve each port, one at least, and how many connections each of them keeps at most: no more than
/// `SEATS_MAX` in all; and the profile of the Sentinel, by which these have courtesies or not.
#[derive(Clone, Copy)]
pub struct PortRoom {
    threads: u16,
    each: usize,
    profile: Profile,
    ghost some: { 0 < threads },
    ghost whole: { each * threads ≤ SEATS_MAX },
}

impl PortRoom {
    /// Equal parts of the connections of a port of a strict Sentinel for so many threads; for one where there are to be
    /// none.
    pub(crate) fn of(most: usize, threads: u16) -> PortRoom
        requires { most ≤ SEATS_MAX }
        ensures within { result.each * result.threads ≤ most }
        ensures full { most < (result.each + 1) * result.threads }
        ensures threads { 0 < threads → result.threads ≡ threads }
        ensures plain { result.profile ≡ Profile.Strict }
    {
        let threads = threads.max(1);
        PortRoom {
            threads,
            each: most / threads as usize,
            profile: Profile::Strict,
        }
    }

    /// The same room, for the port of a Sentinel of this profile.
    pub fn with_profile(self, profile: Profile) -> PortRoom
        ensures { result ≡ record self { profile = profile } }
    {
        PortRoom {
            threads: self.threads,
            each: self.each,
            profile,
        }
    }

    /// The profile of the Sentinel.
    pub fn profile(&self) -> Profile
        ensures { result ≡ self.now.profile }
    {
        self.profile
    }

    /// Whether the connections have courtesies, as `courteous_sessions` has them: those of a Sentinel of Redis's
    /// profile do.
    pub(crate) fn courteous(&self) -> bool
        ensures { result ≡ is_redis self.now.profile }
    {
        self.profile.is_redis()
    }

    /// How many threads serve a port.
    pub fn threads(&self) -> u16
        ensures { result ≡ self.now.threads }
    {
        self.threads
    }

    /// How many connections each of them keeps.
    pub(crate) fn each(&self) -> usize
        ensures { result ≡ self.now.each }
    {
        self.each
    }

    /// How many connections all of them keep.
    pub(crate) fn all(&self) -> usize
        ensures { result ≡ self.now.each * self.now.threads }
    {
        self.each * self.threads as usize
    }

    /// Whether there is room for no connection.
    pub fn is_empty(&self) -> bool
        ensures { IsTrue result ↔ (self.now.each ≡ 0) }
    {
        self.each == 0
    }
}
