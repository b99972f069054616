//! Whom a port lets in.

ghost use Rattle.std.specs.Prelude.{◌≡◌, ◌≤◌, ◌+◌, ◌*◌, ◌/◌, ◌↔◌, ℕ, [], None, Some, IfSome, IsSome, false, min, max, vec_len};
ghost use Rattle.ballot_law.specs.declared.rosters.TheConstants.{SENTINELS_MAX};
ghost use Rattle.client_port.specs.declared.port_room.TheConstants.{SEATS_MAX};
ghost use Rattle.client_port.specs.declared.seats.TheConstants.{SEATS_OF_EACH};
ghost use Rattle.client_port.specs.Admitting.{arrival_of, is_full};

use crate::incoming::Incoming;
use crate::port_room::{CONNECTIONS_MAX, PortRoom, SEATS_MAX};
use crate::seats::SEATS_OF_EACH;
use ballot_law::{SENTINELS_MAX, Text};
use std::alloc::Global;

/// How many connections may come to each of several threads of a port while as many others go.
const AT_ONCE: usize = 64;

/// What a client is told that comes where the port has as many connections as it may have: redis-sentinel's words.
const FULL: &[u8] = b"-ERR max number of clients reached\r\n";

/// What a client from another machine is told where those of this machine alone are let in: redis-sentinel's words, as
/// its version 7.0.15 has them.
const DENIED: &[u8] =
    b"-DENIED Redis is running in protected mode because protected mode is enabled and no password is set for the default user. In this mode connections are only accepted from the loopback interface. If you want to connect from external computers to Redis you may adopt one of the following solutions: 1) Just disable protected mode sending the command 'CONFIG SET protected-mode no' from the loopback interface by connecting to Redis from the same host the server is running, however MAKE SURE Redis is not publicly accessible from internet if you do so. Use CONFIG REWRITE to make this change permanent. 2) Alternatively you can just disable the protected mode by editing the Redis configuration file, and setting the protected mode option to 'no', and then restarting the server. 3) If you started the server manually just for testing, restart it with the '--protected-mode no' option. 4) Setup a an authentication password for the default user. NOTE: You only need to do one of the above things in order for the server to start accepting connections from the outside.\r\n";

/// Whom a port lets in, and which password it wants of them. It can't be printed.
#[derive(Drop)]
pub struct Admission {
    /// The password that each client has to give before a command of its is carried out; an empty one is none. Clients
    /// without courtesies give none.
    pub password: Text,
    /// How many connections the port keeps at most beside those on kept seats. For a further one that goes which owes
    /// the password for longest; else the one that has been silent for longest, if possible of an ip from which many
    /// came; where none may go, its client is told so, and it is closed. With none the port keeps those of its room,
    /// none goes, and a further one is closed.
    pub limit: Option<u16>,
    /// Whether clients of other machines are refused, which are told so.
    pub near_only: bool,
    /// The ip of each other Sentinel, of each address of one: two seats for each are kept for connections from that
    /// ip alone.
    pub peers: Vec<u32>,
    /// After how many seconds without a byte a connection is closed that listens to nothing; after 0 none is.
    pub idle_seconds: u32,
}

impl Admission {
    /// Each client is let in, and no password is wanted. No memory is taken.
    pub fn of_all(alloc: Global) -> Admission
        ensures password { result.password ≡ [] }
        ensures limit { result.limit ≡ None }
        ensures near { result.near_only ≡ false }
        ensures peers { result.peers.items ≡ [] }
        ensures idle { result.idle_seconds ≡ 0 }
    {
        Admission {
            password: Text::from_vec(Vec::new(alloc)),
            limit: None,
            near_only: false,
            peers: Vec::new(alloc),
            idle_seconds: 0,
        }
    }

    /// How many seats are kept for the addresses of the other Sentinels.
    pub fn kept_seats(&self) -> usize
        ensures { result ≡ SEATS_OF_EACH * min (vec_len self.now.peers) SENTINELS_MAX }
    {
        SEATS_OF_EACH as usize * self.peers.len().min(SENTINELS_MAX)
    }

    /// How many connections a port of so many threads keeps that lets these in, where descriptors are there for them:
    /// those that `limit` has, those on kept seats, and of several threads those that come to each of them while
    /// others go.
    pub fn wanted(&self, threads: u16) -> usize
        ensures few { result ≤ SEATS_MAX }
        ensures enough { IfSome self.now.limit (λ most. min (most + SEATS_OF_EACH * min (vec_len self.now.peers) SENTINELS_MAX) SEATS_MAX ≤ result) }
    {
        let limit = match self.limit {
            Some(most) => usize::from(most),
            None => CONNECTIONS_MAX,
        };
        let threads = usize::from(threads.max(1));
        let all = limit + self.kept_seats() + while_others_go(threads, SEATS_MAX);
        all.next_multiple_of(threads).min(SEATS_MAX)
    }

    /// The same, where no more clients are let in than a port with this room has seats for beside the kept ones, but
    /// one at least.
    pub fn within(mut self, room: PortRoom) -> Admission
        ensures less { (old new : ℕ) → self.limit ≡ Some old → result.limit ≡ Some new → new ≤ old }
        ensures some { IsSome result.limit ↔ IsSome self.limit }
        ensures peers { (result.peers ≡ self.peers) × (result.near_only ≡ self.near_only) }
        ensures password { result.password ≡ self.password }
    {
        if let Some(most) = self.limit {
            let all = room.all();
            let while_others_go = while_others_go(usize::from(room.threads()), all);
            let left = all.saturating_sub(self.kept_seats());
            self.limit = Some(limit_of(most, left.saturating_sub(while_others_go)));
        }
        self
    }
}

/// How many of so many connections may be those that come to a thread while others go: `AT_ONCE` for each of several
/// threads, and at most a fourth; none where there is one thread.
fn while_others_go(threads: usize, all: usize) -> usize
    ensures alone { threads ≤ 1 → result ≡ 0 }
    ensures few { result ≤ all / 4 }
{
    if threads > 1 {
        threads.saturating_mul(AT_ONCE).min(all / 4)
    } else {
        0
    }
}

/// How many connections may have a seat that is for anybody, where the file lets so many have one and the port has
/// room for this many.
fn limit_of(most: u16, left: usize) -> u16
    ensures { result ≡ min most (max 1 left) }
{
    if left >= usize::from(most) {
        return most;
    }
    most.min((left as u16).max(1))
}

/// What becomes of a connection that came.
#[derive(Clone, Copy)]
pub(crate) enum Admitted {
    /// It is kept on a seat that is for anybody.
    Kept,
    /// It is kept on a seat that is kept for its ip.
    OnOwnSeat,
    /// It is kept where another one goes for it, and else refused.
    MakesRoom,
    /// It comes from another machine, and is refused.
    Denied,
    /// There are as many as there may be, and it is refused.
    TooMany,
}

/// Whether as many connections have a seat that is for anybody as may.
fn is_full(limit: Option<u16>, count: u64) -> bool
    ensures { result ≡ is_full limit count }
{
    match limit {
        Some(most) => count >= u64::from(most),
        None => false,
    }
}

/// What becomes of a connection that came from this machine or from another one, at a port where `count` connections
/// have a seat that is for anybody. `has_own` is whether a seat is free that is kept for its ip.
pub(crate) fn arrival_of(
    limit: Option<u16>,
    near_only: bool,
    is_near: bool,
    has_own: bool,
    count: u64,
) -> Admitted
    ensures { result ≡ arrival_of limit near_only is_near has_own count }
{
    let is_full = is_full(limit, count);
    if near_only && !is_near {
        return if is_full {
            Admitted::TooMany
        } else {
            Admitted::Denied
        };
    }
    if has_own {
        return Admitted::OnOwnSeat;
    }
    if is_full {
        Admitted::MakesRoom
    } else {
        Admitted::Kept
    }
}

/// Tells the client of a connection that it is one too many, and closes it.
pub(crate) fn refuse_further(stream: Incoming) {
    stream.refuse(FULL);
}

/// Tells the client of a connection that it comes from another machine, and closes it.
pub(crate) fn refuse_foreign(stream: Incoming) {
    stream.refuse(DENIED);
}
