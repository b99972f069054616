//! The seats of a port, which its threads share.

ghost use Rattle.std.specs.Prelude.{◌≡◌};
ghost use Rattle.client_port.specs.Admitting.{has_own_seat, place_of};

use crate::admission::{Admission, Admitted, arrival_of};
use crate::incoming::Incoming;
use std::alloc::Global;
use std::io;
use std::net::{IpAddr, SocketAddr};
use std::sync::atomic::{AtomicU64, Ordering};

/// How many seats are kept for each address of another Sentinel: for the connection that it has, and for the one that
/// it opens while the old one isn't known to be gone.
pub(crate) const SEATS_OF_EACH: u64 = 2;

/// On which seat a connection is kept.
#[derive(Clone, Copy)]
pub(crate) enum Place {
    /// One that is for anybody.
    Common,
    /// One of those that are kept for its ip, which have this number.
    Own(usize),
}

impl Place {
    /// Whether it is one of those that are kept for its ip.
    pub(crate) fn is_own(self) -> bool
        ensures { result ≡ has_own_seat self }
    {
        matches!(self, Place::Own(_))
    }
}

/// The seat that a connection may take, where those of its own with this number are free, or none.
pub(crate) fn place_of(own: Option<usize>) -> Place
    ensures { result ≡ place_of own }
{
    match own {
        Some(number) => Place::Own(number),
        None => Place::Common,
    }
}

/// A connection that came, with whence it came, the seat that it took, and whether another Sentinel has its ip. One
/// that `clears` takes a seat only if another one goes.
#[derive(Drop)]
pub(crate) struct Newcomer {
    pub(crate) stream: Incoming,
    pub(crate) address: SocketAddr,
    pub(crate) place: Place,
    pub(crate) is_peer: bool,
    pub(crate) clears: bool,
}

/// The seats that are kept for an ip.
#[derive(Drop)]
struct KeptSeats {
    ip: u32,
    most: u64,
    taken: AtomicU64,
}

/// The seats of a port: how many connections have one that is for anybody, and those that are kept. The thread that
/// accepts takes them, and each thread frees those of its connections. All threads count together how many connections
/// are `connected`, how many were `received` and `rejected`, and how many values of clients were `answered`.
#[derive(Drop)]
pub(crate) struct Seats {
    limit: Option<u16>,
    near_only: bool,
    common: AtomicU64,
    kept: Vec<KeptSeats>,
    connected: AtomicU64,
    received: AtomicU64,
    rejected: AtomicU64,
    answered: AtomicU64,
}

/// The number of an IPv4 address; None of any other.
pub(crate) fn number_of(ip: IpAddr) -> Option<u32> {
    match ip {
        IpAddr::V4(ip) => Some(u32::from(ip)),
        IpAddr::V6(_) => None,
    }
}

/// Keeps seats for one address more.
fn add_seats(kept: &mut Vec<KeptSeats>, ip: u32) -> io::Result<()> {
    let known = kept.iter().position(|seats| seats.ip == ip);
    if let Some(number) = known
        && let Some(seats) = kept.get_mut(number)
    {
        seats.most = seats.most.saturating_add(SEATS_OF_EACH);
        return Ok(());
    }
    kept.push(KeptSeats {
        ip,
        most: SEATS_OF_EACH,
        taken: AtomicU64::new(0),
    })?;
    Ok(())
}

impl Seats {
    /// Those of a port that lets these in, all free.
    pub(crate) fn open(alloc: Global, admission: &Admission) -> io::Result<Seats> {
        let mut kept = Vec::new(alloc);
        for ip in &admission.peers {
            add_seats(&mut kept, *ip)?;
        }
        Ok(Seats {
            limit: admission.limit,
            near_only: admission.near_only,
            common: AtomicU64::new(0),
            kept,
            connected: AtomicU64::new(0),
            received: AtomicU64::new(0),
            rejected: AtomicU64::new(0),
            answered: AtomicU64::new(0),
        })
    }

    /// How many seats are for anybody; None where the port is told of none.
    pub(crate) fn limit(&self) -> Option<u16> {
        self.limit
    }

    /// How many of these are taken.
    pub(crate) fn common(&self) -> u64 {
        self.common.load(Ordering::SeqCst)
    }

    /// The number of the seats that are kept for this ip, where there are such.
    fn number_of(&self, ip: IpAddr) -> Option<usize> {
        let ip = number_of(ip)?;
        self.kept.iter().position(|seats| seats.ip == ip)
    }

    /// Whether another Sentinel has this ip.
    pub(crate) fn is_peer(&self, ip: IpAddr) -> bool {
        self.number_of(ip).is_some()
    }

    /// Whether one of the seats with this number is free.
    fn has_free(&self, number: usize) -> bool {
        match self.kept.get(number) {
            Some(seats) => seats.taken.load(Ordering::SeqCst) < seats.most,
            None => false,
        }
    }

    /// The seats of its own that a connection from this ip may have one of, where one is free.
    pub(crate) fn own_of(&self, ip: IpAddr) -> Option<usize> {
        let number = self.number_of(ip)?;
        if self.has_free(number) {
            return Some(number);
        }
        None
    }

    /// What becomes of a connection that came from this ip, where `has_own` is whether a seat that is kept for it is
    /// free.
    pub(crate) fn arrival(&self, ip: IpAddr, has_own: bool) -> Admitted {
        arrival_of(
            self.limit,
            self.near_only,
            ip.is_loopback(),
            has_own,
            self.common(),
        )
    }

    /// How many connections have the seats of this place.
    fn taken(&self, place: Place) -> &AtomicU64 {
        match place {
            Place::Common => &self.common,
            Place::Own(number) => match self.kept.get(number) {
                Some(seats) => &seats.taken,
                None => &self.common,
            },
        }
    }

    /// A connection has such a seat from now on.
    pub(crate) fn take(&self, place: Place) {
        self.taken(place).fetch_add(1, Ordering::SeqCst);
        self.connected.fetch_add(1, Ordering::SeqCst);
        self.received.fetch_add(1, Ordering::SeqCst);
    }

    /// A connection that had such a seat is gone.
    pub(crate) fn free(&self, place: Place) {
        self.taken(place).fetch_sub(1, Ordering::SeqCst);
        self.connected.fetch_sub(1, Ordering::SeqCst);
    }

    /// A connection was refused.
    pub(crate) fn note_rejected(&self) {
        self.rejected.fetch_add(1, Ordering::SeqCst);
    }

    /// So many values of clients more were answered.
    pub(crate) fn note_answered(&self, count: u64) {
        self.answered.fetch_add(count, Ordering::SeqCst);
    }

    /// How many connections have a seat.
    pub(crate) fn connected(&self) -> u64 {
        self.connected.load(Ordering::SeqCst)
    }

    /// How many took one since the port is open.
    pub(crate) fn received(&self) -> u64 {
        self.received.load(Ordering::SeqCst)
    }

    /// How many were refused.
    pub(crate) fn rejected(&self) -> u64 {
        self.rejected.load(Ordering::SeqCst)
    }

    /// How many values of clients were answered.
    pub(crate) fn answered(&self) -> u64 {
        self.answered.load(Ordering::SeqCst)
    }
}
