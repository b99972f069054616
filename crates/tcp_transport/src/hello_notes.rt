//! What is noted of the hellos that a Sentinel hears, and of requests for votes that it doesn't.

use crate::far_hellos::is_far_hello;
use ballot_law::{Addr, Hello, Member, Name, Roster, RunId, SENTINELS_MAX, Text};
use courteous_sessions::{EPOCHS_AHEAD, FarRequest};
use links::{DIFFERENT_MS, NO_HELLOS_MS, STRANGERS_MS, SilenceTimer};
use log::{Log, info, warn};
use node_texts::read_hello;
use std::fmt;
use std::net::Ipv4Addr;
use std::str::from_utf8;

/// Who hears a hello: the Sentinel at a place of the roster, at a reading of its clock, and which epoch its current one
/// is known not to be below.
#[derive(Clone, Copy)]
pub(crate) struct Hearer<'a> {
    pub(crate) roster: &'a Roster,
    pub(crate) own: u16,
    pub(crate) now: u64,
    pub(crate) known: Option<u64>,
}

/// An address, as `10.0.0.1:6379`.
#[derive(Clone, Copy)]
pub(crate) struct Told(pub(crate) Addr);

impl fmt::Display for Told {
    fn fmt<W: fmt::Write>(&self, f: &mut fmt::Formatter<W>) -> fmt::Result {
        write!(f, "{}:{}", Ipv4Addr::from(self.0.ip), self.0.port)
    }
}

/// A run id, as 40 hex digits.
#[derive(Clone, Copy)]
pub(crate) struct Id(pub(crate) RunId);

impl fmt::Display for Id {
    fn fmt<W: fmt::Write>(&self, f: &mut fmt::Formatter<W>) -> fmt::Result {
        write!(f, "{:032x}{:08x}", self.0.hi, self.0.lo)
    }
}

/// The name of a master as text.
pub(crate) fn named(name: &Name) -> &str {
    from_utf8(name.as_slice()).unwrap_or("?")
}

/// When something was noted last, so that it is noted seldom.
#[derive(Clone, Copy)]
pub(crate) struct Seldom {
    noted: Option<u64>,
}

impl Seldom {
    /// It wasn't noted yet.
    pub(crate) fn new() -> Seldom {
        Seldom { noted: None }
    }

    /// Whether it is to be noted now, since that is so many milliseconds ago, or it never was.
    pub(crate) fn takes_note(&mut self, now: u64, each: u64) -> bool {
        let is_due = match self.noted {
            Some(noted) => now.saturating_sub(noted) >= each,
            None => true,
        };
        if is_due {
            self.noted = Some(now);
        }
        is_due
    }
}

/// Since when no hello of another Sentinel was heard, of which masters one was, a bit each, and when hellos of nobody,
/// those that are too far ahead, such requests for votes, and hellos of Sentinels whose files differ were noted, these
/// by the place of the Sentinel. `rival` is when a Sentinel whose file names no other last heard one that watches its
/// master too.
#[derive(Drop)]
pub(crate) struct HelloNotes {
    others: SilenceTimer,
    masters: u64,
    rival: Option<u64>,
    rival_noted: Seldom,
    stranger: Seldom,
    far: Seldom,
    far_request: Seldom,
    moved: [Seldom; SENTINELS_MAX],
    unknown_addr: [Seldom; SENTINELS_MAX],
    unknown_master: [Seldom; SENTINELS_MAX],
}

/// Notes a hello of nobody.
fn note_stranger<R: Log>(rt: &R, hello: Option<Hello>) {
    match hello {
        Some(hello) => {
            let (ip, port) = (Ipv4Addr::from(hello.addr.ip), hello.addr.port);
            let id = Id(hello.id);
            warn!(rt; target: "tcp_wires::hello_notes",
                "a hello of {id} {ip} {port} was heard, which is no Sentinel of this group: it isn't followed"
            );
        }
        None =>
            warn!(rt; target: "tcp_wires::hello_notes", "a hello was heard that can't be read: it isn't followed"),
    }
}

/// Notes that a Sentinel which knows of no other hears one that watches its master too.
fn note_rival<R: Log>(rt: &R, hello: &Hello) {
    let (id, name, told) = (Id(hello.id), named(&hello.master), Told(hello.addr));
    warn!(rt; target: "tcp_wires::hello_notes",
        "Sentinel {id} at {told} watches master {name} too, and the file here names no other Sentinel: while it is heard this one is in TILT, and begins no failover. Name each in all files by `sentinel known-sentinel {name}`"
    );
}

/// Notes a hello of a Sentinel of the group that is too far ahead of an epoch.
fn note_far<R: Log>(rt: &R, hello: &Hello, known: u64) {
    let (ip, port) = (Ipv4Addr::from(hello.addr.ip), hello.addr.port);
    let (id, current, epoch) = (Id(hello.id), hello.current, hello.card.epoch);
    warn!(rt; target: "tcp_wires::hello_notes",
        "a hello of {id} {ip} {port} is lost: its epochs {current} and {epoch} are not within {EPOCHS_AHEAD} above {known}, the current one here. See who publishes on the data nodes, and the epochs in the files of this group"
    );
}

/// Notes that a Sentinel isn't at the address that the file gives it.
fn note_moved<R: Log>(rt: &R, hello: &Hello, member: Member) {
    let (id, told, own) = (Id(hello.id), Told(hello.addr), Told(member.addr));
    warn!(rt; target: "tcp_wires::hello_notes",
        "the files of this group differ: Sentinel {id} says that it is at {told}, and its `sentinel known-sentinel` here has {own}. Mend its `sentinel announce-ip` and `port`, or that line"
    );
}

/// Notes that a Sentinel tells an address of a master that the roster doesn't have.
fn note_unknown_addr<R: Log>(rt: &R, hello: &Hello) {
    let (id, name, told) = (Id(hello.id), named(&hello.master), Told(hello.card.addr));
    warn!(rt; target: "tcp_wires::hello_notes",
        "the files of this group differ: Sentinel {id} tells {told} as the address of master {name}, which the file here doesn't name, so it isn't followed. Name it in all files by `sentinel known-replica {name}`"
    );
}

/// Notes that a Sentinel tells a master that the roster doesn't have.
fn note_unknown_master<R: Log>(rt: &R, hello: &Hello) {
    let (id, name) = (Id(hello.id), named(&hello.master));
    warn!(rt; target: "tcp_wires::hello_notes",
        "the files of this group differ: Sentinel {id} watches a master {name}, which the file here doesn't name. Give all files the same `sentinel monitor` lines"
    );
}

/// Whether a difference of the Sentinel at this place is to be noted now.
fn takes_note_at(notes: &mut [Seldom], place: usize, now: u64) -> bool {
    match notes.get_mut(place) {
        Some(seldom) => seldom.takes_note(now, DIFFERENT_MS),
        None => false,
    }
}

impl HelloNotes {
    /// None was heard yet.
    pub(crate) fn new(now: u64) -> HelloNotes {
        HelloNotes {
            others: SilenceTimer::new(now),
            masters: 0,
            rival: None,
            rival_noted: Seldom::new(),
            stranger: Seldom::new(),
            far: Seldom::new(),
            far_request: Seldom::new(),
            moved: [Seldom::new(); SENTINELS_MAX],
            unknown_addr: [Seldom::new(); SENTINELS_MAX],
            unknown_master: [Seldom::new(); SENTINELS_MAX],
        }
    }

    /// Whether a hello of another Sentinel was heard of so many masters, since the start.
    pub(crate) fn has_heard(&self, masters: usize) -> bool {
        self.masters.count_ones() as usize >= masters
    }

    /// Notes that hellos are heard again, where it was noted that none was.
    fn hear_other<R: Log>(&mut self, rt: &R, now: u64) {
        if self.others.hear(now) {
            info!(rt; target: "tcp_wires::hello_notes", "hellos of other Sentinels are heard again");
        }
    }

    /// Notes a hello of nobody, at most once a minute.
    fn hear_stranger<R: Log>(&mut self, rt: &R, now: u64, hello: Option<Hello>) {
        if self.stranger.takes_note(now, STRANGERS_MS) {
            note_stranger(rt, hello);
        }
    }

    /// Keeps when a Sentinel whose file names no other heard one that watches its master too, and notes it.
    fn hear_rival<R: Log>(&mut self, rt: &R, by: Hearer<'_>, hello: &Hello) {
        if by.roster.sentinels().len() > 1 || by.roster.master_named(&hello.master).is_none() {
            return;
        }
        self.rival = Some(by.now);
        if self.rival_noted.takes_note(by.now, DIFFERENT_MS) {
            note_rival(rt, hello);
        }
    }

    /// Whether a Sentinel whose file names no other heard another one of its master a moment ago: each would elect
    /// itself.
    pub(crate) fn has_rival(&self, now: u64) -> bool {
        match self.rival {
            Some(heard) => now.saturating_sub(heard) < NO_HELLOS_MS,
            None => false,
        }
    }

    /// Notes in what the file of the Sentinel at a place differs from the own one, by its hello: once, and each ten
    /// minutes while it is so.
    fn hear_difference<R: Log>(&mut self, rt: &R, by: Hearer<'_>, place: usize, hello: &Hello) {
        let Some(member) = by.roster.sentinels().get(place) else {
            return;
        };
        if member.addr != hello.addr && takes_note_at(&mut self.moved, place, by.now) {
            note_moved(rt, hello, *member);
        }
        match by.roster.master_named(&hello.master) {
            Some(master) if by.roster.has_node(master, hello.card.addr) => {}
            Some(_) => {
                if takes_note_at(&mut self.unknown_addr, place, by.now) {
                    note_unknown_addr(rt, hello);
                }
            }
            None => {
                if takes_note_at(&mut self.unknown_master, place, by.now) {
                    note_unknown_master(rt, hello);
                }
            }
        }
    }

    /// Takes in a hello of the Sentinel at a place, which is another one. One that is too far ahead is lost, which is
    /// noted once a minute.
    fn hear_member<R: Log>(&mut self, rt: &R, by: Hearer<'_>, place: usize, hello: &Hello) {
        if let Some(known) = by.known {
            if is_far_hello(hello, known) {
                if self.far.takes_note(by.now, STRANGERS_MS) {
                    note_far(rt, hello, known);
                }
                return;
            }
        }
        if let Some(master) = by.roster.master_named(&hello.master) {
            self.masters |= 1u64.wrapping_shl(u32::from(master));
        }
        self.hear_other(rt, by.now);
        self.hear_difference(rt, by, place, hello);
    }

    /// Takes a hello in, as a Sentinel hears it.
    pub(crate) fn hear<R: Log>(&mut self, rt: &R, by: Hearer<'_>, text: &Text) {
        let Ok(hello) = read_hello(text.as_slice()) else {
            return self.hear_stranger(rt, by.now, None);
        };
        let sentinels = by.roster.sentinels();
        match sentinels.iter().position(|it| it.id == hello.id) {
            Some(place) if place == by.own as usize => {}
            Some(place) => self.hear_member(rt, by, place, &hello),
            None => {
                self.hear_rival(rt, by, &hello);
                self.hear_stranger(rt, by.now, Some(hello));
            }
        }
    }

    /// Notes a request for a vote whose epoch was too far ahead, at most once a minute.
    pub(crate) fn hear_far_request<R: Log>(
        &mut self,
        rt: &R,
        request: FarRequest,
        settled: Option<u64>,
        now: u64,
    ) {
        if self.far_request.takes_note(now, STRANGERS_MS) {
            let (id, epoch, known) = (Id(request.candidate), request.epoch, settled.unwrap_or(0));
            warn!(rt; target: "tcp_wires::hello_notes",
                "a request for a vote for {id} in epoch {epoch} got none: that is more than {EPOCHS_AHEAD} above {known}, the current one here some seconds ago. See who reaches the port of this Sentinel"
            );
        }
    }

    /// Notes that no hello of another Sentinel came for 10 s, once until one comes. Who is alone in the roster misses
    /// none.
    pub(crate) fn look<R: Log>(&mut self, rt: &R, roster: &Roster, now: u64) {
        if roster.sentinels().len() > 1 && self.others.takes_note(now, NO_HELLOS_MS) {
            warn!(rt; target: "tcp_wires::hello_notes",
                "no hello of another Sentinel was heard for {} s: without hellos a group doesn't agree on a new master", NO_HELLOS_MS / 1_000
            );
        }
    }
}
