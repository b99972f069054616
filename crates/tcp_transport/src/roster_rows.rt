//! What another Sentinel's row of a master says of its file, beside what the own one says.
//!
//! Hellos don't tell how many replicas and Sentinels a file names, so another Sentinel is asked for its row from time
//! to time. The Sentinel isn't told of the answer: it changes nothing but notes.

use crate::hello_notes::{Id, Seldom, Told, named};
use ballot_law::{Member, Name, NodeName, Roster, SENTINELS_MAX};
use links::{DIFFERENT_MS, ROW_EACH_MS, Row, Target};
use log::{Log, warn};
use std::fmt;

/// The numbers of a row, in words.
#[derive(Clone, Copy)]
struct Numbers(Row);

impl fmt::Display for Numbers {
    fn fmt<W: fmt::Write>(&self, f: &mut fmt::Formatter<W>) -> fmt::Result {
        let Row {
            replicas,
            others,
            quorum,
        } = self.0;
        write!(
            f,
            "{replicas} replicas, {others} other Sentinels and the quorum {quorum}"
        )
    }
}

/// What the answer to a question for a row says.
#[derive(Clone, Copy)]
pub(crate) enum RowHeard {
    /// These numbers.
    Numbers(Row),
    /// The Sentinel watches no such master.
    NoMaster,
}

/// What a connection asks another Sentinel for its rows: from when on it may ask, and for which master, by its number.
/// `heard` is what the last answer said, until that is taken; who answers with an error of another kind isn't asked
/// again before the connection is opened anew.
#[derive(Clone, Copy)]
pub(crate) struct RowLook {
    due: u64,
    master: u16,
    heard: Option<RowHeard>,
    is_refused: bool,
}

impl RowLook {
    /// Nothing was asked yet.
    pub(crate) fn new() -> RowLook {
        RowLook {
            due: 0,
            master: 0,
            heard: None,
            is_refused: false,
        }
    }

    /// Whether it may ask now.
    pub(crate) fn is_due(&self, now: u64) -> bool {
        !self.is_refused && self.due <= now
    }

    /// For which master it is to ask, or did, of so many.
    pub(crate) fn master(&self, masters: usize) -> u16 {
        if usize::from(self.master) < masters {
            return self.master;
        }
        0
    }

    /// It asked for this master.
    pub(crate) fn begin(&mut self, master: u16, now: u64) {
        self.due = now.saturating_add(ROW_EACH_MS);
        self.master = master;
    }

    /// The connection is closed: nothing is awaited on it.
    pub(crate) fn end(&mut self) {
        self.is_refused = false;
    }

    /// The answer is this row.
    pub(crate) fn hear(&mut self, row: Row) {
        self.heard = Some(RowHeard::Numbers(row));
    }

    /// The answer is this error.
    pub(crate) fn refuse(&mut self, error: &[u8]) {
        if error.starts_with(b"ERR No such master") {
            self.heard = Some(RowHeard::NoMaster);
        } else {
            self.is_refused = true;
        }
    }

    /// What the last answer said, and of which master, once. The next question is for the next master.
    pub(crate) fn take(&mut self) -> Option<(u16, RowHeard)> {
        let heard = self.heard.take()?;
        let master = self.master;
        self.master = master.saturating_add(1);
        Some((master, heard))
    }
}

/// When it was noted of each Sentinel, by its place, that its file differs.
#[derive(Drop)]
pub(crate) struct RowNotes {
    noted: [Seldom; SENTINELS_MAX],
}

/// What the own file says of a master.
fn own_numbers(roster: &Roster, master: u16) -> Option<Row> {
    let watched = roster.masters().get(master as usize)?;
    Some(Row {
        replicas: (watched.nodes().len() as u64).saturating_sub(1),
        others: (roster.sentinels().len() as u64).saturating_sub(1),
        quorum: u64::from(watched.quorum),
    })
}

/// In what the file of another Sentinel differs from the own one: what its row of a master says beside what the own
/// file does.
#[derive(Clone, Copy)]
struct RowDifference<'a> {
    member: Member,
    name: &'a Name,
    heard: RowHeard,
    own: Row,
}

impl fmt::Display for RowDifference<'_> {
    fn fmt<W: fmt::Write>(&self, f: &mut fmt::Formatter<W>) -> fmt::Result {
        let (id, addr, name) = (Id(self.member.id), Told(self.member.addr), named(self.name));
        write!(
            f,
            "the files of this group differ: Sentinel {id} at {addr} "
        )?;
        match self.heard {
            RowHeard::Numbers(row) => {
                let (there, here) = (Numbers(row), Numbers(self.own));
                write!(
                    f,
                    "has {there} for master {name}, and the file here {here}. "
                )?;
                write!(
                    f,
                    "Compare the files of all Sentinels by `sentinel_group check`"
                )
            }
            RowHeard::NoMaster => {
                write!(f, "watches no master {name}. ")?;
                write!(f, "Give all files the same `sentinel monitor` lines")
            }
        }
    }
}

/// In what the file of the Sentinel at a place differs, by its row of the master with this number; nothing where it
/// says what the own file does.
fn difference(
    roster: &Roster,
    place: usize,
    master: u16,
    heard: RowHeard,
) -> Option<RowDifference<'_>> {
    let member = *roster.sentinels().get(place)?;
    let watched = roster.masters().get(master as usize)?;
    let own = own_numbers(roster, master)?;
    match heard {
        RowHeard::Numbers(row) if row == own => None,
        heard => Some(RowDifference {
            member,
            name: &watched.name,
            heard,
            own,
        }),
    }
}

impl RowNotes {
    /// None was noted yet.
    pub(crate) fn new() -> RowNotes {
        RowNotes {
            noted: [Seldom::new(); SENTINELS_MAX],
        }
    }

    /// Takes in what the Sentinel with this connection answered, and of which master. Where that differs from what the
    /// own file says, it is noted: once, and each ten minutes while it is so.
    pub(crate) fn hear<R: Log>(
        &mut self,
        rt: &R,
        roster: &Roster,
        target: Target,
        answer: (u16, RowHeard),
        now: u64,
    ) {
        let NodeName::SentinelAt(place) = target.node else {
            return;
        };
        let (master, heard) = answer;
        let place = place as usize;
        let Some(difference) = difference(roster, place, master, heard) else {
            return;
        };
        if let Some(seldom) = self.noted.get_mut(place) {
            if seldom.takes_note(now, DIFFERENT_MS) {
                warn!(rt; target: "tcp_wires::roster_rows", "{difference}");
            }
        }
    }
}
