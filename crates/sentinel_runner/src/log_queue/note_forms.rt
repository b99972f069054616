//! How a note is written as a line, and what stands in front of it.

use jiff_core::civil::DateTime;
use jiff_core::{Offset, Timestamp};
use log::Level;
use std::alloc::{AllocError, Global};
use std::fmt::{self, Display};
use std::rt::Clock;
use std::time::{SystemTime, UNIX_EPOCH};

/// How a note is written as a line.
#[derive(Clone, Copy, PartialEq, Eq)]
pub enum NoteForm {
    /// With its level, with where it comes from in the program, and with which Sentinel it is of, as
    /// `[WARN  place] sentinel{port=26379}: text`.
    Whole,
    /// As its text alone, with `warning: ` before that of a warning: for a program of one Sentinel.
    Bare {
        /// Behind the time at which it was put into the queue, to the millisecond and in UTC, as RFC 3339 writes it:
        /// `2026-12-01T02:30:11.042Z text`. Without a time where the clock can't be read.
        timed: bool,
        /// Behind the priority that journald reads off the front of a line (sd-daemon(3)): `<3>` before an error, `<4>`
        /// before a warning, `<5>` before an event, which begins with `+` or `-`, and `<6>` before any other note.
        prioritized: bool,
    },
}

/// A moment, in UTC.
#[derive(Clone, Copy)]
struct Moment(DateTime);

impl Moment {
    /// The present one; None where the clock can't be read, or is past the year 9999.
    fn now<R: Clock>(rt: &R) -> Option<Moment> {
        let since = SystemTime::now(rt).ok()?.duration_since(UNIX_EPOCH).ok()?;
        let nanos = i128::from(since.as_secs()) * 1_000_000_000 + i128::from(since.subsec_nanos());
        let timestamp = Timestamp::from_nanosecond(nanos).ok()?;
        Some(Moment(Offset::UTC.to_datetime(timestamp)))
    }
}

impl Display for Moment {
    fn fmt<W: fmt::Write>(&self, f: &mut fmt::Formatter<W>) -> fmt::Result {
        let (date, time) = (self.0.date, self.0.time);
        let (year, month, day) = (date.year, date.month, date.day);
        let (hour, minute, second) = (time.hour, time.minute, time.second);
        let millis = time.subsec_nanosecond / 1_000_000;
        write!(
            f,
            "{year:04}-{month:02}-{day:02}T{hour:02}:{minute:02}:{second:02}.{millis:03}Z"
        )
    }
}

/// The priority of a note with this text for journald.
fn priority_of(level: Level, text: &str) -> u8 {
    match level {
        Level::Error => 3,
        Level::Warn => 4,
        _ if text.starts_with('+') || text.starts_with('-') => 5,
        _ => 6,
    }
}

impl NoteForm {
    /// A line with what this form has in front of it. The error is a refused allocation.
    pub(crate) fn fronted<R: Clock>(
        self,
        rt: &R,
        alloc: Global,
        level: Level,
        line: String,
    ) -> Result<String, AllocError> {
        let NoteForm::Bare { timed, prioritized } = self else {
            return Ok(line);
        };
        let priority = priority_of(level, line.as_str());
        let moment = if timed { Moment::now(rt) } else { None };
        match (prioritized, moment) {
            (false, None) => Ok(line),
            (false, Some(moment)) => format!(in alloc; "{moment} {line}"),
            (true, None) => format!(in alloc; "<{priority}>{line}"),
            (true, Some(moment)) => format!(in alloc; "<{priority}>{moment} {line}"),
        }
    }
}
