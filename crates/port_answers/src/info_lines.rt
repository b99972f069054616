//! The section of INFO that tells of a Sentinel.

ghost use Rattle.std.specs.Prelude.{◌≡◌, ◌++◌, [], length, codes, decimal};
ghost use Rattle.resp2.specs.Framing.Frame as frames;
ghost use Rattle.resp2.specs.Framing.Frame.{spelling, line_end};
ghost use Rattle.port_answers.specs.Room.{bounded, within_section};
ghost use Rattle.port_answers.specs.InfoLines.{status, line_front, line_counts, line_of, tilt_lines, section_front};

use crate::answer_text::AnswerText;
use crate::fields::addr_text;
use arrayvec::ArrayVec;
use ballot_law::{Addr, Name};
use itoa::Buffer;
use std::marker::Model;

/// How many bytes the section has at most: 16 masters fit.
pub(crate) const SECTION_MAX: usize = 4_096;

/// A master, as the line about it shows it.
#[derive(Clone, Copy, PartialEq, Eq)]
pub struct MasterLine {
    /// The name by which clients ask for the master.
    pub name: Name,
    /// Where the current configuration has the master.
    pub addr: Addr,
    /// Whether this Sentinel finds the master down by itself.
    pub down: bool,
    /// Whether enough Sentinels agree that the master is down.
    pub odown: bool,
    /// How many replicas of the master are known.
    pub replicas: u64,
    /// How many Sentinels watch the master, this one among them.
    pub sentinels: u64,
}

/// The section, on the stack, so that writing it takes no memory. What has no room is cut: the section of 16 masters
/// has. Contracts see the list of the bytes.
#[derive(Drop)]
pub struct InfoSection {
    bytes: ArrayVec<u8, SECTION_MAX>,
}

impl Model for InfoSection {
    ghost use Rattle.std.specs.Prelude.{List, ℕ};

    ghost Value = { List ℕ };

    ghost view = { λ section. section.bytes.items };
}

/// The status of a master.
fn status(down: bool, odown: bool) -> &'static [u8]
    ensures { result.now ≡ status down odown }
{
    match (down, odown) {
        (_, true) => b"odown",
        (true, false) => b"sdown",
        (false, false) => b"ok",
    }
}

impl InfoSection {
    /// Nothing yet.
    pub fn new() -> InfoSection
        ensures { result ≡ [] }
    {
        InfoSection {
            bytes: ArrayVec::new(),
        }
    }

    /// Adds what there is room for.
    fn add(&mut self, piece: &[u8])
        ensures { self.new ≡ within_section (self.old ++ piece.now) }
    {
        let count = piece.len().min(SECTION_MAX - self.bytes.len());
        let (fits, _) = piece.split_at(count);
        let _ = self.bytes.try_extend_from_slice(fits);
    }

    /// Adds a label and its text.
    #[tactic(auto, using(bounded_list::proofs::Bounded::added_both))]
    fn add_labelled(&mut self, label: &[u8], text: &[u8])
        ensures { self.new ≡ within_section (self.old ++ (label.now ++ text.now)) }
    {
        self.add(label);
        self.add(text);
    }

    /// Adds a label and its number.
    fn add_counted(&mut self, label: &[u8], number: u64)
        ensures { self.new ≡ within_section (self.old ++ (label.now ++ decimal number)) }
    {
        let mut buffer = Buffer::new();
        self.add_labelled(label, buffer.format(number).as_bytes());
    }

    /// Adds how the line of a master begins.
    fn add_line_front(&mut self, n: u64, master: &MasterLine)
        ensures { self.new ≡ within_section (self.old ++ line_front n master.now) }
    {
        self.add_counted(b"master", n);
        self.add_labelled(b":name=", master.name.as_slice());
        self.add_labelled(b",status=", status(master.down, master.odown));
    }

    /// Adds how the line of a master ends.
    fn add_line_counts(&mut self, master: &MasterLine)
        ensures { self.new ≡ within_section (self.old ++ line_counts master.now) }
    {
        self.add_counted(b",slaves=", master.replicas);
        self.add_counted(b",sentinels=", master.sentinels);
        self.add(b"\r\n");
    }

    /// Adds the line of the master with this number.
    pub fn add_master(&mut self, n: u64, master: &MasterLine)
        ensures { self.new ≡ within_section (self.old ++ line_of n master.now) }
    {
        self.add_line_front(n, master);
        self.add_labelled(b",address=", addr_text(master.addr).as_slice());
        self.add_line_counts(master);
    }

    /// Adds whether the Sentinel is in TILT.
    fn add_tilt(&mut self, tilt: Option<u64>)
        ensures { self.new ≡ within_section (self.old ++ tilt_lines tilt) }
    {
        match tilt {
            Some(millis) => {
                self.add(b"sentinel_tilt:1\r\n");
                self.add_counted(b"sentinel_tilt_since_seconds:", millis / 1_000);
                self.add(b"\r\n");
            }
            None => self.add(b"sentinel_tilt:0\r\nsentinel_tilt_since_seconds:-1\r\n"),
        }
    }

    /// Adds what stands before the lines of so many masters, where the Sentinel is in TILT for `tilt` milliseconds, or
    /// isn't.
    pub fn add_front(&mut self, masters: u64, tilt: Option<u64>)
        ensures { self.new ≡ within_section (self.old ++ section_front masters tilt) }
    {
        self.add_counted(b"# Sentinel\r\nsentinel_masters:", masters);
        self.add(b"\r\n");
        self.add_tilt(tilt);
        self.add(
            b"sentinel_running_scripts:0\r\nsentinel_scripts_queue_length:0\r\nsentinel_simulate_failure_flags:0\r\n",
        );
    }

    /// The bytes in order.
    fn as_slice(&self) -> &[u8]
        ensures { result.now ≡ self.now }
    {
        self.bytes.as_slice()
    }
}

impl AnswerText {
    /// Adds the answer that has the section. What has no room is cut.
    pub fn add_section(&mut self, section: &InfoSection)
        ensures { self.new ≡ bounded (self.old ++ spelling (frames.bulk section.now)) }
    {
        self.add_bulk(section.as_slice());
    }
}
