//! Scenarios: stories of a whole group as text, one step a line.
//!
//! `read_scenario` gives the steps of a text, or its first faulty line. A line has a word that says what happens and
//! its arguments, with one space between two words; empty lines, and those that begin with `#`, are skipped.
//!
//! | Line | Step |
//! |---|---|
//! | `tick <node> <master> <now> <random>` | the node takes a tick of the master's timer, with a random number |
//! | `deliver <message> <now>` | the message with this number reaches its target |
//! | `command <node> <now> <word>..` | the node takes a client's command, which these words are |
//! | `set <node> <priority> <offset> <link down s>` | a data node gets this priority, offset and link to its master |
//! | `store <node> ok\|old\|new` | the node's store, or its refusal, which leaves the old text or the new one |
//! | `release <node>` | the node sends what its last input gave |
//! | `done <node>` | two steps: the store that isn't refused, then the release |
//! | `stop <node> old\|new` | the node stops; a store that it was in leaves this text |
//! | `start <node> <now>` | a stopped node begins anew |
//! | `answer <node> <master>` | a client asks a Sentinel for the address of a master |
//!
//! A node is `s`, `d` or `c` and a number: a Sentinel, a data node or a client, counted from 0 in the roster's order,
//! data nodes master by master. Times are in milliseconds. Masters and messages are counted from 0 too, messages in the
//! order of release.
//!
//! `add_message` and `add_comment` write a message for people: what it is on the wire, without the marks of the
//! protocol. The words of a command are its own; those of a reply are its texts and numbers in order, with `(nil)` for
//! null. A comment of a scenario is one line of printable ASCII, whatever its words are.

mod arguments;
mod comments;
mod faults;
mod line_words;
mod lines;
mod message_lines;
mod reading;
mod told;
mod wording;

pub use comments::add_comment;
pub use faults::{ScenarioFault, ScenarioKind};
pub use message_lines::add_message;
pub use reading::{read_scenario, read_scenario_as};
pub use wording::words_of;
