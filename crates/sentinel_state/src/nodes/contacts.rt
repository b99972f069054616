//! What is kept of a connection to a node for those who ask.

ghost use Rattle.std.specs.Prelude.{◌≡◌};
ghost use Rattle.ballot_law.specs.Clocks.{clock};
ghost use Rattle.ballot_law.specs.PingReplies.{is_valid};
ghost use Rattle.sentinel_rules.specs.News.{lost_after};
ghost use Rattle.sentinel_rules.specs.Contacts.{contact_asked, contact_replied, new_contact, role_since_after, said_role, same_role, since_after};

use ballot_law::{DataRole, Info, PingReply, clock_of};
use sentinel_rules::Contact;

/// One to a node that wasn't reached yet.
pub(crate) fn new_contact(now: u64) -> Contact
    ensures { result ≡ new_contact (clock now) }
{
    Contact {
        waiting: Some(clock_of(now)),
        replied: clock_of(now),
    }
}

/// Where a PING is sent at a moment, at most 2^62, it is waited for, unless one is already.
pub(crate) fn wait(contact: &mut Contact, sent: bool, now: u64)
    ensures { contact.new ≡ contact_asked sent now contact.old }
{
    if sent {
        contact.waiting = Some(contact.waiting.unwrap_or(now));
    }
}

/// A reply to a PING came.
pub(crate) fn hear_reply(contact: &mut Contact, now: u64, reply: PingReply)
    ensures { contact.new ≡ contact_replied (clock now) (is_valid reply) contact.old }
{
    contact.replied = clock_of(now);
    match reply {
        PingReply::Pong | PingReply::Loading | PingReply::MasterDown => contact.waiting = None,
        PingReply::Other => {}
    }
}

/// Whether a connection counts as lost after a reply to a PING: an error doesn't show that the node serves who asks.
pub(crate) fn lost_after(reply: PingReply, lost: bool) -> bool
    ensures { result ≡ lost_after reply lost }
{
    match reply {
        PingReply::Pong | PingReply::Loading | PingReply::MasterDown => false,
        PingReply::Other => lost,
    }
}

/// Whether two roles are the same.
fn same_role(a: DataRole, b: DataRole) -> bool
    ensures { result ≡ same_role a b }
{
    match (a, b) {
        (DataRole::Master, DataRole::Master) => true,
        (DataRole::Master, DataRole::Replica) => false,
        (DataRole::Replica, DataRole::Master) => false,
        (DataRole::Replica, DataRole::Replica) => true,
    }
}

/// Whether the INFO before said this role.
fn said_role(role: DataRole, before: Option<Info>) -> bool
    ensures { result ≡ said_role role before }
{
    match before {
        Some(info) => same_role(info.role, role),
        None => false,
    }
}

/// Since when a node has said that it has this role, where it does now.
pub(crate) fn role_since(now: u64, role: DataRole, before: Option<Info>, since: u64) -> u64
    ensures { result ≡ role_since_after (clock now) role before since }
{
    if said_role(role, before) {
        since
    } else {
        clock_of(now)
    }
}

/// Since when something has held, where it does now or doesn't.
pub(crate) fn since_after(holds: bool, now: u64, since: Option<u64>) -> Option<u64>
    ensures { result ≡ since_after holds (clock now) since }
{
    if holds {
        Some(since.unwrap_or(clock_of(now)))
    } else {
        None
    }
}
