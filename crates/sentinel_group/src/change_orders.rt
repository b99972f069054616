//! In which order the Sentinels of a group get their changed files: one after another where a law lets files differ so.

ghost use Rattle.std.specs.Prelude.{◌≡◌, IsTrue, map};
ghost use Rattle.std.specs.List.{AllZip};
ghost use Rattle.conf_check.specs.Repair.Mended.{card_of};
ghost use Rattle.sentinel_group.specs.declared.change_orders.Order.TheVariants.{OneByOne};
ghost use Rattle.sentinel_group.specs.Orders.{IsSameMaster, AreSameButForNodes, HoldTheSame};

use ballot_law::{Kept, KeptMaster, Member, Roster, Watched};
use sentinel_conf::Conf;

/// How the Sentinels get their new files.
#[derive(Clone, Copy, PartialEq, Eq)]
pub(crate) enum Order {
    /// All are stopped before the first one gets its file, and started after the last one has: the files name other
    /// Sentinels, masters or quorums.
    AllAtOnce,
    /// The same, since a new file holds another epoch or configuration than the one of before.
    AllMended,
    /// One after another, while the others guard.
    OneByOne,
}

/// Whether a Sentinel has the same run id and address.
fn is_same_member(one: Member, other: Member) -> bool
    ensures { IsTrue result → one ≡ other }
{
    one == other
}

/// Whether these are the same Sentinels in the same order.
fn are_same_sentinels(some: &[Member], all: &[Member]) -> bool
    ensures { IsTrue result → some.now ≡ all.now }
{
    let mut rest = some;
    let mut others = all;
    while let [one, more @ ..] = rest {
        let Some((other, behind)) = others.split_first() else {
            return false;
        };
        if !is_same_member(*one, *other) {
            return false;
        }
        rest = more;
        others = behind;
    }
    others.is_empty()
}

/// Whether two masters have one name and one quorum.
fn is_same_master(one: &Watched, other: &Watched) -> bool
    ensures { IsTrue result → IsSameMaster one.now other.now }
{
    if one.quorum != other.quorum {
        return false;
    }
    one.name.is_same(other.name)
}

/// Whether these masters have the same names and quorums in the same order.
fn are_same_masters(some: &[Watched], all: &[Watched]) -> bool
    ensures { IsTrue result → AllZip IsSameMaster some.now all.now }
{
    let mut rest = some;
    let mut others = all;
    while let [one, more @ ..] = rest {
        let Some((other, behind)) = others.split_first() else {
            return false;
        };
        if !is_same_master(one, other) {
            return false;
        }
        rest = more;
        others = behind;
    }
    others.is_empty()
}

/// Whether two rosters differ in nothing but data nodes.
fn are_same_but_for_nodes(one: &Roster, other: &Roster) -> bool
    ensures { IsTrue result → AreSameButForNodes one.now other.now }
{
    if !are_same_sentinels(one.sentinels(), other.sentinels()) {
        return false;
    }
    are_same_masters(one.masters(), other.masters())
}

/// Whether the two are one configuration.
fn is_same_card(one: &KeptMaster, other: &KeptMaster) -> bool
    ensures { IsTrue result → one.now.card ≡ other.now.card }
{
    one.card == other.card
}

/// Whether these masters have the same configurations.
fn have_same_cards(some: &[KeptMaster], all: &[KeptMaster]) -> bool
    ensures { IsTrue result → map card_of some.now ≡ map card_of all.now }
{
    let mut rest = some;
    let mut others = all;
    while let [one, more @ ..] = rest {
        let Some((other, behind)) = others.split_first() else {
            return false;
        };
        if !is_same_card(one, other) {
            return false;
        }
        rest = more;
        others = behind;
    }
    others.is_empty()
}

/// Whether two files hold the same current epoch, and the same configuration of each master.
fn hold_the_same(one: &Kept, other: &Kept) -> bool
    ensures { IsTrue result → HoldTheSame one.now other.now }
{
    if one.current != other.current {
        return false;
    }
    have_same_cards(one.masters.as_slice(), other.masters.as_slice())
}

/// The order for the file of a Sentinel and its new one. The laws hold while files differ in data nodes alone, and
/// settings are each Sentinel's own. No law is proved of files that name other Sentinels, masters or quorums. Nor may a
/// file be put in place that holds more than its Sentinel has heard, while others run.
pub(crate) fn order_of(old: &Conf, new: &Conf) -> Order
    ensures lists { result ≡ OneByOne → AreSameButForNodes old.now.roster new.now.roster }
    ensures state { result ≡ OneByOne → HoldTheSame old.now.kept new.now.kept }
{
    if !are_same_but_for_nodes(old.roster(), new.roster()) {
        return Order::AllAtOnce;
    }
    if !hold_the_same(old.kept(), new.kept()) {
        return Order::AllMended;
    }
    Order::OneByOne
}
