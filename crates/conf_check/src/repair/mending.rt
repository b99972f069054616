//! The mended files of a group.

ghost use Rattle.std.specs.Prelude.{◌≡◌, ◌≢◌, IfOk, IfErr, max, true, false, map};
ghost use Rattle.std.specs.List.{AllByRecursion};
ghost use Rattle.sentinel_conf.specs.Rewritten.{rewritten};
ghost use Rattle.conf_check.specs.Repair.Mended.{card_of, cards_of, newer, newer_each, newest_from, newest, last_epoch_from, last_epoch, with_cards, kept_with, mended_text, agree, all_agree, is_settled, AreCardsOf, Fits, HaveRoster, HaveOneRoster};
ghost use Rattle.conf_check.specs.declared.repair.mending.MendFault.TheVariants.{NotOneRoster, TwoAddresses};

use crate::group::HoldsConf;
use ballot_law::{Card, Kept, KeptMaster, KeptMasters, NoMemory, Text};
use sentinel_conf::{Conf, ConfText, rewrite_into};
use std::alloc::{AllocError, Global};
use thiserror::Error;

/// Why files aren't mended.
#[derive(Clone, Copy, Debug, PartialEq, Eq, Error)]
pub enum MendFault {
    /// Two of them name different rosters: Sentinels, masters, data nodes or quorums.
    #[error("NotOneRoster")]
    NotOneRoster,
    /// Two of them hold configurations of a master that have one epoch, the greatest, and two addresses.
    #[error("TwoAddresses")]
    TwoAddresses,
    /// Memory was refused.
    #[error("NoMemory")]
    NoMemory,
}

impl From<AllocError> for MendFault {
    ghost use Rattle.std.specs.Prelude.{◌≡◌};
    ghost use Rattle.conf_check.specs.declared.repair.mending.MendFault.TheVariants.{NoMemory};

    ghost from_gives = { λ _ fault. fault ≡ NoMemory };

    fn from(_error: AllocError) -> MendFault {
        MendFault::NoMemory
    }
}

/// The greatest current epoch of files, and their newest configurations, master by master.
#[derive(Drop)]
pub(crate) struct Newest {
    pub(crate) current: u64,
    pub(crate) cards: Vec<Card>,
}

/// The configurations that are kept of these masters.
fn cards_of(alloc: Global, masters: &[KeptMaster]) -> Result<Vec<Card>, AllocError>
    ensures { IfOk result (λ cards. cards.items ≡ map card_of masters.now) }
{
    masters.iter().map(|kept| kept.card).collect(alloc)
}

/// The one of the greater epoch, the first of equals.
fn newer(one: Card, other: Card) -> Card
    ensures { result ≡ newer one other }
{
    if one.epoch < other.epoch { other } else { one }
}

/// The newer of each of these and that of the file.
fn newer_each(
    alloc: Global,
    cards: &[Card],
    masters: &[KeptMaster],
) -> Result<Vec<Card>, AllocError>
    ensures { IfOk result (λ list. list.items ≡ newer_each cards.now (map card_of masters.now)) }
{
    let mut list = Vec::new(alloc);
    let mut rest = cards;
    let mut others = masters;
    while let [card, more @ ..] = rest {
        if let [other, behind @ ..] = others {
            list.push(newer(*card, other.card))?;
            others = behind;
        } else {
            list.push(*card)?;
        }
        rest = more;
    }
    Ok(list)
}

impl Newest {
    /// Those of one file.
    fn of(alloc: Global, conf: &Conf) -> Result<Newest, AllocError>
        ensures current { IfOk result (λ it. it.current ≡ conf.now.kept.current) }
        ensures cards { IfOk result (λ it. it.cards.items ≡ cards_of conf.now) }
        ensures fits { IfOk result (λ it. AreCardsOf it.current it.cards.items conf.now.roster) }
    {
        let kept = conf.kept();
        Ok(Newest {
            current: kept.current,
            cards: cards_of(alloc, kept.masters.as_slice())?,
        })
    }

    /// Those of one file more, of the same roster.
    fn and(self, alloc: Global, conf: &Conf) -> Result<Newest, AllocError>
        requires { AreCardsOf self.current self.cards.items conf.now.roster }
        ensures current { IfOk result (λ it. it.current ≡ max self.current conf.now.kept.current) }
        ensures cards { IfOk result
            (λ it. it.cards.items ≡ newer_each self.cards.items (cards_of conf.now)) }
        ensures fits { IfOk result (λ it. AreCardsOf it.current it.cards.items conf.now.roster) }
    {
        let kept = conf.kept();
        Ok(Newest {
            current: self.current.max(kept.current),
            cards: newer_each(alloc, &self.cards, kept.masters.as_slice())?,
        })
    }
}

/// The newest configurations of the files, of which the first is this one, and the greatest current epoch.
fn newest_of<C: HoldsConf>(alloc: Global, first: &Conf, more: &[C]) -> Result<Newest, MendFault>
    ensures current { IfOk result
        (λ it. it.current ≡ last_epoch_from first.now.kept.current (map C.conf_of more.now)) }
    ensures cards { IfOk result
        (λ it. it.cards.items ≡ newest_from (cards_of first.now) (map C.conf_of more.now)) }
    ensures fits { IfOk result (λ it. AreCardsOf it.current it.cards.items first.now.roster) }
    ensures one { IfOk result (λ _. HaveRoster first.now.roster (map C.conf_of more.now)) }
    ensures other { IfErr result (λ fault. fault ≡ NotOneRoster
        → ¬ (HaveRoster first.now.roster (map C.conf_of more.now))) }
    ensures address { IfErr result (λ fault. fault ≢ TwoAddresses) }
{
    let mut newest = Newest::of(alloc, first)?;
    let mut rest = more;
    while let [file, behind @ ..] = rest {
        let conf = file.conf();
        if !conf.roster().is_same(first.roster()) {
            return Err(MendFault::NotOneRoster);
        }
        newest = newest.and(alloc, conf)?;
        rest = behind;
    }
    Ok(newest)
}

/// The newest configurations of the files, and their greatest current epoch; none where there are no files. The faults
/// are those of `mended_texts`, but no `TwoAddresses`.
pub(crate) fn newest_among<C: HoldsConf>(alloc: Global, files: &[C]) -> Result<Newest, MendFault>
    ensures current { IfOk result (λ it. it.current ≡ last_epoch (map C.conf_of files.now)) }
    ensures cards { IfOk result (λ it. it.cards.items ≡ newest (map C.conf_of files.now)) }
{
    match files.split_first() {
        Some((first, more)) => newest_of(alloc, first.conf(), more),
        None => {
            let cards = Vec::new(alloc);
            Ok(Newest { current: 0, cards })
        }
    }
}

/// Whether each of these is of an earlier epoch than the newest, or at its address.
fn do_agree(newest: &[Card], masters: &[KeptMaster]) -> bool
    ensures { result ≡ agree newest.now (map card_of masters.now) }
{
    let mut rest = newest;
    let mut others = masters;
    while let [new, more @ ..] = rest {
        let Some((kept, behind)) = others.split_first() else {
            return true;
        };
        if kept.card.epoch >= new.epoch && !kept.card.addr.is_same(&new.addr) {
            return false;
        }
        rest = more;
        others = behind;
    }
    true
}

/// Whether no file has a newest configuration at another address than these.
fn is_settled<C: HoldsConf>(newest: &[Card], files: &[C]) -> bool
    ensures { result ≡ all_agree newest.now (map C.conf_of files.now) }
{
    let mut rest = files;
    while let [file, more @ ..] = rest {
        if !do_agree(newest, file.conf().kept().masters.as_slice()) {
            return false;
        }
        rest = more;
    }
    true
}

/// What is kept of these masters, with these configurations and the votes as they are.
fn with_cards(
    alloc: Global,
    masters: &[KeptMaster],
    cards: &[Card],
) -> Result<Vec<KeptMaster>, AllocError>
    ensures { IfOk result (λ list. list.items ≡ with_cards masters.now cards.now) }
{
    let mut list = Vec::new(alloc);
    let mut rest = masters;
    let mut others = cards;
    while let [kept, more @ ..] = rest {
        if let [card, behind @ ..] = others {
            list.push(KeptMaster {
                card: *card,
                voted: kept.voted,
                candidate: kept.candidate,
            })?;
            others = behind;
        } else {
            list.push(*kept)?;
        }
        rest = more;
    }
    Ok(list)
}

/// The text of a file with these configurations.
fn mended_text(alloc: Global, conf: &Conf, newest: &Newest) -> Result<Text, NoMemory>
    requires { Fits newest.now.current newest.now.cards.items conf.now }
    ensures { IfOk result (λ text. text
        ≡ rewritten conf.now (kept_with newest.now.current newest.now.cards.items conf.now)) }
{
    let masters = with_cards(alloc, conf.kept().masters.as_slice(), &newest.cards)?;
    let kept = Kept {
        current: newest.current,
        masters: KeptMasters::from_vec(masters),
    };
    let mut text = ConfText::room_for(alloc, conf)?;
    rewrite_into(conf, &kept, &mut text);
    Text::from_slice(alloc, text.as_slice())
}

/// The texts of files with these configurations.
fn texts_of<C: HoldsConf>(
    alloc: Global,
    files: &[C],
    newest: &Newest,
) -> Result<Vec<Text>, NoMemory>
    requires { AllByRecursion (λ file. Fits newest.now.current newest.now.cards.items (C.conf_of file)) files.now }
    ensures { IfOk result (λ texts. texts.items ≡ map (λ file. rewritten (C.conf_of file)
        (kept_with newest.now.current newest.now.cards.items (C.conf_of file))) files.now) }
{
    let mut texts = Vec::new(alloc);
    let mut rest = files;
    while let [file, more @ ..] = rest {
        texts.push(mended_text(alloc, file.conf(), newest)?)?;
        rest = more;
    }
    Ok(texts)
}

/// The text of each of these files once it is mended: the newest configuration of each master and the greatest current
/// epoch of all files, with the file's own votes. Its lines of settings and its other lines stay as they are.
///
/// NotOneRoster: two files name different rosters. TwoAddresses: a master's newest configuration has two addresses, and
/// nobody can tell which of them holds. NoMemory: memory was refused. Each leaves everything as it was.
pub fn mended_texts<C: HoldsConf>(alloc: Global, files: &[C]) -> Result<Vec<Text>, MendFault>
    ensures texts { IfOk result (λ texts. texts.items
        ≡ map (λ file. mended_text (map C.conf_of files.now) (C.conf_of file)) files.now) }
    ensures one { IfOk result (λ _. HaveOneRoster (map C.conf_of files.now)) }
    ensures settled { IfOk result (λ _. is_settled (map C.conf_of files.now) ≡ true) }
    ensures other { IfErr result (λ fault. fault ≡ NotOneRoster
        → ¬ (HaveOneRoster (map C.conf_of files.now))) }
    ensures address { IfErr result (λ fault. fault ≡ TwoAddresses
        → is_settled (map C.conf_of files.now) ≡ false) }
{
    let Some((first, more)) = files.split_first() else {
        return Ok(Vec::new(alloc));
    };
    let newest = newest_of(alloc, first.conf(), more)?;
    if !is_settled(&newest.cards, files) {
        return Err(MendFault::TwoAddresses);
    }
    match texts_of(alloc, files, &newest) {
        Ok(texts) => Ok(texts),
        Err(_) => Err(MendFault::NoMemory),
    }
}
