//! The change of the input in flight: what it overwrote of what the file holds.

ghost use Rattle.std.specs.Prelude.{◌≡◌, ◌≢◌, ◌<◌, ◌≤◌, ℕ, length, IfSome, IfNone, IsTrue, IsFalse, Some};
ghost use Rattle.ballot_law.specs.Ballots.{card_of};
ghost use Rattle.sentinel_core.specs.Formers.{entry_of, former_of, masters_before, put_back};

use ballot_law::{Card, Kept, KeptMaster};

/// What was kept of a master.
#[derive(Clone, Copy)]
pub(crate) struct FormerEntry {
    pub(crate) master: u16,
    pub(crate) entry: KeptMaster,
}

/// What an input overwrites of what is kept: the current epoch, and the entry of the one master that it concerns.
#[derive(Clone, Copy)]
pub(crate) struct Undo {
    pub(crate) current: u64,
    pub(crate) entry: Option<FormerEntry>,
}

/// What is kept of a master; none where no master is meant, or there is no such master.
fn entry_of(kept: &Kept, master: Option<u16>) -> Option<FormerEntry>
    ensures { result ≡ entry_of kept.now master }
{
    let master = master?;
    let entry = *kept.masters.as_slice().get(master as usize)?;
    Some(FormerEntry { master, entry })
}

/// Whether two configurations are the same.
fn is_same_card(one: &Card, other: &Card) -> bool
    ensures same { IsTrue result → one.now ≡ other.now }
    ensures other { IsFalse result → one.now ≢ other.now }
{
    *one == *other
}

/// Whether two entries are the same.
fn is_same_entry(one: &KeptMaster, other: &KeptMaster) -> bool
    ensures same { IsTrue result → one.now ≡ other.now }
    ensures other { IsFalse result → one.now ≢ other.now }
{
    *one == *other
}

/// Whether the entry of a master is another than it was.
fn is_entry_changed(masters: &[KeptMaster], former: Option<FormerEntry>) -> bool
    ensures other { IsTrue result → masters.now ≢ masters_before masters.now former }
    ensures same { IsFalse result → masters.now ≡ masters_before masters.now former }
{
    let Some(former) = former else {
        return false;
    };
    let Some(entry) = masters.get(former.master as usize) else {
        return false;
    };
    !is_same_entry(entry, &former.entry)
}

impl Undo {
    /// What is kept before an input that concerns this master, or none.
    pub(crate) fn of(kept: &Kept, master: Option<u16>) -> Undo
        ensures { result ≡ former_of kept.now master }
    {
        Undo {
            current: kept.current,
            entry: entry_of(kept, master),
        }
    }

    /// Takes down what is kept before an input that concerns this master, or none.
    pub(crate) fn begin(&mut self, kept: &Kept, master: Option<u16>)
        ensures { self.new ≡ former_of kept.now master }
    {
        self.current = kept.current;
        self.entry = entry_of(kept, master);
    }

    /// Whether what is kept is another than it was.
    pub(crate) fn is_changed(&self, kept: &Kept) -> bool
        ensures other { IsTrue result → kept.now ≢ put_back kept.now self.now }
        ensures same { IsFalse result → kept.now ≡ put_back kept.now self.now }
    {
        self.current != kept.current || is_entry_changed(kept.masters.as_slice(), self.entry)
    }

    /// The master whose configuration is another than it was.
    pub(crate) fn changed_card(&self, kept: &Kept) -> Option<u16>
        ensures within { IfSome result (λ m. m < length kept.now.masters) }
        ensures changed { IfSome result (λ m. card_of kept.now m ≢ card_of (put_back kept.now self.now) m) }
        ensures others { (m : ℕ) → result ≢ Some m → card_of kept.now m ≡ card_of (put_back kept.now self.now) m }
    {
        let former = self.entry?;
        let master = kept.masters.as_slice().get(former.master as usize)?;
        if is_same_card(&master.card, &former.entry.card) {
            return None;
        }
        Some(former.master)
    }

    /// The configuration of a master as it was; None where there is no such master.
    pub(crate) fn card(&self, kept: &Kept, m: u16) -> Option<Card>
        ensures some { IfSome result (λ card. (m < length kept.now.masters) × (card ≡ card_of (put_back kept.now self.now) m)) }
        ensures none { IfNone result (length kept.now.masters ≤ m) }
    {
        let master = kept.masters.as_slice().get(m as usize)?;
        match self.entry {
            Some(former) if former.master == m => Some(former.entry.card),
            _ => Some(master.card),
        }
    }
}
