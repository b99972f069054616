//! Whether conf files are those of one group.

ghost use Rattle.std.specs.Prelude.{◌≡◌, ℕ, IsTrue, IsFalse, ◌<◌, All};
ghost use Rattle.std.specs.List.{list_any};
ghost use Rattle.ballot_law.specs.Orders.{same_id};
ghost use Rattle.ballot_law.specs.Rosters.{size, id_of};
ghost use Rattle.sentinel_conf.specs.Meaning.{ConfPlan};
ghost use Rattle.conf_check.specs.Group.Groups.{AreOfOneGroup, IsGroupOf, IsOneGroup};

use crate::group::differences::difference_of;
use ballot_law::RunId;
use sentinel_conf::Conf;

/// What holds a conf: the conf itself, or one with the name of its file.
pub trait HoldsConf {
    ghost conf_of: { Self → ConfPlan };

    /// The conf.
    fn conf(&self) -> &Conf
        ensures { result.now ≡ conf_of self.now };
}

impl HoldsConf for Conf {
    ghost conf_of = { λ conf. conf };

    fn conf(&self) -> &Conf {
        self
    }
}

/// The run id of a file's own Sentinel.
pub(crate) fn own_id(conf: &Conf) -> RunId
    ensures { result ≡ conf.now.id }
{
    conf.roster().sentinels()[conf.place() as usize].id
}

/// Whether one of the files is that of the Sentinel at this place of the first file's roster.
fn has_file<C: HoldsConf>(first: &Conf, files: &[C], place: usize) -> bool
    requires { place < size first.now.roster }
    ensures { result ≡ list_any (λ file. same_id (id_of first.now.roster place) (C.conf_of file).id) files.now }
{
    let id = first.roster().sentinels()[place].id;
    files.iter().any(|file| id.is_same(&own_id(file.conf())))
}

/// Whether each file agrees with the first.
fn are_alike<C: HoldsConf>(first: &Conf, files: &[C]) -> bool
    ensures alike { IsTrue result → All (λ file. AreOfOneGroup first.now (C.conf_of file)) files.now }
    ensures other { IsFalse result → ¬ (All (λ file. AreOfOneGroup first.now (C.conf_of file)) files.now) }
{
    for k in 0..files.len() {
        if difference_of(first, files[k].conf()).is_some() {
            return false;
        }
    }
    true
}

/// Whether each Sentinel of the first file's roster has a file.
fn have_files<C: HoldsConf>(first: &Conf, files: &[C]) -> bool
    ensures each { IsTrue result → (place : ℕ) → place < size first.now.roster
        → IsTrue (list_any (λ file. same_id (id_of first.now.roster place) (C.conf_of file).id) files.now) }
    ensures other { IsFalse result → ¬ ((place : ℕ) → place < size first.now.roster
        → IsTrue (list_any (λ file. same_id (id_of first.now.roster place) (C.conf_of file).id) files.now)) }
{
    for place in 0..first.roster().sentinels().len() {
        if !has_file(first, files, place) {
            return false;
        }
    }
    true
}

/// Whether the files are those of the group of this roster: each agrees with the first, and each Sentinel of its roster
/// has one.
fn is_group_of<C: HoldsConf>(first: &Conf, files: &[C]) -> bool
    ensures group { IsTrue result → IsGroupOf C.conf_of first.now files.now }
    ensures other { IsFalse result → ¬ (IsGroupOf C.conf_of first.now files.now) }
{
    if files.len() != first.roster().sentinels().len() {
        return false;
    }
    if !are_alike(first, files) {
        return false;
    }
    have_files(first, files)
}

/// Whether these files are those of one group: each agrees with the first, and each Sentinel of its roster has one.
pub fn is_one_group<C: HoldsConf>(files: &[C]) -> bool
    ensures group { IsTrue result → IsOneGroup C.conf_of files.now }
    ensures other { IsFalse result → ¬ (IsOneGroup C.conf_of files.now) }
{
    match files.first() {
        Some(first) => is_group_of(first.conf(), files),
        None => false,
    }
}
