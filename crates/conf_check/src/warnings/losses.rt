//! What is lost with a line that has no effect.

ghost use Rattle.std.specs.Prelude.{◌≡◌, ◌++◌, None, Some, MatchOption, OnOk, bytes_eq};
ghost use Rattle.ballot_law.specs.Words.{lower};
ghost use Rattle.conf_check.specs.Warnings.Losses.{is_sentinel_line, directive_of, beside, sentinel_losses, first_losses, loss_of};

use crate::warnings::spelled_names::first_name;
use ballot_law::NoMemory;

/// Whether the name is this one, but for the case of its ASCII letters.
fn is_named(name: &[u8], other: &[u8]) -> bool
    ensures { result ≡ bytes_eq (lower name.now) (lower other.now) }
{
    name.eq_ignore_ascii_case(other)
}

/// What isn't done for a directive of this name behind `sentinel`.
fn sentinel_loss(name: &[u8]) -> Option<&'static str>
    ensures { MatchOption result (beside name.now sentinel_losses ≡ None) (λ words. beside name.now sentinel_losses ≡ Some words.now) }
{
    if is_named(name, b"notification-script") {
        return Some(
            "no script is run here: its companion `sentinel_scripts` calls it, see examples/service",
        );
    }
    if is_named(name, b"client-reconfig-script") {
        return Some(
            "no script is run here: its companion `sentinel_scripts` calls it, see examples/service",
        );
    }
    None
}

/// What isn't done for a line that begins with this name.
fn first_loss(name: &[u8]) -> Option<&'static str>
    ensures { MatchOption result (beside name.now first_losses ≡ None) (λ words. beside name.now first_losses ≡ Some words.now) }
{
    if is_named(name, b"rename-command") {
        return Some("the commands of the port keep their names here");
    }
    if is_named(name, b"unixsocket") {
        return Some("no socket but that of the port is opened here");
    }
    None
}

/// What isn't done for a line that has no effect, where somebody may count on it.
pub(crate) fn loss_of(text: &[u8]) -> Option<&'static str>
    ensures { MatchOption result (loss_of text.now ≡ None) (λ words. loss_of text.now ≡ Some words.now) }
{
    let (name, behind) = first_name(text);
    if is_named(name, b"sentinel") {
        let (name, _) = first_name(behind);
        return sentinel_loss(name);
    }
    first_loss(name)
}

/// Adds the directive of a line, as it stands there.
pub(crate) fn add_directive(out: &mut Vec<u8>, text: &[u8]) -> Result<(), NoMemory>
    ensures { OnOk result (out.new.items ≡ out.old.items ++ directive_of text.now) }
{
    let (name, behind) = first_name(text);
    if is_named(name, b"sentinel") {
        let (name, _) = first_name(behind);
        out.extend_from_slice(b"sentinel ")?;
        out.extend_from_slice(name)?;
        return Ok(());
    }
    out.extend_from_slice(name)?;
    Ok(())
}
