//! Whether a replica may be told to clients.

ghost use Rattle.std.specs.Prelude.{◌≡◌, codes};
ghost use Rattle.node_texts.specs.Announced.{announced_by, is_announced};
ghost use Rattle.node_texts.specs.Infos.{after_label};

use crate::info_fields::after_label;
use crate::lines::without_return;
use tokens::split_line;

/// Whether it may after a line, where the lines before said this.
fn announced_by(line: &[u8], before: bool) -> bool
    ensures { result ≡ announced_by (after_label (codes "replica_announced:") line.now) before }
{
    match after_label(line, b"replica_announced:") {
        Some(value) => value != b"0".as_slice(),
        None => before,
    }
}

/// Whether the node whose answer to INFO this is may be told to clients: unless the field `replica_announced` says 0,
/// and if it comes again the last line. No memory is taken.
pub fn is_announced(text: &[u8]) -> bool
    ensures { result ≡ is_announced text.now }
{
    let mut announced = true;
    let mut rest = text;
    while !rest.is_empty() {
        let (line, behind) = split_line(rest);
        announced = announced_by(without_return(line), announced);
        rest = behind;
    }
    announced
}
