//! The ends of lines.

ghost use Rattle.std.specs.Prelude.{◌≡◌};
ghost use Rattle.node_texts.specs.Lines.{without_return};

/// The line without a CR at its end.
pub(crate) fn without_return(line: &[u8]) -> &[u8]
    ensures { result.now ≡ without_return line.now }
{
    match line.split_last() {
        Some((last, front)) => { if *last == b'\r' { front } else { line } }
        None => line,
    }
}
