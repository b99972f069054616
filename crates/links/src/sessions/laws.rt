//! What a connection's pieces are to each other.

ghost use Rattle.links.specs.Sessions.Laws.{PiecesJoin};

/// A piece that was heard, and one that was taken after it, are one piece: the same events in the same order, the same
/// questions wait, the same bytes are held; and where the second one broke off, one piece would have broken off for the
/// same reason. So it doesn't matter how what a node sends is cut.
pub fn law_pieces_join()
    ensures { PiecesJoin }
{}
