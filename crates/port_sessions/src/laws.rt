//! What the answers of a session are to the answers of a stream, and to its pieces; and what a note is to the notes
//! behind it.

ghost use Rattle.port_sessions.specs.Laws.{AnswersAreServed, PiecesJoin, NotesRise, OthersStoreNothing};

/// Each answer of a session that doesn't listen is the one that `Sentinel::serve` writes for the same value: of a
/// Sentinel that keeps what is stored after a legal history, which begins with all that the seat had seen; or, where no
/// Sentinel has a say in it, whatever it keeps. So a client is answered as by one Sentinel that serves its stream
/// alone, with what all other threads did in between.
pub fn law_answers_are_served()
    ensures { AnswersAreServed }
{}

/// Two pieces that are taken one after the other, at one reading of the clock, are one piece: the same answers in the
/// same order, and the same bytes are held. So it doesn't matter how a client's bytes are cut, also where one of them
/// subscribes.
pub fn law_pieces_join()
    ensures { PiecesJoin }
{}

/// Behind a note that was told to a session, no note of its master is due whose configuration is no newer; and whether
/// a note of another master is due is as it was before. So the epochs that a client is told of a master rise.
pub fn law_notes_rise()
    ensures { NotesRise }
{}

/// By the rules of a Sentinel every command but those that `may_store` tells leaves what the Sentinel keeps as it was.
pub fn law_others_store_nothing()
    ensures { OthersStoreNothing }
{}
