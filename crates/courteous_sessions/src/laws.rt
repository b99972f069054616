//! What a session with courtesies keeps of the one without.

ghost use Rattle.courteous_sessions.specs.Retelling.{PlainIsSpelled, SaysTheSame};
ghost use Rattle.courteous_sessions.specs.Laws.{AnswersListeners, AnswersOwnAsBefore, AnswersOwnInThree, ConfirmsByPushes, TellsAsItIs, HearsAll, HearsFar, HearsNear, IsPassedOver, NoOtherNoteIsTold, NothingElseIsTold, PiecesJoin, StrangersTakeNoTurn, TakesNoTurn};

/// Where no password is wanted that the client didn't give, and the connection speaks protocol 2 and doesn't listen, a
/// command of the Sentinel's rules but SUBSCRIBE is answered as by a session without courtesies, and changes nothing
/// that is known of the connection. One exception is there, of a connection that was told the Sentinel's current epoch:
/// a request for a vote in an epoch that is more than `EPOCHS_AHEAD` above it is answered as one of epoch 0.
pub fn law_own_commands_are_answered_as_before()
    ensures answered { AnswersOwnAsBefore }
    ensures untold { HearsAll }
    ensures near { HearsNear }
    ensures far { HearsFar }
{}

/// Values that protocol 3 tells alike are the same in protocol 2, up to which of its two nulls is told; so a client of
/// protocol 3 hears no less than one of protocol 2. An answer that is copied, as it is a null or holds none, is what
/// protocol 3 spells.
pub fn law_protocols_say_the_same()
    ensures values { SaysTheSame }
    ensures copied { PlainIsSpelled }
{}

/// At protocol 2 each answer is told as it is. At protocol 3 a command of the Sentinel's rules but SUBSCRIBE is
/// answered as to one who listens to nothing, whether the connection listens or not, and then told in protocol 3's
/// way. What changes to what it listens is answered as at protocol 2, and told as pushes.
pub fn law_protocols_tell_the_same_answers()
    ensures two { TellsAsItIs }
    ensures three { AnswersOwnInThree }
    ensures channels { ConfirmsByPushes }
{}

/// While a connection listens at protocol 2, Pub/Sub alone answers the commands of the Sentinel's rules.
pub fn law_listeners_are_answered_by_channels()
    ensures { AnswersListeners }
{}

/// A text on a channel is told to no connection that neither listens to the channel nor has a pattern that matches it.
pub fn law_channels_tell_nothing_else()
    ensures events { NothingElseIsTold }
    ensures notes { NoOtherNoteIsTold }
{}

/// A value that Pub/Sub doesn't answer and whose answer a courtesy tells is answered by that alone: it takes no turn
/// and changes nothing of what its seat has seen. So is one that has no answer, for which nothing is put out.
pub fn law_courtesies_take_no_turn()
    ensures said { TakesNoTurn }
    ensures silent { IsPassedOver }
{}

/// Two pieces in a row are answered as one piece of both, so it makes no difference how a stream is cut.
pub fn law_pieces_join()
    ensures { PiecesJoin }
{}

/// Where a password is wanted that the client didn't give, no value takes a turn, changes anything of what its seat has
/// seen, or has the connection listen to anything.
pub fn law_strangers_take_no_turn()
    ensures { StrangersTakeNoTurn }
{}
