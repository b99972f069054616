//! What a history is to the model of the whole group.

ghost use Rattle.sentinel_cell.specs.EntrySteps.{EntryIsSteps, AnswerShowsStored, StoredIsAnswered, StoredIsReleased};

/// In every world of the model in which a Sentinel is as a legal history leaves it, an entry that prolongs the history
/// is a take of its input, then a store and a release of its outputs, or a refused store, which may leave either text;
/// a halted entry is no step. These leave the Sentinel as the longer history does, and move no other node. The release
/// sends the messages of the entry and says what they and its notes show, and nothing else sends or says anything.
///
/// A question that is answered then shows what the history has stored, and one that is answered between the store and
/// the release shows what the entry has stored; the release then follows as it would have.
pub fn law_entry_is_steps()
    ensures steps { EntryIsSteps }
    ensures answer { AnswerShowsStored }
    ensures answer_in_flight { StoredIsAnswered }
    ensures release { StoredIsReleased }
{}
