//! The two ends of a connection together.

ghost use Rattle.process_laws.specs.Asking.{ReleasedWordsAreAskable};
ghost use Rattle.process_laws.specs.Connections.{AnswersAreDelivered, AnswersAreAboutIt, SendersAreFree, TargetsAreFree};
ghost use Rattle.process_laws.specs.HeardAnswers.{AnswersAreHeard};
ghost use Rattle.process_laws.specs.ReadFiles.{QuestionsAreAlone, ReadFilesKeepMastersApart};

/// Over a connection that loses nothing inside it, what a link hears for its k-th question is the delivery of the
/// answer that the other Sentinel released for it: of the outputs of one stored entry of a legal history of that
/// Sentinel, which took the question as its delivery would have been taken.
pub fn law_answers_are_delivered()
    ensures { AnswersAreDelivered }
{}

/// What a command leaves and what its answer says doesn't depend on who sent it: so a question that came over a port is
/// one that was delivered, and its answer is one that was sent to whoever asked.
pub fn law_senders_are_free()
    ensures { SendersAreFree }
{}

/// What the model allows a Sentinel to hold, and so to release, doesn't depend on whom it is sent to: an answer to a
/// port may stand for one to whoever asked there.
pub fn law_targets_are_free()
    ensures { TargetsAreFree }
{}

/// The answer to a question about an address that one master alone has in its list is about that master, whatever the
/// Sentinel keeps.
pub fn law_answers_are_about_it()
    ensures { AnswersAreAboutIt }
{}

/// No address is in the lists of two masters, in any file that is read.
pub fn law_read_files_keep_masters_apart()
    ensures { ReadFilesKeepMastersApart }
{}

/// So by such a file, a question with an address of its master's list is about the only master whose list has it: what
/// `IsCarried` asks as `alone`.
pub fn law_questions_are_alone()
    ensures { QuestionsAreAlone }
{}

/// What a Sentinel puts out to another one, but for answers to commands of Sentinels, which come over ports, is PING,
/// or a question whether a master is down, with an address of its own list: what the law of connected processes has
/// asked on a connection.
pub fn law_released_words_are_askable()
    ensures { ReleasedWordsAreAskable }
{}

/// What a link hears so is what `law_processes_are_a_run` asks of an event that is heard: where the entry that released
/// the answer is an action of its Sentinel's process, with the Sentinel that asked, some message that was sent before
/// brings it. So the premise about answers that are heard follows from what the two ends of a connection promise.
pub fn law_delivered_answers_are_heard()
    ensures { AnswersAreHeard }
{}
