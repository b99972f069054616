//! What holds of all processes of a group together.

ghost use Rattle.process_laws.specs.Actions.{ProcessesAreARun, ProcessesAreSafe};
ghost use Rattle.process_laws.specs.CarriedPieces.{PiecesAreCarried};
ghost use Rattle.process_laws.specs.Connected.{ConnectedProcessesAreSafe};
ghost use Rattle.process_laws.specs.FilesLeft.{FilesAreLeft};
ghost use Rattle.process_laws.specs.GroupStarts.{OneGroupIsAStart};
ghost use Rattle.process_laws.specs.LateAnswers.{LateAnswersHappen};
ghost use Rattle.process_laws.specs.OwnActions.{OwnActionsAreActions};
ghost use Rattle.process_laws.specs.PortCalls.{CallsHearSo};
ghost use Rattle.process_laws.specs.PutOff.{PutOffPiecesJoin};
ghost use Rattle.process_laws.specs.TwoConnected.{ConnectedProcessesHappen};
ghost use Rattle.process_laws.specs.TwoProcesses.{ActionsHappen};
ghost use Rattle.process_laws.specs.Watched.{WatchedAreConnected, WatchedAreSafe};

/// What the processes of a group did, in an order in which each answer and each hello is heard after the release that
/// sent it, is a run of the model: with the same elections, in which the Sentinels said the same, and which leaves each
/// of them as its own history does. What a Sentinel takes no notice of, as a hello of nobody of the group, may come
/// from anybody. Their files may name different data nodes, each a part of those of the roster, quorums at least as
/// great as its own, and other addresses of Sentinels.
pub fn law_processes_are_a_run()
    ensures { ProcessesAreARun }
{}

/// So at most one of them is elected for a master in an epoch, two configurations of one epoch that any of them
/// showed have one address, and no epoch of a configuration in a file falls, whichever of them ended and began anew.
/// What a process has stored, and so tells a client, is its file's, as long as no store of it was refused.
pub fn law_processes_are_safe()
    ensures { ProcessesAreSafe }
{}

/// The model allows the answers that the threads of such a process give while it stores: there is a run in which a
/// client is shown a configuration after newer ones were stored, others are answered within a take, and the process
/// is then killed within that take, the new text in its file. What was voted, elected and said in it stands word for
/// word in `specs/LateAnswers.antt`.
pub fn law_late_answers_happen()
    ensures { LateAnswersHappen }
{}

/// Two processes meet all that these laws ask. One finds the master down, votes for itself, is elected by the other
/// one's vote, promotes the replica, and publishes that; the other takes it from the hello, and notes it. Then a
/// store of the first is refused and leaves the new text, another process begins with that, and hears the answer with
/// the vote a second time. What each of them put out, and all that was elected and said, stands word for word in
/// `specs/TwoProcesses.antt`.
pub fn law_actions_happen()
    ensures { ActionsHappen }
{}

/// What `check` accepts, files of which `Report::is_refused` is false, is where these laws begin: with the roster of
/// the files, the data nodes of that, and in each Sentinel's file what its own one of them holds. Each of the files
/// opens a Sentinel there, and each Sentinel is opened by one of them.
pub fn law_one_group_is_a_start()
    ensures { OneGroupIsAStart }
{}

/// What these laws ask of all actions together follows from what each Sentinel's processes did by themselves: each
/// process began by what its file held, and took the entries of a legal history; in whatever order with the others, as
/// long as what is heard was sent before.
pub fn law_own_actions_are_actions()
    ensures { OwnActionsAreActions }
{}

/// Processes of a group are what these laws ask, and so safe, where each is given by what it did by itself: its file
/// opened it, and its history is legal from there. What it took is free, or a hello that was published, or bytes tell
/// it that came on a connection for what was asked there. TCP changes nothing inside a connection, whose other end is
/// some process of the group. All that was done has one order, in which what is answered or published stands before
/// what is heard of it. What else is asked of a connection stands in `IsCarried`.
pub fn law_connected_processes_are_safe()
    ensures { ConnectedProcessesAreSafe }
{}

/// Three processes of two Sentinels meet all that the law of connected processes asks: one is elected by the other
/// one's vote, which it heard over a connection, byte for byte, on which it asked before who is there; its hello is
/// adopted; a store of it is refused and leaves the new text, with which the third process begins. What was elected
/// and said is what `law_actions_happen` has.
pub fn law_connected_processes_happen()
    ensures { ConnectedProcessesHappen }
{}

/// What `law_connected_processes_are_safe` asks of a connection follows from what the port's session promises of each
/// piece that it takes, at a reading of the clock of its own: also where a value of it waits, as it may store, and is
/// answered with the next piece.
pub fn law_pieces_are_carried()
    ensures { PiecesAreCarried }
{}

/// A piece in which a value waits, and the next one, which begins with that, are one piece of both, however the next
/// one ends: by a fault, by another value that waits, or answered whole.
pub fn law_put_off_pieces_join()
    ensures { PutOffPiecesJoin }
{}

/// Where a process was opened by what its file held, and the file has either text that its history may have left there,
/// the next process begins by what `law_connected_processes_are_safe` has in the file: what was stored, or after a
/// refused store that or the new text. It is read as the same file but for that.
pub fn law_files_are_left()
    ensures { FilesAreLeft }
{}

/// What the contracts of a running Sentinel are about is what `law_connected_processes_are_safe` asks: each process
/// took what is free, or what bytes told it that came on one of its connections, for what was asked there. Left are the
/// network, which carried those bytes from the Sentinel that was meant, or told a hello that a Sentinel published
/// before, and the one order of all.
pub fn law_watched_processes_are_connected()
    ensures connected { WatchedAreConnected }
    ensures safe { WatchedAreSafe }
{}

/// Whatever a port's session takes, at whichever fault it ends, its thread's calls are commands, and so free: what the
/// calls under a seat's numbers took stays what `law_watched_processes_are_connected` asks. So it does at each turn
/// that takes what is free or told, and where a seat has all numbers, its whole history took that.
pub fn law_port_calls_are_free()
    ensures { CallsHearSo }
{}
