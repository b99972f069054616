//! Laws of the definitions.

ghost use Rattle.sentinel_rules.specs.Changes.{InputsChangeAt, InputsChangeOne, InputsRaiseCards, OpenedIsAhead};
ghost use Rattle.sentinel_rules.specs.Ignored.{IgnoredChangesNothing};
ghost use Rattle.sentinel_rules.specs.Limits.{EpochsAreWithin, MessagesComeWithin, OutputsAreWithin};
ghost use Rattle.sentinel_rules.specs.Named.{HellosNameMasters};
ghost use Rattle.sentinel_rules.specs.Room.{InputsKeepFew};
ghost use Rattle.sentinel_rules.specs.Steps.{InputsAreSteps, OpenedIsSound};

/// The core at the start is sound, and stands for what the ballot model restores from the file.
pub fn law_opening_is_sound()
    ensures { OpenedIsSound }
{}

/// A sound core stays sound by each input, and no input puts out more than `FRAMES_MAX` frames.
pub fn law_inputs_keep_sound()
    ensures { InputsKeepFew }
{}

/// Each input is at most six steps of the ballot model, and all that it puts out shows what is kept at its end.
pub fn law_inputs_are_steps()
    ensures { InputsAreSteps }
{}

/// Each hello and each note that an input puts out is of a master of the roster.
#[tactic(auto, using(crate::proofs::NamedFrames::hellos_name_masters))]
pub fn law_hellos_name_masters()
    ensures { HellosNameMasters }
{}

/// All numbers in what a sound core puts out are in range: epochs of questions, addresses, run ids, names and epochs of
/// hellos, and the epochs of the votes and configurations that its answers and notes show. A message within the limits
/// of a question and of a hello comes to a Sentinel as an event that it may take.
#[tactic(auto, using(crate::proofs::Limiting::outputs_are_within, crate::proofs::Limiting::messages_come_within, crate::proofs::ShownEpochs::epochs_are_within))]
pub fn law_outputs_are_within()
    ensures outputs { OutputsAreWithin }
    ensures epochs { EpochsAreWithin }
    ensures events { MessagesComeWithin }
{}

/// An input that isn't noticed leaves all that is kept as it was, and puts out nothing: what can't be read, what comes
/// from a node that isn't in the roster or from this Sentinel itself, a hello or an answer about no master of the
/// roster, and what is meant for data nodes and clients.
pub fn law_ignored_inputs_change_nothing()
    ensures { IgnoredChangesNothing }
{}

/// Of what is kept an input changes at most the current epoch and the entry of one master: that of the tick, of the
/// question, of the node whose INFO it is, or that the hello names. A configuration that it changes is of a greater
/// epoch: a failover is of an epoch above that of the configuration, until its choice is the configuration. None runs
/// at the start.
pub fn law_inputs_change_one_card()
    ensures at { InputsChangeAt }
    ensures one { InputsChangeOne }
    ensures greater { InputsRaiseCards }
    ensures opened { OpenedIsAhead }
{}
