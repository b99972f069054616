//! The events of a Sentinel.

ghost use Rattle.std.specs.Prelude.{◌≡◌};
ghost use Rattle.pubsub.specs.Telling.{channel_name};

use ballot_law::Text;

/// The channel of an event: what happened, by the name that redis-sentinel gives it.
#[derive(Clone, Copy, Debug, PartialEq, Eq)]
pub enum Channel {
    /// `+sdown`
    SubjectivelyDown,
    /// `-sdown`
    SubjectivelyUp,
    /// `+odown`
    ObjectivelyDown,
    /// `-odown`
    ObjectivelyUp,
    /// `+new-epoch`
    NewEpoch,
    /// `+try-failover`
    TryFailover,
    /// `+vote-for-leader`
    VoteForLeader,
    /// `+elected-leader`
    ElectedLeader,
    /// `+failover-state-select-slave`
    SelectReplica,
    /// `+selected-slave`
    SelectedReplica,
    /// `+failover-state-send-slaveof-noone`
    SendReplicaOfNoOne,
    /// `+promoted-slave`
    PromotedReplica,
    /// `+switch-master`
    SwitchMaster,
    /// `+slave-reconf-sent`
    ReplicaReconfigured,
    /// `+failover-end`
    FailoverEnd,
    /// `-failover-abort-slave-timeout`
    AbortReplicaTimeout,
    /// `-failover-abort-not-elected`
    AbortNotElected,
    /// `-failover-abort-no-good-slave`
    AbortNoGoodReplica,
    /// `+config-update-from`
    ConfigUpdateFrom,
    /// `+convert-to-slave`
    ConvertToReplica,
    /// `+fix-slave-config`
    FixReplicaConfig,
    /// `+tilt`
    TiltEntered,
    /// `-tilt`
    TiltExited,
}

impl Channel {
    /// The name of the channel, as clients subscribe to it and as a note of the log begins.
    pub fn name(self) -> &'static [u8]
        ensures { result.now ≡ channel_name self }
    {
        match self {
            Channel::SubjectivelyDown => b"+sdown",
            Channel::SubjectivelyUp => b"-sdown",
            Channel::ObjectivelyDown => b"+odown",
            Channel::ObjectivelyUp => b"-odown",
            Channel::NewEpoch => b"+new-epoch",
            Channel::TryFailover => b"+try-failover",
            Channel::VoteForLeader => b"+vote-for-leader",
            Channel::ElectedLeader => b"+elected-leader",
            Channel::SelectReplica => b"+failover-state-select-slave",
            Channel::SelectedReplica => b"+selected-slave",
            Channel::SendReplicaOfNoOne => b"+failover-state-send-slaveof-noone",
            Channel::PromotedReplica => b"+promoted-slave",
            Channel::SwitchMaster => b"+switch-master",
            Channel::ReplicaReconfigured => b"+slave-reconf-sent",
            Channel::FailoverEnd => b"+failover-end",
            Channel::AbortReplicaTimeout => b"-failover-abort-slave-timeout",
            Channel::AbortNotElected => b"-failover-abort-not-elected",
            Channel::AbortNoGoodReplica => b"-failover-abort-no-good-slave",
            Channel::ConfigUpdateFrom => b"+config-update-from",
            Channel::ConvertToReplica => b"+convert-to-slave",
            Channel::FixReplicaConfig => b"+fix-slave-config",
            Channel::TiltEntered => b"+tilt",
            Channel::TiltExited => b"-tilt",
        }
    }
}

/// An event of a Sentinel: its channel, and what is told there, as a note of the log has it after the channel's name.
#[derive(Drop)]
pub struct Event {
    pub channel: Channel,
    pub text: Text,
}
