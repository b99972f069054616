//! What is known of every answer.

ghost use Rattle.port_answers.specs.Limits.{MasterFits, MastersFit, ReplicasFit, SentinelsFit, SectionsFit, RedisMasterFits, RedisMastersFit, RedisReplicasFit, RedisSentinelsFit, LinesFit};

/// The answers to the port's commands have room in an `AnswerText` that was empty: one master, a list of up to 16
/// masters, of up to 256 replicas or of up to 64 Sentinels, the section of INFO on up to 16 masters, and each line. So
/// have those in redis-sentinel's words.
pub fn law_answers_fit()
    ensures master { MasterFits }
    ensures masters { MastersFit }
    ensures replicas { ReplicasFit }
    ensures sentinels { SentinelsFit }
    ensures section { SectionsFit }
    ensures redis_master { RedisMasterFits }
    ensures redis_masters { RedisMastersFit }
    ensures redis_replicas { RedisReplicasFit }
    ensures redis_sentinels { RedisSentinelsFit }
    ensures lines { LinesFit }
{}
