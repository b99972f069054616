//! The directives that a Redis knows, as data.

ghost use Rattle.std.specs.Prelude.{◌≡◌, IfOk};
ghost use Rattle.std.specs.List.{list_any};
ghost use Rattle.ballot_law.specs.Cuts.{lines};
ghost use Rattle.ballot_law.specs.Orders.{same_bytes};
ghost use Rattle.ballot_law.specs.Words.{lower};
ghost use Rattle.sentinel_conf.specs.Watch.KnownDirectives.{sentinel_names, is_sentinel_directive};

use ballot_law::{NoMemory, is_same_bytes};
use std::alloc::{AllocError, Global};
use tokens::split_line;

/// Names of directives, in lower case, one a line.
#[derive(Clone, Copy)]
pub struct Directives {
    /// Those with which a line begins.
    pub first: &'static [u8],
    /// Those behind `sentinel`.
    pub sentinel: &'static [u8],
}

impl Directives {
    /// Those of Redis 7.2: what `CONFIG GET *` of a server lists, what stands in its files besides, and
    /// `sentinel leader-id`, which this project alone writes.
    pub fn of_redis() -> Directives
        ensures first { lower result.first.now ≡ result.first.now }
        ensures sentinel { lower result.sentinel.now ≡ result.sentinel.now }
        ensures names { lines result.sentinel.now ≡ sentinel_names }
    {
        Directives {
            first: FIRST,
            sentinel: SENTINEL,
        }
    }
}

/// The word in lower case. AllocError: memory was refused.
pub fn lowered(alloc: Global, word: &[u8]) -> Result<Vec<u8>, AllocError>
    ensures { IfOk result (λ low. low.items ≡ lower word.now) }
{
    word.iter()
        .map(|byte| byte.to_ascii_lowercase())
        .collect(alloc)
}

/// Whether the word is a line of the table.
pub fn is_listed(table: &[u8], word: &[u8]) -> bool
    ensures { result ≡ list_any (same_bytes word.now) (lines table.now) }
{
    let mut rest = table;
    while !rest.is_empty() {
        let (name, more) = split_line(rest);
        if is_same_bytes(word, name) {
            return true;
        }
        rest = more;
    }
    false
}

/// Whether a Redis knows this name behind `sentinel`, in whatever case.
pub(crate) fn is_sentinel_directive(alloc: Global, name: &[u8]) -> Result<bool, NoMemory>
    ensures { IfOk result (λ known. known ≡ is_sentinel_directive name.now) }
{
    let known = Directives::of_redis();
    let word = lowered(alloc, name)?;
    Ok(is_listed(known.sentinel, &word))
}

/// The directives with which a line begins.
const FIRST: &[u8] = b"acl-pubsub-default\n\
aclfile\n\
acllog-max-len\n\
active-defrag-cycle-max\n\
active-defrag-cycle-min\n\
active-defrag-ignore-bytes\n\
active-defrag-max-scan-fields\n\
active-defrag-threshold-lower\n\
active-defrag-threshold-upper\n\
active-expire-effort\n\
activedefrag\n\
activerehashing\n\
always-show-logo\n\
aof-disable-auto-gc\n\
aof-load-truncated\n\
aof-rewrite-incremental-fsync\n\
aof-timestamp-enabled\n\
aof-use-rdb-preamble\n\
aof_rewrite_cpulist\n\
appenddirname\n\
appendfilename\n\
appendfsync\n\
appendonly\n\
auto-aof-rewrite-min-size\n\
auto-aof-rewrite-percentage\n\
bgsave_cpulist\n\
bind\n\
bind-source-addr\n\
bio_cpulist\n\
busy-reply-threshold\n\
client-output-buffer-limit\n\
client-query-buffer-limit\n\
cluster-allow-pubsubshard-when-down\n\
cluster-allow-reads-when-down\n\
cluster-allow-replica-migration\n\
cluster-announce-bus-port\n\
cluster-announce-hostname\n\
cluster-announce-human-nodename\n\
cluster-announce-ip\n\
cluster-announce-port\n\
cluster-announce-tls-port\n\
cluster-config-file\n\
cluster-enabled\n\
cluster-link-sendbuf-limit\n\
cluster-migration-barrier\n\
cluster-node-timeout\n\
cluster-port\n\
cluster-preferred-endpoint-type\n\
cluster-replica-no-failover\n\
cluster-replica-validity-factor\n\
cluster-require-full-coverage\n\
cluster-slave-no-failover\n\
cluster-slave-validity-factor\n\
crash-log-enabled\n\
crash-memcheck-enabled\n\
daemonize\n\
databases\n\
dbfilename\n\
dir\n\
disable-thp\n\
dynamic-hz\n\
enable-debug-command\n\
enable-module-command\n\
enable-protected-configs\n\
hash-max-listpack-entries\n\
hash-max-listpack-value\n\
hash-max-ziplist-entries\n\
hash-max-ziplist-value\n\
hll-sparse-max-bytes\n\
hz\n\
ignore-warnings\n\
include\n\
io-threads\n\
io-threads-do-reads\n\
jemalloc-bg-thread\n\
latency-monitor-threshold\n\
latency-tracking\n\
latency-tracking-info-percentiles\n\
lazyfree-lazy-eviction\n\
lazyfree-lazy-expire\n\
lazyfree-lazy-server-del\n\
lazyfree-lazy-user-del\n\
lazyfree-lazy-user-flush\n\
lfu-decay-time\n\
lfu-log-factor\n\
list-compress-depth\n\
list-max-listpack-size\n\
list-max-ziplist-size\n\
loadmodule\n\
locale-collate\n\
logfile\n\
loglevel\n\
lua-time-limit\n\
masterauth\n\
masteruser\n\
maxclients\n\
maxmemory\n\
maxmemory-clients\n\
maxmemory-eviction-tenacity\n\
maxmemory-policy\n\
maxmemory-samples\n\
min-replicas-max-lag\n\
min-replicas-to-write\n\
min-slaves-max-lag\n\
min-slaves-to-write\n\
no-appendfsync-on-rewrite\n\
notify-keyspace-events\n\
oom-score-adj\n\
oom-score-adj-values\n\
pidfile\n\
port\n\
proc-title-template\n\
propagation-error-behavior\n\
protected-mode\n\
proto-max-bulk-len\n\
rdb-del-sync-files\n\
rdb-save-incremental-fsync\n\
rdbchecksum\n\
rdbcompression\n\
rename-command\n\
repl-backlog-size\n\
repl-backlog-ttl\n\
repl-disable-tcp-nodelay\n\
repl-diskless-load\n\
repl-diskless-sync\n\
repl-diskless-sync-delay\n\
repl-diskless-sync-max-replicas\n\
repl-ping-replica-period\n\
repl-ping-slave-period\n\
repl-timeout\n\
replica-announce-ip\n\
replica-announce-port\n\
replica-announced\n\
replica-ignore-disk-write-errors\n\
replica-ignore-maxmemory\n\
replica-lazy-flush\n\
replica-priority\n\
replica-read-only\n\
replica-serve-stale-data\n\
replicaof\n\
requirepass\n\
sanitize-dump-payload\n\
save\n\
sentinel\n\
server_cpulist\n\
set-max-intset-entries\n\
set-max-listpack-entries\n\
set-max-listpack-value\n\
set-proc-title\n\
shutdown-on-sigint\n\
shutdown-on-sigterm\n\
shutdown-timeout\n\
slave-announce-ip\n\
slave-announce-port\n\
slave-ignore-maxmemory\n\
slave-lazy-flush\n\
slave-priority\n\
slave-read-only\n\
slave-serve-stale-data\n\
slaveof\n\
slowlog-log-slower-than\n\
slowlog-max-len\n\
socket-mark-id\n\
stop-writes-on-bgsave-error\n\
stream-node-max-bytes\n\
stream-node-max-entries\n\
supervised\n\
syslog-enabled\n\
syslog-facility\n\
syslog-ident\n\
tcp-backlog\n\
tcp-keepalive\n\
timeout\n\
tls-auth-clients\n\
tls-ca-cert-dir\n\
tls-ca-cert-file\n\
tls-cert-file\n\
tls-ciphers\n\
tls-ciphersuites\n\
tls-client-cert-file\n\
tls-client-key-file\n\
tls-client-key-file-pass\n\
tls-cluster\n\
tls-dh-params-file\n\
tls-key-file\n\
tls-key-file-pass\n\
tls-port\n\
tls-prefer-server-ciphers\n\
tls-protocols\n\
tls-replication\n\
tls-session-cache-size\n\
tls-session-cache-timeout\n\
tls-session-caching\n\
tracking-table-max-keys\n\
unixsocket\n\
unixsocketperm\n\
user\n\
zset-max-listpack-entries\n\
zset-max-listpack-value\n\
zset-max-ziplist-entries\n\
zset-max-ziplist-value\n";

/// The directives behind `sentinel`.
const SENTINEL: &[u8] = b"announce-hostnames\n\
announce-ip\n\
announce-port\n\
auth-pass\n\
auth-user\n\
client-reconfig-script\n\
config-epoch\n\
current-epoch\n\
deny-scripts-reconfig\n\
down-after-milliseconds\n\
failover-timeout\n\
known-replica\n\
known-sentinel\n\
known-slave\n\
leader-epoch\n\
leader-id\n\
master-reboot-down-after-period\n\
monitor\n\
myid\n\
notification-script\n\
parallel-syncs\n\
rename-command\n\
resolve-hostnames\n\
sentinel-pass\n\
sentinel-user\n";
