//! How long what a Sentinel hears counts, and how far its clock may jump, in milliseconds.

/// How old a report of another Sentinel may be that counts.
pub const REPORT_MS: u64 = 5_000;

/// How much longer a master may report itself a replica than be silent.
pub const REPLICA_MS: u64 = 20_000;

/// How long a master that is to hand over waits for its replica to have all writes, and holds its clients' writes back.
pub const HAND_OVER_MS: u64 = 2_000;

/// How far a clock may go ahead between two turns.
pub const STEP_MS: u64 = 2_000;

/// How long TILT lasts after a jump of the clock.
pub const TILT_MS: u64 = 30_000;
