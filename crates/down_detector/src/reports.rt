//! What the other Sentinels say of one master.

ghost use Rattle.std.specs.Prelude.{◌≡◌, ℕ, ◌+◌, ◌<◌, ◌^◌, nat_le, ◌∷◌, List, [], None, IfOk, length, replicate};
ghost use Rattle.ballot_law.specs.Clocks.{clock};
ghost use Rattle.std.specs.Prelude.{count_by};
ghost use Rattle.down_detector.specs.Ups.{says_up};
ghost use Rattle.ballot_law.specs.Reports.{ReportCall, Reported, Cleared, last_report, down_count, is_odown_by, kept_at, StandsForReports, with_report, without_reports};

use ballot_law::{DownReport, NoMemory, REPORT_MS, clock_of};
use std::alloc::Global;
use std::marker::Model;

/// The last report of each Sentinel about one master, by the Sentinel's place in the roster.
#[derive(Drop)]
pub struct DownReports {
    reports: Vec<Option<DownReport>>,
}

impl Model for DownReports {
    ghost use Rattle.std.specs.Prelude.{List, Option, ◌<◌, ◌^◌, vec_len};
    ghost use Rattle.ballot_law.specs.declared.hearings.DownReport.{DownReport};

    ghost Value = { List (Option DownReport) };

    ghost view = { λ held. held.reports.items };

    ghost invariant = { λ held. vec_len held.reports < 2 ^ 16 };
}

/// How many of the reports say down and are fresh.
fn count_of(reports: &[Option<DownReport>], now: u64) -> u32
    requires { length reports.now < 2 ^ 16 }
    ensures few { result < 2 ^ 16 }
    ensures count { result ≡ down_count now (kept_at reports.now) (length reports.now) }
{
    let mut count = 0;
    for report in reports {
        if let Some(report) = *report
            && report.down
            && now.saturating_sub(report.at) <= REPORT_MS
        {
            count += 1;
        }
    }
    count
}

/// Forgets each report.
fn clear_all(reports: &mut [Option<DownReport>])
    ensures none { (place : ℕ) → kept_at reports.new place ≡ None }
    ensures kept { reports.new ≡ without_reports reports.old }
{
    for report in reports.iter_mut() {
        *report = None;
    }
}

impl DownReports {
    /// No report yet, with room for one of each of `n` Sentinels.
    pub fn new(alloc: Global, n: u16) -> Result<DownReports, NoMemory>
        ensures sentinels { IfOk result (λ reports. length reports ≡ n) }
        ensures none { IfOk result (λ reports. StandsForReports reports []) }
        ensures kept { IfOk result (λ reports. reports ≡ replicate n None) }
    {
        Ok(DownReports {
            reports: vec![in alloc; None; n as usize]?,
        })
    }

    /// For how many Sentinels there is room.
    pub fn sentinels(&self) -> usize
        ensures { result ≡ length self.now }
    {
        self.reports.len()
    }

    /// The Sentinel at a place answered whether it finds the master down. Its earlier reports no longer count.
    pub fn report(&mut self, place: u16, down: bool, now: u64)
        requires { place < length self.old }
        ensures sentinels { length self.new ≡ length self.old }
        ensures reported { (calls : List ReportCall) → StandsForReports self.old calls
            → StandsForReports self.new
            (Reported place (record { down = down; at = clock now }) ∷ calls) }
        ensures kept { self.new ≡ with_report place (record { down = down; at = clock now }) self.old }
    {
        self.reports[place as usize] = Some(DownReport {
            down,
            at: clock_of(now),
        });
    }

    /// How many said last that the master is up, at this moment in milliseconds or later.
    pub fn up_since(&self, since: u64) -> usize
        ensures { result ≡ count_by (says_up since) self.now }
    {
        self.reports
            .iter()
            .filter(|report| match report {
                Some(report) => !report.down && since <= report.at,
                None => false,
            })
            .count()
    }

    /// Forgets all reports, as when the master's address changes.
    pub fn clear(&mut self)
        ensures sentinels { length self.new ≡ length self.old }
        ensures cleared { (calls : List ReportCall) → StandsForReports self.old calls
            → StandsForReports self.new (Cleared ∷ calls) }
        ensures kept { self.new ≡ without_reports self.old }
    {
        clear_all(&mut self.reports);
    }

    /// Whether this Sentinel, with those whose last report says down and is fresh, makes a quorum.
    fn make_quorum(&self, now: u64, quorum: u32) -> bool
        ensures quorum { (calls : List ReportCall) → StandsForReports self.now calls
            → result
            ≡ nat_le quorum (1 + down_count (clock now) (last_report calls) (length self.now)) }
        ensures kept { result ≡ nat_le quorum (1 + down_count (clock now) (kept_at self.now) (length self.now)) }
    {
        quorum <= 1 + count_of(&self.reports, clock_of(now))
    }
}

/// Whether a master is objectively down (the Redis Sentinel documentation, "SDOWN and ODOWN failure state"): this
/// Sentinel finds it subjectively down, which `own` tells, and with the others whose last report says so and is at most
/// 5,000 ms old they are at least `quorum`. The reports are those of others: a Sentinel reports nothing to itself.
pub fn is_odown(own: bool, reports: &DownReports, now: u64, quorum: u32) -> bool
    ensures odown { (calls : List ReportCall) → StandsForReports reports.now calls
        → result ≡ is_odown_by own (last_report calls) (length reports.now) (clock now) quorum }
    ensures kept { result ≡ is_odown_by own (kept_at reports.now) (length reports.now) (clock now) quorum }
{
    own && reports.make_quorum(now, quorum)
}
