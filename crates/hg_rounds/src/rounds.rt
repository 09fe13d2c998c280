//! A collector's rounds: its pass, what it gathered, and its report.

ghost use Rattle.std.specs.Prelude.{◌≡◌, ◌≤◌, IfOk, IfErr};
ghost use Rattle.hg_rule.specs.declared.view.PassPart.{PassPart};
ghost use Rattle.hg_rule.specs.Seats.{BoardId, IsPassOf};
ghost use Rattle.hg_tracker.specs.Gathers.{IsGatherOf};
ghost use Rattle.hg_rounds.specs.Reports.{IsReportBy, IsUnwritten};

use hg_base::{EntryList, Kind, NoMemory, Report};
use hg_rule::CollectorPass;
use hg_tracker::Gathered;
use std::alloc::Global;

/// A collector's pass, with room for a gather and for the report of its last round. A visit needs the pass and what was gathered
/// at once, so collectors borrow the fields.
#[derive(Drop)]
pub struct Rounds {
    pub pass: CollectorPass,
    pub gathered: Gathered,
    pub report: Report,
}

impl Rounds {
    ghost use Rattle.std.specs.Prelude.{ℕ};
    ghost use Rattle.std.specs.Borrow.{sem};
    ghost use Rattle.hg_rule.specs.declared.view.Sizes.{Sizes};
    ghost use Rattle.hg_rounds.specs.contracts.rounds.Rounds.{the_row};
    ghost use Rattle.hg_rounds.specs.Lending.{LendsPass};
    ghost use Rattle.hg_rounds.specs.Rounds.{pass_of, report_in, with_pass, AreRoundsOf};

    /// Takes all memory that rounds of a collector of this kind need, at a board of so many sessions and tables. A refusal hands
    /// the pass back.
    pub fn new(
        alloc: Global,
        kind: Kind,
        pass: CollectorPass,
        sessions: u32,
        tables: u32,
    ) -> Result<Rounds, (CollectorPass, NoMemory)>
        requires tables { tables ≤ 64 }
        // for each board of which the pass is one, and which has so many sessions and tables
        ensures rounds { (t : BoardId) (z : Sizes) → IsPassOf t pass → z.sessions ≡ sessions →
            z.tables ≡ tables → IfOk result (AreRoundsOf t z) }
        ensures same { IfOk result (λ r. pass_of r ≡ pass) }
        ensures report { IfOk result (λ r. IsUnwritten kind sessions (report_in r)) }
        ensures refused { IfErr result (λ e. e.0 ≡ pass) }
    {
        let Ok(gathered) = Gathered::new(alloc, sessions, tables) else {
            return Err((pass, NoMemory));
        };
        let Ok(entries) = EntryList::with_capacity(alloc, sessions as usize) else {
            return Err((pass, NoMemory));
        };
        let report = Report {
            kind,
            mark: 0,
            horizon: 0,
            removed: 0,
            entries,
        };
        Ok(Rounds {
            pass,
            gathered,
            report,
        })
    }

    /// The pass, which the collector gives up.
    pub fn into_pass(self) -> CollectorPass
        ensures { result ≡ pass_of self }
    {
        self.pass
    }

    /// Lends the pass between two rounds.
    pub fn lend(&mut self) -> &mut CollectorPass
        ensures* back { sem 𝓛 (LendsPass the_row with_pass self.entry result) }
        ensures pass { result.now ≡ pass_of self.old }
    {
        &mut self.pass
    }

    /// The report of the last round.
    pub fn report(&self) -> &Report
        ensures { result.now ≡ report_in self.now }
    {
        &self.report
    }

    /// Replaces the last round's report by what was gathered now and how many versions were removed. Allocates nothing.
    pub fn rewrite(&mut self, kind: Kind, removed: u64)
        requires room { (sessions : ℕ) × (part : PassPart) ×
            IsGatherOf sessions part self.old.gathered × (sessions ≤ self.old.report.entries.room) }
        ensures reports { (sessions : ℕ) (part : PassPart) →
            IsGatherOf sessions part self.old.gathered →
            IsReportBy kind part removed (report_in self.new) }
        ensures room { self.old.report.entries.room ≤ self.new.report.entries.room }
        ensures same { (pass_of self.new ≡ pass_of self.old) ×
            (self.new.gathered ≡ self.old.gathered) }
        ensures rounds { (t : BoardId) (z : Sizes) →
            AreRoundsOf t z self.old → AreRoundsOf t z self.new }
    {
        self.report.kind = kind;
        self.report.mark = self.gathered.mark();
        self.report.horizon = self.gathered.horizon();
        self.report.removed = removed;
        self.report.entries.refill(self.gathered.entries());
    }
}
