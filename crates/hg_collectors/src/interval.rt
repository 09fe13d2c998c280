//! The interval collector of an engine: one collector, or a team of helpers.

ghost use Rattle.std.specs.Prelude.{◌≡◌, ◌≤◌, IfOk};
ghost use Rattle.hg_rule.specs.Keys.{first_share};
ghost use Rattle.hg_rule.specs.Views.{pass as own_pass};
ghost use Rattle.hg_rule.specs.Seats.{BoardId, pass_view, IsPassOf};

use hg_base::NoMemory;
use hg_rounds::{IntervalCollector, SweepTeam};
use hg_rule::CollectorPass;
use std::alloc::Global;

/// Makes the rounds of the interval collector.
#[derive(Drop)]
pub enum IntervalWorker {
    One(IntervalCollector),
    Team(SweepTeam),
}

impl IntervalWorker {
    ghost use Rattle.hg_rule.specs.declared.view.Sizes.{Sizes};
    ghost use Rattle.hg_collectors.specs.Workers.{pass_of, HasHelpers, IsCollectorOf};

    /// If memory runs out, the pass is lost.
    pub fn new(
        alloc: Global,
        pass: CollectorPass,
        helpers: u32,
        sessions: u32,
        tables: u32,
    ) -> Result<IntervalWorker, NoMemory>
        requires tables { tables ≤ 64 }
        requires helpers { helpers ≤ 16 }
        ensures helpers { IfOk result (HasHelpers helpers) }
        ensures same { IfOk result (λ w. pass_of w ≡ pass) }
        // for each board of which the pass is one, with all of its share, and which has so many sessions and tables
        ensures own { (t : BoardId) (z : Sizes) →
            IsPassOf t pass → (own_pass (pass_view pass)).share ≡ first_share →
            z.sessions ≡ sessions → z.tables ≡ tables → IfOk result (IsCollectorOf t z) }
    {
        if helpers > 1 {
            let Ok(team) = SweepTeam::new(alloc, pass, helpers, sessions, tables) else {
                return Err(NoMemory);
            };
            return Ok(IntervalWorker::Team(team));
        }
        let Ok(one) = IntervalCollector::new(alloc, pass, sessions, tables) else {
            return Err(NoMemory);
        };
        Ok(IntervalWorker::One(one))
    }

    /// Gives up the pass.
    pub fn into_pass(self) -> CollectorPass
        ensures { result ≡ pass_of self }
    {
        match self {
            IntervalWorker::One(one) => one.rounds.into_pass(),
            IntervalWorker::Team(team) => team.rounds.into_pass(),
        }
    }
}
