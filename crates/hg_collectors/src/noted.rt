//! What is reported of rounds can be read from what their pass noted.

ghost use Rattle.std.specs.Prelude.{◌≡◌, ℕ, List};
ghost use Rattle.hg_base.specs.declared.report.Kind.{Kind};
ghost use Rattle.hg_base.specs.declared.report.Sweep.{Sweep};
ghost use Rattle.hg_core.specs.State.{CoreState};
ghost use Rattle.hg_headline.specs.OneRun.{HasReported};
ghost use Rattle.hg_rule.specs.Facts.{new_pass};
ghost use Rattle.hg_rule.specs.Views.{pass};
ghost use Rattle.hg_rule.specs.declared.view.Sizes.{Sizes};
ghost use Rattle.hg_rule.specs.declared.view.View.{View};
ghost use Rattle.hg_collectors.specs.Noted.{AreNoted, HasNoted};
ghost use Rattle.hg_collectors.specs.Rounding.{IsRoundBy, AreRounds};

/// Rounds are noted. The journal of a collector's pass has a round for each report, and no other. From what it notes of a round, and
/// from the visits of that round, come the report and the tries to move snapshots, each bucket that the round had to leave cut or
/// clean was left so, and each record of a group that it took was cut.
pub fn rounds_are_noted()
    ensures { (kind : Kind) (z : Sizes) (long : ℕ) (v w : View) (sweeps : List Sweep) →
        AreRounds (IsRoundBy kind z long) v sweeps w → AreNoted kind long z.buckets v sweeps w }
{}

/// So a state that has noted all of it has these reports, and no other before them: they are those of the rounds of one list of steps,
/// where the pass was new at first.
pub fn noted_rounds_are_reported()
    ensures { (kind : Kind) (long : ℕ) (s : CoreState) (v w : View) (sweeps : List Sweep) →
        pass v ≡ new_pass → AreNoted kind long s.buckets v sweeps w → HasNoted kind s w →
        HasReported kind long s sweeps }
{}
