//! Laws of the list of steps that printed a text, each the contract of a function with no body.

ghost use Rattle.std.specs.Prelude.{ℕ, ◌≡◌, ◌<◌, ◌++◌, List, [], None, ⊤};
ghost use Rattle.std.specs.List.{flat_map};
ghost use Rattle.hg_base.specs.declared.line.Line.{Line};
ghost use Rattle.hg_base.specs.declared.line.Totals.{Totals};
ghost use Rattle.hg_base.specs.Lists.{Each, numbers_from};
ghost use Rattle.hg_base.specs.Script.{Script};
ghost use Rattle.hg_base.specs.Shape.{HasShape};
ghost use Rattle.hg_base.specs.Transcript.{of_session};
ghost use Rattle.hg_core.specs.declared.log.LogEntry.{LogEntry};
ghost use Rattle.hg_core.specs.Reading.{Follows, Tells};
ghost use Rattle.hg_core.specs.Steps.{Always};
ghost use Rattle.hg_headline.specs.OneRun.{AreTotalsAt, HasEnded, IsOneRun};
ghost use Rattle.hg_headline.specs.Ran.{LeavesGc};
ghost use Rattle.hg_headline.specs.Totalled.{TotalsTell};
ghost use Rattle.hg_headline.specs.WorkedSteps.{IsHeldBack, IsMoved, IsRefused};

/// What a driver knows at the end of a list of steps makes its lines and totals those of one run. On one thread the lines follow the
/// logs record by record (`replay`). In threads each session's lines are the replies of its log, and other lines are of session 0
/// (`run`). And totals that logs and visits of a state tell are those of its counters (`totals`).
pub fn one_run_is_printed()
    ensures replay { (sessions more buckets quota long : ℕ) (script : Script) (logs : ℕ → List LogEntry)
        (lines : List Line) (totals : Totals) →
        HasEnded sessions more buckets quota long script logs lines totals →
        HasShape script.records lines →
        Follows buckets (λ logs r line. ⊤) (λ j. []) (λ j. None) script.records lines logs →
        IsOneRun sessions more buckets quota long script lines totals }
    ensures run { (sessions more buckets quota long : ℕ)
        (script : Script) (logs : ℕ → List LogEntry) (lines : ℕ → List Line) (others : List Line)
        (totals : Totals) →
        let all = flat_map lines (numbers_from 1 sessions) ++ others in
        HasEnded sessions more buckets quota long script logs all totals →
        ((j : ℕ) → HasShape (of_session j script.records) (lines j)) →
        ((j : ℕ) → Tells buckets (λ r line. LeavesGc r.statement line.reply.answer) [] None
        (of_session j script.records) (lines j) (logs j)) →
        Each (λ (line : Line). line.session ≡ 0) others →
        IsOneRun sessions more buckets quota long script all totals }
    ensures totals { Always (λ s. (totals : Totals) → 0 < s.buckets →
        TotalsTell s.sessions s.buckets s.passes s.log s.visits s.history totals →
        AreTotalsAt s totals) }
{}

/// Three lists of steps, evaluated: a write that is refused for another's, a read that a collector held versions for, and a snapshot that
/// is moved.
pub fn three_lists_are_worked()
    ensures refused { IsRefused }
    ensures held_back { IsHeldBack }
    ensures moved { IsMoved }
{}
