//! Laws of what a command knows, each the contract of a function with no body.

ghost use Rattle.std.specs.Prelude.{◌≡◌, ℕ, ◌<◌, ◌≤◌, List, [], ◌∷◌, length};
ghost use Rattle.hg_base.specs.declared.line.Line.{Line};
ghost use Rattle.hg_base.specs.declared.line.Printed.{Printed};
ghost use Rattle.hg_base.specs.declared.line.Totals.{Totals};
ghost use Rattle.hg_base.specs.declared.report.Report.{Report};
ghost use Rattle.hg_base.specs.declared.statement.Record.{Record};
ghost use Rattle.hg_base.specs.Lists.{Each};
ghost use Rattle.hg_base.specs.History.{History};
ghost use Rattle.hg_base.specs.Script.{Script, replay, run};
ghost use Rattle.hg_base.specs.Transcript.{said_from};
ghost use Rattle.hg_base.specs.Sound.{LinesAreSound, IsSound, all_said};
ghost use Rattle.hg_core.specs.declared.log.LogEntry.{LogEntry};
ghost use Rattle.hg_base.specs.declared.report.Kind.{Kind};
ghost use Rattle.hg_base.specs.Counts.{live};
ghost use Rattle.hg_core.specs.Sums.{sum_below};
ghost use Rattle.hg_core.specs.Counters.{removed_by, total, removed_all};
ghost use Rattle.hg_core.specs.Steps.{Always};
ghost use Rattle.hg_headline.specs.Logged.{Logged};
ghost use Rattle.hg_headline.specs.Boards.{IsSettled};
ghost use Rattle.hg_headline.specs.Replayed.{HasReplayed};
ghost use Rattle.hg_headline.specs.Counted.{Closes, IsCounted, made_in, undone_in};
ghost use Rattle.hg_headline.specs.Ran.{HasRun, run_lines};
ghost use Rattle.hg_headline.specs.Worked as worked;

use hg_base::Kind;

/// What a replay knows at its end makes its lines sound, and its totals with them, which it counts in the logs as they are
/// closed.
pub fn replay_is_sound()
    ensures lines { (buckets sessions top : ℕ) (h : History) (logs : ℕ → List LogEntry)
        (script : Script) (lines : List Line) →
        HasReplayed buckets sessions h logs top script.records lines →
        LinesAreSound replay script lines }
    ensures whole { (buckets sessions top : ℕ) (h : History)
        (logs closed : ℕ → List LogEntry) (script : Script) (printed : Printed) →
        HasReplayed buckets sessions h logs top script.records printed.lines →
        ((j : ℕ) → Closes (logs j) (closed j)) →
        IsCounted sessions h closed (all_said replay script printed.lines) printed.totals →
        IsSound replay script printed }
{}

/// What a run knows at its end makes its lines sound, and its totals with them, which it counts in the logs as they are closed.
pub fn run_is_sound()
    ensures lines { (buckets : ℕ) (h : History)
        (logs : ℕ → List LogEntry) (rounds : ℕ) (script : Script)
        (lines : ℕ → List Line) (group table interval : List Report) →
        HasRun buckets h logs rounds script.records lines group table interval →
        LinesAreSound (run rounds) script (run_lines script.records lines group table interval) }
    ensures whole { (buckets sessions : ℕ) (h : History)
        (logs closed : ℕ → List LogEntry) (rounds : ℕ) (script : Script)
        (lines : ℕ → List Line) (group table interval : List Report) (totals : Totals) →
        HasRun buckets h logs rounds script.records lines group table interval →
        Each (λ (r : Record). r.session ≤ sessions) script.records →
        ((j : ℕ) → Closes (logs j) (closed j)) →
        let printed = run_lines script.records lines group table interval in
        IsCounted sessions h closed (all_said (run rounds) script printed) totals →
        IsSound (run rounds) script (record { lines = printed; totals = totals }) }
{}

/// What the core says of its states is what is needed here of a history and its logs. And its counters, over all buckets, are
/// what the logs made and took back, what the visits removed, and, where every bucket is settled, one version for each live
/// record.
pub fn states_are_logged()
    ensures logged { Always (λ s. 0 < s.buckets → Logged s.buckets s.history s.log) }
    ensures made { Always (λ s.
        0 < s.buckets →
        sum_below s.buckets (λ b. (s.counters b).made) ≡ made_in s.sessions s.log) }
    ensures undone { Always (λ s.
        0 < s.buckets →
        sum_below s.buckets (λ b. (s.counters b).undone) ≡ undone_in s.sessions s.log) }
    ensures removed { Always (λ s.
        (kind : Kind) →
        sum_below s.buckets (λ b. removed_by kind (s.counters b).removed) ≡
        sum_below s.passes (λ p. removed_all kind (s.visits p))) }
    ensures left { Always (λ s.
        0 < s.buckets → ((b : ℕ) → b < s.buckets → IsSettled s b) →
        sum_below s.buckets (λ b. total (s.bucket b)) ≡ length (live s.history)) }
{}

/// The premises can be met: by a replay with a conflict, a rollback and a collector's pass, and by a run.
pub fn premises_are_met()
    ensures replay { (logs : ℕ → List LogEntry) ×
        HasReplayed 1 2 worked.history logs 1 worked.records worked.lines ×
        ((j : ℕ) → Closes (logs j) (logs j)) ×
        IsCounted 2 worked.history logs (said_from [] worked.records worked.lines) worked.totals }
    ensures run { (logs : ℕ → List LogEntry) ×
        HasRun 1 worked.history logs 1 worked.run_records worked.session_lines
        (worked.report Kind.Group ∷ []) (worked.report Kind.Table ∷ [])
        (worked.report Kind.Interval ∷ []) }
{}
