//! Laws of what the counters of the buckets show, each the contract of a function with no body.

ghost use Rattle.std.specs.Prelude.{◌≡◌, ℕ, suc, ◌<◌, ◌≤◌, List, [], length, None};
ghost use Rattle.hg_base.specs.declared.line.Totals.{Totals};
ghost use Rattle.hg_base.specs.Lists.{Each};
ghost use Rattle.hg_base.specs.History.{History};
ghost use Rattle.hg_core.specs.declared.log.LogEntry.{LogEntry};
ghost use Rattle.hg_core.specs.declared.visit.Visit.{Visit};
ghost use Rattle.hg_core.specs.Logs.{current, newest_of};
ghost use Rattle.hg_core.specs.Steps.{Always};
ghost use Rattle.hg_base.specs.declared.line.Line.{Line};
ghost use Rattle.hg_base.specs.declared.report.Kind.{Kind};
ghost use Rattle.hg_base.specs.declared.rid.Rid.{Rid};
ghost use Rattle.hg_base.specs.declared.statement.Record.{Record};
ghost use Rattle.hg_base.specs.Shape.{HasShape};
ghost use Rattle.hg_base.specs.Transcript.{said_from};
ghost use Rattle.hg_core.specs.Counters.{removed_all};
ghost use Rattle.hg_core.specs.Few.{IsCleanFor};
ghost use Rattle.hg_core.specs.Reading.{Follows};
ghost use Rattle.hg_core.specs.Sums.{sum_below};
ghost use Rattle.hg_headline.specs.Few.{HoldsFew};
ghost use Rattle.hg_headline.specs.Following.{told_removed};
ghost use Rattle.hg_headline.specs.Met.{IsMet};
ghost use Rattle.hg_headline.specs.Totalled.{AreCounts, BucketTells, SumTells, TotalsTell, plus};

/// Where no transaction is open, the counters of one bucket tell of logs, visits and history alone. So do the sums of those of
/// all buckets, taken one after the other. And the logs tell how long the history is.
pub fn buckets_tell()
    ensures bucket { Always (λ s.
        ((j : ℕ) → current (s.log j) ≡ None) → (b : ℕ) (counts : Totals) →
        AreCounts (s.counters b) counts →
        BucketTells s.sessions s.buckets s.passes s.log s.visits s.history b counts) }
    ensures more { (sessions buckets passes : ℕ) (logs : ℕ → List LogEntry)
        (visits : ℕ → List Visit) (h : History) (n : ℕ) (sums counts : Totals) →
        SumTells sessions buckets passes logs visits h n sums →
        BucketTells sessions buckets passes logs visits h n counts →
        SumTells sessions buckets passes logs visits h (suc n) (plus sums counts) }
    ensures all { (sessions buckets passes : ℕ) (logs : ℕ → List LogEntry)
        (visits : ℕ → List Visit) (h : History) (sums : Totals) → 0 < buckets →
        ((p : ℕ) → Each (λ (v : Visit). v.bucket < buckets) (visits p)) →
        SumTells sessions buckets passes logs visits h buckets sums →
        TotalsTell sessions buckets passes logs visits h sums }
    ensures mark { Always (λ s. length s.history ≡ newest_of s.sessions s.log) }
{}

/// An interval round leaves few versions. Where the lines follow the logs of a state in which each record is clean at the mark, for at
/// most n snapshots, and their reports tell all that the collectors removed, then of the versions that these lines committed, and that
/// were not removed, there are at most n + 1 for each record that they wrote.
pub fn few_are_held()
    ensures { Always (λ s.
        (n : ℕ) (records : List Record) (lines : List Line) → 0 < s.buckets →
        ((r : Rid) → IsCleanFor s n r) →
        Each (λ r. (1 ≤ r.session) × (r.session ≤ s.sessions)) records → HasShape records lines →
        Follows s.buckets (IsMet s.sessions) (λ j. []) (λ j. None) records lines s.log →
        ((kind : Kind) →
        sum_below s.passes (λ p. removed_all kind (s.visits p)) ≡ told_removed kind lines) →
        HoldsFew n (said_from [] records lines)) }
{}
