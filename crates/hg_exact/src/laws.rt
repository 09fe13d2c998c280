//! Laws of what is replayed, each the contract of a function with no body.

ghost use Rattle.std.specs.Prelude.{◌≡◌, ℕ, ◌<◌, ◌≤◌, List, [], length, map, None, IfSome, IsTrue, ◌↔◌};
ghost use Rattle.hg_base.specs.declared.line.Line.{Line};
ghost use Rattle.hg_base.specs.declared.line.Totals.{Totals};
ghost use Rattle.hg_base.specs.declared.rid.Rid.{Rid};
ghost use Rattle.hg_base.specs.Counts.{AreTotals};
ghost use Rattle.hg_base.specs.History.{History, does_write};
ghost use Rattle.hg_base.specs.Lists.{EachAfter, greatest};
ghost use Rattle.hg_base.specs.Script.{Script, replay};
ghost use Rattle.hg_base.specs.Sound.{LinesAreSound, all_said};
ghost use Rattle.hg_base.specs.Transcript.{committed, greatest_commit, history_of};
ghost use Rattle.hg_core.specs.declared.log.LogEntry.{LogEntry};
ghost use Rattle.hg_core.specs.Reading.{Follows};
ghost use Rattle.hg_headline.specs.Counted.{Closes};
ghost use Rattle.hg_headline.specs.Following.{IsFollowing};
ghost use Rattle.hg_headline.specs.Logged.{Logged};
ghost use Rattle.hg_headline.specs.Replayed.{HasReplayed};
ghost use Rattle.hg_headline.specs.Timely.{Rises};
ghost use Rattle.hg_exact.specs.First.{IsFirst};
ghost use Rattle.hg_exact.specs.Lawful.{AreAnswered, MovesDeclared};
ghost use Rattle.hg_exact.specs.Replayed.{plain, replayed};
ghost use Rattle.hg_core.specs.Shown.{IsNewestIn, ShowsFirsts};
ghost use Rattle.hg_exact.specs.State.{start};
ghost use Rattle.hg_script.specs.Lawful.{IsLawful};

/// What is replayed is sound, whatever its reports say was removed, and if they say of no transaction that it was moved which did
/// not declare its tables.
pub fn what_is_replayed_is_sound()
    ensures lines { (script : Script) (lines : List Line) → map plain lines ≡ replayed script →
        AreAnswered (start (greatest (map (λ r. r.session) script.records))) script.records →
        EachAfter MovesDeclared [] (all_said replay script lines) →
        LinesAreSound replay script lines }
    ensures itself { (script : Script) →
        AreAnswered (start (greatest (map (λ r. r.session) script.records))) script.records →
        LinesAreSound replay script (replayed script) }
{}

/// A sound text is what is replayed, if commit numbers ascend, each write is stored only where it may be, and each that is refused for
/// a newer group names the newest (`IsFirst`).
pub fn sound_with_first_causes_is_replayed()
    ensures { (script : Script) (lines : List Line) → LinesAreSound replay script lines →
        EachAfter (IsFirst (history_of (all_said replay script lines))) []
        (all_said replay script lines) →
        AreAnswered (start (greatest (map (λ r. r.session) script.records))) script.records →
        map plain lines ≡ replayed script }
{}

/// In what a replay knows of its lines (`Rises` of `hg_headline`) commit numbers ascend. So that part of `IsFirst` needs nothing more.
pub fn commit_numbers_ascend()
    ensures { (script : Script) (lines : List Line) (last : ℕ) →
        LinesAreSound replay script lines → Rises 0 script.records lines last →
        EachAfter (λ earlier now. IfSome (committed now) (λ c. greatest_commit earlier < c)) []
        (all_said replay script lines) }
{}

/// If the logs of a replay show the first cause of each write (`ShowsFirsts`), its lines have it (`IsFirst`), and so its text is the
/// one that is replayed. `at_end` is `text` for a replay that knows its history only at the end, by the logs as they are closed.
pub fn shown_first_causes_are_replayed()
    ensures first { (buckets sessions top : ℕ) (h : History) (logs : ℕ → List LogEntry)
        (script : Script) (lines : List Line) →
        HasReplayed buckets sessions h logs top script.records lines →
        Follows buckets ShowsFirsts (λ j. []) (λ j. None) script.records lines logs →
        EachAfter (IsFirst (history_of (all_said replay script lines))) []
        (all_said replay script lines) }
    ensures text { (buckets sessions top : ℕ) (h : History) (logs : ℕ → List LogEntry)
        (script : Script) (lines : List Line) →
        HasReplayed buckets sessions h logs top script.records lines →
        Follows buckets ShowsFirsts (λ j. []) (λ j. None) script.records lines logs →
        IsLawful script → map plain lines ≡ replayed script }
    ensures at_end { (buckets sessions seen top : ℕ) (h : History) (logs closed : ℕ → List LogEntry)
        (script : Script) (lines : List Line) →
        IsFollowing buckets sessions logs seen top script.records lines →
        Follows buckets ShowsFirsts (λ j. []) (λ j. None) script.records lines logs →
        ((j : ℕ) → Closes (logs j) (closed j)) → Logged buckets h closed → seen ≤ length h →
        IsLawful script → map plain lines ≡ replayed script }
{}

/// Where logs are those of a history, no group over c writes a record by the logs exactly if none does in the history.
pub fn newest_group_is_of_the_history()
    ensures { (buckets : ℕ) (h : History) (logs : ℕ → List LogEntry) (r : Rid) (c : ℕ) →
        Logged buckets h logs →
        (IsNewestIn logs r c ↔ ((n : ℕ) → IsTrue (does_write h n r) → n ≤ c)) }
{}

/// Each statement of a script that breaks no rule has an answer, as the laws above ask.
pub fn lawful_scripts_are_answered()
    ensures { (script : Script) → IsLawful script → (sessions : ℕ) →
        AreAnswered (start sessions) script.records }
{}

/// `made`, `undone` and `left` of a replay are functions of what is replayed: texts that differ only in what their reports say was
/// removed and moved have the same.
pub fn three_totals_are_replayed()
    ensures { (script : Script) (a b : List Line) (t u : Totals) → map plain a ≡ map plain b →
        AreTotals (all_said replay script a) (history_of (all_said replay script a)) t →
        AreTotals (all_said replay script b) (history_of (all_said replay script b)) u →
        (t.made ≡ u.made) × (t.undone ≡ u.undone) × (t.left ≡ u.left) }
{}

/// The law `at_end` of replays, where the number of sessions and of records is not bounded by a script's: it asks only that each statement
/// has an answer.
pub fn answered_records_are_replayed()
    ensures { (buckets sessions seen top : ℕ) (h : History) (logs : ℕ → List LogEntry)
        (script : Script) (lines : List Line) →
        IsFollowing buckets sessions logs seen top script.records lines →
        Follows buckets ShowsFirsts (λ j. []) (λ j. None) script.records lines logs →
        Logged buckets h logs → seen ≤ length h →
        AreAnswered (start (greatest (map (λ r. r.session) script.records))) script.records →
        map plain lines ≡ replayed script }
{}
