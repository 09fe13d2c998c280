//! Laws of a run with a reader, each the contract of a function with no body.

ghost use Rattle.std.specs.Prelude.{◌≡◌, ℕ, ◌≤◌, ◌++◌, List, [], ◌∷◌, length, IfSome};
ghost use Rattle.hg_base.specs.declared.line.Line.{Line};
ghost use Rattle.hg_base.specs.declared.line.Printed.{Printed};
ghost use Rattle.hg_base.specs.declared.line.Totals.{Totals};
ghost use Rattle.hg_base.specs.declared.report.Report.{Report};
ghost use Rattle.hg_base.specs.declared.rid.Rid.{Rid};
ghost use Rattle.hg_base.specs.Lists.{Each};
ghost use Rattle.hg_base.specs.History.{History, visible};
ghost use Rattle.hg_base.specs.Script.{Script, run};
ghost use Rattle.hg_base.specs.Sound.{IsSound};
ghost use Rattle.hg_base.specs.Shape.{HasShape, report_of};
ghost use Rattle.hg_base.specs.Transcript.{in_order};
ghost use Rattle.hg_core.specs.declared.log.LogEntry.{LogEntry};
ghost use Rattle.hg_core.specs.Events.{put};
ghost use Rattle.hg_core.specs.Logs.{UpTo};
ghost use Rattle.hg_rule.specs.declared.view.View.{View};
ghost use Rattle.hg_rule.specs.Facts.{EndsWith};
ghost use Rattle.hg_rule.specs.Views.{number, session};
ghost use Rattle.hg_cursor.specs.Logs.{GoesOn};
ghost use Rattle.hg_dump.specs.Records.{dump_text};
ghost use Rattle.hg_dump.specs.Rows.{rows_at};
ghost use Rattle.hg_dump.specs.Exports.{HasReadAt};
ghost use Rattle.hg_headline.specs.Counted.{Closes};
ghost use Rattle.hg_headline.specs.Following.{AreTotalsBy, told_removed};
ghost use Rattle.hg_headline.specs.Logged.{Logged};
ghost use Rattle.hg_headline.specs.Ran.{run_lines};
ghost use Rattle.hg_dump.specs.Alone.{IsSoundBut};
ghost use Rattle.hg_dump.specs.Reader.{HasReadAll, IsHeldAt, IsOfOther, IsSoundWith, lines_with, log_at, printed_history, reader_of, with_reader, without_looks};
ghost use Rattle.hg_dump.specs.Ran.{HasRunWith};

/// A look writes nothing: a history stays right for the logs where the looks of a session are left out, and where its last
/// transactions are left out too, if they only looked.
pub fn looks_leave_the_log_right()
    ensures looks { (buckets j : ℕ) (h : History) (logs : ℕ → List LogEntry) →
        Logged buckets h logs → Logged buckets h (put logs j (without_looks (logs j))) }
    ensures read { (buckets j : ℕ) (h : History) (logs : ℕ → List LogEntry) (ats later : List ℕ) →
        Logged buckets h logs → HasReadAll (ats ++ later) (logs j) →
        Logged buckets h (put logs j (log_at ats [])) }
{}

/// What a run with a reader knows at its end makes its lines sound with the reader's, and its totals, which it counts in the
/// logs of all sessions as they are closed, and in what the lines report.
pub fn run_with_reader_is_sound()
    ensures { (buckets : ℕ) (h : History) (logs closed : ℕ → List LogEntry) (rounds : ℕ)
        (script : Script) (ats : List ℕ) (lines : ℕ → List Line)
        (group table interval : List Report) (totals : Totals) →
        HasRunWith buckets h logs rounds script ats lines group table interval →
        ((j : ℕ) → Closes (logs j) (closed j)) →
        let printed = run_lines script.records lines group table interval in
        AreTotalsBy (reader_of script) h closed (λ kind. told_removed kind printed) totals →
        IsSoundWith rounds script ats (record { lines = printed; totals = totals }) }
{}

/// The history that such a run prints shows what the machine's own history shows, at each snapshot, and is as long. So a dump
/// of the one is a dump of the other.
pub fn printed_history_shows_the_same()
    ensures shown { (buckets : ℕ) (h : History) (logs : ℕ → List LogEntry) (rounds : ℕ)
        (script : Script) (ats : List ℕ) (lines : ℕ → List Line)
        (group table interval : List Report) →
        HasRunWith buckets h logs rounds script ats lines group table interval →
        let printed = run_lines script.records lines group table interval in
        (r : Rid) (s : ℕ) → visible h r s ≡ visible (printed_history rounds script printed) r s }
    ensures rows { (buckets : ℕ) (h : History) (logs : ℕ → List LogEntry) (rounds : ℕ)
        (script : Script) (ats : List ℕ) (lines : ℕ → List Line)
        (group table interval : List Report) →
        HasRunWith buckets h logs rounds script ats lines group table interval →
        let printed = run_lines script.records lines group table interval in
        (s : ℕ) → rows_at script.tables h s
        ≡ rows_at script.tables (printed_history rounds script printed) s }
    ensures many { (buckets : ℕ) (h : History) (logs : ℕ → List LogEntry) (rounds : ℕ)
        (script : Script) (ats : List ℕ) (lines : ℕ → List Line)
        (group table interval : List Report) →
        HasRunWith buckets h logs rounds script ats lines group table interval →
        let printed = run_lines script.records lines group table interval in
        length h ≡ length (printed_history rounds script printed) }
{}

/// Of lines that are sound with a reader: they have the shape of a run, the reader's lines leave the history as it is, no
/// snapshot of the reader is over its length, and a snapshot that a report says the reader held is one at which it read, and
/// was never moved.
pub fn reader_holds_what_it_read()
    ensures shape { (rounds : ℕ) (script : Script) (ats : List ℕ) (printed : Printed) →
        IsSoundWith rounds script ats printed →
        HasShape (in_order (run rounds) script.records) printed.lines }
    ensures history { (rounds : ℕ) (script : Script) (ats : List ℕ) (printed : Printed) →
        IsSoundWith rounds script ats printed →
        printed_history rounds (with_reader script ats) (lines_with script ats printed.lines)
        ≡ printed_history rounds script printed.lines }
    ensures within { (rounds : ℕ) (script : Script) (ats : List ℕ) (printed : Printed) →
        IsSoundWith rounds script ats printed →
        Each (λ at. at ≤ length (printed_history rounds script printed.lines)) ats }
    ensures held { (rounds : ℕ) (script : Script) (ats : List ℕ) (printed : Printed) →
        IsSoundWith rounds script ats printed →
        Each (λ line. IfSome (report_of line.reply) (λ sweep.
        Each (IsHeldAt script ats) sweep.held)) printed.lines }
{}

/// Lines that are sound with a reader are all that a run's lines are, with one change: a report may say that the reader held a
/// snapshot, which is one at which it read, and was not moved.
pub fn one_change_is_what_the_reader_held()
    ensures { (rounds : ℕ) (script : Script) (ats : List ℕ) (printed : Printed) →
        IsSoundWith rounds script ats printed → IsSoundBut rounds script ats printed }
{}

/// Lines that are sound with a reader are sound alone, if no report says that the reader held a snapshot.
pub fn unless_it_is_held_the_reader_changes_nothing()
    ensures { (rounds : ℕ) (script : Script) (ats : List ℕ) (printed : Printed) →
        IsSoundWith rounds script ats printed →
        Each (λ line. IfSome (report_of line.reply) (λ sweep.
        Each (IsOfOther script) sweep.held)) printed.lines →
        IsSound (run rounds) script printed }
{}

/// An export is one reading more. And a history is right for what an export read, where its logs go on from the reader's.
pub fn an_export_reads()
    ensures reads { (at : ℕ) (ats : List ℕ) (old new : View) →
        HasReadAll ats (session old).log → HasReadAt at old new →
        HasReadAll (ats ++ at ∷ []) (session new).log }
    ensures goes_on { (buckets : ℕ) (v : View) (h : History) (logs : ℕ → List LogEntry) →
        Logged buckets h logs → EndsWith (logs (number v)) (session v).log →
        GoesOn buckets v h logs }
{}

/// What an export wrote is the dump of the history that the lines print, if the logs at the end go on from the reader's log after
/// it. The premise on the text is the clause of `export`.
pub fn an_export_is_of_the_printed_history()
    ensures { (buckets : ℕ) (h : History) (logs : ℕ → List LogEntry) (rounds : ℕ)
        (script : Script) (ats : List ℕ) (lines : ℕ → List Line)
        (group table interval : List Report) (v : View) (s : ℕ) (before after : List ℕ) →
        HasRunWith buckets h logs rounds script ats lines group table interval →
        EndsWith (logs (number v)) (session v).log →
        ((k : History) (more : ℕ → List LogEntry) → GoesOn buckets v k more →
        after ≡ before ++ dump_text script (rows_at script.tables k s)) →
        let printed = run_lines script.records lines group table interval in
        let rows = rows_at script.tables (printed_history rounds script printed) s in
        after ≡ before ++ dump_text script rows }
{}

/// A number that no number of a log is over is at or over the end of the history. So a reader that has heard of all other
/// sessions, after they ended, reads what the run left.
pub fn a_read_at_the_end_is_the_newest()
    ensures least { (buckets n : ℕ) (h : History) (logs : ℕ → List LogEntry) →
        Logged buckets h logs → ((j : ℕ) → UpTo n (logs j)) → length h ≤ n }
    ensures same { (buckets j n : ℕ) (h : History) (logs : ℕ → List LogEntry) (ats : List ℕ) →
        Logged buckets h logs → HasReadAll (ats ++ n ∷ []) (logs j) →
        ((k : ℕ) → (k ≡ j → ⊥) → UpTo n (logs k)) → n ≡ length h }
{}
