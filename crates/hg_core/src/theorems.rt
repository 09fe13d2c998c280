//! What follows of the laws, in the words of the subject.

ghost use Rattle.std.specs.Prelude.{◌≡◌, ℕ, Bool, true, List, [], ◌∷◌, None, Some, length, filter, map, suc, ◌+◌, is_some, if◌then◌else◌, ◌<◌, ◌≤◌, ◌*◌, ◌^◌, ◌++◌, IsSome, IsTrue};
ghost use Rattle.hg_base.specs.declared.rid.Rid.{Rid};
ghost use Rattle.hg_base.specs.declared.rid.TableId.{TableId};
ghost use Rattle.hg_base.specs.declared.scope.Scope.{Scope};
ghost use Rattle.hg_base.specs.declared.image.Image.{Image};
ghost use Rattle.hg_base.specs.History.{writes, visible, IsHistory, NoLostUpdate, NoneTwice};
ghost use Rattle.hg_base.specs.Transcript.{has, Said};
ghost use Rattle.hg_core.specs.declared.log.LogEntry.{LogEntry};
ghost use Rattle.hg_core.specs.Reading.{Unprinted, log_after, Fits};
ghost use Rattle.hg_core.specs.Answered.{StandsAt, IsAnswered};
ghost use Rattle.hg_core.specs.Words.{IsRegister, mask_of, word_of, register_of};
ghost use Rattle.hg_core.specs.Phases.{scope_in};
ghost use Rattle.hg_core.specs.Passes.{PassRecord, IsWhole, horizon, recorded, table_bound, group_bound};
ghost use Rattle.hg_core.specs.State.{CoreState, opened};
ghost use Rattle.hg_core.specs.Held.{held, newest_held, left_by};
ghost use Rattle.hg_core.specs.Covered.{last_pair};
ghost use Rattle.hg_core.specs.Versions.{first_at, newest_at, unpublished};
ghost use Rattle.hg_core.specs.Sums.{sum_below};
ghost use Rattle.hg_core.specs.Logs.{current, begans, is_plain, newest_of};
ghost use Rattle.hg_core.specs.Commits.{commits_in, AreEarlier, AloneHaveLogs};
ghost use Rattle.hg_base.specs.Lists.{Each};
ghost use Rattle.hg_base.specs.Counts.{live};
ghost use Rattle.hg_core.specs.Contents.{bucket_of, versions};
ghost use Rattle.hg_core.specs.Clean.{IsClean, IsCutAt, past, as_oldest, not_gone};
ghost use Rattle.hg_core.specs.Placed.{IsPlaced};
ghost use Rattle.hg_core.specs.Counters.{total, is_of, CountersBalance};
ghost use Rattle.hg_core.specs.Visits.{VisitsStay};
ghost use Rattle.hg_core.specs.Events.{MayReclaim};
ghost use Rattle.hg_core.specs.Few.{has_open, AreAllHeld, IsCleanFor};
ghost use Rattle.hg_core.specs.Replies.{AreReplied};
ghost use Rattle.hg_core.specs.Steps.{Always, Run, run};
ghost use Rattle.hg_core.specs.Invariant.{IsSteady};
ghost use Rattle.hg_core.specs.Missed.{MissesNone};
ghost use Rattle.hg_core.specs.Causes.{Runs, AtSome, BeganAt, WasRefused, IsRefused, WasMoved, IsMovable};
ghost use Rattle.hg_base.specs.declared.line.Answer.{Answer};
ghost use Rattle.hg_core.specs.Worked.{swept_visit, one_swept, slow_begin, long_snapshot, committed_there, IsReadThere};

use crate::phase::Phase;
use crate::register::Register;
use hg_base::Kind;

/// No gather misses a snapshot. After every list of steps, whatever number a session is live at, it is at or over the
/// horizon of every whole record, or that record has it for each table of its scope. So no bound is over it that a
/// collector takes from the record. A number that a session is about to go live at is at or over every horizon.
pub fn no_gather_misses_a_snapshot()
    ensures live { Always (λ s.
        (p : ℕ) → IsWhole s.sessions (s.pass p) →
        MissesNone (horizon (s.pass p)) (s.pass p) s.phase) }
    ensures fixed { Always (λ s.
        (p j f m : ℕ) (scope : Scope) → IsWhole s.sessions (s.pass p) →
        s.phase j ≡ Phase.Fixed scope f m → horizon (s.pass p) ≤ m) }
    ensures table { Always (λ s.
        (p j at : ℕ) (scope : Scope) (t : TableId) → IsWhole s.sessions (s.pass p) →
        s.phase j ≡ Phase.Live at scope → IsTrue (has scope t) →
        table_bound t (s.pass p) ≤ at) }
    ensures group { Always (λ s.
        (p j at : ℕ) (scope : Scope) → IsWhole s.sessions (s.pass p) →
        s.phase j ≡ Phase.Live at scope → group_bound (s.pass p) ≤ at) }
{}

/// No removal is seen. After every list of steps, each live session finds of each record of its tables what a table that
/// never reclaims would show it at its snapshot. And so does, of each record of any table, one that is yet to go live at a number
/// that it fixed, and one that will fix the mark.
pub fn no_removal_is_seen()
    ensures live { Always (λ s.
        (j at : ℕ) (scope : Scope) (r : Rid) → s.phase j ≡ Phase.Live at scope →
        IsTrue (has scope r.table) → held s r at ≡ visible s.history r at) }
    ensures fixed { Always (λ s.
        (j f m : ℕ) (scope : Scope) (r : Rid) → s.phase j ≡ Phase.Fixed scope f m →
        held s r m ≡ visible s.history r m) }
    ensures mark { Always (λ s. (r : Rid) → held s r s.mark ≡ visible s.history r s.mark) }
{}

/// No conflict is lost by a removal, and nothing that is read is dropped. After every list of steps, where a session is live with
/// a record's table, and the record's last write has a number over its snapshot, a version of that number is held still: so a write
/// of the session finds it. And where the session reads a row, a version is held for it.
pub fn no_conflict_is_lost()
    ensures newer { Always (λ s.
        (j at n : ℕ) (scope : Scope) (r : Rid) (image : Image) →
        s.phase j ≡ Phase.Live at scope → IsTrue (has scope r.table) →
        last_pair (writes s.history r) ≡ Some (n, image) → at < n → newest_held s r ≡ Some n) }
    ensures read { Always (λ s.
        (j at : ℕ) (scope : Scope) (r : Rid) → s.phase j ≡ Phase.Live at scope →
        IsTrue (has scope r.table) → IsSome (visible s.history r at).row →
        IsSome (newest_at at (versions s.buckets s.bucket r))) }
{}

/// A removal is exact. After every list of steps, where a pass may take away versions of a record, a cut leaves all that are
/// past its bound, and of the others the newest as the oldest image: so the record is cut there. A sweep leaves all that have
/// no successor at or below the horizon, or a recorded number in their lifetime, and nothing else: so the record is clean.
pub fn removal_is_exact()
    ensures group { Always (λ s.
        (p : ℕ) (r : Rid) → MayReclaim s p r →
        IsCutAt (group_bound (s.pass p)) (left_by s p Kind.Group r)) }
    ensures table { Always (λ s.
        (p : ℕ) (r : Rid) → MayReclaim s p r →
        IsCutAt (table_bound r.table (s.pass p)) (left_by s p Kind.Table r)) }
    ensures interval { Always (λ s.
        (p : ℕ) (r : Rid) → MayReclaim s p r →
        IsClean (horizon (s.pass p)) (recorded r.table (s.pass p))
        (left_by s p Kind.Interval r)) }
    ensures by_group { Always (λ s.
        (p : ℕ) (r : Rid) →
        let vs = versions s.buckets s.bucket r in left_by s p Kind.Group r ≡
        past (group_bound (s.pass p)) vs ++
        as_oldest (first_at (group_bound (s.pass p)) vs)) }
    ensures by_table { Always (λ s.
        (p : ℕ) (r : Rid) →
        let vs = versions s.buckets s.bucket r in left_by s p Kind.Table r ≡
        past (table_bound r.table (s.pass p)) vs ++
        as_oldest (first_at (table_bound r.table (s.pass p)) vs)) }
    ensures by_interval { Always (λ s.
        (p : ℕ) (r : Rid) →
        left_by s p Kind.Interval r ≡
        not_gone (horizon (s.pass p)) (recorded r.table (s.pass p))
        (versions s.buckets s.bucket r)) }
{}

/// What is clean is few. Of the published versions of a record that is clean at the mark, each but the newest needs a snapshot of its
/// own, after every list of steps.
pub fn what_is_clean_is_few()
    ensures record { Always (λ s.
        (n : ℕ) (r : Rid) → IsCleanFor s n r →
        length (versions s.buckets s.bucket r) ≤ suc n + (if has_open s r then 1 else 0)) }
    ensures all { Always (λ s.
        (n : ℕ) (records : List Rid) → NoneTwice records → AreAllHeld s records →
        ((r : Rid) → IsCleanFor s n r) → sum_below s.buckets (λ b. total (s.bucket b)) ≤
        length records * suc n + length (filter (has_open s) records)) }
{}

/// What a visit left stays. After every list of steps, each record of a bucket that was given back clean, or cut at a bound at
/// or below the mark that the visit keeps, is so still.
pub fn what_was_left_stays()
    ensures { Always
        (λ s. VisitsStay s.passes s.buckets s.mark (versions s.buckets s.bucket) s.visits) }
{}

/// Counters balance. After every list of steps, of each bucket, what was made is what was undone, what each kind of collector
/// removed, and what is held; and the logs and the visits tell all but the last.
pub fn counters_balance()
    ensures { Always (λ s.
        CountersBalance s.sessions s.buckets s.passes s.log s.bucket s.counters s.visits) }
{}

/// Each record is in its own bucket, once, and its table is there.
pub fn records_are_placed()
    ensures { Always (λ s. (b : ℕ) → IsPlaced s.tables s.buckets b (s.bucket b)) }
{}

/// Every reply is right. After every list of steps, each entry of each session's log says what `hg_base` defines over the
/// history: what a read finds is what a table shows that never reclaims, with the transaction's own writes, and a refused
/// write shows its cause.
pub fn replies_are_right()
    ensures { Always (λ s. (j : ℕ) → AreReplied s.buckets s.history s.log j (s.log j)) }
{}

/// Every answer is right. After every list of steps, read a session's log as the replies to its statements: each reply is the
/// one that `hg_base` defines over the history, commit and rollback among them. A refusal shows its cause, and a commit number is
/// that of the group that has the transaction, with its snapshot and its images.
pub fn every_answer_is_right()
    ensures { Always (λ s.
        0 < s.buckets → (j : ℕ) (later before : List LogEntry) (u : Unprinted) (now : Said) →
        s.log j ≡ later ++ log_after s.buckets u now.statement now.reply before →
        Fits s.buckets u before now.statement now.reply → StandsAt j before now →
        IsAnswered s.buckets s.history s.log j u before now) }
{}

/// A log is read. In the run of `every_event_happens`, the log of session 2 is what a begin, a put and a commit leave.
pub fn a_log_is_read()
    ensures log { (run (opened 2 1 1 1 1) slow_begin).log 2 ≡ committed_there }
    ensures fits { IsReadThere }
{}

/// No update is lost. After every list of steps, what a commit overwrites its transaction saw, or wrote itself. And each group
/// of the history is one: it has a commit, each commit writes something and read below the group's number, and no session and
/// no record occurs twice in it.
pub fn history_is_sound()
    ensures kept { Always (λ s. NoLostUpdate s.history) }
    ensures groups { Always (λ s. IsHistory s.history) }
{}

/// No commit number passes the number of sessions times how often each may begin. And the logs tell the mark: it is the
/// greatest commit number in them.
pub fn mark_is_bounded()
    ensures most { Always (λ s. s.mark ≤ s.sessions * s.quota) }
    ensures told { Always (λ s. s.mark ≡ newest_of s.sessions s.log) }
{}

/// Nor does the number of commits: a session commits a transaction once, and nobody but the board's sessions begins one.
pub fn commits_are_bounded()
    ensures most { Always (λ s. commits_in s.history ≤ s.sessions * s.quota) }
    ensures alone { Always (λ s. AloneHaveLogs s.sessions s.log) }
{}

/// What is open was not committed. After every list of steps, where a session has a transaction open, of which nothing was undone
/// or published, each commit of that session in the history is of an earlier transaction.
pub fn what_is_open_is_new()
    ensures { Always (λ s.
        (j : ℕ) → IsSome (current (s.log j)) → IsTrue (is_plain (s.log j)) →
        Each (AreEarlier j (begans (s.log j))) s.history) }
{}

/// Nor does any count of versions: what was made in all buckets together is at most the number of sessions times how often each may write,
/// and what was undone, removed and held is what was made.
pub fn counts_are_bounded()
    ensures { Always (λ s. sum_below s.buckets (λ b. (s.counters b).made) ≤ s.sessions * s.quota) }
{}

/// What settles. Where a record found all registers idle, as those of sessions at rest are, each bound is its mark. Where all
/// sessions rest, no write is open. And of a record that is cut at the mark, with no open write, the row at the mark is left,
/// if there is one, and nothing else. So a bucket of such records holds as many versions as records of its own are rows.
pub fn what_is_live_is_left()
    ensures table { (pass : PassRecord) (t : TableId) →
        Each (λ e. e.1.register ≡ Register.Idle) pass.loaded → table_bound t pass ≡ pass.mark }
    ensures group { (pass : PassRecord) → Each (λ e. e.1.register ≡ Register.Idle) pass.loaded →
        group_bound pass ≡ pass.mark }
    ensures idle { Always (λ s. (j : ℕ) → s.phase j ≡ Phase.Idle → s.register j ≡ Register.Idle) }
    ensures rest { Always (λ s.
        ((j : ℕ) → s.phase j ≡ Phase.Idle) → (r : Rid) →
        unpublished s.mark (versions s.buckets s.bucket r) ≡ None) }
    ensures left { Always (λ s.
        (r : Rid) → unpublished s.mark (versions s.buckets s.bucket r) ≡ None →
        IsCutAt s.mark (versions s.buckets s.bucket r) →
        length (versions s.buckets s.bucket r) ≡
        (if is_some (visible s.history r s.mark).row then 1 else 0)) }
    ensures bucket { Always (λ s.
        (b : ℕ) →
        ((r : Rid) → bucket_of s.buckets r ≡ b →
        (unpublished s.mark (versions s.buckets s.bucket r) ≡ None) ×
        IsCutAt s.mark (versions s.buckets s.bucket r)) →
        total (s.bucket b) ≡ length (filter (is_of s.buckets b) (live s.history))) }
{}

/// Each kind of event can happen. In this run a session goes live below the mark of a whole record, at its horizon.
pub fn every_event_happens()
    ensures run { Run (opened 2 1 1 1 1) (slow_begin ++ long_snapshot) }
    ensures whole { IsWhole 2 ((run (opened 2 1 1 1 1) slow_begin).pass 0) }
    ensures mark { ((run (opened 2 1 1 1 1) slow_begin).pass 0).mark ≡ 1 }
    ensures horizon { horizon ((run (opened 2 1 1 1 1) slow_begin).pass 0) ≡ 0 }
    ensures live { (run (opened 2 1 1 1 1) slow_begin).phase 1 ≡ Phase.Live 0 (Scope.Declared 1) }
{}

/// A visit counts. In this run a sweep takes one of two versions that were made, and the visit is over.
pub fn a_visit_counts()
    ensures run { Run (opened 2 1 1 1 2) swept_visit }
    ensures bucket { (run (opened 2 1 1 1 2) swept_visit).counters 0 ≡
        record { made = 2; undone = 0; removed = one_swept } }
    ensures held { total ((run (opened 2 1 1 1 2) swept_visit).bucket 0) ≡ 1 }
    ensures visit { map (λ v. v.removed) ((run (opened 2 1 1 1 2) swept_visit).visits 0) ≡
        one_swept ∷ [] }
{}

/// A word shows one register, and each register of a board has a word. So has each mask of one that isn't at rest, on a board of
/// 64 tables at most, and it has the tables of the scope.
pub fn words_are_exact()
    ensures back { (register : Register) → IsRegister register →
        register_of (word_of register) ≡ register }
    ensures fits { (register : Register) → IsRegister register → word_of register < 2 ^ 64 }
    ensures all { (s : CoreState) (j : ℕ) → IsSteady s → s.sessions * s.quota < 2 ^ 44 →
        IsRegister (s.register j) }
    ensures mask { (s : CoreState) (j : ℕ) → IsSteady s → s.tables ≤ 64 →
        IsSome (scope_in (s.phase j)) → s.mask j < 2 ^ 64 }
    ensures has { (scope : Scope) (t : TableId) → t.0 < 64 →
        has (Scope.Declared (mask_of scope)) t ≡ has scope t }
{}

/// A snapshot was the mark. Whatever snapshot a list of steps leaves in a log, the mark was that number after some of the steps.
pub fn each_snapshot_was_the_mark()
    ensures { Runs (λ start steps.
        (j n : ℕ) → BeganAt n ((run start steps).log j) → AtSome start steps (λ s. s.mark ≡ n)) }
{}

/// A refused write had its cause. Whatever refusal a list of steps leaves in a log, the versions of the record that were there after
/// some of the steps refuse the write so.
pub fn each_refusal_had_its_cause()
    ensures { Runs (λ start steps.
        (j : ℕ) (r : Rid) (answer : Answer) → WasRefused r answer ((run start steps).log j) →
        AtSome start steps (IsRefused j r answer)) }
{}

/// A moved snapshot was live. Whatever snapshot a list of steps leaves as moved in a pass's journal, after some of the steps that
/// session's register was live at it, with declared tables, and not moved.
pub fn each_moved_snapshot_was_live()
    ensures { Runs (λ start steps.
        (p j n : ℕ) → WasMoved j n ((run start steps).pass p).journal →
        AtSome start steps (IsMovable j n)) }
{}

/// Each move was made by a pass that noted it. After every list of steps, where a register shows a snapshot as moved, some pass's
/// journal has the try that moved it.
pub fn each_move_is_noted()
    ensures { Always (λ s.
        (j n : ℕ) (declared : Bool) → s.register j ≡ Register.Live n declared true →
        (p : ℕ) × WasMoved j n (s.pass p).journal) }
{}
