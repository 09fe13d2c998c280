//! A session enters while others commit, or begins anew between two loads of a pass, step by step.

ghost use Rattle.std.specs.Prelude.{◌≡◌, ◌+◌, ◌<◌, suc, true, false, [], ◌∷◌, length, None, Some, IsSome, IsTrue};
ghost use Rattle.hg_base.specs.declared.rid.Rid.{Rid};
ghost use Rattle.hg_base.specs.declared.rid.TableId.{TableId};
ghost use Rattle.hg_base.specs.declared.scope.Scope.TheVariants.{All};
ghost use Rattle.hg_base.specs.History.{same_rid};
ghost use Rattle.hg_core.specs.declared.phase.Phase.TheVariants.{Live};
ghost use Rattle.hg_core.specs.declared.log.LogEntry.TheVariants as entries;
ghost use Rattle.hg_core.specs.Logs.{begans, wrotes, is_plain, open_in};
ghost use Rattle.hg_core.specs.Phases.{IsSession, snapshot_in};
ghost use Rattle.hg_core.specs.Passes.{horizon, recorded};
ghost use Rattle.hg_core.specs.declared.register.Register.TheVariants as registers;
ghost use Rattle.hg_core.specs.Versions.{IsOpenBy};
ghost use Rattle.hg_core.specs.Words.{IsBelow};
ghost use Rattle.hg_core.specs.Contents.{bucket_of, look};
ghost use Rattle.hg_rule.specs.declared.view.Part.TheVariants.{OfSession};
ghost use Rattle.hg_rule.specs.Facts.{record_of};
ghost use Rattle.hg_rule.specs.New.{IsNewSession, IsNewBucket, IsNewPass, IsNewCommit};
ghost use Rattle.hg_rule.specs.Views.{number, pass as own_pass};
ghost use Rattle.hg_rule.specs.Steps.{logging};
ghost use Rattle.hg_rule.specs.Holding.{writer, tables};
ghost use Rattle.hg_rule.specs.Writes.{with_entry, with_published, installing, stamping};
ghost use Rattle.hg_rule.specs.Seats.{board_id, sizes_of, session_view, pass_view, IsPassOf, IsBucketOf, IsCommitOf};
ghost use Rattle.hg_tracker.specs.Gathers.{tables_in};
ghost use Rattle.hg_trials.specs.Between.{own_session, own_bucket, own_commit, IsAlone, Rests, IsFreeFrom};

use hg_base::{Image, Rid, Scope, TableId};
use hg_core::Register;
use hg_rule::{Board, BucketSeat, CollectorPass, CommitSeat, SessionPass};
use hg_tracker::{Gathered, Trackers};
use std::alloc::Global;
use std::process::Abort;
use std::snapshot::Snapshot;

// Takes a snapshot.
pub(crate) fn begin(board: &Board, pass: &mut SessionPass, scope: Scope) -> u64
    requires own { IsAlone (board_id board.now) (sizes_of board.now) pass.old }
    requires rests { Rests pass.old }
    requires tables { IsBelow (sizes_of board.now).tables scope }
    requires room { begans (own_session pass.old).log < (sizes_of board.now).quota }
    ensures parts { (session_view pass.new).parts ≡
        OfSession (number (session_view pass.old)) (logging (entries.Began result scope)
        (Live result scope) (own_session pass.old)) ∷ [] }
    ensures own { IsAlone (board_id board.now) (sizes_of board.now) pass.new }
{
    board.declare(pass, scope);
    let from = board.probe(pass);
    board.enter(pass, from);
    let at = board.fix(pass);
    board.go_live(pass, at, scope);
    at
}

// Takes the only bucket, writes a record there that has no version, and gives the bucket back.
fn write(
    board: &Board,
    pass: &mut SessionPass,
    bucket: BucketSeat,
    rid: Rid,
    image: &Image,
) -> BucketSeat
    requires own { IsAlone (board_id board.now) (sizes_of board.now) pass.old }
    requires open { (IsSome (snapshot_in (own_session pass.old).phase) ×
        (tables (session_view pass.old) ≡ All)) ×
        (IsTrue (is_plain (own_session pass.old).log) ×
        ((own_session pass.old).stamped ≡ false)) }
    requires room { (wrotes (own_session pass.old).log < (sizes_of board.now).quota) ×
        (rid.table.0 < (sizes_of board.now).tables) }
    requires bucket { IsBucketOf (board_id board.now) bucket × (bucket.number ≡ 0) }
    requires there { bucket_of (sizes_of board.now).buckets rid ≡ 0 }
    requires free { look rid (own_bucket bucket).content ≡ [] }
    ensures parts { (session_view pass.new).parts ≡
        OfSession (number (session_view pass.old))
        (with_entry (entries.Wrote rid image.now) (own_session pass.old)) ∷ [] }
    ensures bucket { IsBucketOf (board_id board.now) result × (result.number ≡ 0) }
    ensures written { own_bucket result ≡
        installing (writer (session_view pass.old)) rid image.now (own_bucket bucket) }
    ensures own { IsAlone (board_id board.now) (sizes_of board.now) pass.new }
{
    board.join_bucket(pass, bucket);
    board.install(pass, rid, Snapshot::of(image));
    board.split_bucket(pass, 0)
}

// Commits the transaction, whose one open write is of this record: hands it over, takes it as a leader does, and has it back.
fn commit_alone(
    board: &Board,
    pass: &mut SessionPass,
    bucket: BucketSeat,
    commit: CommitSeat,
    rid: Rid,
) -> (BucketSeat, CommitSeat)
    requires own { IsAlone (board_id board.now) (sizes_of board.now) pass.old }
    requires open { (IsSome (snapshot_in (own_session pass.old).phase) ×
        IsTrue (is_plain (own_session pass.old).log)) ×
        ((own_session pass.old).stamped ≡ false) }
    requires bucket { IsBucketOf (board_id board.now) bucket × (bucket.number ≡ 0) }
    requires mine { (bucket_of (sizes_of board.now).buckets rid ≡ 0) ×
        IsOpenBy (writer (session_view pass.old)) (look rid (own_bucket bucket).content) }
    requires only { (r : Rid) → IsSome (open_in r (own_session pass.old).log) →
        same_rid rid r ≡ true }
    requires commit { IsCommitOf (board_id board.now) commit × ((own_commit commit).stamped ≡ []) }
    ensures parts { (session_view pass.new).parts ≡
        OfSession (number (session_view pass.old)) (with_published
        (suc (length (own_commit commit).history.list)) (own_session pass.old)) ∷
        [] }
    ensures bucket { (IsBucketOf (board_id board.now) result.0 × (result.0.number ≡ 0)) ×
        (own_bucket result.0 ≡
        stamping (suc (length (own_commit commit).history.list)) (writer (session_view pass.old))
        rid (own_bucket bucket)) }
    ensures commit { IsCommitOf (board_id board.now) result.1 ×
        ((own_commit result.1).stamped ≡ []) }
    ensures own { IsAlone (board_id board.now) (sizes_of board.now) pass.new }
{
    let session = pass.writer().session;
    let (_, tx) = board.hand_over(pass);
    board.receive(pass, tx);
    let mark = board.join_commit(pass, commit);
    board.join_bucket(pass, bucket);
    board.stamp(pass, session, rid, mark + 1);
    let bucket = board.split_bucket(pass, 0);
    board.publish(pass, mark + 1);
    let commit = board.split_commit(pass);
    let tx = board.hand_back(pass, session);
    board.resume(pass, tx);
    (bucket, commit)
}

// One transaction, which writes the record with this key.
fn commit_one(
    board: &Board,
    pass: &mut SessionPass,
    bucket: BucketSeat,
    commit: CommitSeat,
    key: u64,
) -> (BucketSeat, CommitSeat)
    requires own { IsAlone (board_id board.now) (sizes_of board.now) pass.old × Rests pass.old }
    requires room { (begans (own_session pass.old).log < (sizes_of board.now).quota) ×
        (wrotes (own_session pass.old).log < (sizes_of board.now).quota) }
    requires sizes { (0 < (sizes_of board.now).tables) × ((sizes_of board.now).buckets ≡ 1) }
    requires bucket { (IsBucketOf (board_id board.now) bucket × (bucket.number ≡ 0)) ×
        IsFreeFrom key (own_bucket bucket).content }
    requires commit { IsCommitOf (board_id board.now) commit × ((own_commit commit).stamped ≡ []) }
    ensures own { IsAlone (board_id board.now) (sizes_of board.now) pass.new × Rests pass.new }
    ensures counts { (begans (own_session pass.new).log ≡ begans (own_session pass.old).log + 1) ×
        (wrotes (own_session pass.new).log ≡ wrotes (own_session pass.old).log + 1) }
    ensures bucket { IsBucketOf (board_id board.now) result.0 × (result.0.number ≡ 0) }
    ensures free { IsFreeFrom (key + 1) (own_bucket result.0).content }
    ensures commit { IsCommitOf (board_id board.now) result.1 ×
        ((own_commit result.1).stamped ≡ []) }
{
    let table = TableId(0);
    let rid = Rid { table, key };
    let image = Image { row: None };
    begin(board, pass, Scope::All);
    let bucket = write(board, pass, bucket, rid, &image);
    let seats = commit_alone(board, pass, bucket, commit, rid);
    board.end(pass);
    seats
}

// A board of two sessions and one bucket; and the seats of session 1, of session 2, of the bucket, of the committer and of a collector.
fn opened<R: Abort>(
    rt: &R,
    alloc: Global,
    tables: u32,
    quota: u64,
) -> (
    Board,
    (SessionPass, SessionPass),
    (BucketSeat, CommitSeat),
    CollectorPass,
)
    requires room { (tables < 10) × (quota < 10) }
    ensures sizes { sizes_of result.0 ≡
        record { sessions = 2; tables = tables; buckets = 1; quota = quota } }
    ensures first { IsNewSession (board_id result.0) 1 result.1.0 }
    ensures second { IsNewSession (board_id result.0) 2 result.1.1 }
    ensures bucket { IsNewBucket (board_id result.0) 0 result.2.0 }
    ensures commit { IsNewCommit (board_id result.0) result.2.1 }
    ensures pass { IsNewPass (board_id result.0) 0 result.3 }
{
    let Ok((board, seats)) = Board::new(alloc, 2, tables, 1, quota) else {
        panic!(rt; "no memory");
    };
    let mut passes = seats.sessions.into_vec();
    let mut buckets = seats.buckets.into_vec();
    let (Some(second), Some(first), Some(bucket)) = (passes.pop(), passes.pop(), buckets.pop())
    else {
        panic!(rt; "no seats");
    };
    (board, (first, second), (bucket, seats.commit), seats.group)
}

// Session 1 enters at the mark 1, and session 2 commits and begins at 2, with table 0 declared. A gather finds session 1 entering, so
// nothing above 1 may go, and only session 2 has an entry. Then session 1 goes live at 2.
#[test]
fn a_session_enters_while_others_commit(rt: HostRuntime) {
    let mut found = String::new(rt.alloc());
    let Ok(mut gathered) = Gathered::new(rt.alloc(), 2, 1) else {
        panic!(rt; "no memory");
    };
    let (board, passes, seats, mut collector) = opened(&rt, rt.alloc(), 1, 4);
    let (mut first, mut second) = passes;
    let trackers = Trackers::new(board);
    let board = trackers.board();
    let (bucket, commit) = commit_one(board, &mut second, seats.0, seats.1, 0);
    board.declare(&mut first, Scope::All);
    let from = board.probe(&mut first);
    board.enter(&mut first, from);
    commit_one(board, &mut second, bucket, commit, 1);
    begin(board, &mut second, Scope::Declared(1));
    trackers.gather(&mut collector, &mut gathered);
    tell(&mut found, from, &gathered);
    let at = board.fix(&mut first);
    board.go_live(&mut first, at, Scope::All);
    trackers.gather(&mut collector, &mut gathered);
    tell(&mut found, at, &gathered);
    assert_eq!(rt; found.as_str(), ENTERED);
}

// Where session 1 enters, and where it goes live; and after each the mark, the horizon, the least snapshot, the bound of table 0, and
// the snapshots in use.
const ENTERED: &str = "\
1: 2 1 1 1; 2 at 2, Declared(1), moved: false
2: 2 2 2 2; 1 at 2, All, moved: false; 2 at 2, Declared(1), moved: false
";

// Adds a number and what was gathered. Where memory runs out the text is cut short, and isn't the one that is wanted.
fn tell(told: &mut String, at: u64, gathered: &Gathered)
    requires { 0 < tables_in gathered.now }
{
    let _ = write!(
        told,
        "{at}: {} {} {} {}",
        gathered.mark(),
        gathered.horizon(),
        gathered.least(),
        gathered.bound(TableId(0))
    );
    for entry in gathered.entries() {
        let _ = write!(
            told,
            "; {} at {}, {:?}, moved: {}",
            entry.session, entry.number, entry.scope, entry.moved
        );
    }
    let _ = told.push('\n');
}

// Loads the mask of session 1. The pass has loaded its register alone, after the mark 2: it reads at 1, with declared tables.
// Whatever the mask is, the snapshot counts for every table until it is moved.
fn load_mask(board: &Board, pass: &mut CollectorPass) -> u64
    requires own { IsPassOf (board_id board.now) pass.old }
    requires session { IsSession (sizes_of board.now).sessions 1 }
    requires mark { (own_pass (pass_view pass.old)).mark ≡ 2 }
    requires loaded { (own_pass (pass_view pass.old)).loaded ≡
        (1, record { register = registers.Live 1 true false; mask = None }) ∷ [] }
    ensures horizon { horizon (record_of (own_pass (pass_view pass.new))) ≡ 2 }
    ensures recorded { (table : TableId) →
        recorded table (record_of (own_pass (pass_view pass.new))) ≡ 1 ∷ [] }
    ensures loaded { (own_pass (pass_view pass.new)).loaded ≡
        (1, record { register = registers.Live 1 true false; mask = Some result }) ∷ [] }
    ensures own { IsPassOf (board_id board.now) pass.new }
{
    board.sample_mask(pass, 1)
}

// Session 1 reads at 1 and declared table 0, and the mark is 2. A pass loads the mark and the register. Before it loads the mask,
// the session begins anew at 2, with table 1 declared. So the pass finds the newer mask beside the older number, and its move
// finds that the register shows another.
#[test]
fn a_session_begins_anew_between_two_loads(rt: HostRuntime) {
    let (board, passes, seats, mut collector) = opened(&rt, rt.alloc(), 2, 2);
    let (mut first, mut second) = passes;
    let (bucket, commit) = commit_one(&board, &mut second, seats.0, seats.1, 0);
    let early = begin(&board, &mut first, Scope::Declared(1));
    commit_one(&board, &mut second, bucket, commit, 1);
    let mark = board.mark(&mut collector);
    assert!(rt; mark == 2);
    let register = board.sample(&mut collector, 1);
    let Register::Live {
        number: 1,
        declared: true,
        moved: false,
    } = register
    else {
        panic!(rt; "at {mark}");
    };
    board.end(&mut first);
    let late = begin(&board, &mut first, Scope::Declared(2));
    let mask = load_mask(&board, &mut collector);
    let moves = board.move_one(&mut collector, 1, register);
    assert_eq!(rt; [early, late, mask, u64::from(moves)], [1, 2, 2, 0]);
}
