//! Two sessions commit through the queue.

ghost use Rattle.std.specs.Prelude.{◌≡◌, ◌∷◌, [], ◌<◌, true, false, IfSome};
ghost use Rattle.hg_core.specs.declared.log.LogEntry.TheVariants.{Wrote};
ghost use Rattle.hg_core.specs.declared.phase.Phase.TheVariants.{Idle};
ghost use Rattle.hg_rule.specs.declared.view.Part.TheVariants.{OfSession};
ghost use Rattle.hg_rule.specs.Seats.{board_id, sizes_of, session_view, IsSessionOf, IsAwayOf, IsPassOf};
ghost use Rattle.hg_rule.specs.Holding.{writer};
ghost use Rattle.hg_rule.specs.Writes.{with_entry};
ghost use Rattle.hg_rule.specs.New.{IsNewSession, IsNewPass};
ghost use Rattle.hg_rule.specs.Views.{number, session, others, HasOnlySession};
ghost use Rattle.hg_group.specs.Frames.{AreOfOne, IsListOf, IsToCommit};
ghost use Rattle.hg_group.specs.Lists.{groups_board_id, IsSubmittedTo};
ghost use Rattle.hg_store.specs.Stores.{store_board_id, store_buckets};
ghost use Rattle.hg_queue.specs.Handing.{MayCommit};
ghost use Rattle.hg_trials.specs.Between.{HasBegun};

use crate::entering_tests::begin;
use hg_base::{Image, Rid, Row, Scope, Snapshot, TableId, Writer};
use hg_group::{GroupList, OpenTx, Receipt, RidList, Submitted};
use hg_rule::{Board, CollectorPass, SessionPass};
use hg_store::{Author, Store};
use std::alloc::Global;
use std::process::Abort;
use std::sync::Wait;

// Writes an image of a record in its bucket. The answer says who writes, and whether it was stored.
fn write<R: Wait>(
    rt: &R,
    board: &Board,
    store: &Store,
    pass: &mut SessionPass,
    asked: (Rid, Image),
    at: u64,
) -> (Writer, bool)
    requires board { store_board_id store.now ≡ board_id board.now }
    requires buckets { (0 < store_buckets store.now) ×
        (store_buckets store.now ≡ (sizes_of board.now).buckets) }
    requires own { IsSessionOf (board_id board.now) (sizes_of board.now) pass.old }
    requires only { HasOnlySession (session_view pass.old) }
    requires begun { HasBegun at (session (session_view pass.old)) }
    requires room { (asked.0.table.0 < (sizes_of board.now).tables) ×
        (0 < (sizes_of board.now).quota) }
    ensures own { IsSessionOf (board_id board.now) (sizes_of board.now) pass.new }
    ensures by { result.0 ≡ writer (session_view pass.old) }
    ensures stored { result.1 ≡ true →
        (session_view pass.new).parts ≡
        OfSession (number (session_view pass.old))
        (with_entry (Wrote asked.0 asked.1) (session (session_view pass.old))) ∷ [] }
{
    let (rid, image) = asked;
    let by = pass.writer();
    let mut held = store.take(rt, board, store.bucket_of(rid), pass);
    let author = Author {
        writer: by,
        snapshot: at,
    };
    let written = held.write(board, pass, rid, image, author);
    held.give(board, pass);
    (by, written.is_ok())
}

// A transaction with one put. The answer is its context.
fn put<R: Wait>(
    rt: &R,
    alloc: Global,
    board: &Board,
    store: &Store,
    pass: &mut SessionPass,
    key: u64,
) -> Option<OpenTx>
    requires board { store_board_id store.now ≡ board_id board.now }
    requires buckets { (0 < store_buckets store.now) ×
        (store_buckets store.now ≡ (sizes_of board.now).buckets) }
    requires own { IsSessionOf (board_id board.now) (sizes_of board.now) pass.old }
    requires only { HasOnlySession (session_view pass.old) }
    requires rests { (session (session_view pass.old)).phase ≡ Idle }
    requires log { (session (session_view pass.old)).log ≡ [] }
    requires unstamped { (session (session_view pass.old)).stamped ≡ false }
    requires room { (0 < (sizes_of board.now).tables) × (0 < (sizes_of board.now).quota) }
    ensures own { IsSessionOf (board_id board.now) (sizes_of board.now) pass.new }
    ensures ready { IfSome result (λ tx.
        HasOnlySession (session_view pass.new) × IsToCommit (session_view pass.new) tx) }
{
    let row = Row::from_slice(alloc, &[10]).ok();
    if row.is_none() {
        return None;
    }
    let mut records = RidList::new(alloc);
    if records.reserve().is_err() {
        return None;
    }
    let at = begin(board, pass, Scope::All);
    let table = TableId(0);
    let rid = Rid { table, key };
    let (writer, stored) = write(rt, board, store, pass, (rid, Image { row }), at);
    if !stored {
        return None;
    }
    records.push_reserved(rid);
    let scope = Scope::All;
    let snapshot = Snapshot { at, scope };
    Some(OpenTx {
        writer,
        snapshot,
        records,
    })
}

// Hands a transaction over to the queue.
fn submit<R: Abort + Wait>(
    rt: &R,
    board: &Board,
    groups: &GroupList,
    tx: OpenTx,
    pass: &mut SessionPass,
) -> Submitted
    requires list { IsListOf board.now groups.now }
    requires own { IsSessionOf (board_id board.now) (sizes_of board.now) pass.old }
    requires only { HasOnlySession (session_view pass.old) }
    requires tx { IsToCommit (session_view pass.old) tx }
    ensures submitted { IsSubmittedTo groups.now result }
    ensures own { IsAwayOf (board_id board.now) (sizes_of board.now) pass.new }
    ensures alone { others (session_view pass.new) ≡ [] }
    ensures may { MayCommit (session (session_view pass.new)) }
{
    let Ok(submitted) = groups.submit(rt, board, tx, pass) else {
        panic!(rt; "no memory");
    };
    submitted
}

// Has a transaction that was handed over committed.
fn finish<R: Wait>(
    rt: &R,
    board: &Board,
    store: &Store,
    groups: &GroupList,
    submitted: Submitted,
    pass: &mut SessionPass,
) -> Option<Receipt>
    requires engine { AreOfOne board.now store.now groups.now }
    requires submitted { IsSubmittedTo groups.now submitted }
    requires own { IsAwayOf (board_id board.now) (sizes_of board.now) pass.old }
    requires alone { others (session_view pass.old) ≡ [] }
    requires may { MayCommit (session (session_view pass.old)) }
{
    groups.finish(rt, board, store, submitted, pass).ok()
}

// A board of two sessions, its store and its groups; and the seats of session 1, of session 2 and of a collector.
fn opened<R: Abort>(
    rt: &R,
    alloc: Global,
) -> (
    Board,
    Store,
    GroupList,
    (SessionPass, SessionPass),
    CollectorPass,
)
    ensures sizes { sizes_of result.0 ≡
        record { sessions = 2; tables = 1; buckets = 2; quota = 4 } }
    ensures engine { AreOfOne result.0 result.1 result.2 }
    ensures first { IsNewSession (board_id result.0) 1 result.3.0 }
    ensures second { IsNewSession (board_id result.0) 2 result.3.1 }
    ensures pass { IsNewPass (board_id result.0) 0 result.4 }
{
    let Ok((board, seats)) = Board::new(alloc, 2, 1, 2, 4) else {
        panic!(rt; "no board");
    };
    let Ok(store) = Store::new(alloc, seats.buckets) else {
        panic!(rt; "no store");
    };
    let Ok(groups) = GroupList::new(alloc, seats.commit, 2) else {
        panic!(rt; "no groups");
    };
    let mut sessions = seats.sessions.into_vec();
    let (Some(second), Some(first)) = (sessions.pop(), sessions.pop()) else {
        panic!(rt; "no seats");
    };
    (board, store, groups, (first, second), seats.group)
}

// The receipts of session 2 and of session 1; the oldest context's number and its records; and that no other is left.
const COMMITTED: &str =
    "(Some(Receipt { number: 1, place: 0 }), Some(Receipt { number: 1, place: 1 })) 1 [Rid { table: TableId(0), key: 6 }, Rid { table: TableId(0), key: 5 }] true";

// Session 2 is first in the queue, so its transaction has the first place.
#[test]
fn two_sessions_commit_in_one_group(rt: HostRuntime) {
    let alloc = rt.alloc();
    let (board, store, groups, passes, mut collector) = opened(&rt, alloc);
    let (mut first, mut second) = passes;
    let tx = put(&rt, alloc, &board, &store, &mut first, 5).expect(&rt, "a put");
    let other = put(&rt, alloc, &board, &store, &mut second, 6).expect(&rt, "a put");
    let one = submit(&rt, &board, &groups, other, &mut second);
    let two = submit(&rt, &board, &groups, tx, &mut first);
    let first_done = finish(&rt, &board, &store, &groups, one, &mut second);
    let second_done = finish(&rt, &board, &store, &groups, two, &mut first);
    let receipts = (first_done, second_done);
    let told = tell(&rt, alloc, &board, &groups, &mut collector, receipts);
    groups.free();
    store.free();
    assert_eq!(rt; told.as_str(), COMMITTED);
}

// The receipts, the context of the oldest group, and whether no other is left. Where memory runs out the text is cut short.
fn tell<R: Wait>(
    rt: &R,
    alloc: Global,
    board: &Board,
    groups: &GroupList,
    pass: &mut CollectorPass,
    receipts: (Option<Receipt>, Option<Receipt>),
) -> String
    requires board { groups_board_id groups.now ≡ board_id board.now }
    requires own { IsPassOf (board_id board.now) pass.old }
{
    let mark = board.mark(pass);
    let context = groups.take_oldest(rt, board, mark, pass);
    let left = groups.take_oldest(rt, board, mark, pass);
    let mut told = String::new(alloc);
    if let Some(context) = context {
        let _ = write!(
            told,
            "{receipts:?} {} {:?} {}",
            context.number,
            context.records.as_slice(),
            left.is_none()
        );
    }
    told
}
