//! The counts of all buckets, read one bucket at a time.
//!
//!     pass     [ pass | commit | sessions | passes ]
//!              [ pass | bucket 0 | commit | .. ]       counts of bucket 0: in one state that meets the rule
//!              [ pass | commit | .. ]
//!              [ pass | bucket 1 | commit | .. ]       counts of bucket 1: in another one
//!
//! No single state has all buckets in the pass's hands. But the logs, the other visits and the history are in parts that the pass
//! keeps all the time, so they are the same for every bucket, and what is claimed of one bucket's counts speaks of these alone.

ghost use Rattle.std.specs.Prelude.{◌≡◌, ℕ, ◌+◌, ◌^◌, ◌<◌};
ghost use Rattle.hg_rule.specs.Rules.{IsBacked};
ghost use Rattle.hg_rule.specs.Holding.{commit};
ghost use Rattle.hg_rule.specs.Places.{HoldsCommit};
ghost use Rattle.hg_rule.specs.Seats.{board_id, sizes_of, pass_view, IsPassOf, IsCommitOf};
ghost use Rattle.hg_store.specs.Stores.{store_board_id, store_buckets};
ghost use Rattle.hg_headline.specs.Totalled.{plus};
ghost use Rattle.hg_session.specs.Ended.{committed, IsEnded, KeepsLogs, KeepsRemoved};
ghost use Rattle.hg_session.specs.Visited.{Counts, HasVisited, AreBucketsOf, TellOf};

use hg_base::Totals;
use hg_rule::{Board, CollectorPass, CommitSeat};
use hg_store::Store;
use std::sync::Wait;

/// Adds one bucket's counts to the sums.
pub(crate) fn add(sums: Totals, counts: Totals) -> Totals
    requires made { sums.made + counts.made < 2 ^ 64 }
    requires undone { sums.undone + counts.undone < 2 ^ 64 }
    requires group { sums.group + counts.group < 2 ^ 64 }
    requires table { sums.table + counts.table < 2 ^ 64 }
    requires interval { sums.interval + counts.interval < 2 ^ 64 }
    requires left { sums.left + counts.left < 2 ^ 64 }
    ensures { result ≡ plus sums counts }
{
    Totals {
        made: sums.made + counts.made,
        undone: sums.undone + counts.undone,
        group: sums.group + counts.group,
        table: sums.table + counts.table,
        interval: sums.interval + counts.interval,
        left: sums.left + counts.left,
    }
}

// Takes one bucket, reads its counts, and gives it back.
fn count_bucket<R: Wait>(
    rt: &R,
    board: &Board,
    store: &Store,
    bucket: u32,
    pass: &mut CollectorPass,
) -> Totals
    requires board { store_board_id store.now ≡ board_id board.now }
    requires own { IsPassOf (board_id board.now) pass.old }
    requires bucket { bucket < store_buckets store.now }
    ensures counts { Counts (sizes_of board.now) (pass_view pass.old) bucket result
        (pass_view pass.new) }
    ensures own { IsPassOf (board_id board.now) pass.new }
{
    let held = store.take(rt, board, bucket, pass);
    let counts = held.counts();
    held.give(board, pass);
    counts
}

/// The sums of all buckets' counts. The pass holds the committer's part, and all other parts were joined to it.
pub(crate) fn counted<R: Wait>(
    rt: &R,
    board: &Board,
    store: &Store,
    pass: &mut CollectorPass,
) -> Totals
    requires store { AreBucketsOf board.now store.now }
    requires own { IsPassOf (board_id board.now) pass.old }
    requires commit { HoldsCommit (pass_view pass.old) }
    requires ended { IsEnded (sizes_of board.now) (pass_view pass.old) }
    // some state of the board backs what the pass knows
    requires backed { (mark : ℕ) × IsBacked (sizes_of board.now) mark (pass_view pass.old) }
    ensures totals { TellOf (sizes_of board.now) (pass_view pass.old)
        (commit (pass_view pass.old)).history.list result }
    ensures visited { HasVisited (pass_view pass.old) (sizes_of board.now).buckets
        (pass_view pass.new) }
    ensures kept { KeepsLogs (pass_view pass.old) (pass_view pass.new) }
    ensures commit { HoldsCommit (pass_view pass.new) ×
        (commit (pass_view pass.new) ≡ commit (pass_view pass.old)) }
    ensures own { IsPassOf (board_id board.now) pass.new }
{
    let mut sums = Totals {
        made: 0,
        undone: 0,
        group: 0,
        table: 0,
        interval: 0,
        left: 0,
    };
    for bucket in 0..store.buckets() {
        let counts = count_bucket(rt, board, store, bucket, pass);
        sums = add(sums, counts);
    }
    sums
}

/// The same for a pass without the committer's part, which is joined to it and split off again. While the pass holds that part nobody
/// publishes a group, so the history is the same for every bucket. The seat comes back with the same part.
pub(crate) fn totals_with<R: Wait>(
    rt: &R,
    board: &Board,
    store: &Store,
    seat: CommitSeat,
    pass: &mut CollectorPass,
) -> (Totals, CommitSeat)
    requires store { AreBucketsOf board.now store.now }
    requires own { IsPassOf (board_id board.now) pass.old }
    requires commit { IsCommitOf (board_id board.now) seat }
    requires ended { IsEnded (sizes_of board.now) (pass_view pass.old) }
    ensures totals { TellOf (sizes_of board.now) (pass_view pass.old)
        (committed seat).history.list result.0 }
    // each bucket was taken once, and nothing was removed from it
    ensures visited { HasVisited (pass_view pass.old) (sizes_of board.now).buckets
        (pass_view pass.new) × KeepsRemoved (pass_view pass.old) (pass_view pass.new) }
    ensures kept { KeepsLogs (pass_view pass.old) (pass_view pass.new) }
    // the seat has the same part
    ensures seat { IsCommitOf (board_id board.now) result.1 ×
        (committed result.1 ≡ committed seat) }
    ensures ended { IsEnded (sizes_of board.now) (pass_view pass.new) }
    ensures own { IsPassOf (board_id board.now) pass.new }
{
    board.join_commit(pass, seat);
    let totals = counted(rt, board, store, pass);
    let seat = board.split_commit(pass);
    (totals, seat)
}
