//! Two buckets are held at once.

ghost use Rattle.std.specs.Prelude.{◌≡◌, ◌<◌};
ghost use Rattle.hg_rule.specs.Seats.{board_id, IsPassOf};
ghost use Rattle.hg_store.specs.Stores.{store_board_id, store_buckets};

use hg_rule::{Board, CollectorPass};
use hg_store::Store;
use std::sync::Wait;
use std::sync::atomic::AtomicU64;
use std::sync::atomic::Ordering::SeqCst;
use std::thread::{join, yield_now};

// How often a thread looks for another before it gives up.
const TURNS: u64 = 10_000_000;

// Looks for what another thread says, and answers whether it was seen.
fn sees(other: &AtomicU64) -> bool {
    for _ in 0..TURNS {
        if other.load(SeqCst) == 1 {
            return true;
        }
        yield_now();
    }
    false
}

// Takes a bucket, says so by the first of the flags, and gives it back once it was said of the other bucket by the second. False where
// that wasn't seen.
fn hold_beside<R: Wait>(
    rt: &R,
    store: &Store,
    board: &Board,
    bucket: u32,
    pass: CollectorPass,
    flags: (&AtomicU64, &AtomicU64),
) -> bool
    requires board { store_board_id store.now ≡ board_id board.now }
    requires bucket { bucket < store_buckets store.now }
    requires own { IsPassOf (board_id board.now) pass }
{
    let mut pass = pass;
    let held = store.take(rt, board, bucket, &mut pass);
    flags.0.store(1, SeqCst);
    let seen = sees(flags.1);
    held.give(board, &mut pass);
    seen
}

#[test]
fn two_buckets_are_held_at_once(rt: HostRuntime) {
    let Ok((board, seats)) = Board::new(rt.alloc(), 1, 1, 2, 1) else {
        panic!(rt; "no board");
    };
    let Ok(store) = Store::new(rt.alloc(), seats.buckets) else {
        panic!(rt; "no store");
    };
    let buckets = store.buckets();
    let (group, table) = (seats.group, seats.table);
    let (first, second) = (AtomicU64::new(0), AtomicU64::new(0));
    let seen = join(
        &rt,
        || hold_beside(&rt, &store, &board, 0, group, (&first, &second)),
        || hold_beside(&rt, &store, &board, 1, table, (&second, &first)),
    );
    store.free();
    assert_eq!(rt; (buckets, seen.0, seen.1), (2, true, true));
}
