//! Cuts of records at the bound of the pass's record, bucket by bucket.

ghost use Rattle.std.specs.Prelude.{◌≡◌, ℕ, ◌<◌, ◌≤◌, ◌^◌, [], ◌∷◌, length, drop, vec_capacity};
ghost use Rattle.std.specs.List.{between};
ghost use Rattle.hg_base.specs.declared.report.Kind.TheVariants.{Group};
ghost use Rattle.hg_core.specs.Passes.{IsWhole, group_bound};
ghost use Rattle.hg_core.specs.Counters.{total, removed_all};
ghost use Rattle.hg_rule.specs.Facts.{record_of};
ghost use Rattle.hg_rule.specs.Holding.{bucket};
ghost use Rattle.hg_rule.specs.Views.{pass as own_pass};
ghost use Rattle.hg_rule.specs.Seats.{board_id, sizes_of, pass_view, IsPassOf};
ghost use Rattle.hg_store.specs.Stores.{store_board_id, store_buckets, held_board_id, held_number, Holds};
ghost use Rattle.hg_collectors.specs.Cutting.{AreIn, CutsHeld, CutsAll, BeginsElsewhere, VisitsInOrder, VisitsEachOnce, stretches};

use hg_base::Rid;
use hg_rule::{Board, CollectorPass};
use hg_store::{Held, Store};
use std::sync::Wait;

// Cuts each of these records in the bucket that is held. The answer says how many versions went.
fn cut_held(
    board: &Board,
    pass: &mut CollectorPass,
    held: &mut Held,
    rids: &[Rid],
    bound: u64,
) -> u64
    requires own { IsPassOf (board_id board.now) pass.old }
    requires whole { IsWhole (sizes_of board.now).sessions
        (record_of (own_pass (pass_view pass.old))) }
    requires bound { bound ≡ group_bound (record_of (own_pass (pass_view pass.old))) }
    requires holds { Holds (pass_view pass.old) held.old }
    requires here { AreIn (sizes_of board.now).buckets (held_number held.old) rids.now }
    requires few { total (bucket (pass_view pass.old)).content ≤ 2 ^ 40 }
    ensures cuts { CutsHeld bound (pass_view pass.old) rids.now result (pass_view pass.new) }
    ensures holds { Holds (pass_view pass.new) held.new }
    ensures held { (held_board_id held.new ≡ held_board_id held.old) ×
        (held_number held.new ≡ held_number held.old) }
    ensures own { IsPassOf (board_id board.now) pass.new }
{
    let mut gone = 0;
    for rid in rids {
        gone += held.cut_record(board, pass, *rid, bound);
    }
    gone
}

// The records are of one bucket, which is taken once, and given back when each of them is cut. The answer says how many versions
// went.
fn cut_run<R: Wait>(
    rt: &R,
    board: &Board,
    store: &Store,
    pass: &mut CollectorPass,
    rids: &[Rid],
    bound: u64,
) -> u64
    requires board { store_board_id store.now ≡ board_id board.now }
    requires buckets { (0 < store_buckets store.now) ×
        (store_buckets store.now ≡ (sizes_of board.now).buckets) }
    requires own { IsPassOf (board_id board.now) pass.old }
    requires whole { IsWhole (sizes_of board.now).sessions
        (record_of (own_pass (pass_view pass.old))) }
    requires bound { bound ≡ group_bound (record_of (own_pass (pass_view pass.old))) }
    requires some { 0 < length rids.now }
    requires one { (b : ℕ) × AreIn (sizes_of board.now).buckets b rids.now }
    ensures cuts { CutsAll (sizes_of board.now).buckets bound (pass_view pass.old) rids.now result
        (pass_view pass.new) }
    ensures visits { (b : ℕ) → AreIn (sizes_of board.now).buckets b rids.now →
        VisitsInOrder (b ∷ []) (pass_view pass.old) (pass_view pass.new) }
    ensures few { removed_all Group (own_pass (pass_view pass.new)).visits ≤ 2 ^ 41 }
    ensures own { IsPassOf (board_id board.now) pass.new }
{
    let mut held = store.take(rt, board, store.bucket_of(rids[0]), pass);
    let gone = cut_held(board, pass, &mut held, rids, bound);
    held.give(board, pass);
    gone
}

// Where the records from this place on that are of its bucket end.
fn run_end(store: &Store, rids: &[Rid], from: usize) -> usize
    requires buckets { 0 < store_buckets store.now }
    requires inside { from < length rids.now }
    ensures some { (from < result) × (result ≤ length rids.now) }
    ensures one { (b : ℕ) × (AreIn (store_buckets store.now) b (between from result rids.now) ×
        BeginsElsewhere (store_buckets store.now) b (drop result rids.now)) }
{
    let bucket = store.bucket_of(rids[from]);
    let mut next = from + 1;
    while next < rids.len() && store.bucket_of(rids[next]) == bucket {
        next += 1;
    }
    next
}

/// Cuts each of these records. The answer says how many versions went.
pub(crate) fn cut_all<R: Wait>(
    rt: &R,
    board: &Board,
    store: &Store,
    pass: &mut CollectorPass,
    rids: &[Rid],
    bound: u64,
) -> u64
    requires board { store_board_id store.now ≡ board_id board.now }
    requires buckets { (0 < store_buckets store.now) ×
        (store_buckets store.now ≡ (sizes_of board.now).buckets) }
    requires own { IsPassOf (board_id board.now) pass.old }
    requires whole { IsWhole (sizes_of board.now).sessions
        (record_of (own_pass (pass_view pass.old))) }
    requires bound { bound ≡ group_bound (record_of (own_pass (pass_view pass.old))) }
    requires few { removed_all Group (own_pass (pass_view pass.old)).visits ≤ 2 ^ 41 }
    ensures cuts { CutsAll (sizes_of board.now).buckets bound (pass_view pass.old) rids.now result
        (pass_view pass.new) }
    ensures visits { VisitsInOrder (stretches (sizes_of board.now).buckets rids.now)
        (pass_view pass.old) (pass_view pass.new) }
    ensures few { removed_all Group (own_pass (pass_view pass.new)).visits ≤ 2 ^ 41 }
    ensures own { IsPassOf (board_id board.now) pass.new }
{
    let mut gone = 0;
    let mut done = 0;
    while done < rids.len() {
        let next = run_end(store, rids, done);
        gone += cut_run(rt, board, store, pass, &rids[done..next], bound);
        done = next;
    }
    gone
}

/// Cuts each of these records, in the order of their buckets. The answer says how many versions went.
pub(crate) fn cut_batch<R: Wait>(
    rt: &R,
    board: &Board,
    store: &Store,
    pass: &mut CollectorPass,
    rids: &mut Vec<Rid>,
    bound: u64,
) -> u64
    requires board { store_board_id store.now ≡ board_id board.now }
    requires buckets { (0 < store_buckets store.now) ×
        (store_buckets store.now ≡ (sizes_of board.now).buckets) }
    requires own { IsPassOf (board_id board.now) pass.old }
    requires whole { IsWhole (sizes_of board.now).sessions
        (record_of (own_pass (pass_view pass.old))) }
    requires bound { bound ≡ group_bound (record_of (own_pass (pass_view pass.old))) }
    requires few { removed_all Group (own_pass (pass_view pass.old)).visits ≤ 2 ^ 41 }
    ensures cuts { CutsAll (sizes_of board.now).buckets bound (pass_view pass.old) rids.old.items
        result (pass_view pass.new) }
    ensures visits { VisitsEachOnce (sizes_of board.now).buckets rids.old.items
        (pass_view pass.old) (pass_view pass.new) }
    ensures room { vec_capacity rids.new ≡ vec_capacity rids.old }
    ensures empty { rids.new.items ≡ [] }
    ensures few { removed_all Group (own_pass (pass_view pass.new)).visits ≤ 2 ^ 41 }
    ensures own { IsPassOf (board_id board.now) pass.new }
{
    rids.sort_unstable_by_key(|rid| (store.bucket_of(*rid), *rid));
    rids.dedup();
    let gone = cut_all(rt, board, store, pass, rids.as_slice(), bound);
    rids.clear();
    gone
}
