//! Helpers are hired for a round, work at the same time, and come back.

ghost use Rattle.std.specs.Prelude.{◌≡◌, ◌<◌, ◌≤◌, ℕ, [], length, slice_index_or, vec_capacity, All};
ghost use Rattle.hg_rule.specs.declared.view.View.{View};
ghost use Rattle.hg_rule.specs.Sharing.{MaySplit};
ghost use Rattle.hg_rule.specs.Views.{pass as own_pass};
ghost use Rattle.hg_rule.specs.Seats.{board_id, pass_view, IsPassOf};
ghost use Rattle.hg_tracker.specs.Boards.{trackers_board_id, board_sizes};
ghost use Rattle.hg_store.specs.Stores.{store_buckets};
ghost use Rattle.hg_rounds.specs.declared.helper.Helper.{Helper};
ghost use Rattle.hg_rounds.specs.declared.draws.Drawn.{Drawn};
ghost use Rattle.hg_rounds.specs.Word.{AreAll, IsFresh};
ghost use Rattle.hg_rounds.specs.Helpers.{IsHelperOf, HasHelped};
ghost use Rattle.hg_rounds.specs.Crew.{IsWilling, HasHired, Unites};
ghost use Rattle.hg_rounds.specs.Seats.{draws_id, drawn_by, IsDrawerOf};

use crate::draws::{Drawer, Draws};
use crate::helper::Helper;
use crate::tools::Tools;
use hg_base::Gate;
use hg_rule::{Board, CollectorPass};
use std::sync::Wait;
use std::thread;
use std::thread::Threads;

/// Splits a pass and a drawer off for each helper.
pub(crate) fn hire(
    board: &Board,
    pass: &mut CollectorPass,
    draws: &Draws,
    drawer: &mut Drawer,
    count: u32,
    helpers: &mut Vec<Helper>,
)
    requires own { IsPassOf (board_id board.now) pass.old
        × IsDrawerOf (draws_id draws.now) drawer.old }
    requires fresh { IsFresh (drawn_by drawer.old) }
    requires may { MaySplit count (own_pass (pass_view pass.old)).share }
    requires few { count ≤ 16 }
    requires none { helpers.old.items ≡ [] }
    requires places { count ≤ vec_capacity helpers.old }
    ensures hired { HasHired (board_id board.now) (draws_id draws.now) count
        (pass_view pass.old) helpers.new.items (pass_view pass.new) (drawn_by drawer.new) }
    ensures own { IsPassOf (board_id board.now) pass.new
        × IsDrawerOf (draws_id draws.now) drawer.new }
    ensures places { vec_capacity helpers.old ≤ vec_capacity helpers.new }
{
    for number in 0..count {
        let own = pass.split(board);
        let other = draws.hire(drawer);
        helpers.push_reserved(Helper {
            number: number + 1,
            pass: own,
            drawer: other,
            removed: 0,
        });
    }
}

/// Unites the helpers' passes with the pass, and sets the word back to 0. Returns how many versions they removed.
pub(crate) fn retire(
    board: &Board,
    pass: &mut CollectorPass,
    draws: &Draws,
    drawer: &mut Drawer,
    helpers: &mut Vec<Helper>,
) -> u64
    requires own { IsPassOf (board_id board.now) pass.old
        × IsDrawerOf (draws_id draws.now) drawer.old }
    // for some buckets and some pass that hired them, all helpers are back
    requires back { (buckets : ℕ) × (x : View) ×
        Unites (board_id board.now) (draws_id draws.now) buckets (length helpers.old.items) x
        helpers.old.items (pass_view pass.old) (drawn_by drawer.old) 0 }
    requires few { length helpers.old.items ≤ 16 }
    // for the same buckets and pass, all are united with it, each number was drawn once, and what each helper drew is shown
    ensures united { (buckets : ℕ) (x : View) →
        Unites (board_id board.now) (draws_id draws.now) buckets (length helpers.old.items) x
        helpers.old.items (pass_view pass.old) (drawn_by drawer.old) 0 →
        (drawn : Drawn) ×
        Unites (board_id board.now) (draws_id draws.now) buckets (length helpers.old.items) x
        [] (pass_view pass.new) drawn result ×
        AreAll drawn.numbers × ((drawn_by drawer.new).before ≡ drawn.joined) }
    ensures fresh { IsFresh (drawn_by drawer.new) }
    ensures none { helpers.new.items ≡ [] }
    ensures places { vec_capacity helpers.old ≤ vec_capacity helpers.new }
    ensures own { IsPassOf (board_id board.now) pass.new
        × IsDrawerOf (draws_id draws.now) drawer.new }
{
    let mut removed = 0;
    while let Some(helper) = helpers.pop() {
        let Helper {
            pass: other,
            drawer: back,
            removed: gone,
            ..
        } = helper;
        pass.unite(board, other);
        draws.take_back(drawer, back);
        removed += gone;
    }
    draws.restart(drawer);
    removed
}

/// Lets all helpers work at the same time, each in a thread of its own.
pub(crate) fn work<R: Threads + Wait + Sync, G: Gate + Sync>(
    rt: &R,
    tools: &Tools<'_>,
    draws: &Draws,
    gate: &G,
    helpers: &mut [Helper],
)
    requires hired { All (IsWilling (trackers_board_id tools.now.trackers.now) (draws_id draws.now)
        (board_sizes tools.now.trackers.now) tools.now.gathered.now) helpers.old }
    // each helper, by its index in the list
    ensures helped { (i : ℕ) (d : Helper) → i < length helpers.old →
        HasHelped (store_buckets tools.now.store.now) (slice_index_or helpers.old i d)
        (slice_index_or helpers.new i d) ×
        IsHelperOf (trackers_board_id tools.now.trackers.now) (draws_id draws.now)
        (slice_index_or helpers.new i d) }
{
    let count = helpers.len().max(1);
    thread::for_each_mut(
        rt,
        helpers,
        count,
        &|_, helper| helper.work(rt, tools, draws, gate),
    );
}
