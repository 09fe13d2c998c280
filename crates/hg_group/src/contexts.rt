//! What is kept of the groups that were not taken, and what a collector's pass takes of it while it holds the commit lock.

ghost use Rattle.std.specs.Prelude.{◌≡◌, ◌+◌, ◌<◌, ◌≤◌, ◌++◌, length, vec_capacity, IfSome};
ghost use Rattle.hg_lock.specs.Locks.{IsLoanOf};
ghost use Rattle.hg_rule.specs.Views.{pass as own_pass};
ghost use Rattle.hg_rule.specs.Holding.{HasCommit, commit};
ghost use Rattle.hg_rule.specs.Seats.{board_id, pass_view, IsPassOf};
ghost use Rattle.hg_group.specs.Contexts.{AreContexts};
ghost use Rattle.hg_group.specs.Oldest.{TakesOldest, TakesSome, PopsBelow, PopsSome};

use crate::book::{Batches, Book, Founding};
use crate::list::GroupList;
use hg_base::Rid;
use hg_lock::{Loan, Locks};
use hg_queue::RidList;
use hg_rule::{Board, CollectorPass, CommitSeat};
use std::collections::VecDeque;
use std::snapshot::Snapshot;
use std::sync::Wait;

/// A group that was published, with the records that it wrote, for the collector that goes by groups.
#[derive(Drop)]
pub struct GroupContext {
    pub number: u64,
    pub records: RidList,
}

/// What lies under the commit lock but for the committer's seat: nobody publishes meanwhile. It has no `Drop`: it ends in `give`.
pub struct HeldList<'a> {
    pub(crate) locks: &'a Locks<Batches>,
    pub(crate) loan: Loan<Batches, Snapshot<Founding>>,
    pub(crate) book: Box<Book>,
    ghost lent: { IsLoanOf locks.now loan },
}

impl<'a> HeldList<'a> {
    ghost use Rattle.hg_rule.specs.Seats.{IsCommitOf};
    ghost use Rattle.hg_group.specs.Places.{part_in};
    ghost use Rattle.hg_group.specs.Keeping.{held_board_id, KeepsBeside};

    /// The seat comes back, and the lock is free. It waits for nobody.
    pub fn give(self, seat: CommitSeat)
        requires seat { IsCommitOf (held_board_id self) seat }
        requires kept { KeepsBeside self (part_in seat) }
    {
        let HeldList { locks, loan, book } = self;
        locks.give(Batches { seat, book }, loan);
    }
}

// The committer's part is with the pass. Contexts are there for all groups that were not taken, so their number tells how many
// were.
fn pop_below(
    board: &Board,
    pass: &mut CollectorPass,
    contexts: &mut VecDeque<RidList>,
    mark: u64,
    bound: u64,
) -> Option<GroupContext>
    requires own { IsPassOf (board_id board.now) pass.old }
    requires held { HasCommit (pass_view pass.old) }
    requires mark { length (commit (pass_view pass.old)).history.list ≡ mark }
    requires taken { (commit (pass_view pass.old)).taken ≤ mark }
    requires bound { bound ≤ mark }
    requires contexts { AreContexts (commit (pass_view pass.old)).history.list
        (commit (pass_view pass.old)).taken contexts.old.items }
    ensures popped { PopsBelow (pass_view pass.old) bound result (pass_view pass.new) }
    ensures contexts { AreContexts (commit (pass_view pass.new)).history.list
        (commit (pass_view pass.new)).taken contexts.new.items }
    ensures own { IsPassOf (board_id board.now) pass.new }
{
    let taken = mark - contexts.len() as u64;
    if taken >= bound {
        return None;
    }
    board.take_group(pass);
    let Some(records) = contexts.pop_front() else {
        unreachable!();
    };
    Some(GroupContext {
        number: taken + 1,
        records,
    })
}

// Puts these records after those that are there. Nothing is allocated.
fn push_all(into: &mut Vec<Rid>, rids: &[Rid])
    requires room { length into.old.items + length rids.now ≤ vec_capacity into.old }
    ensures pushed { into.new.items ≡ into.old.items ++ rids.now }
    ensures same { vec_capacity into.new ≡ vec_capacity into.old }
{
    for rid in rids {
        into.push_reserved(*rid);
    }
}

// Pops contexts, and puts their records into the list, while there is room. A context that finds no room is given out, and ends it.
fn pop_some(
    board: &Board,
    pass: &mut CollectorPass,
    contexts: &mut VecDeque<RidList>,
    into: &mut Vec<Rid>,
    mark: u64,
    bound: u64,
) -> Option<GroupContext>
    requires own { IsPassOf (board_id board.now) pass.old }
    requires held { HasCommit (pass_view pass.old) }
    requires mark { length (commit (pass_view pass.old)).history.list ≡ mark }
    requires taken { (commit (pass_view pass.old)).taken ≤ mark }
    requires bound { bound ≤ mark }
    requires contexts { AreContexts (commit (pass_view pass.old)).history.list
        (commit (pass_view pass.old)).taken contexts.old.items }
    ensures popped { PopsSome (pass_view pass.old) bound into.old.items result into.new.items
        (pass_view pass.new) }
    ensures same { vec_capacity into.new ≡ vec_capacity into.old }
    ensures full { IfSome result (λ last.
        vec_capacity into.old < length into.new.items + length last.records.list) }
    ensures contexts { AreContexts (commit (pass_view pass.new)).history.list
        (commit (pass_view pass.new)).taken contexts.new.items }
    ensures own { IsPassOf (board_id board.now) pass.new }
{
    while let Some(context) = pop_below(board, pass, contexts, mark, bound) {
        if context.records.len() > into.capacity() - into.len() {
            return Some(context);
        }
        push_all(into, context.records.as_slice());
    }
    None
}

impl GroupList {
    ghost use Rattle.hg_rule.specs.Seats.{IsCommitOf};
    ghost use Rattle.hg_group.specs.Places.{part_in};
    ghost use Rattle.hg_group.specs.Lists.{groups_board_id};
    ghost use Rattle.hg_group.specs.Keeping.{held_board_id, KeepsBeside};

    /// Waits for the commit lock, and lends the committer's seat.
    pub fn take<R: Wait>(&self, rt: &R) -> (HeldList<'_>, CommitSeat)
        ensures board { held_board_id result.0 ≡ groups_board_id self.now }
        ensures seat { IsCommitOf (groups_board_id self.now) result.1 }
        ensures kept { KeepsBeside result.0 (part_in result.1) }
    {
        let (kept, loan) = self.batches.take(rt, 0);
        let Batches { seat, book } = kept;
        let held = HeldList {
            locks: &self.batches,
            loan,
            book,
        };
        (held, seat)
    }

    /// Where fewer than `bound` groups were taken, counts one more as taken, and gives its context out. Else none is given, and the
    /// pass has seen how many were. The bound is at most the mark of the pass's record. It waits for the commit lock, so the pass
    /// holds no bucket. Nothing is allocated.
    pub fn take_oldest<R: Wait>(
        &self,
        rt: &R,
        board: &Board,
        bound: u64,
        pass: &mut CollectorPass,
    ) -> Option<GroupContext>
        requires board { groups_board_id self.now ≡ board_id board.now }
        requires own { IsPassOf (board_id board.now) pass.old }
        requires bound { bound ≤ (own_pass (pass_view pass.old)).mark }
        ensures taken { TakesOldest (pass_view pass.old) bound result (pass_view pass.new) }
        ensures own { IsPassOf (board_id board.now) pass.new }
    {
        let (mut held, seat) = self.take(rt);
        let mark = board.join_commit(pass, seat);
        let context = pop_below(board, pass, &mut held.book.contexts, mark, bound);
        let seat = board.split_commit(pass);
        held.give(seat);
        context
    }

    /// Counts groups as taken, oldest first, until `bound` were, and puts their records into the list. It ends early where a
    /// group's records find no room there: that group is taken too, and its context is given out. The commit lock is taken once,
    /// and held for no more records than the list has room for. The bound is at most the mark of the pass's record, and the pass
    /// holds no bucket. Nothing is allocated.
    pub fn take_some<R: Wait>(
        &self,
        rt: &R,
        board: &Board,
        bound: u64,
        into: &mut Vec<Rid>,
        pass: &mut CollectorPass,
    ) -> Option<GroupContext>
        requires board { groups_board_id self.now ≡ board_id board.now }
        requires own { IsPassOf (board_id board.now) pass.old }
        requires bound { bound ≤ (own_pass (pass_view pass.old)).mark }
        ensures taken { TakesSome (pass_view pass.old) bound into.old.items result into.new.items
            (pass_view pass.new) }
        ensures same { vec_capacity into.new ≡ vec_capacity into.old }
        ensures full { IfSome result (λ last.
            vec_capacity into.old < length into.new.items + length last.records.list) }
        ensures own { IsPassOf (board_id board.now) pass.new }
    {
        let (mut held, seat) = self.take(rt);
        let mark = board.join_commit(pass, seat);
        let last = pop_some(board, pass, &mut held.book.contexts, into, mark, bound);
        let seat = board.split_commit(pass);
        held.give(seat);
        last
    }
}
