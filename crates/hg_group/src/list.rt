//! The locks of group commit and the queue: the calls of a session.

ghost use Rattle.std.specs.Prelude.{◌≡◌};
ghost use Rattle.hg_lock.specs.Locks.{count_of, tag_of};

use crate::book::{Batches, Founding, Laid, commit_lock};
use crate::follower::{Pusher, Submitted, join_queue, push_locks, take_laid, wait_until_laid};
use crate::leader::{Tools, lead_unless_laid};
use crate::receipt::Receipt;
use hg_base::NoMemory;
use hg_lock::Locks;
use hg_queue::{OpenTx, Queue};
use hg_rule::{Board, CommitSeat, SessionPass};
use hg_store::Store;
use std::alloc::Global;
use std::snapshot::Snapshot;
use std::sync::Wait;

/// A place for each session's right to push, the commit lock, and the queue.
#[derive(Drop)]
pub struct GroupList {
    pub(crate) batches: Locks<Batches>,
    pub(crate) pushers: Locks<Pusher>,
    pub(crate) queue: Queue,
    ghost one: { count_of batches ≡ 1 },
    ghost queue_is: { (tag_of batches).value.queue.value ≡ queue },
    ghost tags_are: { tag_of pushers ≡ tag_of batches },
    ghost count: { count_of pushers ≡ (tag_of batches).value.sessions },
}

impl GroupList {
    ghost use Rattle.std.specs.Prelude.{ℕ, ◌+◌, [], IfOk, IfErr, IfSome};
    ghost use Rattle.hg_rule.specs.New.{IsNewCommit};
    ghost use Rattle.hg_rule.specs.Views.{number, session, others, HasOnlySession};
    ghost use Rattle.hg_rule.specs.Seats.{BoardId, board_id, sizes_of, session_view, IsSessionOf, IsAwayOf};
    ghost use Rattle.hg_queue.specs.Handing.{IsOpenTxOf, MayCommit};
    ghost use Rattle.hg_group.specs.Batch.{HasFinished, IsLaid, IsRefused};
    ghost use Rattle.hg_group.specs.Frames.{AreOfOne, IsListOf, IsStillAway, IsToCommit};
    ghost use Rattle.hg_group.specs.Leading.{Leads};
    ghost use Rattle.hg_group.specs.Lists.{groups_board_id, groups_sessions, has_pushed, held_lock, IsSubmittedTo};
    ghost use Rattle.hg_group.specs.Submitting.{HasSubmitted, IsBackAgain, HasCommitted};
    ghost use Rattle.hg_group.specs.Turns.{TakesTurn};

    /// Nothing is committed, and nothing waits. The seat is the committer's of a new board with so many sessions.
    pub fn new(alloc: Global, seat: CommitSeat, sessions: u32) -> Result<GroupList, NoMemory>
        requires seat { (t : BoardId) × IsNewCommit t seat }
        ensures board { (t : BoardId) → IsNewCommit t seat →
            IfOk result (λ groups. groups_board_id groups ≡ t) }
        ensures sessions { IfOk result (λ groups. groups_sessions groups ≡ sessions) }
    {
        let (queue, line, mut pushing) = Queue::new(alloc, &seat)?;
        let founding = Founding {
            seat: Snapshot::of(&seat),
            queue: Snapshot::of(&queue),
            sessions,
        };
        let tag = Snapshot::of(&founding);
        let pushers = push_locks(alloc, &queue, &mut pushing, &tag, sessions)?;
        let batches = commit_lock(alloc, seat, line, &tag, sessions)?;
        Ok(GroupList {
            batches,
            pushers,
            queue,
        })
    }

    /// Frees the list, with whatever waits in its queue.
    pub fn free(self) {}

    /// The transaction joins the queue at its back, with the session's part, and the session's lock is held. A refusal hands it
    /// back as it was.
    pub fn submit<R: Wait>(
        &self,
        rt: &R,
        board: &Board,
        tx: OpenTx,
        pass: &mut SessionPass,
    ) -> Result<Submitted, (OpenTx, NoMemory)>
        requires list { IsListOf board.now self.now }
        requires own { IsSessionOf (board_id board.now) (sizes_of board.now) pass.old }
        requires only { HasOnlySession (session_view pass.old) }
        requires tx { IsToCommit (session_view pass.old) tx }
        ensures submitted { IfOk result (λ submitted.
            IsSubmittedTo self.now submitted ×
            (((mark : ℕ) × HasSubmitted (session_view pass.old) mark (session_view pass.new)) ×
            IsAwayOf (board_id board.now) (sizes_of board.now) pass.new)) }
        // its pair is the last that the queue's pass knows, and the lock is the session's own
        ensures pair { IfOk result (λ submitted.
            has_pushed (number (session_view pass.old)) tx.writer.transaction submitted) }
        ensures lock { IfOk result
            (λ submitted. held_lock submitted + 1 ≡ number (session_view pass.old)) }
        ensures refused { IfErr result (λ e.
            (e.0 ≡ tx) ×
            (IsBackAgain (session_view pass.old) (session_view pass.new) ×
            IsSessionOf (board_id board.now) (sizes_of board.now) pass.new)) }
        ensures number { pass.new.number ≡ pass.old.number }
    {
        let index = pass.writer().session as usize - 1;
        let (mut pusher, loan) = self.pushers.take(rt, index);
        match join_queue(rt, board, &self.queue, &mut pusher.line, tx, pass) {
            Ok(_) => Ok(Submitted { pusher, loan }),
            Err(tx) => {
                self.pushers.give(pusher, loan);
                Err((tx, NoMemory))
            }
        }
    }

    /// The commit lock is held once. Where nothing is laid for the session, it leads: all that it pops is published as one group,
    /// or, where memory is refused, nothing is stamped and nothing published, and each transaction is open still. The answer is
    /// what is laid for the session then.
    pub fn turn<R: Wait>(
        &self,
        rt: &R,
        board: &Board,
        store: &Store,
        pass: &mut SessionPass,
    ) -> Option<Laid>
        requires engine { AreOfOne board.now store.now self.now }
        requires own { IsAwayOf (board_id board.now) (sizes_of board.now) pass.old }
        // the pass has nothing but its own place
        requires alone { others (session_view pass.old) ≡ [] }
        requires may { MayCommit (session (session_view pass.old)) }
        ensures turn { TakesTurn (session_view pass.old) (session_view pass.new) }
        ensures led { Leads (session_view pass.old) (session_view pass.new) }
        ensures laid { IfSome result (IsLaid (board_id board.now) pass.new.number) }
        ensures own { IsStillAway board.now pass.old pass.new }
    {
        let at = pass.writer().session as usize - 1;
        let (kept, loan) = self.batches.take(rt, 0);
        let tools = Tools {
            board,
            store,
            queue: &self.queue,
        };
        let mut kept = lead_unless_laid(rt, &tools, pass, kept, at);
        let laid = take_laid(&mut kept, at);
        self.batches.give(kept, loan);
        laid
    }

    /// Waits for what becomes of the transaction that was handed over, and frees the session's lock. Where memory was refused, it is
    /// open still.
    pub fn finish<R: Wait>(
        &self,
        rt: &R,
        board: &Board,
        store: &Store,
        submitted: Submitted,
        pass: &mut SessionPass,
    ) -> Result<Receipt, (OpenTx, NoMemory)>
        requires engine { AreOfOne board.now store.now self.now }
        requires submitted { IsSubmittedTo self.now submitted }
        requires own { IsAwayOf (board_id board.now) (sizes_of board.now) pass.old }
        // the pass has nothing but its own place
        requires alone { others (session_view pass.old) ≡ [] }
        requires may { MayCommit (session (session_view pass.old)) }
        ensures finished { IfOk result
            (λ receipt. HasFinished (session_view pass.old) receipt (session_view pass.new)) }
        ensures refused { IfErr result
            (λ e. IsRefused (session_view pass.old) e.0 (session_view pass.new)) }
        ensures own { IsSessionOf (board_id board.now) (sizes_of board.now) pass.new ×
            (pass.new.number ≡ pass.old.number) }
    {
        let finished = wait_until_laid(rt, board, store, self, pass);
        let Submitted { pusher, loan } = submitted;
        self.pushers.give(pusher, loan);
        match finished {
            Ok(receipt) => Ok(receipt),
            Err(tx) => Err((tx, NoMemory)),
        }
    }

    /// Hands the transaction over, and waits for what becomes of it: it is published, alone or with others, in a group that comes
    /// after all that was seen. A refusal hands it back open.
    pub fn commit<R: Wait>(
        &self,
        rt: &R,
        board: &Board,
        store: &Store,
        tx: OpenTx,
        pass: &mut SessionPass,
    ) -> Result<Receipt, (OpenTx, NoMemory)>
        requires engine { AreOfOne board.now store.now self.now }
        requires own { IsSessionOf (board_id board.now) (sizes_of board.now) pass.old }
        requires only { HasOnlySession (session_view pass.old) }
        requires tx { IsToCommit (session_view pass.old) tx }
        ensures committed { IfOk result
            (λ receipt. HasCommitted (session_view pass.old) receipt (session_view pass.new)) }
        ensures refused { IfErr result (λ e.
            IsOpenTxOf (number (session_view pass.old)) (session (session_view pass.old)) e.0 ×
            IsBackAgain (session_view pass.old) (session_view pass.new)) }
        ensures own { IsSessionOf (board_id board.now) (sizes_of board.now) pass.new ×
            (pass.new.number ≡ pass.old.number) }
    {
        let submitted = self.submit(rt, board, tx, pass)?;
        self.finish(rt, board, store, submitted, pass)
    }
}
