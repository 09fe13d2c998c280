//! A follower: hands its open transaction over, waits turn after turn, and takes back what is laid for it.

ghost use Rattle.std.specs.Prelude.{◌≡◌, ℕ, suc, ◌<◌, [], length, IfOk, IfErr, IfSome};
ghost use Rattle.hg_lock.specs.Locks.{EachFits, count_of, tag_of};
ghost use Rattle.hg_rule.specs.Views.{number, session, others, HasOnlySession};
ghost use Rattle.hg_rule.specs.Seats.{BoardId, board_id, sizes_of, session_view, IsSessionOf, IsAwayOf};
ghost use Rattle.hg_queue.specs.Handing.{MayCommit};
ghost use Rattle.hg_queue.specs.Queues.{known};
ghost use Rattle.hg_group.specs.Batch.{IsLaid, HasFinished, IsRefused};
ghost use Rattle.hg_group.specs.Founded.{founding_board_id};
ghost use Rattle.hg_group.specs.Frames.{AreOfOne, IsToCommit};
ghost use Rattle.hg_group.specs.Leading.{IsKept};
ghost use Rattle.hg_group.specs.Pushing.{IsPushing, PusherFits};
ghost use Rattle.hg_group.specs.Submitting.{HasSubmitted, IsBackAgain, ends_with};

use crate::book::{Batches, Founding, Laid, Outcome};
use crate::list::GroupList;
use crate::receipt::Receipt;
use hg_base::NoMemory;
use hg_lock::{Fits, Loan, Locks};
use hg_queue::{Handed, OpenTx, Queue, QueuePass};
use hg_rule::{Board, SessionPass};
use hg_store::Store;
use std::alloc::Global;
use std::snapshot::Snapshot;
use std::sync::Wait;

/// What lies under a session's lock: its pass of the queue, by which it pushes.
#[derive(Drop)]
pub struct Pusher {
    pub(crate) line: QueuePass,
}

impl Fits for Pusher {
    ghost use Rattle.hg_group.specs.Pushing.{PusherFits};

    type Tag = Snapshot<Founding>;

    ghost fits = { PusherFits };
}

// The right to push, for each session.
fn make_pushers(
    alloc: Global,
    queue: &Queue,
    line: &mut QueuePass,
    founding: &Snapshot<Founding>,
    sessions: u32,
) -> Result<Vec<Pusher>, NoMemory>
    requires queue { founding.now.value.queue.value ≡ queue.now }
    requires line { IsPushing queue.now (founding_board_id founding.now.value) line.old }
    ensures fit { IfOk result (λ pushers. EachFits (PusherFits founding.now) pushers.items) }
    ensures count { IfOk result (λ pushers. length pushers.items ≡ sessions) }
{
    let mut pushers = Vec::with_capacity(alloc, sessions as usize)?;
    for turn in 0..sessions {
        pushers.push_reserved(Pusher {
            line: queue.twin(line),
        });
    }
    Ok(pushers)
}

/// A lock for each session's right to push.
pub(crate) fn push_locks(
    alloc: Global,
    queue: &Queue,
    line: &mut QueuePass,
    founding: &Snapshot<Founding>,
    sessions: u32,
) -> Result<Locks<Pusher>, NoMemory>
    requires queue { founding.now.value.queue.value ≡ queue.now }
    requires line { IsPushing queue.now (founding_board_id founding.now.value) line.old }
    ensures tag { IfOk result (λ locks. tag_of locks ≡ founding.now) }
    ensures count { IfOk result (λ locks. count_of locks ≡ sessions) }
{
    let pushers = make_pushers(alloc, queue, line, founding, sessions)?;
    Ok(Locks::new(alloc, pushers, founding)?)
}

/// A session's right to push, while its transaction is on its way and its lock is held. It has no `Drop`: it ends in `finish`.
pub struct Submitted {
    pub(crate) pusher: Pusher,
    pub(crate) loan: Loan<Pusher, Snapshot<Founding>>,
}

/// The transaction joins the queue at its back, with the session's part. The answer is the mark of that time. A refusal hands
/// it back as it was.
pub(crate) fn join_queue<R: Wait>(
    rt: &R,
    board: &Board,
    queue: &Queue,
    line: &mut QueuePass,
    tx: OpenTx,
    pass: &mut SessionPass,
) -> Result<u64, OpenTx>
    requires own { IsSessionOf (board_id board.now) (sizes_of board.now) pass.old }
    requires only { HasOnlySession (session_view pass.old) }
    requires tx { IsToCommit (session_view pass.old) tx }
    requires line { IsPushing queue.now (board_id board.now) line.old }
    ensures submitted { IfOk result (λ mark.
        HasSubmitted (session_view pass.old) mark (session_view pass.new) ×
        IsAwayOf (board_id board.now) (sizes_of board.now) pass.new) }
    // its pair is the last that the queue's pass knows
    ensures pair { IfOk result (λ mark.
        ends_with (number (session_view pass.old)) tx.writer.transaction (known line.old)
        (known line.new)) }
    ensures refused { IfErr result (λ x.
        (x ≡ tx) ×
        (IsBackAgain (session_view pass.old) (session_view pass.new) ×
        IsSessionOf (board_id board.now) (sizes_of board.now) pass.new)) }
    ensures number { pass.new.number ≡ pass.old.number }
    ensures line { IsPushing queue.now (board_id board.now) line.new }
{
    let (mark, seat) = board.hand_over(pass);
    match queue.push(rt, line, Handed { tx, seat }) {
        Ok(()) => Ok(mark),
        Err(handed) => {
            let Handed { tx, seat } = handed;
            board.resume(pass, seat);
            Err(tx)
        }
    }
}

/// Turn after turn, until something is laid for the session.
pub(crate) fn wait_until_laid<R: Wait>(
    rt: &R,
    board: &Board,
    store: &Store,
    groups: &GroupList,
    pass: &mut SessionPass,
) -> Result<Receipt, OpenTx>
    requires engine { AreOfOne board.now store.now groups.now }
    requires own { IsAwayOf (board_id board.now) (sizes_of board.now) pass.old }
    // the pass has nothing but its own place
    requires alone { others (session_view pass.old) ≡ [] }
    requires may { MayCommit (session (session_view pass.old)) }
    ensures finished { IfOk result
        (λ receipt. HasFinished (session_view pass.old) receipt (session_view pass.new)) }
    ensures refused { IfErr result
        (λ tx. IsRefused (session_view pass.old) tx (session_view pass.new)) }
    ensures own { IsSessionOf (board_id board.now) (sizes_of board.now) pass.new ×
        (pass.new.number ≡ pass.old.number) }
{
    for _ in rt.forever() {
        if let Some(laid) = groups.turn(rt, board, store, pass) {
            return take_back(board, pass, laid);
        }
    }
    unreachable!()
}

/// What is laid at a place is taken from there.
pub(crate) fn take_laid(kept: &mut Batches, index: usize) -> Option<Laid>
    requires index { index < length kept.old.book.value.laid.items }
    ensures taken { (t : BoardId) (sessions : ℕ) → IsKept t sessions kept.old →
        IsKept t sessions kept.new × IfSome result (IsLaid t (suc index)) }
    ensures line { kept.new.book.value.line ≡ kept.old.book.value.line }
{
    kept.book.laid[index].take()
}

/// The session's part comes back, with its receipt, or with its transaction, which is still open.
pub(crate) fn take_back(
    board: &Board,
    pass: &mut SessionPass,
    laid: Laid,
) -> Result<Receipt, OpenTx>
    requires own { IsAwayOf (board_id board.now) (sizes_of board.now) pass.old }
    requires alone { others (session_view pass.old) ≡ [] }
    requires may { MayCommit (session (session_view pass.old)) }
    requires laid { IsLaid (board_id board.now) pass.old.number laid }
    ensures finished { IfOk result
        (λ receipt. HasFinished (session_view pass.old) receipt (session_view pass.new)) }
    ensures refused { IfErr result
        (λ tx. IsRefused (session_view pass.old) tx (session_view pass.new)) }
    ensures own { IsSessionOf (board_id board.now) (sizes_of board.now) pass.new ×
        (pass.new.number ≡ pass.old.number) }
{
    let Laid { seat, outcome } = laid;
    board.resume(pass, seat);
    match outcome {
        Outcome::Committed(receipt) => Ok(receipt),
        Outcome::Refused(tx) => Err(tx),
    }
}
