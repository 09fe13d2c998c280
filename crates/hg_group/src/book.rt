//! What lies under the commit lock: the committer's seat, and the book of the batches.

ghost use Rattle.std.specs.Prelude.{◌≡◌, ℕ, ◌≤◌, [], length, vec_capacity, IfOk};
ghost use Rattle.hg_lock.specs.Locks.{count_of, tag_of};
ghost use Rattle.hg_rule.specs.New.{IsNewCommit};
ghost use Rattle.hg_rule.specs.Seats.{BoardId};
ghost use Rattle.hg_queue.specs.Lines.{leader};
ghost use Rattle.hg_queue.specs.Queues.{IsPassOf, known};
ghost use Rattle.hg_group.specs.Batch.{AreLaid};
ghost use Rattle.hg_group.specs.Founded.{founding_board_id};

use crate::receipt::Receipt;
use hg_base::NoMemory;
use hg_lock::{Fits, Locks};
use hg_queue::{OpenTx, Queue, QueuePass, RidList};
use hg_rule::{CommitSeat, TxSeat};
use std::alloc::Global;
use std::collections::VecDeque;
use std::snapshot::Snapshot;

/// What became of a transaction that was handed over. If memory ran out, it is still open.
#[derive(Drop)]
pub enum Outcome {
    Committed(Receipt),
    Refused(OpenTx),
}

/// The outcome, with the session's part of the state.
#[derive(Drop)]
pub struct Laid {
    pub seat: TxSeat,
    pub outcome: Outcome,
}

/// The right to pop, room for a batch, what is laid for each session, the records of the groups that were not taken, oldest
/// first, and how many commits there are. The last of these groups has the mark as its number, so no context keeps its own.
#[derive(Drop)]
pub struct Book {
    pub(crate) line: QueuePass,
    pub(crate) popped: Vec<OpenTx>,
    pub(crate) laid: Vec<Option<Laid>>,
    pub(crate) contexts: VecDeque<RidList>,
    pub(crate) count: u64,
}

/// The seat, and the book in a box: a leader that takes them and gives them back moves no more than a seat and a word.
#[derive(Drop)]
pub struct Batches {
    pub(crate) seat: CommitSeat,
    pub(crate) book: Box<Book>,
}

/// What a list of locks is about: the board by its committer's seat, the queue, and how many sessions there are.
#[derive(Drop)]
pub struct Founding {
    pub seat: Snapshot<CommitSeat>,
    pub queue: Snapshot<Queue>,
    pub sessions: u32,
}

impl Fits for Batches {
    ghost use Rattle.hg_group.specs.Founded.{BatchesFit};

    type Tag = Snapshot<Founding>;

    ghost fits = { BatchesFit };
}

// A place for each session, where nothing is laid.
fn empty_places(alloc: Global, sessions: u32) -> Result<Vec<Option<Laid>>, NoMemory>
    ensures laid { (t : BoardId) (k : ℕ) → IfOk result (λ places. AreLaid t k places.items) }
    ensures count { IfOk result (λ places. length places.items ≡ sessions) }
{
    let mut places = Vec::with_capacity(alloc, sessions as usize)?;
    for turn in 0..sessions {
        places.push_reserved(None);
    }
    Ok(places)
}

// A book by which nothing was popped yet, with room for a transaction of each session.
fn new_book(alloc: Global, line: QueuePass, sessions: u32) -> Result<Book, NoMemory>
    ensures line { IfOk result (λ book. book.line ≡ line) }
    ensures room { IfOk result
        (λ book. (book.popped.items ≡ []) × (sessions ≤ vec_capacity book.popped)) }
    ensures laid { (t : BoardId) (k : ℕ) → IfOk result (λ book. AreLaid t k book.laid.items) }
    ensures places { IfOk result (λ book. length book.laid.items ≡ sessions) }
    ensures none { IfOk result (λ book. (book.contexts.items ≡ []) × (book.count ≡ 0)) }
{
    let popped = Vec::with_capacity(alloc, sessions as usize)?;
    let laid = empty_places(alloc, sessions)?;
    let contexts = VecDeque::new(alloc);
    Ok(Book {
        line,
        popped,
        laid,
        contexts,
        count: 0,
    })
}

/// The commit lock of a new engine, with the committer's seat and the right to pop under it.
pub(crate) fn commit_lock(
    alloc: Global,
    seat: CommitSeat,
    line: QueuePass,
    founding: &Snapshot<Founding>,
    sessions: u32,
) -> Result<Locks<Batches>, NoMemory>
    requires seat { IsNewCommit (founding_board_id founding.now.value) seat }
    requires line { IsPassOf founding.now.value.queue.value line }
    requires known { known line ≡ leader (founding_board_id founding.now.value) }
    requires sessions { founding.now.value.sessions ≡ sessions }
    ensures tag { IfOk result (λ locks. tag_of locks ≡ founding.now) }
    ensures count { IfOk result (λ locks. count_of locks ≡ 1) }
{
    let book = new_book(alloc, line, sessions)?;
    let book = Box::new(alloc, book)?;
    let mut batches = Vec::with_capacity(alloc, 1)?;
    batches.push_reserved(Batches { seat, book });
    Ok(Locks::new(alloc, batches, founding)?)
}
