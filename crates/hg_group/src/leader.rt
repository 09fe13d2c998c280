//! A leader: pops a batch, stamps it, publishes it as one group, and lays down what became of it.

ghost use Rattle.std.specs.Prelude.{◌≡◌, ℕ, ◌+◌, ◌<◌, ◌≤◌, ◌^◌, [], suc, false, length, vec_capacity, OnOk, IfSome, IsSome, IsTrue};
ghost use Rattle.std.specs.VecDeque.{deque_capacity};
ghost use Rattle.hg_base.specs.History.{NoNumberTwice};
ghost use Rattle.hg_core.specs.Contents.{is_stamped};
ghost use Rattle.hg_core.specs.Logs.{is_plain, is_in, open_in};
ghost use Rattle.hg_rule.specs.Views.{others};
ghost use Rattle.hg_rule.specs.Holding.{commit, beyond};
ghost use Rattle.hg_rule.specs.Handing.{lent, members, who, part_of, writer_at};
ghost use Rattle.hg_rule.specs.Seats.{board_id, sizes_of, session_view, IsAwayOf};
ghost use Rattle.hg_store.specs.Passes.{IsStoreOf};
ghost use Rattle.hg_queue.specs.Queues.{known};
ghost use Rattle.hg_group.specs.Batch.{AreTaken, Gathers, HasBatch, HasGroup, HasRoomForAll, LaysAll, Stamped, StampsOne, all_pairs, all_records, with_room};
ghost use Rattle.hg_group.specs.Frames.{HasPlaces, IsKeptFor, IsLeading, IsStillAway};
ghost use Rattle.hg_group.specs.Leading.{Leads};
ghost use Rattle.hg_group.specs.Pushing.{IsPopping};
ghost use Rattle.hg_group.specs.Turns.{TakesTurn};

use crate::book::{Batches, Laid, Outcome};
use crate::receipt::Receipt;
use hg_base::{NoMemory, Rid, Writer};
use hg_queue::{Handed, OpenTx, Queue, QueuePass, RidList};
use hg_rule::{Board, SessionPass};
use hg_store::Store;
use std::collections::VecDeque;
use std::sync::Wait;

/// What a leader works with: the board, the store and the queue of one engine.
#[derive(Clone, Copy)]
pub struct Tools<'a> {
    pub(crate) board: &'a Board,
    pub(crate) store: &'a Store,
    pub(crate) queue: &'a Queue,
}

/// A leader's turn, unless something is laid at this place.
pub(crate) fn lead_unless_laid<R: Wait>(
    rt: &R,
    tools: &Tools<'_>,
    pass: &mut SessionPass,
    kept: Batches,
    at: usize,
) -> Batches
    requires store { IsStoreOf tools.now.board.now tools.now.store.now }
    requires own { IsAwayOf (board_id tools.now.board.now) (sizes_of tools.now.board.now) pass.old }
    // the pass has nothing but its own place
    requires alone { others (session_view pass.old) ≡ [] }
    requires kept { IsKeptFor tools.now kept }
    requires at { at < (sizes_of tools.now.board.now).sessions }
    ensures kept { IsKeptFor tools.now result }
    ensures led { Leads (session_view pass.old) (session_view pass.new) }
    ensures turn { TakesTurn (session_view pass.old) (session_view pass.new) }
    ensures own { IsStillAway tools.now.board.now pass.old pass.new }
{
    if kept.book.laid[at].is_none() {
        return lead(rt, tools, pass, kept);
    }
    kept
}

// Pops a batch, stamps it, publishes it as one group, and lays down its receipts. Room is made before the first stamp: if memory
// runs out there, each transaction is laid down open. An empty batch changes nothing.
fn lead<R: Wait>(rt: &R, tools: &Tools<'_>, pass: &mut SessionPass, kept: Batches) -> Batches
    requires store { IsStoreOf tools.now.board.now tools.now.store.now }
    requires own { IsAwayOf (board_id tools.now.board.now) (sizes_of tools.now.board.now) pass.old }
    // the pass has nothing but its own place
    requires alone { others (session_view pass.old) ≡ [] }
    requires kept { IsKeptFor tools.now kept }
    ensures kept { IsKeptFor tools.now result }
    ensures led { Leads (session_view pass.old) (session_view pass.new) }
    ensures turn { TakesTurn (session_view pass.old) (session_view pass.new) }
    ensures own { IsStillAway tools.now.board.now pass.old pass.new }
{
    let board = tools.board;
    let Batches { seat, mut book } = kept;
    let open = &mut *book;
    let sessions = open.laid.len();
    gather(rt, tools, pass, &mut open.line, &mut open.popped, sessions);
    if open.popped.is_empty() {
        return Batches { seat, book };
    }
    let number = board.join_commit(pass, seat) + 1;
    let Ok(()) = make_room(&mut open.contexts, &mut open.popped) else {
        let seat = board.split_commit(pass);
        lay_back(board, pass, &mut open.laid, &mut open.popped);
        return Batches { seat, book };
    };
    let txs = open.popped.as_slice();
    stamp_batch(rt, tools, pass, txs, number);
    board.publish(pass, number);
    let seat = board.split_commit(pass);
    lay(board, pass, &mut open.laid, txs, number, open.count);
    open.count += txs.len() as u64;
    let records = join_records(&mut open.popped);
    open.contexts.push_back_reserved(records);
    Batches { seat, book }
}

// Pops until the queue seems empty, and at most so many. What was handed over comes to the pass.
fn gather<R: Wait>(
    rt: &R,
    tools: &Tools<'_>,
    pass: &mut SessionPass,
    line: &mut QueuePass,
    popped: &mut Vec<OpenTx>,
    most: usize,
)
    requires own { IsAwayOf (board_id tools.now.board.now) (sizes_of tools.now.board.now) pass.old }
    // the pass has nothing but its own place
    requires alone { others (session_view pass.old) ≡ [] }
    requires line { IsPopping tools.now.queue.now (board_id tools.now.board.now) line.old }
    requires room { (popped.old.items ≡ []) × (most ≤ vec_capacity popped.old) }
    ensures gathered { Gathers (session_view pass.old) (known line.old).pairs popped.new.items
        (known line.new).pairs (session_view pass.new) }
    ensures own { IsStillAway tools.now.board.now pass.old pass.new }
    ensures line { IsPopping tools.now.queue.now (board_id tools.now.board.now) line.new }
    ensures room { (vec_capacity popped.new ≡ vec_capacity popped.old) ×
        (length popped.new.items ≤ most) }
{
    for turn in 0..most {
        let Some(handed) = tools.queue.pop(rt, line) else {
            return;
        };
        let Handed { tx, seat } = handed;
        tools.board.receive(pass, seat);
        popped.push_reserved(tx);
        if tools.queue.is_empty(rt, line) {
            return;
        }
    }
}

// How many records these transactions list, if that is a number.
fn count_records(popped: &[OpenTx]) -> Option<usize>
    ensures { IfSome result (λ count. count ≡ length (all_records popped.now)) }
{
    let mut count: usize = 0;
    for tx in popped {
        count = count.checked_add(tx.records.len())?;
    }
    Some(count)
}

// Room for one context more, and in the first transaction's list for the records of the others. A transaction alone needs none
// there.
fn make_room(contexts: &mut VecDeque<RidList>, popped: &mut Vec<OpenTx>) -> Result<(), NoMemory>
    requires some { 0 < length popped.old.items }
    ensures same { contexts.new.items ≡ contexts.old.items }
    // only the first list's room is another
    ensures whole { (room : ℕ) × (popped.new.items ≡ with_room room popped.old.items) }
    ensures capacity { vec_capacity popped.new ≡ vec_capacity popped.old }
    ensures place { OnOk result (length contexts.new.items < deque_capacity contexts.new) }
    ensures room { OnOk result (HasRoomForAll popped.new.items) }
{
    contexts.reserve(1)?;
    let Some(others) = count_records(&popped[1..]) else {
        return Err(NoMemory);
    };
    popped[0].records.reserve_many(others)
}

// Stamps each record of each of these transactions, in order.
fn stamp_batch<R: Wait>(
    rt: &R,
    tools: &Tools<'_>,
    pass: &mut SessionPass,
    popped: &[OpenTx],
    number: u64,
)
    requires store { IsStoreOf tools.now.board.now tools.now.store.now }
    requires own { IsLeading tools.now.board.now pass.old }
    requires unstamped { (commit (session_view pass.old)).stamped ≡ [] }
    // after the committer's part comes what was handed over, and nothing else
    requires received { beyond (session_view pass.old) ≡
        lent (members (beyond (session_view pass.old))) }
    requires taken { AreTaken popped.now (members (beyond (session_view pass.old))) ×
        NoNumberTwice (who (members (beyond (session_view pass.old)))) }
    requires next { number ≡ suc (length (commit (session_view pass.old)).history.list) }
    ensures stamped { Stamped (session_view pass.old) (all_pairs popped.now)
        (session_view pass.new) }
    ensures own { IsStillAway tools.now.board.now pass.old pass.new }
{
    for tx in popped {
        for rid in tx.records.as_slice() {
            stamp_one(rt, tools, pass, *rid, tx.writer, number);
        }
    }
}

// Stamps a record's open write. Its bucket is held for that alone.
fn stamp_one<R: Wait>(
    rt: &R,
    tools: &Tools<'_>,
    pass: &mut SessionPass,
    rid: Rid,
    by: Writer,
    number: u64,
)
    requires store { IsStoreOf tools.now.board.now tools.now.store.now }
    requires own { IsLeading tools.now.board.now pass.old }
    // after the committer's part comes what was handed over, the writer's own among it
    requires received { (beyond (session_view pass.old) ≡
        lent (members (beyond (session_view pass.old)))) ×
        IsTrue (is_in (who (members (beyond (session_view pass.old)))) by.session) }
    requires plain { IsTrue
        (is_plain (part_of by.session (members (beyond (session_view pass.old)))).log) }
    requires next { number ≡ suc (length (commit (session_view pass.old)).history.list) }
    requires by { by ≡ writer_at by.session (members (beyond (session_view pass.old))) }
    // the record is among the writer's open writes, and was not stamped yet
    requires mine { IsSome
        (open_in rid (part_of by.session (members (beyond (session_view pass.old)))).log) }
    requires once { is_stamped by.session rid (commit (session_view pass.old)).stamped ≡ false }
    ensures stamped { StampsOne (session_view pass.old) by.session rid number
        (session_view pass.new) }
    ensures own { IsStillAway tools.now.board.now pass.old pass.new }
{
    let board = tools.board;
    let bucket = tools.store.bucket_of(rid);
    let mut held = tools.store.take(rt, board, bucket, pass);
    held.stamp(board, pass, rid, by, number);
    held.give(board, pass);
}

// A receipt for each transaction of the group, in order, with its session's part. Nothing is allocated.
fn lay(
    board: &Board,
    pass: &mut SessionPass,
    laid: &mut Vec<Option<Laid>>,
    popped: &[OpenTx],
    number: u64,
    place: u64,
)
    requires own { IsAwayOf (board_id board.now) (sizes_of board.now) pass.old }
    requires group { HasGroup (sizes_of board.now).sessions (session_view pass.old) popped.now
        number place }
    requires laid { HasPlaces board.now laid.old.items }
    // each receipt's place fits
    requires small { place + length popped.now < 2 ^ 64 }
    ensures laid { HasPlaces board.now laid.new.items }
    ensures all { LaysAll (session_view pass.old) popped.now (session_view pass.new) }
    ensures own { IsStillAway board.now pass.old pass.new }
{
    for i in 0..popped.len() {
        let session = popped[i].writer.session;
        let seat = board.hand_back(pass, session);
        let receipt = Receipt {
            number,
            place: place + i as u64,
        };
        let outcome = Outcome::Committed(receipt);
        laid[session as usize - 1] = Some(Laid { seat, outcome });
    }
}

// Each transaction is laid down as it was, open, with its session's part. Nothing is allocated.
fn lay_back(
    board: &Board,
    pass: &mut SessionPass,
    laid: &mut Vec<Option<Laid>>,
    popped: &mut Vec<OpenTx>,
)
    requires own { IsAwayOf (board_id board.now) (sizes_of board.now) pass.old }
    requires batch { HasBatch (sizes_of board.now).sessions (session_view pass.old)
        popped.old.items }
    requires laid { HasPlaces board.now laid.old.items }
    ensures laid { HasPlaces board.now laid.new.items }
    ensures all { LaysAll (session_view pass.old) popped.old.items (session_view pass.new) }
    ensures own { IsStillAway board.now pass.old pass.new }
    ensures popped { (popped.new.items ≡ []) × (vec_capacity popped.new ≡ vec_capacity popped.old) }
{
    for turn in 0..popped.len() {
        let tx = popped.remove(0);
        let session = tx.writer.session;
        let seat = board.hand_back(pass, session);
        let back = Laid {
            seat,
            outcome: Outcome::Refused(tx),
        };
        laid[session as usize - 1] = Some(back);
    }
}

// The first transaction's list, and after its records those of the others. Nothing is allocated. The batch is gone.
fn join_records(popped: &mut Vec<OpenTx>) -> RidList
    requires some { 0 < length popped.old.items }
    requires room { HasRoomForAll popped.old.items }
    ensures records { result.list ≡ all_records popped.old.items }
    ensures gone { (popped.new.items ≡ []) × (vec_capacity popped.new ≡ vec_capacity popped.old) }
{
    let OpenTx { mut records, .. } = popped.remove(0);
    for tx in popped.as_slice() {
        for rid in tx.records.as_slice() {
            records.push_reserved(*rid);
        }
    }
    popped.clear();
    records
}
