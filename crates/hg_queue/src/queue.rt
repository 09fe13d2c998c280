//! The queue.

ghost use Rattle.std.specs.Prelude.{◌≡◌, IfOk, OnOk, IfErr, IfSome, IfNone};
ghost use Rattle.hg_rule.specs.Seats.{commit_seat};
ghost use Rattle.hg_queue.specs.Handing.{IsHandedOf};
ghost use Rattle.hg_queue.specs.Lines.{leader, pusher, MayPush, MayPop, pushed, popped};

use crate::handed::Handed;
use crate::line::{Line, QueuePass};
use crate::picks::Boarded;
use crate::plays::{Opening, Popping, Pushing, Twin};
use hg_base::NoMemory;
use hg_rule::CommitSeat;
use std::alloc::Global;
use std::marker::Brand;
use std::sync::Wait;

/// Transactions of one board that wait to be committed.
pub struct Queue {
    pub(crate) line: Line,
}

impl Queue {
    ghost use Rattle.hg_queue.specs.Queues.{IsPassOf, known};

    fn new_as<A: Boarded>(
        alloc: Global,
        _seat: &CommitSeat,
    ) -> Result<(Queue, QueuePass, QueuePass), NoMemory>
        ensures passes { IfOk result (λ q. IsPassOf q.0 q.1 × IsPassOf q.0 q.2) }
        ensures known { IfOk result
            (λ q. (known q.1 ≡ leader A.board) × (known q.2 ≡ pusher A.board)) }
    {
        let (line, mut pass) = Line::with_rule(alloc)?;
        let other = line.another::<Opening<A>>(&mut pass);
        Ok((
            Queue { line },
            QueuePass { pass },
            QueuePass { pass: other },
        ))
    }

    /// An empty queue of the seat's board, with the pass that pops and one that pushes.
    pub fn new(alloc: Global, seat: &CommitSeat) -> Result<(Queue, QueuePass, QueuePass), NoMemory>
        ensures passes { IfOk result (λ q. IsPassOf q.0 q.1 × IsPassOf q.0 q.2) }
        ensures known { IfOk result (λ q.
            (known q.1 ≡ leader (commit_seat seat.now).table_id) ×
            (known q.2 ≡ pusher (commit_seat seat.now).table_id)) }
    {
        Queue::new_as::<Brand>(alloc, seat)
    }

    /// Another pass that pushes, which knows the same.
    pub fn twin(&self, pass: &mut QueuePass) -> QueuePass
        requires own { IsPassOf self.now pass.old }
        requires pushes { MayPush (known pass.old) }
        ensures own { IsPassOf self.now pass.new × IsPassOf self.now result }
        ensures same { (known pass.new ≡ known pass.old) × (known result ≡ known pass.old) }
    {
        let twin = self.line.another::<Twin>(&mut pass.pass);
        QueuePass { pass: twin }
    }

    /// The transaction joins at the back, and is the last that the pass knows of. A refusal, for want of memory, hands it back.
    pub fn push<R: Wait>(&self, rt: &R, pass: &mut QueuePass, handed: Handed) -> Result<(), Handed>
        requires own { IsPassOf self.now pass.old }
        requires pushes { MayPush (known pass.old) }
        requires handed { IsHandedOf (known pass.old).board.id handed }
        ensures pushed { OnOk result (pushed (known pass.old) handed (known pass.new)) }
        ensures refused { IfErr result (λ x. (x ≡ handed) × (known pass.new ≡ known pass.old)) }
        ensures own { IsPassOf self.now pass.new }
    {
        self.line.push_as::<Pushing, R>(rt, &mut pass.pass, handed)
    }

    /// Takes the transaction at the front, and its pair is then the last that the pass knows of. With None the pass knows what it
    /// knew before: no clause says that the queue was empty.
    pub fn pop<R: Wait>(&self, rt: &R, pass: &mut QueuePass) -> Option<Handed>
        requires own { IsPassOf self.now pass.old }
        requires pops { MayPop (known pass.old) }
        ensures popped { IfSome result (λ x. popped (known pass.old) x (known pass.new)) }
        ensures none { IfNone result (known pass.new ≡ known pass.old) }
        ensures own { IsPassOf self.now pass.new }
    {
        self.line.pop_as::<Popping, R>(rt, &mut pass.pass)
    }

    /// Whether nothing seems to wait. It moves no transaction, so it costs less than a `pop` that answers None. The pass knows what
    /// it knew before: no clause says that the queue was empty, nor that it was not.
    pub fn is_empty<R: Wait>(&self, rt: &R, pass: &mut QueuePass) -> bool
        requires own { IsPassOf self.now pass.old }
        requires pops { MayPop (known pass.old) }
        ensures same { known pass.new ≡ known pass.old }
        ensures own { IsPassOf self.now pass.new }
    {
        self.line.len_as::<Popping, R>(rt, &mut pass.pass) == 0
    }
}

impl Drop for Queue {
    fn drop(self) {
        let Self { line } = self;
        line.destroy();
    }
}
