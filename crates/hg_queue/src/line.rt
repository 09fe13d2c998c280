//! The rule of the queue.

use crate::handed::Handed;
use crate::known::Known;
use crossbeam_queue::protocol::Protocol;
use crossbeam_queue::{RuledSegQueue, SegPass};

/// First in, first out, of one board.
pub struct InOrder;

impl Protocol<Handed, Known> for InOrder {
    ghost use Rattle.hg_queue.specs.Lines.{Ordered, opening};

    ghost holds = { Ordered };

    ghost first = { opening };
}

pub(crate) type Line = RuledSegQueue<Handed, Known, InOrder>;

/// The right to push, or to pop. It has no bytes.
#[derive(Drop)]
pub struct QueuePass {
    pub(crate) pass: SegPass<Handed, Known>,
}
