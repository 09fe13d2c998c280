//! Where bytes come from and go to, and what a worker asks before it acts.
//!
//! A source tells the bytes that it gave, and may tell those that are still to come. A sink tells the bytes that it took. Each counts its
//! faults, and the count never falls, so an answer `Failed` shows its cause.

ghost use Rattle.std.specs.Prelude.{◌≡◌, IfOk};
ghost use Rattle.std.specs.Io.{ReadsAtMost};
ghost use Rattle.std.specs.Io.KnownBytes.{ReadConsumes};
ghost use Rattle.hg_base.specs.Faults.{HasCause, TakesSome};
ghost use Rattle.hg_base.specs.Flows.{AddsFirst, Inflow, Outflow, finds_end};

use crate::fault::Failed;
use std::sync::Wait;

/// Where bytes come from.
pub trait Source {
    /// What it tells of itself.
    ghost flow: { Self → Inflow };

    /// Fills a front of `into`. Of a buffer that is not empty, `Ok(0)` says that nothing is left.
    fn read(&mut self, into: &mut [u8]) -> Result<usize, Failed>
        ensures bound { ReadsAtMost result into.new }
        ensures given { AddsFirst (flow self.old).given (flow self.new).given result into.new }
        ensures over { IfOk result (λ n. (flow self.new).is_over ≡ finds_end n into.new) }
        ensures left { ReadConsumes (flow self.old).left (flow self.new).left result into.new }
        ensures cause { HasCause (flow self.old).faults (flow self.new).faults result };

    /// Takes back what it gave, from a call that cannot use it.
    fn give_back(&mut self, _bytes: Vec<u8>)
        ensures { flow self.new ≡ flow self.old }
    {}
}

/// Where bytes go to.
pub trait Sink {
    /// What it tells of itself.
    ghost flow: { Self → Outflow };

    /// Takes a front of `piece`: at least one byte, where there is one.
    fn write(&mut self, piece: &[u8]) -> Result<usize, Failed>
        ensures bound { TakesSome result piece.now }
        ensures taken { AddsFirst (flow self.old).taken (flow self.new).taken result piece.now }
        ensures cause { HasCause (flow self.old).faults (flow self.new).faults result };
}

/// What a worker asks before its statement or round of this number, counted from 1. A test may hold it there.
pub trait Gate {
    fn at<R: Wait>(&self, rt: &R, worker: u32, statement: u32);
}
