//! What each step of the queue makes of a view.

ghost use Rattle.hg_queue.specs.Lines.{leader, pusher, pushed, popped};
ghost use Rattle.std.specs.Prelude.{⊤};

use crate::handed::Handed;
use crate::known::Known;
use crate::picks::Boarded;
use crossbeam_queue::protocol::{Lesson, Outcome, Split};
use std::marker::PhantomData;

/// The queue gets its board. One pass pops from then on, and the other pushes.
pub(crate) struct Opening<A> {
    board: PhantomData<A>,
}

impl<A: Boarded> Split<Known> for Opening<A> {
    ghost left = { λ v. leader A.board };

    ghost right = { λ v. pusher A.board };
}

pub(crate) struct Twin;

impl Split<Known> for Twin {
    ghost left = { λ v. v };

    ghost right = { λ v. v };
}

pub(crate) struct Pushing;

impl Outcome<Handed, Known> for Pushing {
    ghost then = { pushed };
}

pub(crate) struct Popping;

impl Outcome<Handed, Known> for Popping {
    ghost then = { popped };
}

impl Lesson<Handed, Known> for Popping {
    ghost fact = { λ v items. ⊤ };
}
