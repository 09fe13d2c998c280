//! The newest version of a place, and where the others are.

ghost use Rattle.std.specs.Prelude.{◌≡◌};
ghost use Rattle.hg_chains.specs.Versions.{begins_at_most, is_open_by, newest};
ghost use Rattle.hg_chains.specs.Strands.{first_number, front_of, no_head};

use crate::node::Strand;
use crate::version::Stamp;
use hg_base::{Image, Writer};
use std::mem::size_of;

/// Whether a place has a version, and whether its newest one is an open write.
#[derive(Clone, Copy)]
pub(crate) enum State {
    Empty,
    Open,
    Stamped,
}

/// The newest version of a place, if it has one, and the strand of the others. Of a place with no version, and of an open write, `number`
/// says nothing.
#[derive(Drop)]
pub(crate) struct Head {
    pub strand: Strand,
    pub session: u32,
    pub state: State,
    pub transaction: u64,
    pub number: u64,
    pub image: Image,
}

const _: () = prove!(size_of::<Head>() <= 72);

impl Head {
    /// The head of a place that has no version.
    pub fn empty() -> Head
        ensures { result ≡ no_head }
    {
        Head {
            strand: Strand::EMPTY,
            session: 0,
            state: State::Empty,
            transaction: 0,
            number: 0,
            image: Image { row: None },
        }
    }

    /// When the newest version came about.
    pub fn stamp(&self) -> Option<Stamp>
        ensures { result ≡ newest (front_of self.now) }
    {
        let by = Writer {
            session: self.session,
            transaction: self.transaction,
        };
        match self.state {
            State::Empty => None,
            State::Open => Some(Stamp::Written(by)),
            State::Stamped => Some(Stamp::Numbered {
                number: self.number,
                by,
            }),
        }
    }

    /// Its number, if it has one.
    pub fn number(&self) -> Option<u64>
        ensures { result ≡ first_number self.now }
    {
        match self.state {
            State::Stamped => Some(self.number),
            State::Empty | State::Open => None,
        }
    }

    /// Whether it has a number, and that is at or below the bound.
    pub fn is_at_most(&self, bound: u64) -> bool
        ensures { result ≡ begins_at_most bound (front_of self.now) }
    {
        match self.state {
            State::Stamped => self.number <= bound,
            State::Empty | State::Open => false,
        }
    }

    /// Whether it is an open write of that transaction.
    pub fn is_open_by(&self, by: Writer) -> bool
        ensures { result ≡ is_open_by by (front_of self.now) }
    {
        match self.state {
            State::Open => self.session == by.session && self.transaction == by.transaction,
            State::Empty | State::Stamped => false,
        }
    }
}
