//! When the collectors of a conversation make a round that nobody asked for.
//!
//! A round costs what there is to look at. So the next one is made when as many writes were stored since as versions were left by it, and
//! `LEAST` at least: then the versions that are held stay within twice what is needed, and a write pays for a round by a constant share.

ghost use Rattle.std.specs.Prelude.{◌≡◌, ◌&&◌, max, nat_le, false, true};

use hg_base::{Answer, Reply};

// Before so many writes no further round is made.
const LEAST: u64 = 1_024;

/// How many writes were stored since the last round, and how many have to be.
#[derive(Clone, Copy, Debug, PartialEq, Eq)]
pub(crate) struct Upkeep {
    // Whether there are such rounds.
    on: bool,
    stored: u64,
    due: u64,
}

impl Upkeep {
    /// Before the first write.
    pub(crate) fn new(on: bool) -> Upkeep
        ensures { result.on ≡ on }
    {
        Upkeep {
            on,
            stored: 0,
            due: LEAST,
        }
    }

    /// Whether it is time for a round.
    pub(crate) fn is_due(&self) -> bool
        ensures { result ≡ (self.now.on && nat_le self.now.due self.now.stored) }
    {
        self.on && self.due <= self.stored
    }

    /// A statement was answered.
    pub(crate) fn note(&mut self, reply: &Reply)
        ensures on { self.new.on ≡ self.old.on }
        ensures due { self.new.due ≡ self.old.due }
    {
        if matches!(reply.answer, Answer::Stored | Answer::Gone) {
            self.stored = self.stored.saturating_add(1);
        }
    }

    /// A round was made, and left so many versions.
    pub(crate) fn rest(&mut self, left: u64)
        ensures { self.new ≡ record { on = self.old.on; stored = 0; due = max LEAST left } }
    {
        self.stored = 0;
        self.due = left.max(LEAST);
    }
}
