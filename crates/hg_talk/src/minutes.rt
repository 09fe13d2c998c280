//! The minutes of a conversation, which only proofs see.

ghost use Rattle.std.specs.Prelude.{◌≡◌, ◌++◌, ◌∷◌, [], List};
ghost use base.Fml.{ftrue};
ghost use Rattle.hg_talk.specs.Kept.{exchanges_code};
ghost use Rattle.hg_talk.specs.Talking.{Exchange};

use crate::heard::Heard;
use std::marker::Model;

/// What was heard, each with its answer, which nothing but clauses can see: a value has no bytes, and its calls do nothing when they run.
#[derive(Drop)]
pub struct Minutes {
    ghost exchanges: { List Exchange } by { exchanges_code },
}

impl Model for Minutes {
    ghost also_owns = { λ _. ftrue };
}

/// What was heard and its answer.
#[derive(Clone, Copy, Drop)]
pub struct Said<'a> {
    pub asked: Heard<'a>,
    pub answer: &'a [u8],
}

impl Minutes {
    ghost use Rattle.hg_talk.specs.Noted.{exchange_of};

    /// Nothing was heard.
    pub fn new() -> Minutes
        ensures { result.exchanges ≡ [] }
    {
        Minutes {}
    }

    /// And then this was heard and answered.
    pub fn then(&self, _said: &Said<'_>) -> Minutes
        ensures { result.exchanges ≡ self.now.exchanges ++ exchange_of _said.now ∷ [] }
    {
        Minutes {}
    }
}
