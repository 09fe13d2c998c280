//! The calls of a file and their answers, which only proofs see.

ghost use Rattle.std.specs.Prelude.{◌≡◌, ◌∷◌, [], List};
ghost use base.Fml.{ftrue};
ghost use Rattle.hg_journal.specs.Calls.{Answered};
ghost use Rattle.hg_journal.specs.CallCode.{calls_code};
ghost use Rattle.hg_journal.specs.Asked.{answered};

use std::marker::Model;

/// What a call asks of a file.
#[derive(Clone, Copy, Drop)]
pub(crate) enum Ask<'a> {
    /// As it was opened, this was read.
    Open { bytes: &'a [u8] },
    Write { at: usize, bytes: &'a [u8] },
    Replace { at: usize, byte: u8 },
    Cut { len: usize },
    Sync,
}

/// A call, and whether it was done.
#[derive(Clone, Copy, Drop)]
pub(crate) struct Call<'a> {
    pub ask: Ask<'a>,
    pub is_done: bool,
}

/// The calls so far, the newest first, which nothing but clauses can see: a value has no bytes, and its calls do nothing when they run.
#[derive(Drop)]
pub(crate) struct ToldCalls {
    ghost calls: { List Answered } by { calls_code },
}

impl Model for ToldCalls {
    ghost also_owns = { λ _. ftrue };
}

impl ToldCalls {
    /// None was made.
    pub(crate) fn new() -> ToldCalls
        ensures { result.calls ≡ [] }
    {
        ToldCalls {}
    }

    /// And then this one.
    pub(crate) fn then(&self, _call: &Call<'_>) -> ToldCalls
        ensures { result.calls ≡ answered _call.now ∷ self.now.calls }
    {
        ToldCalls {}
    }
}
