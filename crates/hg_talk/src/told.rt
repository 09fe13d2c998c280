//! A log that only proofs see.

ghost use Rattle.std.specs.Prelude.{◌≡◌, ◌∷◌, [], List};
ghost use base.Fml.{ftrue};
ghost use Rattle.hg_talk.specs.Events.{Event};
ghost use Rattle.hg_talk.specs.Kept.{events_code};

use std::marker::Model;

/// What passed, newest first, which nothing but clauses can see: a value has no bytes, and its calls do nothing when they run.
#[derive(Drop)]
pub(crate) struct ToldLog {
    ghost events: { List Event } by { events_code },
}

impl Model for ToldLog {
    ghost also_owns = { λ _. ftrue };
}

/// What a call did.
#[derive(Clone, Copy, Drop)]
pub(crate) enum Note<'a> {
    Read(&'a [u8]),
    Wrote(&'a [u8]),
    ReadFailed,
    WriteFailed,
}

impl ToldLog {
    ghost use Rattle.hg_talk.specs.Noted.{event_of};

    /// Nothing passed.
    pub(crate) fn new() -> ToldLog
        ensures { result.events ≡ [] }
    {
        ToldLog {}
    }

    /// And then a call did this.
    pub(crate) fn then(&self, _note: &Note<'_>) -> ToldLog
        ensures { result.events ≡ event_of _note.now ∷ self.now.events }
    {
        ToldLog {}
    }
}
