//! What the words ask for.

ghost use Rattle.std.specs.Prelude.{◌≡◌};
ghost use Rattle.hg_words.specs.declared.options.WordsRefusal.TheVariants.{NoMemory};

use std::alloc::AllocError;

/// What is to be done.
#[derive(Clone, Copy, Debug, PartialEq, Eq)]
pub enum Command {
    Replay,
    Run,
    /// With its seed.
    Load(u64),
    Audit,
    Dump,
}

#[derive(Clone, Copy, Debug, PartialEq, Eq)]
pub struct Options {
    pub command: Command,
    pub buckets: u32,
    /// In commit numbers.
    pub long: u64,
    pub rounds: u32,
    pub sweepers: u32,
}

#[derive(Clone, Copy, Debug, PartialEq, Eq)]
pub enum WordsRefusal {
    Usage,
    NoMemory,
}

impl From<AllocError> for WordsRefusal {
    ghost from_gives = { λ _ refusal. refusal ≡ NoMemory };

    fn from(_: AllocError) -> Self {
        WordsRefusal::NoMemory
    }
}
