//! Why a conversation ended before its client did.

use hg_base::NoMemory;

/// Why a host answers nothing more.
#[derive(Clone, Copy, Debug, PartialEq, Eq)]
pub enum Stop {
    NoMemory,
    /// It has no statement left.
    Spent,
}

impl From<NoMemory> for Stop {
    ghost use Rattle.std.specs.Prelude.{◌≡◌};
    ghost use Rattle.hg_talk.specs.declared.trouble.Stop.TheVariants as stop;

    ghost from_gives = { λ _ s. s ≡ stop.NoMemory };

    fn from(_: NoMemory) -> Stop {
        Stop::NoMemory
    }
}

/// Why a conversation ended before its client did.
#[derive(Clone, Copy, Debug, PartialEq, Eq)]
pub enum Trouble {
    /// A read of the client failed.
    Read,
    /// A write to the client failed.
    Write,
    /// Memory ran out for a record that was read. The host knows nothing of it.
    NoMemory,
    /// The host stopped.
    Stopped(Stop),
}

impl From<NoMemory> for Trouble {
    ghost use Rattle.std.specs.Prelude.{◌≡◌};
    ghost use Rattle.hg_talk.specs.declared.trouble.Trouble.TheVariants as trouble;

    ghost from_gives = { λ _ t. t ≡ trouble.NoMemory };

    fn from(_: NoMemory) -> Trouble {
        Trouble::NoMemory
    }
}

impl From<Stop> for Trouble {
    ghost use Rattle.std.specs.Prelude.{◌≡◌};
    ghost use Rattle.hg_talk.specs.declared.trouble.Trouble.TheVariants as trouble;

    ghost from_gives = { λ s t. t ≡ trouble.Stopped s };

    fn from(stop: Stop) -> Trouble {
        Trouble::Stopped(stop)
    }
}
