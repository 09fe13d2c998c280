//! What a session of a made script does next.

ghost use Rattle.std.specs.Prelude.{◌≡◌};
ghost use Rattle.hg_seed.specs.Generator.{chosen, chosen_in, inside, outside};

/// A statement without its table, key and values.
#[derive(Clone, Copy)]
pub(crate) enum Choice {
    Begin,
    /// Of a transaction on table c alone.
    BeginC,
    Get,
    Put,
    Del,
    Scan,
    Commit,
    Rollback,
    Gc,
}

impl Choice {
    fn outside(r: u64) -> Choice
        ensures { result ≡ chosen_in outside r }
    {
        match r {
            0..=5 => Choice::Begin,
            6..=7 => Choice::BeginC,
            8..=9 => Choice::Get,
            10..=12 => Choice::Put,
            13 => Choice::Del,
            14 => Choice::Scan,
            _ => Choice::Gc,
        }
    }

    fn inside(r: u64) -> Choice
        ensures { result ≡ chosen_in inside r }
    {
        match r {
            0..=4 => Choice::Put,
            5..=7 => Choice::Get,
            8 => Choice::Del,
            9 => Choice::Scan,
            10..=13 => Choice::Commit,
            14 => Choice::Rollback,
            _ => Choice::Gc,
        }
    }

    /// The choice by a number, where a transaction is open, or not.
    pub(crate) fn by(within: bool, r: u64) -> Choice
        ensures { result ≡ chosen within r }
    {
        if within {
            Choice::inside(r)
        } else {
            Choice::outside(r)
        }
    }
}
