//! A law of the definitions, as the contract of a function that does nothing.

ghost use Rattle.std.specs.Prelude.{◌≡◌};
ghost use Rattle.hg_base.specs.Script as base;
ghost use Rattle.hg_seed.specs.Generator.{IsMade};

/// A seed has one script.
pub fn a_seed_has_one_script(_seed: u64)
    ensures { (s t : base.Script) → IsMade _seed s → IsMade _seed t → s ≡ t }
{}
