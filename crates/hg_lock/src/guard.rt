//! The rule of a list of locks, and what a seat learns by its steps.

use crate::fits::Fits;
use atomic_table::{Play, TableRule};
use std::marker::PhantomData;

/// The word of a lock that nobody holds.
pub const FREE: u64 = 0;

/// The word of a lock that is held, while nobody sleeps on it.
pub const HELD: u64 = 1;

/// The word of a lock that is held, while somebody may sleep on it.
pub const AWAITED: u64 = 2;

/// What a seat knows. No value of it is made.
pub struct Seen<T> {
    pub tag: T,
    // The word that its last step found, and the one that it left.
    pub found: u64,
    pub left: u64,
}

pub struct Guard<X> {
    marker: PhantomData<X>,
}

impl<X: Fits> TableRule<Option<X>, Seen<X::Tag>, X::Tag> for Guard<X> {
    ghost use Rattle.hg_lock.specs.Guarded.{Guarded};

    ghost holds = { λ tag. Guarded (X.fits tag) };

    ghost first = { λ tag. record { tag = tag; found = 0; left = 0 } };
}

/// A step that takes the slot where it finds the lock free, and tells which word it left.
pub struct Seize<X> {
    marker: PhantomData<X>,
}

impl<X: Fits> Play<Option<X>, Seen<X::Tag>> for Seize<X> {
    ghost use Rattle.std.specs.Prelude.{◌≡◌, ℕ};
    ghost use Rattle.hg_lock.specs.Guarded.{HasValue, line_of};

    ghost then = { λ step before found after. (after.0.left ≡ step.first) × ((lock : ℕ) → step.word ≡ line_of lock → found ≡ 0 → HasValue (X.fits before.0.tag) lock after) };
}

/// A step that brings the slot home, and tells which word it found.
pub struct Release;

impl<X: Fits> Play<Option<X>, Seen<X::Tag>> for Release {
    ghost use Rattle.std.specs.Prelude.{◌≡◌, []};

    ghost then = { λ step before found after. (after.1 ≡ []) × (after.0.found ≡ found) };
}
