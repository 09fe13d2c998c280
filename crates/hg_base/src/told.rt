//! Bytes that only proofs see.

ghost use Rattle.std.specs.Prelude.{◌≡◌, ◌++◌, [], List, ℕ};
ghost use base.Fml.{ftrue};
ghost use Rattle.hg_base.specs.Told.{bytes_code};

use std::marker::Model;

/// The bytes that passed so far, which nothing but clauses can see: a value has no bytes, and its calls do nothing when they run.
#[derive(Drop)]
pub struct ToldBytes {
    ghost bytes: { List ℕ } by { bytes_code },
}

impl Model for ToldBytes {
    ghost also_owns = { λ _. ftrue };
}

/// Bytes that passed in one call.
#[derive(Clone, Copy, Drop)]
pub struct Piece<'a> {
    pub bytes: &'a [u8],
}

impl ToldBytes {
    /// None passed.
    pub fn new() -> ToldBytes
        ensures { result.bytes ≡ [] }
    {
        ToldBytes {}
    }

    /// And then these passed.
    pub fn then(&self, _piece: &Piece<'_>) -> ToldBytes
        ensures { result.bytes ≡ self.now.bytes ++ _piece.now.bytes.now }
    {
        ToldBytes {}
    }
}
