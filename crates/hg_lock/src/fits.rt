//! What is known of a locked value.

/// A value that may lie under a lock.
pub trait Fits {
    ghost use Rattle.std.specs.Prelude.{ℕ};

    /// What a list of locks is about, as which board's seats its values have. It is read by clauses alone.
    type Tag;

    // Whether the value may lie in a list with this tag, at this place.
    ghost fits: { Self.Tag → ℕ → Self → Type 0 };
}
