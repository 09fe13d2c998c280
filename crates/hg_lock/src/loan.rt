//! The receipt for a value that was taken out of its lock.

ghost use Rattle.std.specs.Prelude.{◌≡◌, None, [], ◌∷◌};
ghost use Rattle.hg_lock.specs.Guarded.{line_of};

use crate::guard::Seen;
use atomic_table::Seat;

/// The right to give a value back, and the duty: it has no `Drop`, so it can only end in `give`.
pub struct Loan<X, T> {
    pub(crate) lock: usize,
    pub(crate) seat: Seat<Option<X>, Seen<T>>,
    ghost out: { seat.me.1 ≡ (line_of lock, None) ∷ [] },
}
