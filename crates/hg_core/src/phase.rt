//! The phase of a session: between two transactions, or in one.

use hg_base::Scope;

/// A snapshot is taken in five steps: store the mask word of the tables, load the mark, show that the session enters at it,
/// load the mark again, and show the second mark as the snapshot. No code makes a value of this type: contracts speak of it.
pub enum Phase {
    Idle,
    /// Its mask word is that of the tables of its next transaction.
    Declared(Scope),
    /// It loaded the mark.
    Probed {
        scope: Scope,
        mark: u64,
    },
    /// It shows that it enters at the mark that it loaded.
    Entered {
        scope: Scope,
        mark: u64,
    },
    /// It loaded the mark again.
    Fixed {
        scope: Scope,
        entered: u64,
        mark: u64,
    },
    /// It reads at its snapshot.
    Live {
        at: u64,
        scope: Scope,
    },
}
