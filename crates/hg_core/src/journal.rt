//! What a collector's pass did in its rounds, entry by entry.

use crate::register::Register;

/// An entry of a pass's journal. No code makes a value of this type: contracts speak of it.
pub enum PassEntry {
    /// It loaded the mark, and a round began.
    Marked(u64),
    /// It loaded the register of a session.
    Sampled {
        session: u64,
        register: Register,
    },
    /// It loaded the mask word of a session.
    Masked {
        session: u64,
        mask: u64,
    },
    /// It tried to move a snapshot that it had loaded at this number. It was moved if the register still showed it.
    Tried {
        session: u64,
        number: u64,
        moved: bool,
    },
    /// It took the group of this number out of the committer's list.
    Took(u64),
}
