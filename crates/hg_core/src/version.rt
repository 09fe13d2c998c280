//! The versions of a record.

use hg_base::{Image, Writer};

/// An open write, a version with its commit number, or the oldest image, of which nobody knows the writer any more. No code
/// makes a value of this type: contracts speak of it.
pub enum Stamp {
    Written(Writer),
    Numbered { number: u64, by: Writer },
    Oldest(u64),
}

/// An image of a record. No code makes a value of this type: contracts speak of it.
pub struct Version {
    pub stamp: Stamp,
    pub image: Image,
}
