//! A version of a record.

ghost use Rattle.std.specs.Prelude.{◌≡◌};
ghost use Rattle.hg_chains.specs.Versions.{is_at_most, is_written_by, number_in};

use hg_base::{Image, Writer};

/// Who wrote a version, and the number of the group in which it was committed, once it was.
#[derive(Clone, Copy, Debug)]
pub enum Stamp {
    /// An open write.
    Written(Writer),
    Numbered { number: u64, by: Writer },
}

/// An image of a record, and when it came about.
#[derive(Debug, Drop)]
pub struct Version {
    pub stamp: Stamp,
    pub image: Image,
}

impl Version {
    /// Whether it has a number, and that is at or below the bound.
    pub fn is_at_most(&self, bound: u64) -> bool
        ensures { result ≡ is_at_most bound self.now }
    {
        match self.stamp {
            Stamp::Written(_) => false,
            Stamp::Numbered { number, by: _ } => number <= bound,
        }
    }

    pub fn number(&self) -> Option<u64>
        ensures { result ≡ number_in self.now.stamp }
    {
        match self.stamp {
            Stamp::Written(_) => None,
            Stamp::Numbered { number, by: _ } => Some(number),
        }
    }

    /// Whether it is an open write of that transaction.
    pub fn is_written_by(&self, by: Writer) -> bool
        ensures { result ≡ is_written_by by self.now }
    {
        match self.stamp {
            Stamp::Written(writer) => {
                writer.session == by.session && writer.transaction == by.transaction
            }
            Stamp::Numbered { .. } => false,
        }
    }
}
