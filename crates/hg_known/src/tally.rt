//! How many versions were made and undone.

ghost use Rattle.std.specs.Prelude.{◌≡◌, ◌<◌, ◌^◌, ◌∷◌, List, [], length, is_some, OnOk};
ghost use Rattle.hg_base.specs.Lists.{onto};
ghost use Rattle.hg_base.specs.Transcript as script;
ghost use Rattle.hg_base.specs.Counts.{first_write};
ghost use Rattle.hg_known.specs.Lines.{said_of};
ghost use Rattle.hg_known.specs.Ended.{IsOpen};
ghost use Rattle.hg_known.specs.Tallied.{AreTallied, IsTally};

use crate::history::committed;
use crate::own::Tx;
use crate::said::{Said, ends};
use hg_base::NoMemory;
use std::alloc::Global;
use std::collections::BTreeMap;

/// Versions: one for each record that a transaction writes, and those of transactions without a commit number.
#[derive(Clone, Copy)]
pub struct Tally {
    pub made: u64,
    pub undone: u64,
}

/// How many versions lines made, how many of them have a commit number, and how many each open transaction made.
#[derive(Drop)]
pub struct Versions {
    pub(crate) made: u64,
    pub(crate) kept: u64,
    pub(crate) pending: BTreeMap<Tx, u64>,
}

impl Versions {
    /// No line made any. It takes no memory.
    pub fn new(alloc: Global) -> Versions
        ensures { AreTallied result [] }
    {
        Versions {
            made: 0,
            kept: 0,
            pending: BTreeMap::new(alloc),
        }
    }

    /// Counts the version that a line makes where it is the first write of its record in its transaction.
    pub fn add(&mut self, said: &Said, first: bool) -> Result<(), NoMemory>
        ensures { OnOk result ((earlier : List script.Said) → AreTallied self.old earlier →
            IsOpen earlier (said_of said.now) →
            first ≡ is_some (first_write earlier (said_of said.now)) → length earlier < 2 ^ 62 →
            AreTallied self.new (said_of said.now ∷ earlier)) }
    {
        let ended = ends(said);
        if !ended && !first {
            return Ok(());
        }
        let tx = Tx {
            session: said.session,
            number: said.transaction,
        };
        let more = u64::from(first);
        self.made = self.made.saturating_add(more);
        if !ended {
            let before = self.pending.get(&tx).copied().unwrap_or(0);
            self.pending.insert(tx, before.saturating_add(more))?;
            return Ok(());
        }
        let before = self.pending.remove(&tx).unwrap_or(0);
        if committed(said).is_some() {
            self.kept = self.kept.saturating_add(before.saturating_add(more));
        }
        Ok(())
    }

    /// What all lines made.
    pub fn tally(&self) -> Tally
        ensures { (all : List script.Said) → AreTallied self.now (onto all []) →
            IsTally result all }
    {
        Tally {
            made: self.made,
            undone: self.made.saturating_sub(self.kept),
        }
    }
}
