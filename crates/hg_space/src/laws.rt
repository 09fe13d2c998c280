//! How index and space go together.

ghost use Rattle.std.specs.Prelude.{◌≤◌};
ghost use Rattle.hg_base.specs.declared.rid.Rid.{Rid};
ghost use Rattle.hg_space.specs.Index.{AreTaken, HasPlace};

use crate::{RidIndex, TableSpace};

/// Takes a place beside an index whose places are all taken: it is none of them, and they stay taken.
pub fn named_is_not_given(index: &RidIndex, space: &mut TableSpace) -> u64
    requires room { 1 ≤ space.old.spare }
    requires taken { AreTaken index.now space.old.places }
    ensures other { (r : Rid) → HasPlace index.now r result → ⊥ }
    ensures stay { AreTaken index.now space.new.places }
{
    let _ = index;
    space.take_place()
}
