//! Writes by a chain by itself, and at a place among others. Each finds lower numbers alone, and leaves none over its own.

ghost use Rattle.std.specs.Prelude.{◌+◌, ◌<◌, ◌^◌};
ghost use Rattle.hg_base.specs.Lists.{Each};
ghost use Rattle.hg_chains.specs.Places.{OthersStay, list_at};
ghost use Rattle.hg_chains.specs.Versions.{IsBelow};

use crate::calls::BY;
use hg_base::Image;
use hg_chain::{Chain, Chains};

#[tactic(auto, using(crate::proofs::ChainFacts::below_next, crate::proofs::ChainFacts::below_put))]
pub(crate) fn put_alone(chain: &mut Chain, number: u64, image: Image)
    requires below { Each (IsBelow number) chain.old }
    ensures below { Each (IsBelow (number + 1)) chain.new }
{
    match chain.install(BY, image) {
        Ok(_) => chain.stamp(BY, number),
        Err(_) => {}
    }
}

#[tactic(auto, using(crate::proofs::ChainFacts::below_next, crate::proofs::ChainFacts::below_undone))]
pub(crate) fn undo_alone(chain: &mut Chain, number: u64, image: Image)
    requires below { Each (IsBelow number) chain.old }
    ensures below { Each (IsBelow (number + 1)) chain.new }
{
    let _ = number;
    match chain.install(BY, image) {
        Ok(_) => chain.undo(BY),
        Err(_) => {}
    }
}

#[tactic(auto, using(crate::proofs::ChainFacts::below_next, crate::proofs::ChainFacts::below_put))]
pub(crate) fn put_at(chains: &mut Chains, place: u64, number: u64, image: Image)
    requires place { place < 2 ^ 40 }
    requires below { Each (IsBelow number) (list_at chains.old place) }
    ensures below { Each (IsBelow (number + 1)) (list_at chains.new place) }
    ensures others { OthersStay place chains.old chains.new }
{
    match chains.install(place, BY, image) {
        Ok(_) => chains.stamp(place, BY, number),
        Err(_) => {}
    }
}

#[tactic(auto, using(crate::proofs::ChainFacts::below_next, crate::proofs::ChainFacts::below_undone))]
pub(crate) fn undo_at(chains: &mut Chains, place: u64, number: u64, image: Image)
    requires place { place < 2 ^ 40 }
    requires below { Each (IsBelow number) (list_at chains.old place) }
    ensures below { Each (IsBelow (number + 1)) (list_at chains.new place) }
    ensures others { OthersStay place chains.old chains.new }
{
    let _ = number;
    match chains.install(place, BY, image) {
        Ok(_) => chains.undo(place, BY),
        Err(_) => {}
    }
}
