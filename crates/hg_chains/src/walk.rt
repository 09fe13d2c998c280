//! Walks along a chain that remove what they meet: all of it, or what no snapshot sees.

ghost use Rattle.std.specs.Prelude.{◌≡◌, ◌≢◌, ◌+◌, ◌≤◌, [], length, take, option_to_list};
ghost use Rattle.hg_base.specs.Lifetimes.{goes};
ghost use Rattle.hg_chains.specs.Versions.{IsChain};
ghost use Rattle.hg_chains.specs.Sweeps.{Rises, swept, swept_away, last_number};
ghost use Rattle.hg_chains.specs.declared.head.State.TheVariants.{Empty};
ghost use Rattle.hg_chains.specs.Strands.{node_at};
ghost use Rattle.hg_chains.specs.Arenas.{IsArena, IsAt, FrontsStay, NodesStay, OthersStayIn, RemovesIn, head_in, list_in, tail_in};

use crate::arena::Arena;
use crate::cursor::Cursor;
use crate::merge::Merge;
use crate::outcome::Swept;
use hg_base::{Image, Steps};
use std::sync::ledger::Ledger;

// Removes so many versions: all from that one on before which the walk stands.
fn remove_rest(arena: &mut Arena, place: u64, cursor: Cursor, many: u32)
    requires arena { IsArena arena.old }
    requires at { IsAt arena.old place cursor }
    requires many { cursor.kept + many ≡ (head_in arena.old place).strand.count }
    ensures arena { IsArena arena.new }
    ensures left { tail_in arena.new place ≡ take cursor.kept (tail_in arena.old place) }
    ensures fronts { FrontsStay arena.old arena.new }
    ensures others { OthersStayIn place arena.old arena.new }
    ensures nodes { NodesStay arena.old arena.new }
{
    let mut cursor = cursor;
    for _version in 0..many {
        let _ = arena.remove(place, &mut cursor);
    }
}

/// Removes the version before which the walk stands, and so many others behind it, which are all, and hands out the first.
pub(crate) fn remove_behind(
    arena: &mut Arena,
    place: u64,
    cursor: Cursor,
    others: u32,
) -> (u64, Image)
    requires arena { IsArena arena.old }
    requires at { IsAt arena.old place cursor }
    requires others { cursor.kept + others + 1 ≡ (head_in arena.old place).strand.count }
    ensures arena { IsArena arena.new }
    ensures left { tail_in arena.new place ≡ take cursor.kept (tail_in arena.old place) }
    ensures fronts { FrontsStay arena.old arena.new }
    ensures others { OthersStayIn place arena.old arena.new }
    ensures nodes { NodesStay arena.old arena.new }
    ensures held { result ≡ (
      (node_at arena.old.nodes.items cursor.at).number,
      (node_at arena.old.nodes.items cursor.at).image,
    ) }
{
    let mut cursor = cursor;
    let first = arena.remove(place, &mut cursor);
    remove_rest(arena, place, cursor, others);
    first
}

/// Removes all versions of a place, and hands out the newest.
pub(crate) fn remove_all(arena: &mut Arena, place: u64) -> (u64, Image)
    requires arena { IsArena arena.old }
    requires some { (head_in arena.old place).state ≢ Empty }
    ensures arena { IsArena arena.new }
    ensures left { list_in arena.new place ≡ [] }
    ensures others { OthersStayIn place arena.old arena.new }
    ensures nodes { NodesStay arena.old arena.new }
    ensures held { result ≡
        ((head_in arena.old place).number, (head_in arena.old place).image) }
{
    let start = arena.start(place);
    let others = arena.strand(place).count;
    remove_rest(arena, place, start, others);
    arena.empty(place)
}

/// The walk passes each version that stays, and removes the others. The newest stays: it has no successor.
pub(crate) fn sweep_all<L: Ledger>(
    arena: &mut Arena,
    place: u64,
    base: Option<u64>,
    horizon: u64,
    snapshots: &[u64],
    steps: &mut Steps<L>,
) -> Swept
    requires arena { IsArena arena.old }
    requires chain { IsChain (list_in arena.old place) }
    requires rises { Rises snapshots.now }
    ensures arena { IsArena arena.new }
    ensures left { list_in arena.new place ≡ swept horizon snapshots.now (list_in arena.old place) }
    ensures others { OthersStayIn place arena.old arena.new }
    ensures stay { RemovesIn result.gone arena.old arena.new }
    ensures gone { result.gone ≡ swept_away horizon snapshots.now (list_in arena.old place) }
    ensures base_gone { result.base_gone ≡
        goes horizon snapshots.now (last_number (list_in arena.old place)) base }
    ensures cost { steps.new ≤
        steps.old + length (list_in arena.old place) + length (option_to_list base) +
        length snapshots.now }
{
    let all = arena.strand(place).count;
    let mut merge = Merge {
        left: snapshots.len(),
        successor: arena.first_number(place),
    };
    let mut cursor = arena.start(place);
    for _turn in 0..all {
        let number = arena.number(cursor.at);
        let goes = merge.settle(horizon, snapshots, Some(number), steps);
        arena.remove_or_pass(place, &mut cursor, goes);
    }
    Swept {
        gone: u64::from(all - cursor.kept),
        base_gone: base.is_some() && merge.settle(horizon, snapshots, base, steps),
    }
}
