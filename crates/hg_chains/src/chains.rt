//! The versions of all records of a bucket.

ghost use Rattle.std.specs.Prelude.{◌≡◌, ◌+◌, ◌<◌, ◌≤◌, ◌^◌, ◌==◌, ℕ, [], drop, not, length, IsTrue, IsSome, IfOk, IfErr, IsOk, OnOk, OnErr, option_to_list};
ghost use Rattle.std.specs.Bool.{OnFalse};
ghost use Rattle.std.specs.Option.{option_copied};
ghost use Rattle.hg_base.specs.Lists.{Each};
ghost use Rattle.hg_chains.specs.Sweeps.{Rises, swept, swept_away, last_number, IsClean};
ghost use Rattle.hg_base.specs.Lifetimes.{goes, MayStay, IsGuarded};
ghost use Rattle.hg_chains.specs.Versions.{NoOther, IsBelow, number_in, is_open_by, image_at, image_by, installed, stamped, left_by, newest, oldest_at, others_at};
ghost use Rattle.hg_chains.specs.Places.{OthersStay, TakesNode, list_at, nodes_of};

use crate::arena::Arena;
use crate::landmarks::Landmarks;
use crate::outcome::{Cut, Swept};
use crate::version::Stamp;
use crate::walk::{remove_all, remove_behind, sweep_all};
use hg_base::{Image, NoMemory, Steps, Writer};
use std::alloc::Global;
use std::marker::Model;
use std::sync::ledger::Ledger;

/// A chain of versions for each place. There is room for so many versions, as many as there were at the same time at most, and for so many
/// more than there are.
#[derive(Drop)]
pub struct Chains {
    arena: Arena,
    landmarks: Landmarks,
    all: u64,
    free: u64,
}

impl Model for Chains {
    ghost use Rattle.hg_chains.specs.Places.{Places};

    ghost Value = { Places };

    ghost use Rattle.hg_chains.specs.Landmarks.{Holds, places_in};

    ghost view = { λ a. places_in a.arena a.free };

    ghost invariant = { λ a. Holds a.arena a.landmarks a.all a.free };
}

impl Chains {
    /// No place has a version. It takes no memory.
    pub fn new(alloc: Global) -> Chains
        ensures { result ≡ record { lists = []; free = 0 } }
    {
        Chains {
            arena: Arena::new(alloc),
            landmarks: Landmarks::new(alloc),
            all: 0,
            free: 0,
        }
    }

    /// How many versions there is room for.
    pub fn nodes(&self) -> u64
        ensures { result ≡ nodes_of self.now }
    {
        self.all
    }

    /// How many more than there are.
    pub fn free(&self) -> u64
        ensures { result ≡ self.now.free }
    {
        self.free
    }

    /// Whether a place has no version.
    pub fn is_empty(&self, place: u64) -> bool
        ensures { result ≡ (length (list_at self.now place) == 0) }
    {
        self.arena.is_empty(place)
    }

    /// How many versions a place has.
    pub fn count(&self, place: u64) -> u32
        ensures { result ≡ length (list_at self.now place) }
    {
        if self.arena.is_empty(place) {
            return 0;
        }
        self.arena.strand(place).count + 1
    }

    /// Who wrote the newest version, and its number if it has one. All others have one.
    pub fn newest(&self, place: u64) -> Option<Stamp>
        ensures newest { result ≡ newest (list_at self.now place) }
        ensures others { Each (λ v. IsSome (number_in v.stamp)) (drop 1 (list_at self.now place)) }
    {
        self.arena.newest(place)
    }

    /// What a reader at the snapshot sees.
    pub fn visible(&self, place: u64, at: u64) -> Option<&Image>
        ensures { option_copied result ≡ image_at at (list_at self.now place) }
    {
        if self.arena.begins_at_most(place, at) {
            return Some(&self.arena.heads[place as usize].image);
        }
        let cursor = self.landmarks.passed(&self.arena, place, at);
        if cursor.kept == self.arena.strand(place).count {
            return None;
        }
        Some(&self.arena.nodes[cursor.at as usize].image)
    }

    fn is_open_by(&self, place: u64, by: Writer) -> bool
        ensures { result ≡ is_open_by by (list_at self.now place) }
    {
        self.arena.is_open_by(place, by)
    }

    /// What the transaction wrote itself.
    pub fn own(&self, place: u64, by: Writer) -> Option<&Image>
        ensures { option_copied result ≡ image_by by (list_at self.now place) }
    {
        if !self.arena.is_open_by(place, by) {
            return None;
        }
        Some(&self.arena.heads[place as usize].image)
    }

    /// Writes an image. The answer says whether a version was added: the transaction's open write, if it has one, is
    /// replaced, and no memory is taken then. A refusal hands the image back. There is one where memory has run out, or
    /// where there are as many nodes as a `u32` counts.
    pub fn install(
        &mut self,
        place: u64,
        by: Writer,
        image: Image,
    ) -> Result<bool, (Image, NoMemory)>
        requires place { place < 2 ^ 40 }
        requires own { NoOther by (list_at self.old place) }
        ensures added { IfOk result
            (λ added. added ≡ not (is_open_by by (list_at self.old place))) }
        ensures ok { OnOk result
            (list_at self.new place ≡ installed by image (list_at self.old place)) }
        ensures others { OthersStay place self.old self.new }
        ensures taken { IfOk result (λ added. TakesNode added self.old self.new) }
        ensures refused { IfErr result (λ e. e.0 ≡ image) }
        ensures same { OnErr result (self.new ≡ self.old) }
        ensures replaced { IsTrue (is_open_by by (list_at self.old place)) → IsOk result }
        ensures room { 0 < self.old.free → place < length self.old.lists → IsOk result }
    {
        if self.is_open_by(place, by) {
            self.arena.set_image(place, image);
            return Ok(false);
        }
        match self.arena.make_room(place, self.all, self.free) {
            Ok(()) => {
                self.arena.write(place, by, image);
                // if there is no memory for a landmark, reads walk farther
                let _ = self.landmarks.note(&self.arena, place);
                self.all += u64::from(self.free == 0);
                self.free = self.free.saturating_sub(1);
                Ok(true)
            }
            Err(refused) => Err((image, refused)),
        }
    }

    /// Removes the transaction's open write.
    pub fn undo(&mut self, place: u64, by: Writer)
        requires { IsTrue (is_open_by by (list_at self.old place)) }
        ensures here { list_at self.new place ≡ drop 1 (list_at self.old place) }
        ensures others { OthersStay place self.old self.new }
        ensures nodes { nodes_of self.new ≡ nodes_of self.old }
        ensures free { self.new.free ≡ self.old.free + 1 }
    {
        let _ = by;
        self.arena.undo(place);
        self.free += 1;
    }

    /// Gives the transaction's open write its number.
    pub fn stamp(&mut self, place: u64, by: Writer, number: u64)
        requires open_write { IsTrue (is_open_by by (list_at self.old place)) }
        requires over { Each (IsBelow number) (drop 1 (list_at self.old place)) }
        ensures here { list_at self.new place ≡ stamped by number (list_at self.old place) }
        ensures others { OthersStay place self.old self.new }
        ensures nodes { nodes_of self.new ≡ nodes_of self.old }
        ensures free { self.new.free ≡ self.old.free }
    {
        let _ = by;
        self.arena.set_number(place, number);
    }

    /// Removes every version numbered at or below the bound, and hands out the newest of them.
    pub fn cut(&mut self, place: u64, bound: u64) -> Cut
        ensures left { list_at self.new place ≡ left_by bound (list_at self.old place) }
        ensures image { result.image ≡ oldest_at bound (list_at self.old place) }
        ensures gone { result.gone ≡ others_at bound (list_at self.old place) }
        ensures others { OthersStay place self.old self.new }
        ensures nodes { nodes_of self.new ≡ nodes_of self.old }
    {
        let others = self.arena.strand(place).count;
        if self.arena.begins_at_most(place, bound) {
            let gone = u64::from(others);
            self.landmarks.clear(place);
            self.free += gone + 1;
            return Cut {
                image: Some(remove_all(&mut self.arena, place)),
                gone,
            };
        }
        let cursor = self.landmarks.passed(&self.arena, place, bound);
        if cursor.kept == others {
            return Cut {
                image: None,
                gone: 0,
            };
        }
        let more = others - cursor.kept - 1;
        let gone = u64::from(more);
        self.landmarks.clear(place);
        self.free += gone + 1;
        Cut {
            image: Some(remove_behind(&mut self.arena, place, cursor, more)),
            gone,
        }
    }

    /// Removes every version that no snapshot sees: its successor is numbered at or below the horizon, and none of the
    /// ascending snapshots lies in its lifetime, which runs from its own number up to, and not including, its
    /// successor's. The answer says the same of an oldest image numbered `base` that stands behind the chain. One turn
    /// settles one version or passes one snapshot.
    pub fn sweep<L: Ledger>(
        &mut self,
        place: u64,
        base: Option<u64>,
        horizon: u64,
        snapshots: &[u64],
        steps: &mut Steps<L>,
    ) -> Swept
        requires { Rises snapshots.now }
        ensures left { list_at self.new place ≡
            swept horizon snapshots.now (list_at self.old place) }
        ensures gone { result.gone ≡ swept_away horizon snapshots.now (list_at self.old place) }
        ensures base_gone { result.base_gone ≡
            goes horizon snapshots.now (last_number (list_at self.old place)) base }
        ensures clean { IsClean horizon snapshots.now (list_at self.new place) }
        ensures base_clean { OnFalse result.base_gone
            (MayStay horizon snapshots.now (last_number (list_at self.new place)) base) }
        ensures seen { (s : ℕ) → IsGuarded horizon snapshots.now s →
            image_at s (list_at self.new place) ≡ image_at s (list_at self.old place) }
        ensures cost { steps.new ≤
            steps.old + length (list_at self.old place) + length (option_to_list base) +
            length snapshots.now }
        ensures others { OthersStay place self.old self.new }
        ensures nodes { nodes_of self.new ≡ nodes_of self.old }
    {
        let swept = sweep_all(&mut self.arena, place, base, horizon, snapshots, steps);
        self.landmarks.lose(place, swept.gone);
        self.free += swept.gone;
        swept
    }
}
