//! Landmarks: nodes along a long chain, at which a read of an old version starts.

ghost use Rattle.std.specs.Prelude.{◌≡◌, ◌≢◌, ◌↔◌, ℕ, ◌+◌, ◌<◌, ◌≤◌, ◌∷◌, ◌++◌, [], false, length, take, IsTrue, IfSome, IsSomeAnd, OnOk, OnErr, vec_len};
ghost use Rattle.hg_base.specs.Lists.{Each};
ghost use Rattle.hg_chains.specs.Versions.{IsChain, is_at_most, left_by};
ghost use Rattle.hg_chains.specs.Arenas.{IsArena, IsAt, head_in, tail_in};
ghost use Rattle.hg_chains.specs.Landmarks.{AreLandmarks, HasLandmarks, IsDue, IsLandmarkIn, IsOver, landmarks_of, top_of};

use crate::arena::Arena;
use crate::cursor::Cursor;
use crate::node::Strand;
use hg_base::{NoMemory, Steps};
use std::alloc::Global;
use std::marker::Brand;
use std::sync::ledger::{Blank, Ledger};

/// A landmark's version is a multiple of this from the end of its chain.
const STRIDE: u32 = 32;

// Whether the second of so many versions behind the newest is to have a landmark.
fn is_due(count: u32) -> bool
    ensures { IsTrue result ↔ IsDue count }
{
    count > STRIDE && (count - 1) % STRIDE == 0
}

/// A node of a chain, and how many versions there are from it to the end of the chain, its own included.
#[derive(Clone, Copy)]
pub(crate) struct Landmark {
    pub node: u32,
    pub height: u32,
}

/// The landmarks of each place's chain, the oldest version first. A place past the end of the list has none.
#[derive(Drop)]
pub(crate) struct Landmarks {
    pub lists: Vec<Vec<Landmark>>,
    pub alloc: Global,
}

impl Landmarks {
    pub fn new(alloc: Global) -> Landmarks
        ensures { result.lists.items ≡ [] }
    {
        Landmarks {
            lists: Vec::new(alloc),
            alloc,
        }
    }

    // Adds empty lists, so that a place has one.
    fn begin(&mut self, place: u64) -> Result<(), NoMemory>
        ensures there { OnOk result (place < vec_len self.new.lists) }
        ensures same { (q : ℕ) → landmarks_of self.new q ≡ landmarks_of self.old q }
    {
        while self.lists.len() as u64 <= place {
            self.lists.push(Vec::new(self.alloc))?;
        }
        Ok(())
    }

    // Adds a landmark to a place.
    fn add(&mut self, place: u64, landmark: Landmark) -> Result<(), NoMemory>
        ensures last { OnOk result
            (landmarks_of self.new place ≡ landmarks_of self.old place ++ landmark ∷ []) }
        ensures others { (q : ℕ) → q ≢ place → landmarks_of self.new q ≡ landmarks_of self.old q }
        ensures refused { OnErr result
            ((q : ℕ) → landmarks_of self.new q ≡ landmarks_of self.old q) }
    {
        self.begin(place)?;
        let list = &mut self.lists[place as usize];
        list.push(landmark)?;
        Ok(())
    }

    // How high the landmarks of a place reach.
    fn top(&self, place: u64) -> u32
        ensures { result ≡ top_of (landmarks_of self.now place) }
    {
        match self.lists.get(place as usize) {
            Some(list) => match list.last() {
                Some(landmark) => landmark.height,
                None => 0,
            },
            None => 0,
        }
    }

    /// Puts a landmark at the third version of a place, which stands in the second node of its strand, if it is as far from the end of its
    /// chain as landmarks are, and has none.
    pub fn note(&mut self, arena: &Arena, place: u64) -> Result<(), NoMemory>
        requires arena { IsArena arena.now }
        requires landmarks { AreLandmarks arena.now self.old }
        ensures landmarks { AreLandmarks arena.now self.new }
        ensures laid { OnOk result (IsDue (head_in arena.now place).strand.count →
            (head_in arena.now place).strand.count ≤ top_of (landmarks_of self.new place) + 1) }
    {
        let Strand { first, count } = arena.strand(place);
        if !is_due(count) || self.top(place) >= count - 1 {
            return Ok(());
        }
        let landmark = Landmark {
            node: arena.next(first),
            height: count - 1,
        };
        self.add(place, landmark)
    }

    /// Removes the landmarks of a place. Their memory stays.
    pub fn clear(&mut self, place: u64)
        ensures here { landmarks_of self.new place ≡ [] }
        ensures others { (q : ℕ) → q ≢ place → landmarks_of self.new q ≡ landmarks_of self.old q }
    {
        if let Some(list) = self.lists.get_mut(place as usize) {
            list.clear();
        }
    }

    /// Removes the landmarks of a place that has lost so many versions: others are nearer to the end of the chain now.
    pub fn lose(&mut self, place: u64, gone: u64)
        ensures here { 0 < gone → landmarks_of self.new place ≡ [] }
        ensures none { gone ≡ 0 → self.new ≡ self.old }
        ensures others { (q : ℕ) → q ≢ place → landmarks_of self.new q ≡ landmarks_of self.old q }
    {
        if gone > 0 {
            self.clear(place);
        }
    }

    // The lowest landmark whose version is over the bound.
    fn nearest(&self, arena: &Arena, place: u64, bound: u64) -> Option<Landmark>
        requires arena { IsArena arena.now }
        requires chain { IsChain (tail_in arena.now place) }
        requires landmarks { HasLandmarks arena.now place (landmarks_of self.now place) }
        ensures landmark { IfSome result (IsLandmarkIn arena.now place) }
        ensures over { IfSome result (IsOver arena.now bound) }
        ensures lowest { Each (λ m. IsOver arena.now bound m →
            IsSomeAnd result (λ lowest. lowest.height ≤ m.height)) (landmarks_of self.now place) }
    {
        let list = self.lists.get(place as usize)?;
        let mut nearest = None;
        let mut from = 0;
        let mut to = list.len();
        while from < to {
            let middle = from + (to - from) / 2;
            let landmark = list[middle];
            if arena.nodes[landmark.node as usize].number > bound {
                nearest = Some(landmark);
                to = middle;
            } else {
                from = middle + 1;
            }
        }
        nearest
    }

    // Where a walk to the versions at the bound starts: before the second version, or after a landmark that is over the bound.
    fn start(&self, arena: &Arena, place: u64, bound: u64) -> Cursor
        requires arena { IsArena arena.now }
        requires chain { IsChain (tail_in arena.now place) }
        requires landmarks { HasLandmarks arena.now place (landmarks_of self.now place) }
        ensures at { IsAt arena.now place result }
        ensures within { result.kept ≤ (head_in arena.now place).strand.count }
        ensures newer { Each (λ v. is_at_most bound v ≡ false)
            (take result.kept (tail_in arena.now place)) }
        // it starts before none of the landmarks that are over the bound
        ensures near { Each (λ m. IsOver arena.now bound m →
            (head_in arena.now place).strand.count ≤ result.kept + m.height)
            (landmarks_of self.now place) }
    {
        let count = arena.strand(place).count;
        let start = arena.start(place);
        if count <= STRIDE {
            return start;
        }
        match self.nearest(arena, place, bound) {
            Some(landmark) => arena.pass(Cursor {
                kept: count - landmark.height,
                last: landmark.node,
                at: landmark.node,
            }),
            None => start,
        }
    }

    // Passes the versions behind the newest that aren't at the bound, and takes no more steps than from any landmark before them. Most
    // readers want the first version, so it is tested before any landmark is looked for.
    fn passed_in<L: Ledger>(
        &self,
        arena: &Arena,
        place: u64,
        bound: u64,
        steps: &mut Steps<L>,
    ) -> Cursor
        requires arena { IsArena arena.now }
        requires chain { IsChain (tail_in arena.now place) }
        requires landmarks { HasLandmarks arena.now place (landmarks_of self.now place) }
        ensures at { IsAt arena.now place result }
        ensures kept { result.kept ≡ length (left_by bound (tail_in arena.now place)) }
        ensures cost { steps.new ≤ steps.old + result.kept }
        ensures near { Each (λ m. IsOver arena.now bound m →
            steps.new + (head_in arena.now place).strand.count ≤
            steps.old + result.kept + m.height) (landmarks_of self.now place) }
    {
        let first = arena.start(place);
        if !arena.is_newer(arena.strand(place), first, bound) {
            return first;
        }
        let start = self.start(arena, place, bound);
        arena.passed(place, bound, start, steps)
    }

    fn passed_by<L: Ledger>(&self, blank: Blank, arena: &Arena, place: u64, bound: u64) -> Cursor
        requires name { blank.name ≡ L.name }
        requires parts { blank.parts ≡ L.parts }
        requires some { 0 < blank.parts }
        requires arena { IsArena arena.now }
        requires chain { IsChain (tail_in arena.now place) }
        requires landmarks { HasLandmarks arena.now place (landmarks_of self.now place) }
        ensures at { IsAt arena.now place result }
        ensures kept { result.kept ≡ length (left_by bound (tail_in arena.now place)) }
    {
        let mut steps: Steps<L> = Steps::new(blank);
        self.passed_in(arena, place, bound, &mut steps)
    }

    /// Passes the versions behind the newest that aren't at the bound. Nobody reads the count of steps.
    pub fn passed(&self, arena: &Arena, place: u64, bound: u64) -> Cursor
        requires arena { IsArena arena.now }
        requires chain { IsChain (tail_in arena.now place) }
        requires landmarks { HasLandmarks arena.now place (landmarks_of self.now place) }
        ensures at { IsAt arena.now place result }
        ensures kept { result.kept ≡ length (left_by bound (tail_in arena.now place)) }
    {
        self.passed_by::<Brand>(Blank::new(1), arena, place, bound)
    }
}
