//! Lists of records.

ghost use Rattle.std.specs.Prelude.{◌≡◌, ◌+◌, ◌-◌, ◌<◌, ◌≤◌, ◌==◌, ◌++◌, ◌∷◌, [], length, OnOk, OnErr, option_to_list, IsSome, ◌↔◌};
ghost use Rattle.std.specs.Vec.{vec_capacity};
ghost use Rattle.hg_queue.specs.Rids.{no_rids};

use hg_base::{NoMemory, Rid};
use std::alloc::Global;
use std::marker::Model;
use std::slice;

/// Records by their ids. A place can be reserved before it is used, so that what comes between can't fail. A lone record lies in
/// the list itself: the transaction of a lone statement takes no block of the heap.
#[derive(Drop)]
pub struct RidList {
    lone: Option<Rid>,
    rids: Vec<Rid>,
    ghost either: { 0 < vec_capacity rids → option_to_list lone ≡ [] },
}

impl Model for RidList {
    ghost use Rattle.std.specs.Prelude.{◌++◌, option_to_list};
    ghost use Rattle.std.specs.Vec.{vec_capacity};
    ghost use Rattle.hg_queue.specs.Rids.{Rids, rids_of};

    ghost Value = { Rids };

    ghost view = { λ a. rids_of (option_to_list a.lone ++ a.rids.items) (vec_capacity a.rids) };
}

impl RidList {
    /// No memory is taken.
    pub fn new(alloc: Global) -> RidList
        ensures { result ≡ no_rids }
    {
        RidList {
            lone: None,
            rids: Vec::new(alloc),
        }
    }

    /// Makes room for one more.
    pub fn reserve(&mut self) -> Result<(), NoMemory>
        ensures same { self.new.list ≡ self.old.list }
        ensures room { OnOk result (0 < self.new.room) }
        ensures refused { OnErr result (self.old.room ≡ 0) }
    {
        self.reserve_many(1)
    }

    /// Makes room for so many more. No memory is taken where there is room.
    pub fn reserve_many(&mut self, count: usize) -> Result<(), NoMemory>
        ensures same { self.new.list ≡ self.old.list }
        ensures room { OnOk result (count ≤ self.new.room) }
        ensures refused { OnErr result (self.old.room < count) }
    {
        match self.lone {
            Some(rid) if 0 < count => {
                self.rids.reserve(count.saturating_add(1))?;
                self.lone = None;
                self.rids.push_reserved(rid);
            }
            None if 1 < count || 0 < self.rids.capacity() => self.rids.reserve(count)?,
            _ => {}
        }
        Ok(())
    }

    pub fn push_reserved(&mut self, rid: Rid)
        requires room { 0 < self.old.room }
        ensures pushed { self.new.list ≡ self.old.list ++ rid ∷ [] }
        ensures less { self.new.room + 1 ≡ self.old.room }
    {
        if self.rids.capacity() == 0 {
            self.lone = Some(rid);
        } else {
            self.rids.push_reserved(rid);
        }
    }

    pub fn as_slice(&self) -> &[Rid]
        ensures { result.now ≡ self.now.list }
    {
        match &self.lone {
            Some(rid) => slice::from_ref(rid),
            None => self.rids.as_slice(),
        }
    }

    pub fn len(&self) -> usize
        ensures { result ≡ length self.now.list }
    {
        self.as_slice().len()
    }

    pub fn is_empty(&self) -> bool
        ensures { result ≡ (length self.now.list == 0) }
    {
        self.as_slice().is_empty()
    }

    /// Takes the last one out. The room that it had stays.
    pub fn pop(&mut self) -> Option<Rid>
        ensures last { self.old.list ≡ self.new.list ++ option_to_list result }
        ensures some { IsSome result ↔ (0 < length self.old.list) }
    {
        match self.lone.take() {
            Some(rid) => Some(rid),
            None => self.rids.pop(),
        }
    }
}
