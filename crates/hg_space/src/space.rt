//! The places of the oldest images.

ghost use Rattle.std.specs.Prelude.{◌≡◌, ◌+◌, ◌≤◌, ◌<◌, [], ◌∷◌, ◌++◌, None, Some, length, if◌then◌else◌, IsTrue, IsOk, IfOk, OnOk, OnErr, slice_get, slice_set, option_map, option_and_then, vec_len, vec_capacity};
ghost use Rattle.std.specs.Bool.{OnTrue, OnFalse};
ghost use Rattle.hg_space.specs.declared.place.Place.TheVariants.{Taken};
ghost use Rattle.hg_space.specs.Links.{link_of};
ghost use Rattle.hg_space.specs.Places.{IsTaken, free, taken, has_free, image_at};

use crate::place::Place;
use hg_base::{Image, NoMemory};
use std::alloc::Global;
use std::marker::Model;
use std::mem;

/// Places for images.
#[derive(Drop)]
pub struct TableSpace {
    slots: Vec<Place>,
    first: Option<u64>,
}

impl Model for TableSpace {
    ghost use Rattle.std.specs.Prelude.{map, ◌+◌, ◌-◌, vec_len, vec_capacity, count_by};
    ghost use Rattle.hg_space.specs.Places.{Space};

    ghost Value = { Space };

    ghost use Rattle.hg_space.specs.Links.{seen, is_free, AreLinked};

    ghost view = { λ a. record { places = map seen a.slots.items; spare = (vec_capacity a.slots - vec_len a.slots) + count_by is_free a.slots.items } };

    ghost invariant = { λ a. AreLinked a.slots.items (count_by is_free a.slots.items) a.first };
}

impl TableSpace {
    /// No place. It takes no memory.
    pub fn new(alloc: Global) -> TableSpace
        ensures { result ≡ record { places = []; spare = 0 } }
    {
        TableSpace {
            slots: Vec::new(alloc),
            first: None,
        }
    }

    /// Makes sure that a place can be taken. No memory is taken where one can be already.
    pub fn reserve(&mut self) -> Result<(), NoMemory>
        ensures room { OnOk result (1 ≤ self.new.spare) }
        ensures more { self.old.spare ≤ self.new.spare }
        ensures same { self.new.places ≡ self.old.places }
        ensures refused { OnErr result (self.new ≡ self.old) }
        ensures enough { 1 ≤ self.old.spare → IsOk result }
    {
        if self.first.is_none() {
            self.slots.reserve(1)?;
        }
        Ok(())
    }

    /// Takes a free place, and adds one only where none is free. The place has no image yet.
    pub fn take_place(&mut self) -> u64
        requires { 1 ≤ self.old.spare }
        ensures free { OnTrue (has_free self.old.places)
            (slice_get self.old.places result ≡ Some free) }
        ensures added { OnFalse (has_free self.old.places) (result ≡ length self.old.places) }
        ensures taken { self.new.places ≡
            (if has_free self.old.places then slice_set self.old.places result (taken None) else
            self.old.places ++ taken None ∷ []) }
        ensures spare { self.new.spare + 1 ≡ self.old.spare }
    {
        let Some(place) = self.first else {
            let place = self.slots.len() as u64;
            self.slots.push_reserved(Place::Taken(None));
            return place;
        };
        self.first = unlink(&mut self.slots, place as usize);
        place
    }

    /// Frees a place. Its image is gone.
    pub fn give_place(&mut self, place: u64)
        requires { IsTaken self.old.places place }
        ensures freed { self.new.places ≡ slice_set self.old.places place free }
        ensures spare { self.new.spare ≡ self.old.spare + 1 }
    {
        self.slots[place as usize] = Place::Free(self.first);
        self.first = Some(place);
    }

    /// The image in a place, with its number.
    pub fn image(&self, place: u64) -> Option<(u64, &Image)>
        requires { IsTaken self.now.places place }
        ensures { option_map (λ p. (p.0, p.1.now)) result ≡ image_at self.now.places place }
    {
        match &self.slots[place as usize] {
            Place::Taken(Some((number, image))) => Some((*number, image)),
            Place::Taken(None) | Place::Free(_) => None,
        }
    }

    /// Puts an image in a place, or none, and hands out what was there.
    pub fn set_image(&mut self, place: u64, to: Option<(u64, Image)>) -> Option<(u64, Image)>
        requires { IsTaken self.old.places place }
        ensures old { result ≡ image_at self.old.places place }
        ensures set { self.new.places ≡ slice_set self.old.places place (taken to) }
        ensures spare { self.new.spare ≡ self.old.spare }
    {
        match mem::replace(&mut self.slots[place as usize], Place::Taken(to)) {
            Place::Taken(image) => image,
            Place::Free(_) => None,
        }
    }
}

// Takes a free place, and gives the one that it named.
fn unlink(slots: &mut Vec<Place>, place: usize) -> Option<u64>
    requires { place < length slots.old.items }
    ensures next { result ≡ option_and_then link_of (slice_get slots.old.items place) }
    ensures set { slots.new.items ≡ slice_set slots.old.items place (Taken None) }
    ensures len { vec_len slots.new ≡ vec_len slots.old }
    ensures capacity { vec_capacity slots.new ≡ vec_capacity slots.old }
{
    match mem::replace(&mut slots[place], Place::Taken(None)) {
        Place::Free(next) => next,
        Place::Taken(_) => None,
    }
}
