//! One slot of the table from records to places.

ghost use Rattle.std.specs.Prelude.{◌≡◌};
ghost use Rattle.hg_space.specs.Slots.{is_of, is_used, is_empty, used_by, without};

use hg_base::{Rid, TableId};

/// Whether a slot has a record. `Left`: its record was taken out of a full bin, of which some records may be in the order alone.
#[derive(Clone, Copy)]
pub(crate) enum State {
    Empty,
    Left,
    Used,
}

/// A record and its place, if the slot is used.
#[derive(Clone, Copy)]
pub(crate) struct Slot {
    pub(crate) key: u64,
    pub(crate) place: u32,
    pub(crate) table: TableId,
    pub(crate) state: State,
}

impl Slot {
    /// Without a record.
    pub(crate) const EMPTY: Slot = Slot {
        key: 0,
        place: 0,
        table: TableId(0),
        state: State::Empty,
    };

    /// With a record and its place.
    pub(crate) fn used(rid: Rid, place: u32) -> Slot
        ensures { result ≡ used_by rid place }
    {
        Slot {
            key: rid.key,
            place,
            table: rid.table,
            state: State::Used,
        }
    }

    /// Whether it has that record.
    pub(crate) fn is_of(&self, rid: Rid) -> bool
        ensures { result ≡ is_of rid self.now }
    {
        rid.key == self.key && rid.table.0 == self.table.0 && self.is_used()
    }

    pub(crate) fn is_used(&self) -> bool
        ensures { result ≡ is_used self.now }
    {
        match self.state {
            State::Used => true,
            State::Empty | State::Left => false,
        }
    }

    pub(crate) fn is_empty(&self) -> bool
        ensures { result ≡ is_empty self.now }
    {
        match self.state {
            State::Empty => true,
            State::Left | State::Used => false,
        }
    }

    /// The slot without that record. It is empty again only if its bin has an empty slot anyway.
    pub(crate) fn without(self, rid: Rid, gap: bool) -> Slot
        ensures { result ≡ without gap rid self }
    {
        if !self.is_of(rid) {
            return self;
        }
        let state = if gap { State::Empty } else { State::Left };
        Slot { state, ..self }
    }
}
