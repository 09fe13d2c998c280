//! A table from records to places, which may leave records out: bins of slots, each bin all those in which a record may be.

ghost use Rattle.std.specs.Prelude.{◌≡◌, ◌+◌, ◌*◌, ◌≤◌, [], false, ℕ, IfOk, OnOk, OnErr, None, Some, IsFalse, length};
ghost use Rattle.std.specs.List.{list_any};
ghost use Rattle.hg_space.specs.Slots.{look_from, put_in, taken_out, is_empty, bin_of, look_at, Fits, AreFaithful, HaveRoom, StayFit};
ghost use Rattle.hg_base.specs.History.{same_rid};
ghost use Rattle.hg_base.specs.declared.rid.Rid.{Rid};
ghost use Rattle.hg_space.specs.Index.{place_of};

use crate::slot::Slot;
use hg_base::{NoMemory, Rid};
use std::alloc::Global;
use std::collections::BTreeMap;
use std::marker::Model;

/// How many slots a bin has: two cache lines.
pub(crate) const WAYS: usize = 8;

/// What a bin says of a record: its place; that it has none; or nothing.
#[derive(Clone, Copy)]
pub(crate) enum Finding {
    There(u32),
    Absent,
    Unknown,
}

/// What the bin says of a record. Nothing, if it has neither the record nor an empty slot.
pub(crate) fn look(bin: &[Slot; WAYS], rid: Rid) -> Finding
    ensures { result ≡ look_from false rid bin.now }
{
    let mut gap = false;
    for slot in bin {
        if slot.is_of(rid) {
            return Finding::There(slot.place);
        }
        gap = gap || slot.is_empty();
    }
    if gap {
        Finding::Absent
    } else {
        Finding::Unknown
    }
}

/// Puts a record into the first slot that isn't used. It goes nowhere if all are.
pub(crate) fn put(bin: &mut [Slot; WAYS], rid: Rid, place: u32)
    ensures { bin.new ≡ put_in rid place bin.old }
{
    for i in 0..WAYS {
        if !bin[i].is_used() {
            bin[i] = Slot::used(rid, place);
            return;
        }
    }
}

/// Takes a record out of the bin.
pub(crate) fn take_out(bin: &mut [Slot; WAYS], rid: Rid)
    ensures { bin.new ≡ taken_out rid bin.old }
{
    let gap = has_gap(bin);
    for i in 0..WAYS {
        bin[i] = bin[i].without(rid, gap);
    }
}

// Whether a slot is empty.
fn has_gap(bin: &[Slot; WAYS]) -> bool
    ensures { result ≡ list_any is_empty bin.now }
{
    bin.iter().any(|slot| slot.is_empty())
}

/// Bins of slots. A record may be in one bin only, which its hash tells.
#[derive(Drop)]
pub(crate) struct Slots {
    bins: Vec<[Slot; WAYS]>,
}

impl Model for Slots {
    ghost use Rattle.std.specs.Prelude.{List};
    ghost use Rattle.hg_space.specs.declared.slot.Slot.{Slot};

    ghost Value = { List (List Slot) };

    ghost view = { λ s. s.bins.items };
}

impl Slots {
    /// No bin. It takes no memory.
    pub(crate) fn new(alloc: Global) -> Slots
        ensures { result ≡ [] }
    {
        Slots {
            bins: Vec::new(alloc),
        }
    }

    /// So many bins without a record.
    fn of_bins(many: usize, alloc: Global) -> Result<Slots, NoMemory>
        ensures none { IfOk result (λ s. (r : Rid) → Fits (look_at s r) None) }
        ensures many { IfOk result (λ s. length s ≡ many) }
    {
        let mut bins = Vec::new(alloc);
        bins.resize(many, [Slot::EMPTY; WAYS])?;
        Ok(Slots { bins })
    }

    /// What is known of a record's place.
    pub(crate) fn look(&self, rid: Rid) -> Finding
        ensures { result ≡ look_at self.now rid }
    {
        match self.bins.get(bin_of(self.bins.len(), rid)) {
            Some(bin) => look(bin, rid),
            None => Finding::Unknown,
        }
    }

    /// Puts a record and its place in, if its bin has room. Nothing else is known less than before, or wrongly.
    pub(crate) fn put(&mut self, rid: Rid, place: u32)
        requires { Fits (look_at self.old rid) None }
        ensures here { Fits (look_at self.new rid) (Some place) }
        ensures others { StayFit rid self.old self.new }
        ensures bins { length self.new ≡ length self.old }
    {
        let at = bin_of(self.bins.len(), rid);
        if at < self.bins.len() {
            put(&mut self.bins[at], rid, place);
        }
    }

    /// Takes a record out.
    pub(crate) fn take_out(&mut self, rid: Rid)
        ensures here { Fits (look_at self.new rid) None }
        ensures others { StayFit rid self.old self.new }
        ensures bins { length self.new ≡ length self.old }
    {
        let at = bin_of(self.bins.len(), rid);
        if at < self.bins.len() {
            take_out(&mut self.bins[at], rid);
        }
    }

    /// Makes room for one more record than the index has.
    pub(crate) fn reserve(
        &mut self,
        places: &BTreeMap<Rid, u32>,
        alloc: Global,
    ) -> Result<(), NoMemory>
        requires faithful { AreFaithful self.old places.now.entries }
        requires fit { HaveRoom self.old (length places.now.entries) }
        ensures faithful { AreFaithful self.new places.now.entries }
        ensures room { OnOk result (HaveRoom self.new (length places.now.entries + 1)) }
        // a table that has room already does not grow, and one that grows doubles
        ensures kept { HaveRoom self.old (length places.now.entries + 1) → self.new ≡ self.old }
        ensures grown { length self.new ≤ 2 * length self.old + 1 }
        ensures refused { OnErr result (self.new ≡ self.old) }
    {
        let many = self.bins.len();
        if places.len() / FULL < many {
            return Ok(());
        }
        *self = Slots::of_records(places, many.saturating_add(many).saturating_add(1), alloc)?;
        Ok(())
    }

    // The same records in so many bins.
    fn of_records(
        places: &BTreeMap<Rid, u32>,
        many: usize,
        alloc: Global,
    ) -> Result<Slots, NoMemory>
        ensures faithful { IfOk result (λ s. AreFaithful s places.now.entries) }
        ensures many { IfOk result (λ s. length s ≡ many) }
    {
        let mut slots = Slots::of_bins(many, alloc)?;
        for (rid, place) in places {
            slots.put(*rid, *place);
        }
        Ok(slots)
    }
}

// A table doubles once its bins have so many records each, of eight. So few bins are full.
const FULL: usize = 4;

// The bin of a record: the high half of its hash, scaled to the number of bins.
fn bin_of(many: usize, rid: Rid) -> usize
    ensures { result ≡ bin_of many rid }
{
    let mixed = (rid.key ^ (rid.table.0 as u64) << 56).wrapping_mul(0x9E37_79B9_7F4A_7C15);
    ((mixed >> 32).wrapping_mul(many as u64) >> 32) as usize
}
