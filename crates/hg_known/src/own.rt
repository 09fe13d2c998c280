//! What each transaction has stored so far, until it ends.

ghost use Rattle.std.specs.Prelude.{◌≡◌, ℕ, ◌∷◌, ◌<◌, ◌^◌, ◌&&◌, ◌==◌, [], List, Some, None, if◌then◌else◌, option_map, option_copied, is_some, IsFalse, IfSome, IfOk, OnOk};
ghost use Rattle.hg_base.specs.Transcript as script;
ghost use Rattle.hg_base.specs.Transcript.{is_of};
ghost use Rattle.hg_base.specs.Counts.{first_write};
ghost use Rattle.hg_known.specs.Lines.{said_of};
ghost use Rattle.hg_base.specs.declared.rid.Rid.{Rid};
ghost use Rattle.hg_base.specs.History.{same_rid};
ghost use Rattle.hg_known.specs.Ended.{is_over, AreOpenOwn, ForgetsOver};
ghost use Rattle.hg_known.specs.Owned.{own_at, write_of, AreOwn, HasOwn, IsOwn, IsNextOwn, IsNextAfter};

use crate::said::{Said, ends};
use hg_base::{Answer, Image, NoMemory, Rid, Statement, TableId};
use std::alloc::Global;
use std::collections::BTreeMap;
use std::marker::Model;
use std::ops::Bound;

/// A transaction of a session. Ordered by session, and then by number.
#[derive(Clone, Copy, PartialEq, Eq, PartialOrd, Ord)]
pub struct Tx {
    pub session: u32,
    pub number: u64,
}

/// A record that a transaction may write. Ordered by transaction, and then by record.
#[derive(Clone, Copy, PartialEq, Eq, PartialOrd, Ord)]
pub struct Spot {
    pub tx: Tx,
    pub rid: Rid,
}

/// The last image that each transaction stored of each record.
#[derive(Drop)]
pub struct Own {
    images: BTreeMap<Spot, Image>,
}

impl Model for Own {
    ghost use Rattle.std.specs.Prelude.{List};
    ghost use Rattle.hg_base.specs.declared.image.Image.{Image};
    ghost use Rattle.hg_known.specs.declared.own.Spot.{Spot};

    ghost Value = { List (Spot × Image) };

    ghost view = { λ a. a.images.entries };
}

// What a line stores, if it does.
fn stored(said: &Said) -> Result<Option<(Rid, Image)>, NoMemory>
    ensures { IfOk result (λ found. option_map write_of found ≡ script.stored (said_of said.now)) }
{
    match (&said.statement, &said.reply.answer) {
        (Statement::Put(rid, row), Answer::Stored) => {
            let row = row.copy()?;
            Ok(Some((*rid, Image { row: Some(row) })))
        }
        (Statement::Del(rid), Answer::Gone) => Ok(Some((*rid, Image { row: None }))),
        _ => Ok(None),
    }
}

/// The record of a table and a key: for clauses, which see here that they have 8 and 64 bits.
pub fn record_at(table: u8, key: u64) -> Rid
    ensures same { result ≡ record { table = record { 0 = table }; key = key } }
    ensures small { (result.table.0 < 256) × (result.key < 2 ^ 64) }
{
    Rid {
        table: TableId(table),
        key,
    }
}

impl Own {
    /// Nothing was stored. It takes no memory.
    pub fn new(alloc: Global) -> Own
        ensures empty { result ≡ [] }
        ensures none { AreOwn result [] }
    {
        Own {
            images: BTreeMap::new(alloc),
        }
    }

    /// Keeps what a line stores. The answer is whether it is the first write of its record in its transaction.
    pub fn add(&mut self, said: &Said) -> Result<bool, NoMemory>
        ensures first { IfOk result (λ first.
            (earlier : List script.Said) → HasOwn self.old earlier (said_of said.now) →
            first ≡ is_some (first_write earlier (said_of said.now))) }
        ensures added { OnOk result ((earlier : List script.Said) (j x : ℕ) (r : Rid) →
            IsOwn self.old earlier j x r → IsOwn self.new (said_of said.now ∷ earlier) j x r) }
        ensures others { OnOk result ((j x : ℕ) (r : Rid) → IsFalse (is_of j x (said_of said.now)) →
            own_at self.new j x r ≡ own_at self.old j x r) }
    {
        let Some((rid, image)) = stored(said)? else {
            return Ok(false);
        };
        let tx = Tx {
            session: said.session,
            number: said.transaction,
        };
        let before = self.images.insert(Spot { tx, rid }, image)?;
        Ok(before.is_none())
    }

    // Forgets what a transaction stored of a record.
    fn remove(&mut self, tx: Tx, rid: Rid)
        ensures { (j x : ℕ) (r : Rid) →
            own_at self.new j x r ≡
            (if ((tx.session == j) && (tx.number == x)) && same_rid rid r then None else own_at
            self.old j x r) }
    {
        let spot = Spot { tx, rid };
        self.images.remove(&spot);
    }

    // Forgets all that a transaction stored.
    fn forget(&mut self, tx: Tx)
        ensures others { (j x : ℕ) (r : Rid) → IsFalse ((tx.session == j) && (tx.number == x)) →
            own_at self.new j x r ≡ own_at self.old j x r }
        ensures gone { (r : Rid) → own_at self.new tx.session tx.number r ≡ None }
    {
        let mut found = self.next(tx, LEAST);
        while let Some(rid) = found {
            found = self.next_after(tx, rid);
            self.remove(tx, rid);
        }
    }

    /// Forgets what the transaction of a line stored, if the line ends it: no later line belongs to it.
    pub fn close(&mut self, said: &Said)
        ensures kept { (earlier : List script.Said) →
            ((j x : ℕ) → IsFalse (is_over j x earlier) → (r : Rid) →
            IsOwn self.old (said_of said.now ∷ earlier) j x r) →
            AreOpenOwn self.new (said_of said.now ∷ earlier) }
        ensures over { (earlier : List script.Said) → ForgetsOver self.old earlier →
            ForgetsOver self.new (said_of said.now ∷ earlier) }
    {
        if !ends(said) {
            return;
        }
        self.forget(Tx {
            session: said.session,
            number: said.transaction,
        });
    }

    /// The last image that a transaction stored of a record.
    pub fn image(&self, tx: Tx, rid: Rid) -> Option<&Image>
        ensures { option_copied result ≡ own_at self.now tx.session tx.number rid }
    {
        let spot = Spot { tx, rid };
        self.images.get(&spot)
    }

    /// Whether a transaction stored a record.
    pub fn has(&self, tx: Tx, rid: Rid) -> bool
        ensures { result ≡ is_some (own_at self.now tx.session tx.number rid) }
    {
        let spot = Spot { tx, rid };
        self.images.contains_key(&spot)
    }

    /// The least record that a transaction stored, at or over a record.
    pub fn next(&self, tx: Tx, from: Rid) -> Option<Rid>
        ensures next { IsNextOwn self.now tx.session tx.number from result }
        ensures small { IfSome result (λ r. (r.table.0 < 256) × (r.key < 2 ^ 64)) }
    {
        let start = Spot { tx, rid: from };
        let (spot, _) = self.images.range(start..).next()?;
        if spot.tx != tx {
            return None;
        }
        Some(record_at(spot.rid.table.0, spot.rid.key))
    }

    /// The least record that a transaction stored, over a record.
    pub fn next_after(&self, tx: Tx, rid: Rid) -> Option<Rid>
        ensures next { IsNextAfter self.now tx.session tx.number rid result }
        ensures small { IfSome result (λ r. (r.table.0 < 256) × (r.key < 2 ^ 64)) }
    {
        let start = Bound::Excluded(Spot { tx, rid });
        let (spot, _) = self.images.range((start, Bound::Unbounded)).next()?;
        if spot.tx != tx {
            return None;
        }
        Some(record_at(spot.rid.table.0, spot.rid.key))
    }
}

/// The least of all records.
pub const LEAST: Rid = Rid {
    table: TableId(0),
    key: 0,
};

/// An image of the same row.
pub fn copy(image: &Image) -> Result<Image, NoMemory>
    ensures { IfOk result (λ same. same ≡ image.now) }
{
    let row = match &image.row {
        Some(row) => Some(row.copy()?),
        None => None,
    };
    Ok(Image { row })
}
