//! The declared tables, by place and by name.

ghost use Rattle.std.specs.Prelude.{◌≡◌, ◌≤◌, ◌<◌, ◌++◌, ◌∷◌, [], IfSome, None, OnErr, OnOk, length};
ghost use Rattle.hg_script.specs.Draft.{is_fresh, is_name, table_named};
ghost use Rattle.hg_script.specs.Places.{ArePlaces};

use crate::table::{Table, is_named_well};
use hg_base::{MOST_TABLES, NoMemory, TableId};
use std::alloc::Global;
use std::collections::BTreeMap;
use std::marker::Model;

/// The tables in the order in which they are declared. A name leads to its table, so that no other is looked at.
#[derive(Drop)]
pub(crate) struct Tables {
    list: Vec<Table>,
    places: BTreeMap<Vec<u8>, TableId>,
}

impl Model for Tables {
    ghost use Rattle.std.specs.Prelude.{◌≤◌, List, length};
    ghost use Rattle.hg_base.specs.Script.{Declaration};
    ghost use Rattle.hg_base.specs.declared.limits.TheConstants.{MOST_TABLES};
    ghost use Rattle.hg_script.specs.Places.{ArePlaces};

    ghost Value = { List Declaration };

    ghost view = { λ t. t.list.items };

    ghost invariant = { λ t. (length t.list.items ≤ MOST_TABLES) × ArePlaces t.places t.list.items };
}

impl Tables {
    pub(crate) fn new(alloc: Global) -> Tables
        ensures { result ≡ [] }
    {
        Tables {
            list: Vec::new(alloc),
            places: BTreeMap::new(alloc),
        }
    }

    pub(crate) fn len(&self) -> usize
        ensures same { result ≡ length self.now }
        ensures most { length self.now ≤ MOST_TABLES }
    {
        self.list.len()
    }

    /// A `TableId` is a table's place here.
    pub(crate) fn as_slice(&self) -> &[Table]
        ensures same { result.now ≡ self.now }
        ensures most { length self.now ≤ MOST_TABLES }
    {
        &self.list
    }

    /// The table of this name.
    pub(crate) fn find(&self, name: &[u8]) -> Option<TableId>
        ensures found { result ≡ table_named self.now name.now }
        ensures bound { IfSome result (λ table. table.0 < length self.now) }
        ensures most { length self.now ≤ MOST_TABLES }
    {
        self.places.get(name).copied()
    }

    /// Whether a table may take this name.
    pub(crate) fn is_free(&self, name: &[u8]) -> bool
        ensures { result ≡ is_fresh self.now name.now }
    {
        is_named_well(name) && !self.find(name).is_some()
    }

    /// No table has its name yet.
    pub(crate) fn push(&mut self, table: Table) -> Result<(), NoMemory>
        requires room { length self.old < MOST_TABLES }
        requires fresh { table_named self.old table.name ≡ None }
        ensures ok { OnOk result (self.new ≡ self.old ++ table ∷ []) }
        ensures err { OnErr result (self.new ≡ self.old) }
    {
        self.list.reserve(1)?;
        add_name(&mut self.places, &self.list, &table)?;
        self.list.push(table)?;
        Ok(())
    }
}

// Adds the name of a table that will be the next one, and that no table before it has.
fn add_name(
    places: &mut BTreeMap<Vec<u8>, TableId>,
    tables: &Vec<Table>,
    table: &Table,
) -> Result<(), NoMemory>
    requires room { length tables.now.items < MOST_TABLES }
    requires places { ArePlaces places.old tables.now.items }
    requires fresh { table_named tables.now.items table.now.name ≡ None }
    ensures places { OnOk result (ArePlaces places.new (tables.now.items ++ table.now ∷ [])) }
    ensures kept { OnErr result (ArePlaces places.new tables.now.items) }
{
    let name = table.name().to_vec(*tables.allocator())?;
    let place = TableId(tables.len() as u8);
    places.insert(name, place)?;
    Ok(())
}
