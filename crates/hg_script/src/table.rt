//! A declared table.

ghost use Rattle.std.specs.Prelude.{◌≡◌, ◌≤◌, IfOk, length, replicate};
ghost use Rattle.std.specs.List.{list_all};
ghost use Rattle.hg_base.specs.declared.limits.TheConstants.{MOST_COLUMNS};
ghost use Rattle.hg_base.specs.declared.value.Column.TheVariants as column;
ghost use Rattle.hg_script.specs.Draft.{is_name, is_name_byte};

use crate::columns::Kinds;
use hg_base::{Column, MOST_COLUMNS, MOST_NAME_BYTES, NoMemory};
use std::alloc::Global;
use std::marker::Model;

/// A table's name and what its columns hold.
#[derive(Drop)]
pub struct Table {
    name: Vec<u8>,
    kinds: Kinds,
}

impl Model for Table {
    ghost use Rattle.hg_base.specs.Script.{Declaration};

    ghost Value = { Declaration };

    ghost view = { λ t. record { name = t.name.items; kinds = t.kinds } };
}

impl Table {
    pub(crate) fn new(alloc: Global, name: &[u8], kinds: Kinds) -> Result<Table, NoMemory>
        ensures { IfOk result (λ table. table ≡ record { name = name.now; kinds = kinds }) }
    {
        let name = name.to_vec(alloc)?;
        Ok(Table { name, kinds })
    }

    /// A table of so many columns of numbers.
    pub fn of_numbers(alloc: Global, name: &[u8], columns: u8) -> Result<Table, NoMemory>
        requires { columns ≤ MOST_COLUMNS }
        ensures { IfOk result (λ table.
            table ≡ record { name = name.now; kinds = replicate columns column.Number }) }
    {
        Table::new(alloc, name, Kinds::of_numbers(alloc, columns)?)
    }

    /// The name, of ASCII letters, digits and `_`.
    pub fn name(&self) -> &[u8]
        ensures { result.now ≡ self.now.name }
    {
        &self.name
    }

    /// What each column holds.
    pub fn kinds(&self) -> &[Column]
        ensures same { result.now ≡ self.now.kinds }
        ensures most { length self.now.kinds ≤ MOST_COLUMNS }
    {
        self.kinds.as_slice()
    }

    pub fn columns(&self) -> u8
        ensures { result ≡ length self.now.kinds }
    {
        self.kinds().len() as u8
    }
}

fn has_name_bytes_alone(name: &[u8]) -> bool
    ensures { result ≡ list_all is_name_byte name.now }
{
    name.iter().all(|c| {
        (*c >= b'0' && *c <= b'9')
            || (*c >= b'A' && *c <= b'Z')
            || (*c >= b'a' && *c <= b'z')
            || *c == b'_'
    })
}

pub(crate) fn is_named_well(name: &[u8]) -> bool
    ensures { result ≡ is_name name.now }
{
    1 <= name.len() && name.len() <= MOST_NAME_BYTES && has_name_bytes_alone(name)
}
