//! The columns of a declared table.

ghost use Rattle.std.specs.Prelude.{◌≡◌, ◌≤◌, IfOk, length, map, replicate, false};
ghost use Rattle.std.specs.List.{list_all};
ghost use Rattle.hg_base.specs.declared.limits.TheConstants.{MOST_COLUMNS};
ghost use Rattle.hg_base.specs.declared.value.Column.TheVariants as column;
ghost use Rattle.hg_script.specs.Draft.{columns_by, counted, is_letter, kind_by, lettered};
ghost use Rattle.hg_script.specs.Meaning.{kinds_in};
ghost use Rattle.hg_script.specs.Rules.{is_no_columns, is_over_columns};

use hg_base::{Column, MOST_COLUMNS, Natural, NoMemory, read_natural};
use std::alloc::Global;
use std::marker::Model;

/// What each column of a table holds. There are at most 8.
#[derive(Drop)]
pub(crate) struct Kinds {
    list: Vec<Column>,
}

impl Model for Kinds {
    ghost use Rattle.std.specs.Prelude.{◌≤◌, List, length};
    ghost use Rattle.hg_base.specs.declared.limits.TheConstants.{MOST_COLUMNS};
    ghost use Rattle.hg_base.specs.declared.value.Column.{Column};

    ghost Value = { List Column };

    ghost view = { λ k. k.list.items };

    ghost invariant = { λ k. length k.list.items ≤ MOST_COLUMNS };
}

fn are_letters(text: &[u8]) -> bool
    ensures { result ≡ list_all is_letter text.now }
{
    text.iter().all(|c| *c == b'n' || *c == b't')
}

fn kind_by(c: u8) -> Column
    ensures { result ≡ kind_by c }
{
    if c == b't' {
        Column::Text
    } else {
        Column::Number
    }
}

impl Kinds {
    /// So many columns of numbers.
    pub(crate) fn of_numbers(alloc: Global, count: u8) -> Result<Kinds, NoMemory>
        requires { count ≤ MOST_COLUMNS }
        ensures { IfOk result (λ kinds. kinds ≡ replicate count column.Number) }
    {
        let list = vec![in alloc; Column::Number; count as usize]?;
        Ok(Kinds { list })
    }

    // A column for each letter.
    fn of_letters(alloc: Global, text: &[u8]) -> Result<Kinds, NoMemory>
        requires { length text.now ≤ MOST_COLUMNS }
        ensures { IfOk result (λ kinds. kinds ≡ map kind_by text.now) }
    {
        let list = text.iter().map(|c| kind_by(*c)).collect(alloc)?;
        Ok(Kinds { list })
    }

    pub(crate) fn as_slice(&self) -> &[Column]
        ensures same { result.now ≡ self.now }
        ensures most { length self.now ≤ MOST_COLUMNS }
    {
        &self.list
    }
}

/// What the third field of a table record is.
#[derive(Drop)]
pub enum Columns {
    /// Not written as a number. In version 2 none is asked for.
    No,
    /// Not from 1 to 8 columns, or not a letter for each.
    Over,
    Are(Kinds),
}

impl Columns {
    fn counted(alloc: Global, count: Natural) -> Result<Columns, NoMemory>
        ensures { IfOk result (λ columns. columns ≡ counted count) }
    {
        Ok(match count {
            Natural::No => Columns::No,
            Natural::Over => Columns::Over,
            Natural::Is(count) => {
                if 1 <= count && count <= MOST_COLUMNS as u64 {
                    Columns::Are(Kinds::of_numbers(alloc, count as u8)?)
                } else {
                    Columns::Over
                }
            }
        })
    }

    fn lettered(alloc: Global, text: &[u8]) -> Result<Columns, NoMemory>
        ensures { IfOk result (λ columns. columns ≡ lettered text.now) }
    {
        if 1 <= text.len() && text.len() <= MOST_COLUMNS as usize && are_letters(text) {
            return Ok(Columns::Are(Kinds::of_letters(alloc, text)?));
        }
        Ok(Columns::Over)
    }

    /// Reads a number of columns in version 1, and else their kinds.
    pub(crate) fn read(alloc: Global, version: u8, text: &[u8]) -> Result<Columns, NoMemory>
        ensures { IfOk result (λ columns. columns ≡ columns_by version text.now) }
    {
        if version == 1 {
            Columns::counted(alloc, read_natural(text))
        } else {
            Columns::lettered(alloc, text)
        }
    }

    pub(crate) fn is_no(&self) -> bool
        ensures { result ≡ is_no_columns self.now }
    {
        matches!(self, Columns::No)
    }

    pub(crate) fn is_over(&self) -> bool
        ensures { result ≡ is_over_columns self.now }
    {
        matches!(self, Columns::Over)
    }

    /// The kinds that they are.
    pub(crate) fn into_kinds(self) -> Kinds
        requires number { is_no_columns self ≡ false }
        requires range { is_over_columns self ≡ false }
        ensures { result ≡ kinds_in self }
    {
        match self {
            Columns::No => unreachable!(),
            Columns::Over => unreachable!(),
            Columns::Are(kinds) => kinds,
        }
    }
}
