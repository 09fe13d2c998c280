//! The values of a put.

ghost use Rattle.std.specs.Prelude.{◌≡◌, ◌≤◌, ◌+◌, drop, length, IfOk, false};
ghost use Rattle.csv.specs.Records.{fields_of};
ghost use Rattle.std.specs.List.{list_all};
ghost use Rattle.hg_script.specs.Draft.{numbers_in, typed_in, value_in, values_by};
ghost use Rattle.hg_script.specs.Meaning.{row_of};
ghost use Rattle.hg_script.specs.Rules.{count_of, is_bad_values, is_no_values, is_over_values};
ghost use Rattle.hg_script.specs.Typed.{holds_numbers, or_bad};

use crate::word::field;
use csv::ByteRecord;
use hg_base::{Column, Integer, MOST_COLUMNS, NoMemory, Row, Text, Value, read_integer};
use std::alloc::Global;

/// What the fields of a row are, read once.
#[derive(Drop)]
pub enum Values {
    /// Some field is not written as a number.
    No,
    /// Some number is not one of 64 bits with a sign.
    Over,
    /// So many fields, which are not the values of the table's columns.
    Bad(usize),
    Are(Row),
}

fn read_value(kind: Column, field: &[u8]) -> Option<Value>
    ensures { result ≡ value_in kind field.now }
{
    match kind {
        Column::Number => match read_integer(field) {
            Integer::No => None,
            Integer::Over => None,
            Integer::Is(number) => Some(Value::Number(number)),
        },
        Column::Text => match Text::from_slice(field) {
            Some(text) => Some(Value::Text(text)),
            None => None,
        },
    }
}

fn hold_numbers(kinds: &[Column]) -> bool
    ensures { result ≡ list_all holds_numbers kinds.now }
{
    kinds.iter().all(|kind| *kind == Column::Number)
}

impl Values {
    // Reads the fields from the fifth on as numbers. A row of one or two takes no block of the heap.
    fn read_numbers(alloc: Global, row: &ByteRecord) -> Result<Values, NoMemory>
        requires some { 5 ≤ length (fields_of row.now) }
        requires most { length (fields_of row.now) ≤ 12 }
        ensures { IfOk result (λ values. values ≡ numbers_in (drop 4 (fields_of row.now))) }
    {
        let mut over = false;
        let mut row_values = [0; MOST_COLUMNS as usize];
        let count = row.len() - 4;
        for i in 0..count {
            match read_integer(field(row, 4 + i)) {
                Integer::No => return Ok(Values::No),
                Integer::Over => over = true,
                Integer::Is(value) => row_values[i] = value,
            }
        }
        if over {
            return Ok(Values::Over);
        }
        let row = Row::from_slice(alloc, &row_values[..count])?;
        Ok(Values::Are(row))
    }

    // Numbers where all columns are numbers.
    fn or_bad(self, count: usize) -> Values
        ensures { result ≡ or_bad count self }
    {
        match self {
            Values::No => Values::Bad(count),
            Values::Over => Values::Bad(count),
            Values::Bad(_) => Values::Bad(count),
            Values::Are(row) => Values::Are(row),
        }
    }

    // Reads the fields from the fifth on, one for each column.
    fn read_mixed(alloc: Global, kinds: &[Column], row: &ByteRecord) -> Result<Values, NoMemory>
        requires some { 5 ≤ length (fields_of row.now) }
        requires most { length (fields_of row.now) ≤ 12 }
        requires many { length (fields_of row.now) ≡ 4 + length kinds.now }
        ensures { IfOk result (λ values. values ≡ typed_in kinds.now (drop 4 (fields_of row.now))) }
    {
        let mut values = Vec::with_capacity(alloc, kinds.len())?;
        for i in 0..kinds.len() {
            match read_value(kinds[i], field(row, 4 + i)) {
                Some(value) => values.push(value)?,
                None => return Ok(Values::Bad(kinds.len())),
            }
        }
        Ok(Values::Are(Row::from_values(alloc, &values)?))
    }

    // Reads the fields from the fifth on as the values of these columns. Numbers alone are read as such.
    fn read_typed(alloc: Global, kinds: &[Column], row: &ByteRecord) -> Result<Values, NoMemory>
        requires some { 5 ≤ length (fields_of row.now) }
        requires most { length (fields_of row.now) ≤ 12 }
        ensures { IfOk result (λ values. values ≡ typed_in kinds.now (drop 4 (fields_of row.now))) }
    {
        let count = row.len() - 4;
        if count != kinds.len() {
            return Ok(Values::Bad(count));
        }
        if hold_numbers(kinds) {
            return Ok(Values::read_numbers(alloc, row)?.or_bad(count));
        }
        Values::read_mixed(alloc, kinds, row)
    }

    /// Reads the fields from the fifth on: numbers in version 1, and else the values of these columns.
    pub(crate) fn read(
        alloc: Global,
        version: u8,
        kinds: &[Column],
        row: &ByteRecord,
    ) -> Result<Values, NoMemory>
        requires some { 5 ≤ length (fields_of row.now) }
        requires most { length (fields_of row.now) ≤ 12 }
        ensures { IfOk result
            (λ values. values ≡ values_by version kinds.now (drop 4 (fields_of row.now))) }
    {
        if version == 1 {
            Values::read_numbers(alloc, row)
        } else {
            Values::read_typed(alloc, kinds, row)
        }
    }

    pub(crate) fn is_no(&self) -> bool
        ensures { result ≡ is_no_values self.now }
    {
        matches!(self, Values::No)
    }

    pub(crate) fn is_over(&self) -> bool
        ensures { result ≡ is_over_values self.now }
    {
        matches!(self, Values::Over)
    }

    pub(crate) fn is_bad(&self) -> bool
        ensures { result ≡ is_bad_values self.now }
    {
        matches!(self, Values::Bad(_))
    }

    /// The row that they are.
    pub(crate) fn into_row(self) -> Row
        requires number { is_no_values self ≡ false }
        requires range { is_over_values self ≡ false }
        requires value { is_bad_values self ≡ false }
        ensures { result ≡ row_of self }
    {
        match self {
            Values::No => unreachable!(),
            Values::Over => unreachable!(),
            Values::Bad(_) => unreachable!(),
            Values::Are(row) => row,
        }
    }

    /// How many fields there are, and 0 where some field is no number that fits.
    pub(crate) fn count(&self) -> usize
        ensures { result ≡ count_of self.now }
    {
        match self {
            Values::No => 0,
            Values::Over => 0,
            Values::Bad(count) => *count,
            Values::Are(row) => row.len(),
        }
    }
}
