//! The values that fields are.

ghost use Rattle.std.specs.Prelude.{◌≡◌, ◌≤◌, IfOk, false, length, take};
ghost use Rattle.std.specs.List.{list_any};
ghost use Rattle.hg_base.specs.declared.limits.TheConstants.{MOST_COLUMNS, MOST_TEXT_BYTES};
ghost use Rattle.hg_report.specs.Fields.{fields_of, is_left_out, holds_text, integer_value, row_in, text_in, unquoted, value_in, values_in};

use crate::fields::field;
use hg_base::{
    Column, Integer, MOST_COLUMNS, MOST_TEXT_BYTES, NoMemory, Row, Text, Value, read_integer,
};
use std::alloc::Global;

fn integer_value(integer: Integer) -> i64
    ensures { result ≡ integer_value integer }
{
    match integer {
        Integer::No => 0,
        Integer::Over => 0,
        Integer::Is(value) => value,
    }
}

// Whether the byte is left out. `before` says whether the one before it was.
fn is_left_out(before: bool, b: u8) -> bool
    ensures { result ≡ is_left_out before b }
{
    b == b'"' && !before
}

// What a field says after its first quote.
fn unquoted(alloc: Global, bytes: &[u8]) -> Result<Vec<u8>, NoMemory>
    ensures { IfOk result (λ text. text.items ≡ unquoted false bytes.now) }
{
    let mut text = Vec::with_capacity(alloc, bytes.len())?;
    let mut left_out = false;
    for b in bytes {
        left_out = is_left_out(left_out, *b);
        if !left_out {
            text.push(*b)?;
        }
    }
    Ok(text)
}

// The text of the first bytes.
fn front(bytes: &[u8]) -> Text
    ensures { result ≡ take MOST_TEXT_BYTES bytes.now }
{
    match Text::from_slice(&bytes[..bytes.len().min(MOST_TEXT_BYTES)]) {
        Some(text) => text,
        None => unreachable!(),
    }
}

fn text_in(alloc: Global, field: &[u8]) -> Result<Text, NoMemory>
    ensures { IfOk result (λ text. text ≡ take MOST_TEXT_BYTES (text_in field.now)) }
{
    if field.len() > 0 && field[0] == b'"' {
        return Ok(front(&unquoted(alloc, &field[1..])?));
    }
    Ok(front(field))
}

fn value_in(alloc: Global, kind: Column, field: &[u8]) -> Result<Value, NoMemory>
    ensures { IfOk result (λ value. value ≡ value_in kind field.now) }
{
    match kind {
        Column::Number => Ok(Value::Number(integer_value(read_integer(field)))),
        Column::Text => Ok(Value::Text(text_in(alloc, field)?)),
    }
}

fn holds_text(kind: Column) -> bool
    ensures { result ≡ holds_text kind }
{
    match kind {
        Column::Number => false,
        Column::Text => true,
    }
}

fn hold_text(kinds: &[Column]) -> bool
    ensures { result ≡ list_any holds_text kinds.now }
{
    kinds.iter().any(|kind| holds_text(*kind))
}

// The row of columns of numbers alone. No memory is taken for one or two.
fn numbers_in(alloc: Global, row: &[&[u8]], i: usize, kinds: &[Column]) -> Result<Row, NoMemory>
    requires few { (i ≤ 8) × (1 ≤ length kinds.now) × (length kinds.now ≤ 8) }
    requires numbers { list_any holds_text kinds.now ≡ false }
    ensures { IfOk result (λ values. values ≡ values_in (fields_of row.now) i kinds.now) }
{
    let mut values = [0; 8];
    for k in 0..kinds.len() {
        values[k] = integer_value(read_integer(field(row, i + k)));
    }
    Ok(Row::from_slice(alloc, &values[..kinds.len()])?)
}

// The row of any columns.
fn values_in(alloc: Global, row: &[&[u8]], i: usize, kinds: &[Column]) -> Result<Row, NoMemory>
    requires { (i ≤ 8) × (1 ≤ length kinds.now) × (length kinds.now ≤ 8) }
    ensures { IfOk result (λ values. values ≡ values_in (fields_of row.now) i kinds.now) }
{
    let mut values = Vec::with_capacity(alloc, kinds.len())?;
    for k in 0..kinds.len() {
        values.push(value_in(alloc, kinds[k], field(row, i + k))?)?;
    }
    Row::from_values(alloc, &values)
}

/// The row of these columns, from field `i` on.
pub(crate) fn row_in(
    alloc: Global,
    row: &[&[u8]],
    i: usize,
    kinds: &[Column],
) -> Result<Option<Row>, NoMemory>
    requires { i ≤ 8 }
    ensures { IfOk result (λ o. o ≡ row_in (fields_of row.now) i kinds.now) }
{
    if !(1 <= kinds.len() && kinds.len() <= MOST_COLUMNS as usize) {
        return Ok(None);
    }
    if hold_text(kinds) {
        return Ok(Some(values_in(alloc, row, i, kinds)?));
    }
    Ok(Some(numbers_in(alloc, row, i, kinds)?))
}
