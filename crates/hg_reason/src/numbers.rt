//! Numbers that are none, and numbers out of range.

use crate::before::Refused;
use crate::finding::Finding;
use crate::form::{Form, field};
use crate::part::{Part, part_of};
use crate::shown::shown;
use hg_base::{Column, Integer, MOST_TEXT_BYTES, NoMemory, Text, read_integer};
use std::alloc::Global;

/// What a value may be.
const VALUES: &str = "a whole number from -9223372036854775808 to 9223372036854775807";

fn has_digits_alone(text: &[u8]) -> bool {
    !text.is_empty() && text.iter().all(|b| b.is_ascii_digit())
}

// What is wrong with a text that is almost a number.
fn hint(text: &[u8]) -> &'static str {
    match text {
        [b'+', rest @ ..] if has_digits_alone(rest) => ", written without a plus sign",
        [b'-', b'0'] => ", and 0 has no sign",
        [b'0', rest @ ..] | [b'-', b'0', rest @ ..] if has_digits_alone(rest) =>
            ", written without leading zeros",
        [b' ' | b'\t', ..] | [.., b' ' | b'\t'] => ", written without spaces",
        _ => "",
    }
}

// The rule of a number.
fn rule(alloc: Global, part: Part, table: Option<&[u8]>) -> Result<String, NoMemory> {
    let rule = match part {
        Part::Session => "a session is a whole number from 1 to 64",
        Part::Version => "the version is 2, and a script without a version record is of version 1",
        Part::Columns =>
            "the columns of a table are a number from 1 to 8, and letters for them need version,2 as the first record",
        Part::Letters =>
            "the columns of a table are 1 to 8 letters, n for a number and t for a text",
        Part::Key => "a key is a whole number from 0 to 18446744073709551615",
        Part::End => "an end of a range of keys is a whole number from 0 to 18446744073709551615",
        Part::Rows => "the rows of a fetch are a whole number from 1 to 1048576",
        Part::Value => return value_rule(alloc, table),
        Part::Other => "",
    };
    Ok(String::from_str(alloc, rule)?)
}

fn value_rule(alloc: Global, table: Option<&[u8]>) -> Result<String, NoMemory> {
    match table {
        Some(name) => {
            let name = shown(alloc, name)?;
            Ok(format!(in alloc; "a value of table {name} is {VALUES}")?)
        }
        None => Ok(format!(in alloc; "a value is {VALUES}")?),
    }
}

// The rule of the field, which breaks it.
fn broken(alloc: Global, refused: &Refused<'_>, part: Part, i: usize) -> Result<Finding, NoMemory> {
    let name = field(&refused.row, 2);
    let table = refused.before.table(name).map(|_| name);
    let rule = rule(alloc, part, table)?;
    let hint = hint(field(&refused.row, i));
    Finding::at(i, format!(in alloc; "{rule}{hint}")?)
}

/// The first field that is not written as the number that it has to be.
pub(crate) fn explain_number(
    alloc: Global,
    refused: &Refused<'_>,
    form: Form,
) -> Result<Option<Finding>, NoMemory> {
    for i in 0..refused.row.len() {
        let part = part_of(form, refused.before.version(), i);
        if part.is_no_number(field(&refused.row, i)) {
            return Ok(Some(broken(alloc, refused, part, i)?));
        }
    }
    Ok(None)
}

/// The first field that is a number out of range.
pub(crate) fn explain_range(
    alloc: Global,
    refused: &Refused<'_>,
    form: Form,
) -> Result<Option<Finding>, NoMemory> {
    for i in 0..refused.row.len() {
        let part = part_of(form, refused.before.version(), i);
        if part.is_out_of_range(field(&refused.row, i)) {
            return Ok(Some(broken(alloc, refused, part, i)?));
        }
    }
    Ok(None)
}

// What the value of a column has to be, if this is none.
fn column_rule(alloc: Global, kind: Column, value: &[u8]) -> Result<Option<String>, NoMemory> {
    match kind {
        Column::Number => match read_integer(value) {
            Integer::Is(_) => Ok(None),
            _ => {
                let hint = hint(value);
                Ok(Some(format!(in alloc; "holds {VALUES}{hint}")?))
            }
        },
        Column::Text => {
            if Text::from_slice(value).is_some() {
                return Ok(None);
            }
            let count = value.len();
            Ok(Some(format!(in alloc;
                "holds a text of at most {MOST_TEXT_BYTES} bytes, and here are {count}"
            )?))
        }
    }
}

/// The first value that is none of its column, in version 2.
pub(crate) fn explain_value(
    alloc: Global,
    refused: &Refused<'_>,
) -> Result<Option<Finding>, NoMemory> {
    let name = field(&refused.row, 2);
    let Some((table, _)) = refused.before.table(name) else {
        return Ok(None);
    };
    let name = shown(alloc, name)?;
    for (i, kind) in table.kinds().iter().enumerate() {
        if let Some(rule) = column_rule(alloc, *kind, field(&refused.row, 4 + i))? {
            let column = i + 1;
            return Ok(Some(Finding::at(
                4 + i,
                format!(in alloc; "column {column} of table {name} {rule}")?,
            )?));
        }
    }
    Ok(None)
}
