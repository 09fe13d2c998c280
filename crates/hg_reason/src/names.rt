//! Words, names, and counts of fields.

use crate::before::{Before, Refused};
use crate::finding::Finding;
use crate::form::{Form, field, statement_named};
use crate::shown::shown;
use hg_base::{NoMemory, read_natural};
use hg_script::Table;
use std::alloc::Global;
use std::fmt::Write;

// Of more tables the first so many are named.
const MOST_NAMED: usize = 16;

/// A record of no word that there is.
pub(crate) fn explain_word(alloc: Global, refused: &Refused<'_>) -> Result<Finding, NoMemory> {
    let row = &refused.row;
    if field(row, 0) == b"version".as_slice() {
        return Finding::told(
            alloc,
            Some(0),
            "a version record is the first record or none",
        );
    }
    if row.len() == 1 {
        return Finding::told(
            alloc,
            None,
            "a record is fields with commas between them: a session's number and then a word, as in 1,begin",
        );
    }
    if read_natural(field(row, 0)).is_no() {
        return Finding::told(
            alloc,
            Some(0),
            "a record begins with table or with a session's number",
        );
    }
    let mut small = field(row, 1).trim_ascii().to_vec(alloc)?;
    small.make_ascii_lowercase();
    if let Some(form) = statement_named(&small) {
        let word = form.word();
        return Finding::at(
            1,
            format!(in alloc; "words are in small letters, without spaces: {word}")?,
        );
    }
    Finding::told(
        alloc,
        Some(1),
        "a word is begin, get, put, del, scan, open, fetch, close, commit, rollback or gc",
    )
}

/// A record with more or fewer fields than its word has.
pub(crate) fn explain_fields(
    alloc: Global,
    refused: &Refused<'_>,
    form: Form,
) -> Result<Finding, NoMemory> {
    let word = form.word();
    let pattern = form.pattern();
    let count = refused.row.len();
    let are = if count == 1 { "is" } else { "are" };
    Finding::of_record(format!(in alloc; "{word} is written {pattern}, and here {are} {count}")?)
}

// The names of the tables, with commas between them.
fn add_names(names: &mut String, tables: &[Table]) -> Result<(), NoMemory> {
    for (i, table) in tables.iter().take(MOST_NAMED).enumerate() {
        if i > 0 {
            names.push_str(", ")?;
        }
        let name = shown(*names.allocator(), table.name())?;
        names.push_str(name.as_str())?;
    }
    if tables.len() > MOST_NAMED {
        let more = tables.len() - MOST_NAMED;
        write!(names, " and {more} more")?;
    }
    Ok(())
}

// A table that is not declared.
fn missing(alloc: Global, before: &Before, name: &[u8]) -> Result<String, NoMemory> {
    if name.is_empty() {
        return Ok(String::from_str(alloc, "the name of a table is missing")?);
    }
    let name = shown(alloc, name)?;
    if before.tables().is_empty() {
        return Ok(format!(in alloc; "no table {name}; none is declared")?);
    }
    let are = if before.tables().len() == 1 {
        "is"
    } else {
        "are"
    };
    let mut why = format!(in alloc; "no table {name}; declared {are} ")?;
    add_names(&mut why, before.tables())?;
    Ok(why)
}

// A name that a table may not take.
fn explain_taken(alloc: Global, before: &Before, name: &[u8]) -> Result<Finding, NoMemory> {
    match before.table(name) {
        Some((_, line)) => {
            let name = shown(alloc, name)?;
            Finding::at(
                1,
                format!(in alloc; "table {name} is declared on line {line} already")?,
            )
        }
        None => Finding::told(
            alloc,
            Some(1),
            "the name of a table is 1 to 32 letters from a to z or A to Z, digits and _",
        ),
    }
}

// The first of the tables from field i on that is not declared.
fn first_missing(
    alloc: Global,
    refused: &Refused<'_>,
    from: usize,
    to: usize,
) -> Result<Option<Finding>, NoMemory> {
    for i in from..to {
        let name = field(&refused.row, i);
        if refused.before.table(name).is_none() {
            return Ok(Some(Finding::at(i, missing(alloc, &refused.before, name)?)?));
        }
    }
    Ok(None)
}

/// A name that is not one, or names nothing.
pub(crate) fn explain_name(
    alloc: Global,
    refused: &Refused<'_>,
    form: Form,
) -> Result<Option<Finding>, NoMemory> {
    match form {
        Form::Table => Ok(Some(explain_taken(alloc, &refused.before, field(&refused.row, 1))?)),
        Form::Gc => Ok(Some(Finding::told(
            alloc,
            Some(2),
            "a collector is group, table or interval",
        )?)),
        Form::Begin => first_missing(alloc, refused, 2, refused.row.len()),
        _ => first_missing(alloc, refused, 2, 3),
    }
}

/// A put with more or fewer values than its table has columns.
pub(crate) fn explain_columns(
    alloc: Global,
    refused: &Refused<'_>,
) -> Result<Option<Finding>, NoMemory> {
    let Some((table, _)) = refused.before.table(field(&refused.row, 2)) else {
        return Ok(None);
    };
    let name = shown(alloc, table.name())?;
    let columns = table.columns();
    let values = refused.row.len().saturating_sub(4);
    let of_columns = if columns == 1 { "column" } else { "columns" };
    let of_values = if values == 1 { "value" } else { "values" };
    Ok(Some(Finding::of_record(format!(in alloc;
        "table {name} has {columns} {of_columns}, and here is a put of {values} {of_values}"
    )?)?))
}
