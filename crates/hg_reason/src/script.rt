//! Why a script is refused.

use crate::before::{Refused, read_refused};
use crate::finding::Finding;
use crate::form::{Form, field, form_of};
use crate::names::{explain_columns, explain_fields, explain_name, explain_word};
use crate::numbers::{explain_number, explain_range, explain_value};
use crate::order::explain_order;
use crate::reason::Reason;
use crate::shown::shown;
use hg_base::{MOST_RECORDS, MOST_TABLES, NoMemory};
use hg_script::Code;
use std::alloc::Global;

// One record or one table too many.
fn explain_count(alloc: Global, place: u64) -> Result<Finding, NoMemory> {
    if place > MOST_RECORDS {
        Finding::of_record(format!(in alloc;
            "a script has at most {MOST_RECORDS} records, and this is one more"
        )?)
    } else {
        Finding::of_record(format!(in alloc;
            "a script has at most {MOST_TABLES} tables, and this is one more"
        )?)
    }
}

// The rule of this code that a record breaks, by its word.
fn find_by_word(
    alloc: Global,
    refused: &Refused<'_>,
    form: Form,
    code: Code,
) -> Result<Option<Finding>, NoMemory> {
    match code {
        Code::Fields => Ok(Some(explain_fields(alloc, refused, form)?)),
        Code::Number => explain_number(alloc, refused, form),
        Code::Range => explain_range(alloc, refused, form),
        Code::Name => explain_name(alloc, refused, form),
        Code::Columns => explain_columns(alloc, refused),
        Code::Value => explain_value(alloc, refused),
        Code::Order => Ok(Some(explain_order(alloc, refused, form)?)),
        _ => Ok(None),
    }
}

fn find(
    alloc: Global,
    refused: &Refused<'_>,
    place: u64,
    code: Code,
) -> Result<Option<Finding>, NoMemory> {
    match code {
        Code::Count => Ok(Some(explain_count(alloc, place)?)),
        Code::Word => Ok(Some(explain_word(alloc, refused)?)),
        _ => match form_of(place, &refused.row) {
            Some(form) => find_by_word(alloc, refused, form, code),
            None => Ok(None),
        },
    }
}

// Where it was found, and what.
fn told(alloc: Global, refused: &Refused<'_>, finding: &Finding) -> Result<Reason, NoMemory> {
    let line = refused.spot.line();
    let why = finding.why.as_str();
    let text = match finding.field {
        Some(i) => {
            let number = i.saturating_add(1);
            let what = shown(alloc, field(&refused.row, i))?;
            format!(in alloc; "line {line}, field {number} ({what}): {why}")?
        }
        None => {
            let what = shown(alloc, refused.spot.text())?;
            format!(in alloc; "line {line} ({what}): {why}")?
        }
    };
    Reason::new(alloc, text.as_str())
}

/// Why the record at this place, counted from 1, is refused with this code. It is none of a script that is not refused so.
pub fn explain_script(
    alloc: Global,
    bytes: &[u8],
    place: u64,
    code: Code,
) -> Result<Option<Reason>, NoMemory> {
    let Some(refused) = read_refused(alloc, bytes, place)? else {
        return Ok(None);
    };
    match find(alloc, &refused, place, code)? {
        Some(finding) => Ok(Some(told(alloc, &refused, &finding)?)),
        None => Ok(None),
    }
}
