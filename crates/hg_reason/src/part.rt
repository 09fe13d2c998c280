//! What a field has to be.

use crate::form::Form;
use hg_base::{Integer, MOST_COLUMNS, MOST_SESSIONS, Natural, read_integer, read_natural};
use hg_script::MOST_FETCHED;

/// What a field of a record has to be, if that is a number.
#[derive(Clone, Copy, PartialEq, Eq)]
pub(crate) enum Part {
    Session,
    Version,
    Columns,
    /// The columns of a table in version 2.
    Letters,
    Key,
    End,
    Rows,
    Value,
    /// No number is asked for.
    Other,
}

fn part_of_statement(form: Form, version: u8, i: usize) -> Part {
    match (form, i) {
        (_, 0) => Part::Session,
        (Form::Get | Form::Put | Form::Del, 3) => Part::Key,
        (Form::Scan | Form::Open, 3..=4) => Part::End,
        (Form::Fetch, 2) => Part::Rows,
        (Form::Put, 4..) if version == 1 => Part::Value,
        _ => Part::Other,
    }
}

/// What field i is, counted from 0, of a record in a script of this version.
pub(crate) fn part_of(form: Form, version: u8, i: usize) -> Part {
    match form {
        Form::Version => if i == 1 { Part::Version } else { Part::Other },
        Form::Table => match i {
            2 if version == 1 => Part::Columns,
            2 => Part::Letters,
            _ => Part::Other,
        },
        _ => part_of_statement(form, version, i),
    }
}

fn are_letters(field: &[u8]) -> bool {
    1 <= field.len()
        && field.len() <= MOST_COLUMNS as usize
        && field.iter().all(|b| *b == b'n' || *b == b't')
}

impl Part {
    /// Whether the field is not written as the number that is asked for.
    pub(crate) fn is_no_number(self, field: &[u8]) -> bool {
        match self {
            Part::Other | Part::Letters => false,
            Part::Value => matches!(read_integer(field), Integer::No),
            _ => read_natural(field).is_no(),
        }
    }

    /// Whether the field is a number outside of the range, or no letters where those are asked for.
    pub(crate) fn is_out_of_range(self, field: &[u8]) -> bool {
        match self {
            Part::Other => false,
            Part::Letters => !are_letters(field),
            Part::Value => matches!(read_integer(field), Integer::Over),
            Part::Session => !read_natural(field).is_between(1, MOST_SESSIONS as u64),
            Part::Version => !read_natural(field).is_between(2, 2),
            Part::Columns => !read_natural(field).is_between(1, MOST_COLUMNS as u64),
            Part::Rows => !read_natural(field).is_between(1, MOST_FETCHED),
            Part::Key | Part::End => matches!(read_natural(field), Natural::Over),
        }
    }
}
