//! The records that there are.

use csv::ByteRecord;

/// A record, by its word.
#[derive(Clone, Copy, PartialEq, Eq)]
pub(crate) enum Form {
    Version,
    Table,
    Begin,
    Get,
    Put,
    Del,
    Scan,
    Open,
    Fetch,
    Close,
    Commit,
    Rollback,
    Gc,
}

const STATEMENTS: [Form; 11] = [
    Form::Begin,
    Form::Get,
    Form::Put,
    Form::Del,
    Form::Scan,
    Form::Open,
    Form::Fetch,
    Form::Close,
    Form::Commit,
    Form::Rollback,
    Form::Gc,
];

/// The field at this place, counted from 0, and no bytes where there is none.
pub(crate) fn field(row: &ByteRecord, i: usize) -> &[u8] {
    row.get(i).unwrap_or(&[])
}

/// The statement of this word.
pub(crate) fn statement_named(word: &[u8]) -> Option<Form> {
    STATEMENTS
        .iter()
        .copied()
        .find(|form| form.word().as_bytes() == word)
}

/// What the record at this place is.
pub(crate) fn form_of(place: u64, row: &ByteRecord) -> Option<Form> {
    let first = field(row, 0);
    if place == 1 && first == b"version".as_slice() {
        return Some(Form::Version);
    }
    if first == b"table".as_slice() {
        return Some(Form::Table);
    }
    statement_named(field(row, 1))
}

impl Form {
    pub(crate) fn word(self) -> &'static str {
        match self {
            Form::Version => "version",
            Form::Table => "table",
            Form::Begin => "begin",
            Form::Get => "get",
            Form::Put => "put",
            Form::Del => "del",
            Form::Scan => "scan",
            Form::Open => "open",
            Form::Fetch => "fetch",
            Form::Close => "close",
            Form::Commit => "commit",
            Form::Rollback => "rollback",
            Form::Gc => "gc",
        }
    }

    /// How it is written, and how many fields it has so.
    pub(crate) fn pattern(self) -> &'static str {
        match self {
            Form::Version => "version,2: 2 fields",
            Form::Table => "table,NAME,COLUMNS: 3 fields",
            Form::Begin => "SESSION,begin or SESSION,begin,TABLE,..: 2 to 66 fields",
            Form::Get => "SESSION,get,TABLE,KEY: 4 fields",
            Form::Put => "SESSION,put,TABLE,KEY,VALUE,..: 5 to 12 fields",
            Form::Del => "SESSION,del,TABLE,KEY: 4 fields",
            Form::Scan => "SESSION,scan,TABLE,LOW,HIGH: 5 fields",
            Form::Open => "SESSION,open,TABLE,LOW,HIGH: 5 fields",
            Form::Fetch => "SESSION,fetch,ROWS: 3 fields",
            Form::Close => "SESSION,close: 2 fields",
            Form::Commit => "SESSION,commit: 2 fields",
            Form::Rollback => "SESSION,rollback: 2 fields",
            Form::Gc => "SESSION,gc,COLLECTOR: 3 fields",
        }
    }
}
