//! The rules, one test for each code.

ghost use Rattle.std.specs.Prelude.{◌≡◌, List, IfNone, false};
ghost use Rattle.hg_script.specs.Rules.{ask_columns_breaks, ask_name_breaks, ask_number_breaks, ask_order_breaks, ask_range_breaks, ask_value_breaks, columns_breaks, count_breaks, fields_breaks, name_breaks, number_breaks, order_breaks, range_breaks, value_breaks};
ghost use Rattle.hg_script.specs.Draft as draft;
ghost use Rattle.hg_script.specs.Meaning.{draft_code};
ghost use Rattle.hg_base.specs.declared.statement.Record.{Record};
ghost use Rattle.hg_base.specs.Script.{Script};
ghost use Rattle.hg_script.specs.Sessions.{KnowsRecords};

use crate::code::Code;
use crate::draft::{Ask, Draft};
use crate::sessions::OpenSessions;
use crate::table::Table;
use crate::word::Word;
use hg_base::{Column, MOST_RECORDS, MOST_SESSIONS, MOST_TABLES, TableId};

/// A fetch asks for at most this many rows, and for at least 1.
pub const MOST_FETCHED: u64 = 1_048_576;

/// What stands for a table that is not declared, where no rule asks for one.
pub(crate) const FIRST_TABLE: TableId = TableId(0);

pub(crate) fn breaks_count(place: u64, tables: &[Table], word: Option<Word>) -> bool
    ensures { result ≡ count_breaks place tables.now word }
{
    place > MOST_RECORDS || (word == Some(Word::Table) && tables.len() >= MOST_TABLES as usize)
}

pub(crate) fn breaks_fields(word: Word, count: usize) -> bool
    ensures { result ≡ fields_breaks word count }
{
    match word {
        Word::Version => count != 2,
        Word::Table => count != 3,
        Word::Begin => count < 2 || count > 66,
        Word::Get => count != 4,
        Word::Put => count < 5 || count > 12,
        Word::Del => count != 4,
        Word::Scan => count != 5,
        Word::Commit => count != 2,
        Word::Rollback => count != 2,
        Word::Gc => count != 3,
        Word::Open => count != 5,
        Word::Fetch => count != 3,
        Word::Close => count != 2,
    }
}

/// The columns of the table that is named.
pub(crate) fn kinds_at(tables: &[Table], table: Option<TableId>) -> &[Column]
    ensures { result.now ≡ draft.kinds_at tables.now table }
{
    match tables.get(table.unwrap_or(FIRST_TABLE).0 as usize) {
        Some(table) => table.kinds(),
        None => &[],
    }
}

impl Ask {
    fn breaks_number(&self) -> bool
        ensures { result ≡ ask_number_breaks self.now }
    {
        match self {
            Ask::Get { key, .. } | Ask::Del { key, .. } => key.is_no(),
            Ask::Put { key, values, .. } => key.is_no() || values.is_no(),
            Ask::Scan { low, high, .. } | Ask::CursorOpen { low, high, .. } => {
                low.is_no() || high.is_no()
            }
            Ask::Fetch { most } => most.is_no(),
            _ => false,
        }
    }

    fn breaks_range(&self) -> bool
        ensures { result ≡ ask_range_breaks self.now }
    {
        match self {
            Ask::Get { key, .. } | Ask::Del { key, .. } => key.is_over(),
            Ask::Put { key, values, .. } => key.is_over() || values.is_over(),
            Ask::Scan { low, high, .. } | Ask::CursorOpen { low, high, .. } => {
                low.is_over() || high.is_over()
            }
            Ask::Fetch { most } => !most.is_between(1, MOST_FETCHED),
            _ => false,
        }
    }

    fn breaks_name(&self) -> bool
        ensures { result ≡ ask_name_breaks self.now }
    {
        match self {
            Ask::Begin { scope } => !scope.is_some(),
            Ask::Get { table, .. }
            | Ask::Put { table, .. }
            | Ask::Del { table, .. }
            | Ask::Scan { table, .. }
            | Ask::CursorOpen { table, .. } => !table.is_some(),
            Ask::Gc { kind } => !kind.is_some(),
            _ => false,
        }
    }

    fn breaks_columns(&self, tables: &[Table]) -> bool
        ensures { result ≡ ask_columns_breaks tables.now self.now }
    {
        match self {
            Ask::Put { table, values, .. } => { kinds_at(tables, *table).len() != values.count() }
            _ => false,
        }
    }

    fn breaks_value(&self) -> bool
        ensures { result ≡ ask_value_breaks self.now }
    {
        match self {
            Ask::Put { values, .. } => values.is_bad(),
            _ => false,
        }
    }

    fn breaks_order(&self, within: bool, reading: bool) -> bool
        ensures { result ≡ ask_order_breaks within reading self.now }
    {
        match self {
            Ask::Begin { .. } | Ask::CursorOpen { .. } => within || reading,
            Ask::Get { .. } | Ask::Put { .. } | Ask::Del { .. } | Ask::Scan { .. } => reading,
            Ask::Fetch { .. } | Ask::CursorClose => !reading,
            Ask::Commit | Ask::Rollback => !within,
            Ask::Gc { .. } => false,
        }
    }
}

impl Draft {
    fn breaks_number(&self) -> bool
        ensures { result ≡ number_breaks self.now }
    {
        match self {
            Draft::Version(version) => version.is_no(),
            Draft::Table { columns, .. } => columns.is_no(),
            Draft::Session { session, ask } => session.is_no() || ask.breaks_number(),
        }
    }

    fn breaks_range(&self) -> bool
        ensures { result ≡ range_breaks self.now }
    {
        match self {
            Draft::Version(version) => !version.is_between(2, 2),
            Draft::Table { columns, .. } => columns.is_over(),
            Draft::Session { session, ask } => {
                !session.is_between(1, MOST_SESSIONS as u64) || ask.breaks_range()
            }
        }
    }

    fn breaks_name(&self) -> bool
        ensures { result ≡ name_breaks self.now }
    {
        match self {
            Draft::Version(_) => false,
            Draft::Table { fresh, .. } => !*fresh,
            Draft::Session { ask, .. } => ask.breaks_name(),
        }
    }

    fn breaks_columns(&self, tables: &[Table]) -> bool
        ensures { result ≡ columns_breaks tables.now self.now }
    {
        match self {
            Draft::Version(_) => false,
            Draft::Table { .. } => false,
            Draft::Session { ask, .. } => ask.breaks_columns(tables),
        }
    }

    fn breaks_value(&self) -> bool
        ensures { result ≡ value_breaks self.now }
    {
        match self {
            Draft::Version(_) => false,
            Draft::Table { .. } => false,
            Draft::Session { ask, .. } => ask.breaks_value(),
        }
    }

    fn breaks_order(&self, started: bool, sessions: &OpenSessions) -> bool
        requires range { range_breaks self.now ≡ false }
        ensures { (records : List Record) → KnowsRecords started sessions.now records →
            result ≡ order_breaks records self.now }
    {
        match self {
            Draft::Version(_) => false,
            Draft::Table { .. } => started,
            Draft::Session { session, ask } => {
                let session = session.value();
                ask.breaks_order(sessions.is_open(session), sessions.is_reading(session))
            }
        }
    }

    /// The first rule that the record breaks, of those that ask for its fields.
    #[tactic(auto, unfolding(crate::specs::Meaning::draft_code))]
    pub(crate) fn code(
        &self,
        tables: &[Table],
        started: bool,
        sessions: &OpenSessions,
    ) -> Option<Code>
        ensures code { (s : Script) → s.tables ≡ tables.now →
            KnowsRecords started sessions.now s.records → result ≡ draft_code s self.now }
        ensures number { IfNone result (number_breaks self.now ≡ false) }
        ensures range { IfNone result (range_breaks self.now ≡ false) }
        ensures name { IfNone result (name_breaks self.now ≡ false) }
        ensures value { IfNone result (value_breaks self.now ≡ false) }
        ensures order { (records : List Record) → KnowsRecords started sessions.now records →
            IfNone result (order_breaks records self.now ≡ false) }
    {
        if self.breaks_number() {
            Some(Code::Number)
        } else if self.breaks_range() {
            Some(Code::Range)
        } else if self.breaks_name() {
            Some(Code::Name)
        } else if self.breaks_columns(tables) {
            Some(Code::Columns)
        } else if self.breaks_value() {
            Some(Code::Value)
        } else if self.breaks_order(started, sessions) {
            Some(Code::Order)
        } else {
            None
        }
    }
}
