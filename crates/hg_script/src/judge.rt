//! A record, judged when it comes, after those before it.
//!
//! A script is judged as a whole, and keeps its statements. Here no statement is kept, only what the rules ask of the records before: the
//! version, the tables, what each session has open, and whether a session's record came. So there may be any number of records.

ghost use Rattle.std.specs.Prelude.{◌≡◌, ◌≤◌, ℕ, [], Some, IfOk, false, length};
ghost use Rattle.csv.specs.Records.{fields_of};
ghost use Rattle.hg_base.specs.Number.{value_of};
ghost use Rattle.hg_base.specs.Script.{Script};
ghost use Rattle.hg_script.specs.declared.draft.Draft.TheVariants as draft;
ghost use Rattle.hg_script.specs.Draft.{draft_of};
ghost use Rattle.hg_script.specs.Meaning.{nothing};
ghost use Rattle.hg_script.specs.Rules.{ask_number_breaks, ask_range_breaks, ask_value_breaks, count_breaks, order_breaks};
ghost use Rattle.hg_script.specs.Judging.{Knows, IsJudged, IsTaken, KeepsOwn};

use crate::code::Code;
use crate::draft::{Ask, Draft};
use crate::rules::{breaks_count, breaks_fields};
use crate::sessions::OpenSessions;
use crate::table::Table;
use crate::tables::Tables;
use crate::word::{Word, field};
use csv::ByteRecord;
use hg_base::{MOST_RECORDS, MOST_SESSIONS, MOST_TABLES, Natural, NoMemory, Statement};
use std::alloc::Global;
use std::marker::Model;

/// What is known of the records that broke no rule.
#[derive(Drop)]
pub struct Judge {
    version: u8,
    tables: Tables,
    sessions: OpenSessions,
    started: bool,
}

/// What a record is.
#[derive(Drop)]
pub enum Judged {
    /// The version, or a table. It is kept.
    Declared,
    /// A statement of a session.
    Asked { session: u32, statement: Statement },
    /// The first rule that it breaks. It changes nothing.
    Broken(Code),
}

impl Model for Judge {
    ghost use Rattle.hg_script.specs.Judging.{Known};

    ghost Value = { Known };

    ghost view = { λ j. record { version = j.version; tables = j.tables; open_in = j.sessions; started = j.started } };
}

impl Judge {
    /// Before the first record.
    pub fn new(alloc: Global) -> Judge
        ensures { Knows result nothing }
    {
        Judge {
            version: 1,
            tables: Tables::new(alloc),
            sessions: OpenSessions::new(),
            started: false,
        }
    }

    /// A `TableId` is a table's place here.
    pub fn tables(&self) -> &[Table]
        ensures same { result.now ≡ self.now.tables }
        ensures most { length self.now.tables ≤ MOST_TABLES }
    {
        self.tables.as_slice()
    }

    /// Judges the record at this place, counted from 1.
    pub fn hear(&mut self, alloc: Global, place: u64, row: &ByteRecord) -> Result<Judged, NoMemory>
        ensures { (s : Script) → Knows self.old s →
            IfOk result (λ judged. IsJudged place s (fields_of row.now) judged self.new) }
    {
        // No record is one too many.
        let at = place.min(MOST_RECORDS);
        let word = Word::read(at, row);
        if breaks_count(at, self.tables(), word) {
            return Ok(Judged::Broken(Code::Count));
        }
        let Some(word) = word else {
            return Ok(Judged::Broken(Code::Word));
        };
        if breaks_fields(word, row.len()) {
            return Ok(Judged::Broken(Code::Fields));
        }
        let draft = Draft::read(alloc, self.version, &self.tables, word, row)?;
        if let Some(code) = draft.code(self.tables(), self.started, &self.sessions) {
            return Ok(Judged::Broken(code));
        }
        self.take(alloc, word, draft, row)
    }

    // Takes a record that breaks no rule.
    fn take(
        &mut self,
        alloc: Global,
        word: Word,
        draft: Draft,
        row: &ByteRecord,
    ) -> Result<Judged, NoMemory>
        requires count { count_breaks 1 self.old.tables (Some word) ≡ false }
        requires draft { draft ≡
            draft_of self.old.version self.old.tables word (fields_of row.now) }
        requires kept { KeepsOwn draft }
        ensures { (place : ℕ) (s : Script) → Knows self.old s →
            order_breaks s.records draft ≡ false →
            IfOk result (λ judged.
            IsTaken place s (fields_of row.now) draft judged self.new) }
    {
        match draft {
            Draft::Version(version) => {
                self.version = version.value() as u8;
                Ok(Judged::Declared)
            }
            Draft::Table { columns, .. } => {
                let table = Table::new(alloc, field(row, 1), columns.into_kinds())?;
                self.tables.push(table)?;
                Ok(Judged::Declared)
            }
            Draft::Session { session, ask } => Ok(self.ask(session, ask)),
        }
    }

    // Takes what a session asks.
    fn ask(&mut self, session: Natural, ask: Ask) -> Judged
        requires number { ask_number_breaks ask ≡ false }
        requires range { ask_range_breaks ask ≡ false }
        requires value { ask_value_breaks ask ≡ false }
        requires session { value_of session ≤ MOST_SESSIONS }
        ensures { (place : ℕ) (s : Script) → Knows self.old s →
            IsTaken place s [] (draft.Session session ask) result self.new }
    {
        let session = session.value() as u32;
        let statement = ask.into_statement();
        self.sessions.note(session, &statement);
        self.started = true;
        Judged::Asked { session, statement }
    }
}
