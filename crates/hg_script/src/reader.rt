//! The loop over the records of a text.

ghost use Rattle.std.specs.Prelude.{◌≡◌, ◌≤◌, ◌<◌, ◌+◌, [], length, Some, None, OnOk, IfOk, IfErr, false, true};
ghost use Rattle.csv.specs.Reading.{NotLengths, ReadRecord, Ready, default_config, error_kind, is_flexible, reader_config, reader_state, reader_trim, source_of, strip_bom, took_first};
ghost use Rattle.csv.specs.declared.parser.State.TheVariants as state;
ghost use Rattle.csv.specs.declared.reader.Trim.TheVariants as trim;
ghost use Rattle.csv.specs.Records.{fields_of};
ghost use Rattle.hg_script.specs.declared.refusal.ScriptRefusal.TheVariants as refusal;
ghost use Rattle.hg_script.specs.declared.draft.Draft.TheVariants as draft;
ghost use Rattle.hg_script.specs.Fields.{rows_of, unread, word_of};
ghost use Rattle.hg_base.specs.Number.{value_of};
ghost use Rattle.hg_script.specs.Draft.{draft_of};
ghost use Rattle.hg_script.specs.Rules.{KeepsRules, ask_number_breaks, ask_range_breaks, ask_value_breaks, count_breaks};
ghost use Rattle.hg_script.specs.Meaning.{TellsCode, TellsRefusal, first_code, nothing, refusal_of, script_of, with_draft, with_row};
ghost use Rattle.hg_script.specs.Lawful.{IsLawful};
ghost use Rattle.hg_script.specs.Numbered.{next_place};
ghost use Rattle.hg_script.specs.Sessions.{KnowsSessions};

use crate::code::Code;
use crate::draft::{Ask, Draft};
use crate::refusal::ScriptRefusal;
use crate::rules::{breaks_count, breaks_fields};
use crate::script::Script;
use crate::sessions::OpenSessions;
use crate::table::Table;
use crate::word::{Word, field};
use csv::{ByteRecord, Error, ErrorKind, Reader, ReaderBuilder};
use hg_base::{MOST_RECORDS, MOST_SESSIONS, Natural, NoMemory};
use std::alloc::Global;

// Records of more bytes or fields are read too, in several steps.
const USUAL_BYTES: usize = 1_024;

const USUAL_FIELDS: usize = 72;

// Adds what a session asks, which breaks no rule.
fn add_asked(
    script: &mut Script,
    sessions: &mut OpenSessions,
    session: Natural,
    ask: Ask,
) -> Result<(), NoMemory>
    requires known { KnowsSessions sessions.old script.old.records }
    requires room { length script.old.records < MOST_RECORDS }
    requires number { ask_number_breaks ask ≡ false }
    requires range { ask_range_breaks ask ≡ false }
    requires value { ask_value_breaks ask ≡ false }
    requires session { value_of session ≤ MOST_SESSIONS }
    ensures script { OnOk result (script.new ≡
        with_draft (next_place script.old) script.old [] (draft.Session session ask)) }
    ensures known { OnOk result (KnowsSessions sessions.new script.new.records) }
{
    let number = session.value() as u32;
    let statement = ask.into_statement();
    sessions.note(number, &statement);
    script.add(number, statement)?;
    Ok(())
}

// Adds a record that breaks no rule.
fn add(
    alloc: Global,
    script: &mut Script,
    sessions: &mut OpenSessions,
    word: Word,
    draft: Draft,
    row: &ByteRecord,
) -> Result<(), NoMemory>
    requires known { KnowsSessions sessions.old script.old.records }
    requires room { length script.old.records < MOST_RECORDS }
    requires count { count_breaks (next_place script.old) script.old.tables (Some word) ≡ false }
    requires word { word_of (next_place script.old) (fields_of row.now) ≡ Some word }
    requires draft { draft ≡
        draft_of script.old.version script.old.tables word (fields_of row.now) }
    requires kept { KeepsRules script.old.records draft }
    ensures script { OnOk result (script.new ≡
        with_draft (next_place script.old) script.old (fields_of row.now) draft) }
    ensures next { OnOk result (next_place script.new ≡ next_place script.old + 1) }
    ensures known { OnOk result (KnowsSessions sessions.new script.new.records) }
{
    match draft {
        Draft::Version(version) => script.set_version(version.value() as u8),
        Draft::Table { columns, .. } => {
            let table = Table::new(alloc, field(row, 1), columns.into_kinds())?;
            script.declare(table)?;
        }
        Draft::Session { session, ask } => add_asked(script, sessions, session, ask)?,
    }
    Ok(())
}

// Takes one more record, or tells the first rule that it breaks.
#[tactic(auto, unfolding(crate::specs::Meaning::draft_code, crate::specs::Meaning::first_code, crate::specs::Meaning::with_row))]
fn take(
    alloc: Global,
    place: u64,
    script: &mut Script,
    sessions: &mut OpenSessions,
    row: &ByteRecord,
) -> Result<(), ScriptRefusal>
    requires known { KnowsSessions sessions.old script.old.records }
    requires next { place ≡ next_place script.old }
    ensures none { OnOk result (first_code place script.old (fields_of row.now) ≡ None) }
    ensures script { OnOk result (script.new ≡ with_row place script.old (fields_of row.now)) }
    ensures known { OnOk result (KnowsSessions sessions.new script.new.records) }
    ensures most { OnOk result (place ≤ MOST_RECORDS) }
    ensures next { OnOk result (place + 1 ≡ next_place script.new) }
    ensures at { IfErr result (TellsCode place (first_code place script.old (fields_of row.now))) }
{
    let word = Word::read(place, row);
    if breaks_count(place, script.tables(), word) {
        return Err(refused(place, Code::Count));
    }
    let Some(word) = word else {
        return Err(refused(place, Code::Word));
    };
    if breaks_fields(word, row.len()) {
        return Err(refused(place, Code::Fields));
    }
    let draft = Draft::read(alloc, script.version(), script.named(), word, row)?;
    if let Some(code) = draft.code(script.tables(), script.record_count() > 0, sessions) {
        return Err(refused(place, code));
    }
    add(alloc, script, sessions, word, draft, row)?;
    Ok(())
}

fn refused(line: u64, code: Code) -> ScriptRefusal
    ensures { result ≡ refusal.At line code }
{
    ScriptRefusal::At { line, code }
}

// An empty record with room for a usual one. The reader takes no more bytes at a time than there is room for, so with little room it
// would stop in the middle of records.
fn new_row(alloc: Global) -> Result<ByteRecord, NoMemory> {
    Ok(ByteRecord::with_capacity(alloc, USUAL_BYTES, USUAL_FIELDS)?)
}

// Reads the next record into `row`, and tells whether there was one.
fn read_row(reader: &mut Reader<&[u8]>, row: &mut ByteRecord) -> Result<bool, ScriptRefusal>
    requires flexible { is_flexible reader.old ≡ true }
    requires trim { reader_trim reader.old ≡ trim.None }
    requires ready { Ready reader.old }
    ensures flexible { OnOk result (is_flexible reader.new ≡ true) }
    ensures ready { OnOk result (took_first reader.new ≡ true) }
    ensures reads { IfOk result
        (λ found. ReadRecord unread reader.old reader.new found (fields_of row.new)) }
    ensures refused { IfErr result (λ e. e ≡ refusal.NoMemory) }
{
    match reader.read_byte_record(row) {
        Ok(found) => Ok(found),
        Err(e) => Err(cause_of(&e)),
    }
}

// Reads all records of the bytes into a script of none.
fn read_all(alloc: Global, bytes: &[u8], script: &mut Script) -> Result<(), ScriptRefusal>
    requires none { script.old ≡ nothing }
    ensures valid { OnOk result (refusal_of (rows_of bytes.now) ≡ None) }
    ensures script { OnOk result (script.new ≡ script_of (rows_of bytes.now)) }
    ensures at { IfErr result (TellsRefusal (refusal_of (rows_of bytes.now))) }
{
    let mut row = new_row(alloc)?;
    let mut reader = ReaderBuilder::new()
        .has_headers(false)
        .flexible(true)
        .from_reader(alloc, bytes);
    read_rows(alloc, bytes, &mut reader, &mut row, script)
}

// The same, by a reader over the bytes that has read none. Only clauses name the bytes.
fn read_rows(
    alloc: Global,
    bytes: &[u8],
    reader: &mut Reader<&[u8]>,
    row: &mut ByteRecord,
    script: &mut Script,
) -> Result<(), ScriptRefusal>
    requires flexible { is_flexible reader.old ≡ true }
    requires trim { reader_trim reader.old ≡ trim.None }
    requires ready { Ready reader.old }
    requires config { reader_config reader.old ≡ default_config }
    requires state { reader_state reader.old ≡ state.StartRecord }
    requires source { source_of unread reader.old ≡ Some (strip_bom bytes.now) }
    requires none { script.old ≡ nothing }
    ensures valid { OnOk result (refusal_of (rows_of bytes.now) ≡ None) }
    ensures script { OnOk result (script.new ≡ script_of (rows_of bytes.now)) }
    ensures at { IfErr result (TellsRefusal (refusal_of (rows_of bytes.now))) }
{
    let mut sessions = OpenSessions::new();
    for place in 1..MOST_RECORDS + 2 {
        match read_row(reader, row) {
            Ok(true) => take(alloc, place, script, &mut sessions, row)?,
            Ok(false) => return Ok(()),
            Err(e) => return Err(e),
        }
    }
    unreachable!()
}

/// Reads a script: the one that its records give, or the first record that breaks a rule.
pub fn read_script(alloc: Global, bytes: &[u8]) -> Result<Script, ScriptRefusal>
    ensures valid { OnOk result (refusal_of (rows_of bytes.now) ≡ None) }
    ensures script { IfOk result (λ s. s ≡ script_of (rows_of bytes.now)) }
    ensures at { IfErr result (TellsRefusal (refusal_of (rows_of bytes.now))) }

    // So a table is declared, a row has its table's columns, numbers have their widths, and places ascend.
    ensures lawful { IfOk result IsLawful }
{
    let mut script = Script::new(alloc);
    match read_all(alloc, bytes, &mut script) {
        Ok(()) => Ok(script),
        Err(e) => Err(e),
    }
}

// Records may differ in length, and bytes are not read as text. No clause of the CSV reader rules out its `Io` over bytes
// in memory, where no read fails, so that counts as want of memory too.
fn cause_of(e: &Error) -> ScriptRefusal
    requires { NotLengths (error_kind e.now) }
    ensures { result ≡ refusal.NoMemory }
{
    match e.kind() {
        ErrorKind::UnequalLengths { .. } => unreachable!(),
        ErrorKind::Io(_) => ScriptRefusal::NoMemory,
        ErrorKind::Utf8 { .. } => ScriptRefusal::NoMemory,
        ErrorKind::OutOfMemory => ScriptRefusal::NoMemory,
        ErrorKind::Serialize(_) => ScriptRefusal::NoMemory,
        ErrorKind::Deserialize { .. } => ScriptRefusal::NoMemory,
    }
}
