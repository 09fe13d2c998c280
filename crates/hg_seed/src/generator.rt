//! The script that is made from a seed.
//!
//! Its sessions read and write 256 keys of three tables, in and out of transactions, which begin and end by chance too. Some
//! transactions declare table c alone, and name the others nevertheless.

ghost use Rattle.std.specs.Prelude.{◌≡◌, ◌≤◌, ◌<◌, ◌∷◌, ◌++◌, [], IfOk, None, OnOk, length, replicate};
ghost use Rattle.hg_base.specs.Text.{kinds_of};
ghost use Rattle.hg_base.specs.declared.value.Column.TheVariants as column;
ghost use Rattle.hg_script.specs.Draft.{table_at, table_named};
ghost use Rattle.hg_seed.specs.Generator.{IsMade, draws_of, drawn, kind_at, made_tables, row_drawn, state_after, state_drawn, statement_at, with_drawn};
ghost use Rattle.hg_script.specs.Lawful.{IsLawful};
ghost use Rattle.hg_script.specs.Meaning.{nothing};
ghost use Rattle.hg_script.specs.Sessions.{KnowsOpen};

use crate::choice::Choice;
use crate::draws::Draws;
use hg_base::{
    Kind, MOST_COLUMNS, MOST_RECORDS, MOST_SESSIONS, MOST_TABLES, NoMemory, Rid, Row, Scope,
    Statement, TableId,
};
use hg_script::{OpenSessions, Script, Table};
use std::alloc::Global;

const SESSIONS: u32 = 8;

const ROUNDS: u32 = 2_000;

const B: TableId = TableId(1);

const C: TableId = TableId(2);

// Declares one table more, of columns of numbers.
fn declare(alloc: Global, script: &mut Script, name: &[u8], columns: u8) -> Result<(), NoMemory>
    requires few { columns ≤ MOST_COLUMNS }
    requires room { length script.old.tables < MOST_TABLES }
    requires fresh { table_named script.old.tables name.now ≡ None }
    requires first { script.old.records ≡ [] }
    ensures { OnOk result (script.new ≡
        record script.old {
          tables = script.old.tables ++
              (record { name = name.now; kinds = replicate columns column.Number }) ∷ [];
        }) }
{
    let table = Table::of_numbers(alloc, name, columns)?;
    script.declare(table)
}

// Declares the three tables.
fn declare_all(alloc: Global, script: &mut Script) -> Result<(), NoMemory>
    requires { script.old ≡ nothing }
    ensures { OnOk result
        (script.new ≡ record { version = 1; tables = made_tables; records = [] }) }
{
    declare(alloc, script, b"a", 1)?;
    declare(alloc, script, b"b", 2)?;
    declare(alloc, script, b"c", 1)
}

// A script of the tables alone.
fn declare_tables(alloc: Global) -> Result<Script, NoMemory>
    ensures { IfOk result (λ s. s ≡ record { version = 1; tables = made_tables; records = [] }) }
{
    let mut script = Script::new(alloc);
    declare_all(alloc, &mut script)?;
    Ok(script)
}

fn draw_kind(draws: &mut Draws) -> Kind
    ensures kind { result ≡ kind_at (drawn 1 3 draws.old) }
    ensures state { draws.new ≡ state_after 1 draws.old }
{
    match draws.below(3) {
        0 => Kind::Group,
        1 => Kind::Table,
        _ => Kind::Interval,
    }
}

fn draw_rid(draws: &mut Draws) -> Rid
    ensures table { result.table ≡ table_at (drawn 1 3 draws.old) }
    ensures key { result.key ≡ drawn 2 256 draws.old }
    ensures known { result.table.0 < length made_tables }
    ensures low { result.key < 256 }
    ensures state { draws.new ≡ state_after 2 draws.old }
{
    let table = TableId(draws.below(3) as u8);
    let key = draws.below(256);
    Rid { table, key }
}

// A value for each column.
fn draw_row(alloc: Global, draws: &mut Draws, table: TableId) -> Result<Row, NoMemory>
    requires { table.0 < length made_tables }
    ensures row { IfOk result
        (λ row. row ≡ row_drawn (length (kinds_of made_tables table)) draws.old) }
    ensures state { OnOk result
        (draws.new ≡ state_after (length (kinds_of made_tables table)) draws.old) }
{
    let first = draws.below(1000) as i64;
    if table != B {
        return Row::from_slice(alloc, &[first]);
    }
    let second = draws.below(1000) as i64;
    Row::from_slice(alloc, &[first, second])
}

// What a session asks next.
fn draw_statement(alloc: Global, draws: &mut Draws, within: bool) -> Result<Statement, NoMemory>
    ensures statement { IfOk result (λ statement. statement ≡ statement_at draws.old within) }
    ensures state { IfOk result
        (λ statement. draws.new ≡ state_after (draws_of statement) draws.old) }
{
    let choice = Choice::by(within, draws.below(16));
    Ok(match choice {
        Choice::Begin => Statement::Begin(Scope::All),
        Choice::BeginC => Statement::Begin(Scope::only(C)),
        Choice::Get => Statement::Get(draw_rid(draws)),
        Choice::Put => {
            let rid = draw_rid(draws);
            let row = draw_row(alloc, draws, rid.table)?;
            Statement::Put(rid, row)
        }
        Choice::Del => Statement::Del(draw_rid(draws)),
        Choice::Scan => {
            let Rid { table, key } = draw_rid(draws);
            Statement::Scan {
                table,
                low: key,
                high: key + 15,
            }
        }
        Choice::Commit => Statement::Commit,
        Choice::Rollback => Statement::Rollback,
        Choice::Gc => Statement::Gc(draw_kind(draws)),
    })
}

// Adds what the session asks next.
fn add_drawn(
    alloc: Global,
    session: u32,
    draws: &mut Draws,
    script: &mut Script,
    sessions: &mut OpenSessions,
) -> Result<(), NoMemory>
    requires session { session ≤ MOST_SESSIONS }
    requires room { length script.old.records < MOST_RECORDS }
    requires known { KnowsOpen sessions.old.flags script.old.records }
    ensures script { OnOk result (script.new ≡
        with_drawn session draws.old script.old) }
    ensures state { OnOk result (draws.new ≡ state_drawn session draws.old script.old) }
    ensures known { OnOk result (KnowsOpen sessions.new.flags script.new.records) }
{
    let within = sessions.is_open(session as u64);
    let statement = draw_statement(alloc, draws, within)?;
    sessions.note(session, &statement);
    script.add(session, statement)?;
    Ok(())
}

/// Makes the script of a seed.
pub fn make_script(alloc: Global, seed: u64) -> Result<Script, NoMemory>
    ensures made { IfOk result (IsMade seed) }

    // So it may be run like one that was read.
    ensures lawful { IfOk result IsLawful }
{
    let mut script = declare_tables(alloc)?;
    let mut sessions = OpenSessions::new();
    let mut draws = Draws::new(seed);
    for i in 0..ROUNDS * SESSIONS {
        let session = i % SESSIONS + 1;
        add_drawn(alloc, session, &mut draws, &mut script, &mut sessions)?;
    }
    Ok(script)
}
