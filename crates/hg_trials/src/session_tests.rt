//! One session at an engine of its own, as crates/hg_session/CALLING.md shows it.

ghost use Rattle.std.specs.Prelude.{◌≡◌, ◌+◌, ◌<◌, None, OnOk};
ghost use Rattle.hg_session.specs.Engines.{engine_sizes};
ghost use Rattle.hg_session.specs.Resting.{MayRun};
ghost use Rattle.hg_session.specs.Sessions.{IsOf, open_of, cursor_of, left_of};

use hg_base::{Rid, Row, Scope, TableId};
use hg_group::Receipt;
use hg_session::{Engine, Session, TableDecl};
use std::process::Abort;
use std::sync::Wait;
use std::test::Fail;

// Stores a row in a transaction of its own, which reads it back and commits.
fn store_one<R: Abort + Wait>(
    rt: &R,
    engine: &Engine,
    session: &mut Session,
    rid: Rid,
    row: Row,
) -> Result<(), Fail>
    requires ready { MayRun engine.now 3 session.old }
    requires table { rid.table.0 < (engine_sizes engine.now).tables }
    ensures over { OnOk result ((open_of session.new ≡ None) × (cursor_of session.new ≡ None)) }
    ensures left { OnOk result (left_of session.new + 3 ≡ left_of session.old) }
    ensures own { IsOf engine.now session.new }
{
    assert_eq!(rt; session.begin(engine, Scope::All), 0);
    session.put(rt, engine, rid, row)?;
    let read = session.get(rt, engine, rid)?;
    assert_eq!(rt; read.row.is_some(), true);
    let ended = session.commit(rt, engine)?;
    assert_eq!(rt;
        ended.receipt,
        Some(Receipt {
            number: 1,
            place: 0
        })
    );
    Ok(())
}

// Reads a row outside of a transaction, so at the newest snapshot, and then by a cursor.
fn read_one<R: Abort + Wait>(
    rt: &R,
    engine: &Engine,
    session: &mut Session,
    rid: Rid,
) -> Result<(), Fail>
    requires ready { MayRun engine.now 3 session.old }
    requires cursor { cursor_of session.old ≡ None }
    requires table { rid.table.0 < (engine_sizes engine.now).tables }
{
    let read = session.get(rt, engine, rid)?;
    assert_eq!(rt; read.at, 1);
    assert_eq!(rt; read.row.is_some(), true);
    // a range in parts, at one snapshot
    assert_eq!(rt; session.open_cursor(engine, rid.table, 0, 9), 1);
    let rows = session.fetch(rt, engine, 2)?;
    assert_eq!(rt; rows.as_slice().len(), 1);
    session.close_cursor(engine);
    Ok(())
}

#[test]
fn a_row_is_stored_and_read(rt: HostRuntime) -> Result<(), Fail> {
    let row = Row::from_slice(rt.alloc(), &[7])?;
    let tables = [TableDecl { columns: 1 }];
    let (engine, sessions, _) = Engine::open(rt.alloc(), 1, &tables[..], 4, 10)?;
    let mut sessions = sessions.into_vec();
    let Some(mut session) = sessions.pop() else {
        unreachable!();
    };
    let rid = Rid {
        table: TableId(0),
        key: 5,
    };
    let read = match store_one(&rt, &engine, &mut session, rid, row) {
        Ok(()) => read_one(&rt, &engine, &mut session, rid),
        Err(fail) => Err(fail),
    };
    engine.free();
    read
}
