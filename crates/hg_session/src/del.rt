//! What a session deletes.

ghost use Rattle.std.specs.Prelude.{◌≡◌, ◌<◌, List, Option, Some, None, [], ◌∷◌, true, false, is_some, Err, IsTrue, IfSome};
ghost use Rattle.hg_base.specs.declared.statement.Statement.TheVariants as say;
ghost use Rattle.hg_base.specs.declared.value.Value.{Value};
ghost use Rattle.hg_base.specs.History.{nothing};
ghost use Rattle.hg_base.specs.Transcript.{has};
ghost use Rattle.hg_core.specs.Reading.{saw};
ghost use Rattle.hg_cursor.specs.Keys.{rows_at};
ghost use Rattle.hg_session.specs.declared.answers.PutRefusal.TheVariants as refusal;
ghost use Rattle.hg_session.specs.Engines.{engine_sizes};
ghost use Rattle.hg_session.specs.Sessions.{IsIn, view_of, opened_of};
ghost use Rattle.hg_session.specs.Frames.{KeepsCounts, KeepsOpened, KeepsWritten};
ghost use Rattle.hg_session.specs.Gains.{Gains};
ghost use Rattle.hg_session.specs.Refused.{HasLooked, LeavesNoWrite};
ghost use Rattle.hg_session.specs.Replies.{IsRefusedIf, IsAtOwn, del_at, del_reply};
ghost use Rattle.hg_session.specs.Firsts.{AnswersWrite};

use crate::answers::{Deleted, PutRefusal};
use crate::engine::Engine;
use crate::session::Session;
use crate::statements::{only, refused_at};
use hg_base::{Image, Rid, Snapshot, TableId};
use hg_cursor::has_row;
use std::sync::Wait;

// Sees whether a record has a row.
fn see_there<R: Wait>(
    rt: &R,
    engine: &Engine,
    session: &mut Session,
    snapshot: Snapshot,
    rid: Rid,
) -> bool
    requires own { IsIn engine.now 0 1 session.old }
    requires opened { opened_of session.old ≡ Some snapshot }
    requires table { IsTrue (has snapshot.scope rid.table) }
    ensures gains { (row : Option (List Value)) ×
        (Gains (view_of session.old)
        (saw (engine_sizes engine.now).buckets rid (rows_at rid.key row) ∷ [])
        (view_of session.new) × (result ≡ is_some row)) }
    ensures kept { KeepsWritten session.old session.new }
    ensures own { IsIn engine.now 0 1 session.new }
{
    has_row(rt, &engine.tables(), &mut session.pass, snapshot.at, rid)
}

// In the open transaction.
pub(crate) fn del_inside<R: Wait>(
    rt: &R,
    engine: &Engine,
    session: &mut Session,
    snapshot: Snapshot,
    rid: Rid,
) -> Result<Deleted, PutRefusal>
    requires own { IsIn engine.now 1 1 session.old }
    requires opened { opened_of session.old ≡ Some snapshot }
    requires table { rid.table.0 < (engine_sizes engine.now).tables }
    ensures reply { IfSome (del_reply false result) (λ reply.
        AnswersWrite (engine_sizes engine.now) (view_of session.old) (say.Del rid) rid reply
        (view_of session.new)) }
    // the snapshot is the transaction's own
    ensures at { IsAtOwn (Some snapshot) (del_at result) }
    // exactly if the transaction did not declare the table
    ensures undeclared { IsRefusedIf (Some snapshot) rid.table result
        (refusal.Undeclared rid.table) }
    // out of memory: no version of the record is left
    ensures refused { result ≡ Err refusal.NoMemory →
        HasLooked rid.table rid.key rid.key (view_of session.old) (view_of session.new) }
    ensures kept { KeepsOpened session.old session.new }
    ensures own { IsIn engine.now 0 0 session.new }
{
    let at = snapshot.at;
    if session.is_outside(engine, snapshot, rid.table) {
        return Err(PutRefusal::Undeclared { table: rid.table });
    }
    if !see_there(rt, engine, session, snapshot, rid) {
        return Ok(Deleted {
            at,
            there: false,
            number: None,
        });
    }
    match session.write_row(rt, engine, snapshot, rid, Image { row: None }) {
        Ok(()) => Ok(Deleted {
            at,
            there: true,
            number: None,
        }),
        Err(refusal) => Err(refused_at(at, refusal)),
    }
}

// A transaction of its own.
pub(crate) fn del_alone<R: Wait>(
    rt: &R,
    engine: &Engine,
    session: &mut Session,
    rid: Rid,
) -> Result<Deleted, PutRefusal>
    requires own { IsIn engine.now 1 1 session.old }
    requires closed { opened_of session.old ≡ None }
    requires table { rid.table.0 < (engine_sizes engine.now).tables }
    ensures reply { IfSome (del_reply true result) (λ reply.
        AnswersWrite (engine_sizes engine.now) (view_of session.old) (say.Del rid) rid reply
        (view_of session.new)) }
    ensures declared { (t : TableId) → result ≡ Err (refusal.Undeclared t) → ⊥ }
    // out of memory: no version of the record is left
    ensures refused { result ≡ Err refusal.NoMemory →
        LeavesNoWrite None rid nothing (view_of session.old) (view_of session.new) }
    ensures open { opened_of session.new ≡ None }
    ensures kept { KeepsCounts session.old session.new }
    ensures own { IsIn engine.now 0 0 session.new }
{
    let snapshot = session.open(engine, only(rid.table));
    if !see_there(rt, engine, session, snapshot, rid) {
        session.end(engine);
        return Ok(Deleted {
            at: snapshot.at,
            there: false,
            number: None,
        });
    }
    let number = session.write_alone(rt, engine, snapshot, rid, Image { row: None })?;
    Ok(Deleted {
        at: snapshot.at,
        there: true,
        number,
    })
}
