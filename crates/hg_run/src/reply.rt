//! The reply to a statement: one call of its session, whose answer becomes the reply.

ghost use Rattle.std.specs.Prelude.{◌≡◌, ◌+◌, ◌<◌, ◌≤◌, None, IfOk, OnErr, Some};
ghost use Rattle.hg_session.specs.Engines.{engine_sizes};
ghost use Rattle.hg_session.specs.Sessions.{IsOf, number_of, left_of};
ghost use Rattle.hg_run.specs.Asked.{IsAnswered, IsOnTables, MayAsk, collector_asked};
ghost use Rattle.hg_session.specs.Gains.{receipt_number};
ghost use Rattle.hg_session.specs.Replies as session;
ghost use Rattle.hg_run.specs.Unsaid.{HasRunOut};

use hg_base::{Answer, NoMemory, Reply, Row, Statement, Writer};
use hg_session::{Deleted, Ended, Engine, GetRefusal, PutRefusal, Read, Scanned, Session, Written};
use std::sync::Wait;

/// Answers a statement of a session's own. A put's row goes to the table as it is.
pub(crate) fn ask<R: Wait>(
    rt: &R,
    engine: &Engine,
    session: &mut Session,
    statement: Statement,
) -> Result<Reply, NoMemory>
    requires own { IsOf engine.now session.old }
    requires left { 0 < left_of session.old }
    requires may { MayAsk session.old statement }
    requires tables { IsOnTables (engine_sizes engine.now).tables statement }
    requires other { collector_asked statement ≡ None }
    ensures answers { IfOk result (λ reply.
        IsAnswered (engine_sizes engine.now) session.old statement reply session.new) }
    // out of memory: it looked, or a transaction of its own gave up
    ensures stopped { OnErr result (HasRunOut session.old session.new) }
    ensures left { left_of session.old ≤ left_of session.new + 1 }
    ensures number { number_of session.new ≡ number_of session.old }
    ensures own { IsOf engine.now session.new }
{
    let alone = !session.is_open();
    match statement {
        Statement::Begin(scope) => {
            let at = session.begin(engine, scope);
            Ok(inside(Answer::Begun(at)))
        }
        Statement::Get(rid) => get_reply(alone, session.get(rt, engine, rid)),
        Statement::Put(rid, row) => put_reply(alone, session.put(rt, engine, rid, row)),
        Statement::Del(rid) => del_reply(alone, session.del(rt, engine, rid)),
        Statement::Scan { table, low, high } => {
            scan_reply(alone, session.scan(rt, engine, table, low, high))
        }
        Statement::CursorOpen { table, low, high } => {
            let at = session.open_cursor(engine, table, low, high);
            Ok(inside(Answer::Begun(at)))
        }
        Statement::Fetch(most) => {
            let rows = session.fetch(rt, engine, most)?;
            Ok(inside(Answer::Rows(rows)))
        }
        Statement::CursorClose => {
            session.close_cursor(engine);
            Ok(inside(Answer::Ended))
        }
        Statement::Commit => {
            let ended = session.commit(rt, engine)?;
            Ok(commit_reply(ended))
        }
        Statement::Rollback => {
            session.rollback(rt, engine);
            Ok(inside(Answer::Undone))
        }
        Statement::Gc(_) => unreachable!(),
    }
}

/// A reply in a transaction.
pub(crate) fn inside(answer: Answer) -> Reply
    ensures { result ≡ session.inside answer }
{
    Reply {
        at: None,
        answer,
        number: None,
    }
}

// A statement that is a transaction of its own shows its snapshot.
fn shown(alone: bool, at: u64) -> Option<u64>
    ensures { result ≡ session.shown alone at }
{
    if alone { Some(at) } else { None }
}

fn row_answer(row: Option<Row>) -> Answer
    ensures { result ≡ session.row_answer row }
{
    match row {
        Some(row) => Answer::Found(row),
        None => Answer::Nothing,
    }
}

fn gone_answer(there: bool) -> Answer
    ensures { result ≡ session.gone_answer there }
{
    if there { Answer::Gone } else { Answer::Nothing }
}

pub(crate) fn get_reply(alone: bool, read: Result<Read, GetRefusal>) -> Result<Reply, NoMemory>
    ensures reply { IfOk result (λ reply. session.get_reply alone read ≡ Some reply) }
    ensures none { OnErr result (session.get_reply alone read ≡ None) }
{
    match read {
        Ok(read) => Ok(Reply {
            at: shown(alone, read.at),
            answer: row_answer(read.row),
            number: None,
        }),
        Err(GetRefusal::Undeclared { table }) => Ok(inside(Answer::Undeclared(table))),
        Err(GetRefusal::NoMemory) => Err(NoMemory),
    }
}

pub(crate) fn scan_reply(
    alone: bool,
    scanned: Result<Scanned, GetRefusal>,
) -> Result<Reply, NoMemory>
    ensures reply { IfOk result (λ reply. session.scan_reply alone scanned ≡ Some reply) }
    ensures none { OnErr result (session.scan_reply alone scanned ≡ None) }
{
    match scanned {
        Ok(scanned) => Ok(Reply {
            at: shown(alone, scanned.at),
            answer: Answer::Rows(scanned.rows),
            number: None,
        }),
        Err(GetRefusal::Undeclared { table }) => Ok(inside(Answer::Undeclared(table))),
        Err(GetRefusal::NoMemory) => Err(NoMemory),
    }
}

fn refused_reply(alone: bool, refusal: PutRefusal) -> Result<Reply, NoMemory>
    ensures reply { IfOk result (λ reply. session.refused_reply alone refusal ≡ Some reply) }
    ensures none { OnErr result (session.refused_reply alone refusal ≡ None) }
{
    match refusal {
        PutRefusal::Undeclared { table } => Ok(inside(Answer::Undeclared(table))),
        PutRefusal::Open {
            at,
            session,
            transaction,
        } => Ok(Reply {
            at: shown(alone, at),
            answer: Answer::OpenBy(Writer {
                session,
                transaction,
            }),
            number: None,
        }),
        PutRefusal::Newer { at, number } => Ok(Reply {
            at: shown(alone, at),
            answer: Answer::Newer(number),
            number: None,
        }),
        PutRefusal::NoMemory => Err(NoMemory),
    }
}

pub(crate) fn put_reply(
    alone: bool,
    written: Result<Written, PutRefusal>,
) -> Result<Reply, NoMemory>
    ensures reply { IfOk result (λ reply. session.put_reply alone written ≡ Some reply) }
    ensures none { OnErr result (session.put_reply alone written ≡ None) }
{
    match written {
        Ok(written) => Ok(Reply {
            at: shown(alone, written.at),
            answer: Answer::Stored,
            number: written.number,
        }),
        Err(refusal) => refused_reply(alone, refusal),
    }
}

pub(crate) fn del_reply(
    alone: bool,
    deleted: Result<Deleted, PutRefusal>,
) -> Result<Reply, NoMemory>
    ensures reply { IfOk result (λ reply. session.del_reply alone deleted ≡ Some reply) }
    ensures none { OnErr result (session.del_reply alone deleted ≡ None) }
{
    match deleted {
        Ok(deleted) => Ok(Reply {
            at: shown(alone, deleted.at),
            answer: gone_answer(deleted.there),
            number: deleted.number,
        }),
        Err(refusal) => refused_reply(alone, refusal),
    }
}

pub(crate) fn commit_reply(ended: Ended) -> Reply
    ensures { result ≡ session.inside (session.commit_answer (receipt_number ended.receipt)) }
{
    match ended.receipt {
        Some(receipt) => inside(Answer::Committed(receipt.number)),
        None => inside(Answer::Ended),
    }
}
