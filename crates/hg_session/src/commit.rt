//! How an open transaction is committed.

ghost use Rattle.std.specs.Prelude.{◌≡◌, [], is_some, Some, None, IfOk, IfSome, OnOk, OnErr};
ghost use Rattle.hg_base.specs.Replies.{is_written};
ghost use Rattle.hg_core.specs.Logs.{own_writes};
ghost use Rattle.hg_core.specs.Reading.{close};
ghost use Rattle.hg_session.specs.Sessions.{IsIn, view_of, log_of, seen_by, opened_of};
ghost use Rattle.hg_session.specs.Frames.{KeepsCounts};
ghost use Rattle.hg_session.specs.Gains.{Gains, HasPlace, IsAfter, receipt_number};

use crate::engine::Engine;
use crate::session::Session;
use hg_base::{NoMemory, Snapshot};
use hg_group::{OpenTx, Receipt, RidList};
use std::mem;
use std::sync::Wait;

// Commits the open transaction. One that wrote nothing has no receipt. A refusal leaves it open.
pub(crate) fn commit_open<R: Wait>(
    rt: &R,
    engine: &Engine,
    session: &mut Session,
    snapshot: Snapshot,
) -> Result<Option<Receipt>, NoMemory>
    requires own { IsIn engine.now 0 0 session.old }
    requires opened { opened_of session.old ≡ Some snapshot }
    ensures gains { IfOk result (λ receipt.
        Gains (view_of session.old) (close (receipt_number receipt)) (view_of session.new)) }
    // there is a receipt exactly if something was written
    ensures wrote { IfOk result
        (λ receipt. is_some receipt ≡ is_written (own_writes (log_of session.old))) }
    // the commit number is over all that was seen
    ensures after { IfOk result (λ receipt.
        IfSome (receipt_number receipt) (IsAfter (seen_by session.old) snapshot.at)) }
    // the receipt's place is the commit's, in a history that was seen
    ensures placed { IfOk result
        (λ receipt. IfSome receipt (HasPlace (view_of session.old) (view_of session.new))) }
    ensures closed { OnOk result (opened_of session.new ≡ None) }
    ensures refused { OnErr result (Gains (view_of session.old) [] (view_of session.new) ×
        (opened_of session.new ≡ opened_of session.old)) }
    ensures kept { KeepsCounts session.old session.new }
    ensures own { IsIn engine.now 0 0 session.new }
{
    if session.written.is_empty() {
        session.end(engine);
        return Ok(None);
    }
    let records = mem::replace(&mut session.written, RidList::new(session.alloc));
    let tx = OpenTx {
        writer: session.pass.writer(),
        snapshot,
        records,
    };
    match engine
        .groups()
        .commit(rt, engine.board(), engine.store(), tx, &mut session.pass)
    {
        Ok(receipt) => {
            engine.board().end(&mut session.pass);
            session.opened = None;
            Ok(Some(receipt))
        }
        Err((tx, refusal)) => {
            session.written = tx.records;
            Err(refusal)
        }
    }
}
