//! Whether a reply is right: that of a table that never reclaims, and for a refused write one that shows its cause.

ghost use Rattle.std.specs.Prelude.{◌≡◌, ◌↔◌, ◌&&◌, List, Some, None, length, option_map, option_copied, is_some, IsTrue};
ghost use Rattle.hg_base.specs.declared.image.Image.{Image};
ghost use Rattle.hg_base.specs.declared.rid.Rid.{Rid};
ghost use Rattle.hg_base.specs.Script.{Mode};
ghost use Rattle.hg_base.specs.History.{History, seen};
ghost use Rattle.hg_base.specs.Transcript as script;
ghost use Rattle.hg_base.specs.Transcript.{history_of, own_writes};
ghost use Rattle.hg_base.specs.Replies.{IsAnswer, IsReply, IsBegun, IsGot, IsPut, IsDeleted, IsEnded, IsCommitted, IsUndone, IsCollected, IsScanned, IsUndeclared, is_written};
ghost use Rattle.hg_decide.specs.Audit.{IsRightReply};
ghost use Rattle.hg_known.specs.Lines.{HasRest, rest_of, said_of};
ghost use Rattle.hg_known.specs.Owned.{HasOwn};
ghost use Rattle.hg_known.specs.Ended.{AreOpenOwn, ForgetsOver};
ghost use Rattle.hg_known.specs.Written.{IsOfHistory};
ghost use Rattle.hg_audit.specs.Judged.{IsOf};
ghost use Rattle.hg_audit.specs.Known.{Knows, IsAsked, IsPart};

use crate::conflict::shows_conflict;
use crate::fault::Facts;
use crate::scan::{is_fetched, is_scanned};
use crate::shape::Command;
use hg_base::{Answer, Rid, Row, Statement, TableId};
use hg_known::{LEAST, Own, Rest, Said, Tx, Writes};

/// The row that a line's transaction sees of a record: its own last write, and else what its snapshot shows.
pub fn see<'a>(writes: &'a Writes, own: &'a Own, now: &Said, rid: Rid) -> Option<&'a Row>
    ensures { (h : History) (earlier : List script.Said) → IsOfHistory h writes.entry.now →
        HasOwn own.entry.now earlier (said_of now.now) →
        option_copied result ≡
        (seen h (own_writes earlier (said_of now.now)) now.now.at rid).row }
{
    let tx = Tx {
        session: now.session,
        number: now.transaction,
    };
    match own.image(tx, rid) {
        Some(image) => image.row.as_ref(),
        None => writes.visible(rid, now.at),
    }
}

pub fn is_row(seen: Option<&Row>, row: &Row) -> bool
    ensures { IsTrue result ↔ (option_copied seen.entry ≡ Some row.now) }
{
    match seen {
        Some(seen) => seen.same(row),
        None => false,
    }
}

fn is_begun(answer: &Answer) -> bool
    ensures { IsTrue result ↔ IsBegun answer.now }
{
    matches!(answer, Answer::Begun(_))
}

fn is_got(seen: Option<&Row>, answer: &Answer) -> bool
    ensures { (image : Image) → option_copied seen.entry ≡ image.row →
        (IsTrue result ↔ IsGot image answer.now) }
{
    match answer {
        Answer::Found(row) => is_row(seen, row),
        Answer::Nothing => seen.is_none(),
        _ => false,
    }
}

fn is_put(answer: &Answer) -> bool
    ensures { IsTrue result ↔ IsPut answer.now }
{
    matches!(
        answer,
        Answer::Stored | Answer::Newer(_) | Answer::OpenBy(_)
    )
}

fn is_deleted(seen: Option<&Row>, answer: &Answer) -> bool
    ensures { (image : Image) → option_copied seen.entry ≡ image.row →
        (IsTrue result ↔ IsDeleted image answer.now) }
{
    match answer {
        Answer::Nothing => seen.is_none(),
        Answer::Gone | Answer::Newer(_) | Answer::OpenBy(_) => seen.is_some(),
        _ => false,
    }
}

fn is_ended(answer: &Answer) -> bool
    ensures { IsTrue result ↔ IsEnded answer.now }
{
    matches!(answer, Answer::Ended)
}

fn is_committed(wrote: bool, answer: &Answer) -> bool
    ensures { IsTrue result ↔ IsCommitted wrote answer.now }
{
    match answer {
        Answer::Committed(_) => wrote,
        Answer::Ended => !wrote,
        _ => false,
    }
}

fn is_undone(answer: &Answer) -> bool
    ensures { IsTrue result ↔ IsUndone answer.now }
{
    matches!(answer, Answer::Undone)
}

fn is_collected(command: Command, session: u32, answer: &Answer) -> bool
    ensures { (mode : Mode) → IsOf command mode →
        (IsTrue result ↔ IsCollected mode session answer.now) }
{
    if matches!(command, Command::Run) && session != 0 {
        return matches!(answer, Answer::Beside);
    }
    matches!(answer, Answer::Swept(_))
}

fn is_undeclared(table: TableId, answer: &Answer) -> bool
    ensures { IsTrue result ↔ IsUndeclared table answer.now }
{
    match answer {
        Answer::Undeclared(other) => *other == table,
        _ => false,
    }
}

// Whether a line's transaction may name the table, which its statement names.
fn is_within(now: &Said, table: TableId) -> bool
    ensures { script.table_of now.now.statement ≡ Some table →
        result ≡ script.has (said_of now.now).scope table }
{
    now.alone || now.scope.has(table)
}

// Whether the transaction of a line stored anything before it.
fn wrote(own: &Own, now: &Said) -> bool
    ensures { (earlier : List script.Said) → HasOwn own.now earlier (said_of now.now) →
        result ≡ is_written (own_writes earlier (said_of now.now)) }
{
    let tx = Tx {
        session: now.session,
        number: now.transaction,
    };
    own.next(tx, LEAST).is_some()
}

fn is_stored(now: &Said) -> bool
    ensures { result ≡ is_some (script.stored (said_of now.now)) }
{
    matches!(
        (&now.statement, &now.reply.answer),
        (Statement::Put(..), Answer::Stored) | (Statement::Del(_), Answer::Gone)
    )
}

// Whether a commit number ends the reply.
fn is_numbered(now: &Said) -> bool
    ensures { result ≡ (now.now.alone && is_some (script.stored (said_of now.now))) }
{
    now.alone && is_stored(now)
}

fn is_scan(writes: &Writes, own: &Own, now: &Said, table: TableId, low: u64, high: u64) -> bool
    ensures { (h : History) (earlier : List script.Said) → IsOfHistory h writes.now →
        HasOwn own.now earlier (said_of now.now) →
        (IsTrue result ↔ IsScanned
        (λ key. seen h (own_writes earlier (said_of now.now)) now.now.at
        (record { table = table; key = key })) low high now.now.reply.now.answer) }
{
    let range = Rest {
        table,
        next: Some(low),
        high,
    };
    match &now.reply.answer {
        Answer::Rows(rows) => is_scanned(writes, own, now, range, rows.as_slice()),
        _ => false,
    }
}

// Whether the answer is the table's.
fn is_answer(command: Command, writes: &Writes, own: &Own, now: &Said) -> bool
    ensures { (mode : Mode) (h : History) (earlier : List script.Said) → IsOf command mode →
        IsOfHistory h writes.now → HasOwn own.now earlier (said_of now.now) →
        (IsTrue result ↔
        IsAnswer mode (seen h (own_writes earlier (said_of now.now)) now.now.at)
        (is_written (own_writes earlier (said_of now.now)))
        (option_map rest_of now.now.rest) (said_of now.now) now.now.statement) }
{
    let answer = &now.reply.answer;
    match &now.statement {
        Statement::Begin(_) => is_begun(answer),
        Statement::Get(rid) => {
            if !is_within(now, rid.table) {
                return is_undeclared(rid.table, answer);
            }
            is_got(see(writes, own, now, *rid), answer)
        }
        Statement::Put(rid, _) => {
            if !is_within(now, rid.table) {
                return is_undeclared(rid.table, answer);
            }
            is_put(answer)
        }
        Statement::Del(rid) => {
            if !is_within(now, rid.table) {
                return is_undeclared(rid.table, answer);
            }
            is_deleted(see(writes, own, now, *rid), answer)
        }
        Statement::Scan { table, low, high } => {
            if !is_within(now, *table) {
                return is_undeclared(*table, answer);
            }
            is_scan(writes, own, now, *table, *low, *high)
        }
        Statement::CursorOpen { .. } => is_begun(answer),
        Statement::Fetch(most) => is_fetched(writes, own, now, *most),
        Statement::CursorClose => is_ended(answer),
        Statement::Commit => is_committed(wrote(own, now), answer),
        Statement::Rollback => is_undone(answer),
        Statement::Gc(_) => is_collected(command, now.session, answer),
    }
}

// Whether a reply is that of a table that never reclaims, where so many groups are in the history.
fn is_reply(command: Command, writes: &Writes, groups: u64, own: &Own, now: &Said) -> bool
    ensures { (mode : Mode) (h : History) (earlier : List script.Said) → IsOf command mode →
        IsOfHistory h writes.now → length h ≡ groups →
        HasOwn own.now earlier (said_of now.now) → HasRest earlier now.now →
        (IsTrue result ↔ IsReply mode h earlier (said_of now.now)) }
{
    if now.reply.at.is_some() != now.alone {
        return false;
    }
    if now.reply.number.is_some() != is_numbered(now) {
        return false;
    }
    if now.at > groups {
        return false;
    }
    is_answer(command, writes, own, now)
}

/// Whether a line has the right reply, and shows the cause of a refused write.
pub fn is_answered(facts: &Facts, own: &Own, now: &Said) -> bool
    ensures { (mode : Mode) (all earlier : List script.Said) → IsOf facts.now.command mode →
        Knows (history_of all) all facts.now → IsAsked all (said_of now.now) →
        IsPart earlier all → HasOwn own.now earlier (said_of now.now) →
        HasRest earlier now.now → AreOpenOwn own.now earlier → ForgetsOver own.now earlier →
        (IsTrue result ↔ IsRightReply mode all earlier (said_of now.now)) }
{
    let past = facts.past;
    if !is_reply(facts.command, &past.writes, past.groups, own, now) {
        return false;
    }
    shows_conflict(facts, own, now)
}
