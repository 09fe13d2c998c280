//! Why a reply is wrong, and what a sound one would be.

use crate::judged::Judged;
use crate::rows::explain_rows;
use hg_base::{Answer, NoMemory, Rid, Statement, TableId};

fn is_stored(judged: &Judged<'_>) -> bool {
    matches!(
        (&judged.said.statement, &judged.said.reply.answer),
        (Statement::Put(..), Answer::Stored) | (Statement::Del(_), Answer::Gone)
    )
}

// A sound reply, and why.
fn sound(judged: &Judged<'_>, answer: Answer, since: &str) -> Result<String, NoMemory> {
    let reply = judged.reply(answer)?;
    Ok(format!(in judged.alloc; "a sound reply is {reply}, {since}")?)
}

fn table_of(statement: &Statement) -> Option<TableId> {
    match statement {
        Statement::Get(rid) | Statement::Put(rid, _) | Statement::Del(rid) => Some(rid.table),
        Statement::Scan { table, .. } => Some(*table),
        _ => None,
    }
}

// Why the fields before and after the answer are wrong, if they are.
fn explain_form(judged: &Judged<'_>) -> Result<Option<String>, NoMemory> {
    let said = judged.said;
    let (alloc, at, groups) = (judged.alloc, said.tx.at, judged.history.groups);
    if said.reply.at.is_some() && !said.alone {
        return Ok(Some(format!(in alloc; "a reply in a transaction has no field at")?));
    }
    if said.reply.at.is_none() && said.alone {
        return Ok(Some(format!(in alloc;
            "a reply outside of a transaction begins with at and its snapshot"
        )?));
    }
    let is_numbered = said.alone && is_stored(judged);
    if said.reply.number.is_none() && is_numbered {
        return Ok(Some(format!(in alloc;
            "a write outside of a transaction ends with committed and its number"
        )?));
    }
    if said.reply.number.is_some() && !is_numbered {
        return Ok(Some(format!(in alloc;
            "only a write outside of a transaction ends with committed and its number"
        )?));
    }
    if at > groups {
        return Ok(Some(format!(in alloc;
            "its snapshot is {at}, and the greatest commit number of the text is {groups}"
        )?));
    }
    Ok(None)
}

// Why a refusal for a conflict is wrong.
fn explain_conflict(judged: &Judged<'_>, rid: Rid) -> Result<String, NoMemory> {
    let (alloc, at, key) = (judged.alloc, judged.said.tx.at, rid.key);
    let table = judged.table(rid.table)?;
    if judged.own(rid).is_some() {
        return Ok(format!(in alloc;
            "its own transaction has written key {key} of table {table}, so it is not refused"
        )?);
    }
    Ok(match &judged.said.reply.answer {
        Answer::Newer(number) => format!(in alloc;
            "no commit {number} after snapshot {at} wrote key {key} of table {table}"
        )?,
        Answer::OpenBy(writer) => {
            let (session, transaction) = (writer.session, writer.transaction);
            format!(in alloc;
                "transaction {transaction} of session {session} has no open write of key {key} of table {table}"
            )?
        }
        _ => format!(in alloc; "a refusal shows its cause")?,
    })
}

fn is_conflict(judged: &Judged<'_>) -> bool {
    matches!(
        &judged.said.reply.answer,
        Answer::Newer(_) | Answer::OpenBy(_)
    )
}

fn explain_get(judged: &Judged<'_>, rid: Rid) -> Result<String, NoMemory> {
    let sight = judged.see(rid);
    let origin = judged.origin(sight)?;
    let answer = match sight.row() {
        Some(row) => Answer::Found(row.copy()?),
        None => Answer::Nothing,
    };
    sound(judged, answer, origin.as_str())
}

fn explain_put(judged: &Judged<'_>, rid: Rid) -> Result<String, NoMemory> {
    if is_conflict(judged) {
        return explain_conflict(judged, rid);
    }
    sound(judged, Answer::Stored, "or a refusal that shows its cause")
}

fn explain_del(judged: &Judged<'_>, rid: Rid) -> Result<String, NoMemory> {
    let sight = judged.see(rid);
    if sight.row().is_some() && is_conflict(judged) {
        return explain_conflict(judged, rid);
    }
    let origin = judged.origin(sight)?;
    let answer = if sight.row().is_some() {
        Answer::Gone
    } else {
        Answer::Nothing
    };
    sound(judged, answer, origin.as_str())
}

fn explain_commit(judged: &Judged<'_>) -> Result<String, NoMemory> {
    let session = judged.said.session;
    let wrote = judged
        .walk
        .stored(session)
        .map_or(false, |stored| !stored.is_empty());
    if wrote {
        return Ok(format!(in judged.alloc;
            "a sound reply is committed with a number, since its transaction wrote"
        )?);
    }
    sound(judged, Answer::Ended, "since its transaction wrote nothing")
}

fn explain_gc(judged: &Judged<'_>) -> Result<String, NoMemory> {
    if judged.is_run {
        return sound(judged, Answer::Beside, "as in each run");
    }
    Ok(format!(in judged.alloc; "a sound reply is a report, which begins with swept")?)
}

/// Why the reply of a line is wrong.
pub(crate) fn explain_reply(judged: &Judged<'_>) -> Result<String, NoMemory> {
    if let Some(why) = explain_form(judged)? {
        return Ok(why);
    }
    let said = judged.said;
    if let Some(table) = table_of(&said.statement) {
        if !said.alone && !said.tx.scope.has(table) {
            return sound(
                judged,
                Answer::Undeclared(table),
                "since its transaction did not declare the table",
            );
        }
    }
    match &said.statement {
        Statement::Begin(_) | Statement::CursorOpen { .. } => Ok(format!(in judged.alloc;
            "a sound reply is begun with a snapshot"
        )?),
        Statement::Get(rid) => explain_get(judged, *rid),
        Statement::Put(rid, _) => explain_put(judged, *rid),
        Statement::Del(rid) => explain_del(judged, *rid),
        Statement::Scan { .. } | Statement::Fetch(_) => explain_rows(judged),
        Statement::Commit => explain_commit(judged),
        Statement::CursorClose => sound(judged, Answer::Ended, "as to each close"),
        Statement::Rollback => sound(judged, Answer::Undone, "as to each rollback"),
        Statement::Gc(_) => explain_gc(judged),
    }
}
