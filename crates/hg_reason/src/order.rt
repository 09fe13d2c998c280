//! Records that come too early or too late.

use crate::before::{Before, Refused, State};
use crate::finding::Finding;
use crate::form::{Form, field};
use hg_base::{NoMemory, read_natural};
use std::alloc::Global;

// A table record after a session's.
fn late_table(alloc: Global, before: &Before) -> Result<Finding, NoMemory> {
    let line = before.started().unwrap_or(0);
    Finding::at(
        0,
        format!(in alloc;
            "tables are declared before the first session's record, which is on line {line}"
        )?,
    )
}

// What the session has open, or has not open, that its statement may not come now.
fn state_text(alloc: Global, session: u64, state: State, form: Form) -> Result<String, NoMemory> {
    let asks_for_cursor = form == Form::Fetch || form == Form::Close;
    Ok(match state {
        State::Within(line) if asks_for_cursor => format!(in alloc;
            "session {session} has no cursor open; it is in a transaction since line {line}"
        )?,
        State::Within(line) => format!(in alloc;
            "session {session} is in a transaction since line {line}"
        )?,
        State::Reading(line) => format!(in alloc;
            "session {session} has a cursor open since line {line}, and until its close there can be only fetch, close and gc"
        )?,
        State::Closed(line) if asks_for_cursor => format!(in alloc;
            "session {session} has no cursor open since line {line}"
        )?,
        State::Ended(line) if !asks_for_cursor => format!(in alloc;
            "session {session} is in no transaction since line {line}"
        )?,
        _ if asks_for_cursor => format!(in alloc; "session {session} has no cursor open")?,
        _ => format!(in alloc; "session {session} is in no transaction")?,
    })
}

/// A record that may not come after those before it.
pub(crate) fn explain_order(
    alloc: Global,
    refused: &Refused<'_>,
    form: Form,
) -> Result<Finding, NoMemory> {
    if form == Form::Table {
        return late_table(alloc, &refused.before);
    }
    let session = read_natural(field(&refused.row, 0)).value();
    let state = refused.before.state(session);
    Finding::at(1, state_text(alloc, session, state, form)?)
}
