//! The input of an audit, and what its text answers.

use crate::before::read_refused;
use crate::fresh::name_of;
use crate::output::nth_record;
use crate::reason::Reason;
use crate::shown::shown;
use hg_base::{Answer, Line, NoMemory, Record, Statement};
use hg_known::Sequence;
use hg_script::Script;
use std::alloc::Global;

/// The parts of an audit's input.
#[derive(Clone, Copy)]
pub(crate) struct Input<'a> {
    pub(crate) alloc: Global,
    // the bytes of the script
    pub(crate) head: &'a [u8],
    pub(crate) script: &'a Script,
    pub(crate) text: &'a [u8],
}

/// The lines of the text, and the records that they answer, as a run's or a replay's.
#[derive(Drop)]
pub(crate) struct Output<'a> {
    pub(crate) input: Input<'a>,
    pub(crate) order: Sequence<'a>,
    pub(crate) is_run: bool,
    pub(crate) lines: &'a [Line],
}

// Whether a session's record is answered by a report, as only a replay prints it.
fn has_session_report(lines: &[Line]) -> bool {
    lines.iter().any(|line| line.session != 0 && matches!(&line.reply.answer, Answer::Swept(_)))
}

// Whether a line can be the report of a round.
fn is_report(asked: &Record, line: &Line) -> bool {
    match (&asked.statement, &line.reply.answer) {
        (Statement::Gc(kind), Answer::Swept(sweep)) => *kind == sweep.kind,
        _ => false,
    }
}

fn is_line_of(asked: &Record, line: &Line) -> bool {
    line.session == asked.session
        && line.place == asked.place
        && (asked.session != 0 || is_report(asked, line))
}

/// The first line that is not that of its record, or that is missing or one too many.
pub(crate) fn first_out_of_shape(
    order: &Sequence<'_>,
    lines: &[Line],
) -> Result<Option<usize>, NoMemory> {
    let count = order.len().min(lines.len());
    for (k, line) in lines.iter().enumerate() {
        if k < count && !is_line_of(&order.record(k)?, line) {
            return Ok(Some(k));
        }
    }
    Ok(if order.len() == lines.len() {
        None
    } else {
        Some(count)
    })
}

/// The records that the lines answer, and whether they are judged as those of a run.
pub(crate) fn order_of<'a>(
    input: &Input<'a>,
    lines: &[Line],
) -> Result<(Sequence<'a>, bool), NoMemory> {
    if !has_session_report(lines) {
        if let Some(order) = Sequence::of_run(input.alloc, input.script, lines.len())? {
            if first_out_of_shape(&order, lines)?.is_none() {
                return Ok((order, true));
            }
        }
    }
    Ok((Sequence::of_replay(input.alloc, input.script), false))
}

// How many records of the text a line has.
fn count_records(line: &Line) -> u64 {
    let more = match &line.reply.answer {
        Answer::Rows(rows) => rows.as_slice().len() as u64,
        Answer::Swept(sweep) => sweep.held.as_slice().len() as u64,
        _ => 0,
    };
    more.saturating_add(1)
}

/// The line that begins at this record of the text.
pub(crate) fn line_at(lines: &[Line], record: u64) -> Option<usize> {
    let mut first = 1u64;
    for (k, line) in lines.iter().enumerate() {
        if first >= record {
            return (first == record).then_some(k);
        }
        first = first.saturating_add(count_records(line));
    }
    None
}

/// A record of the script, by its place: its line, and its bytes. Places are counted from 1.
pub(crate) fn asked_text(input: &Input<'_>, place: u64) -> Result<Option<String>, NoMemory> {
    if place == 0 {
        return Ok(None);
    }
    let Some(found) = read_refused(input.alloc, input.head, place)? else {
        return Ok(None);
    };
    let line = found.spot.line();
    let what = shown(input.alloc, found.spot.text())?;
    Ok(Some(format!(in input.alloc; "line {line} ({what})")?))
}

/// The same of the record that a line answers, or the round.
pub(crate) fn answered_text(input: &Input<'_>, asked: &Record) -> Result<String, NoMemory> {
    if let (0, Statement::Gc(kind)) = (asked.session, &asked.statement) {
        let (place, name) = (asked.place, name_of(*kind));
        return Ok(format!(in input.alloc; "round {place} of the {name} collector")?);
    }
    match asked_text(input, asked.place)? {
        Some(text) => Ok(text),
        None => Ok(String::new(input.alloc)),
    }
}

/// The record of the text that shows what fails, and why.
pub(crate) fn told(
    input: &Input<'_>,
    record: u64,
    asked: &str,
    why: &str,
) -> Result<Option<Reason>, NoMemory> {
    let what = shown(input.alloc, nth_record(input.text, record))?;
    let text = if asked.is_empty() {
        format!(in input.alloc; "output record {record} ({what}): {why}")?
    } else {
        format!(in input.alloc; "output record {record} ({what}), to {asked}: {why}")?
    };
    Ok(Some(Reason::new(input.alloc, text.as_str())?))
}
