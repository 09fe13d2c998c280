//! Why an audit finds a text unsound.

use crate::answered::{
    Input, Output, answered_text, asked_text, first_out_of_shape, line_at, order_of, told,
};
use crate::commits::{explain_clash, explain_totals};
use crate::fresh::{Numbers, explain_fresh};
use crate::history::{History, read_history};
use crate::judged::Judged;
use crate::output::{forms_of, nth_record, place_in};
use crate::reason::Reason;
use crate::replies::explain_reply;
use crate::walk::Walk;
use hg_audit::{Verdict, Why, audit};
use hg_base::NoMemory;
use hg_report::read_text;
use hg_script::read_script;
use hg_streams::part;
use std::alloc::Global;

// What is wrong with a line, after those before it.
fn explain_judged(
    judged: &Judged<'_>,
    numbers: &Numbers,
    why: Why,
) -> Result<Option<String>, NoMemory> {
    if why == Why::Fresh {
        return explain_fresh(judged, numbers);
    }
    Ok(Some(explain_reply(judged)?))
}

// Why the line that begins at this record is wrong.
fn explain_line(
    output: &Output<'_>,
    history: &History,
    record: u64,
    why: Why,
) -> Result<Option<Reason>, NoMemory> {
    let alloc = output.input.alloc;
    let Some(at) = line_at(output.lines, record) else {
        return Ok(None);
    };
    let mut walk = Walk::new(alloc)?;
    let mut numbers = Numbers::new(alloc);
    for (k, line) in output.lines.iter().enumerate() {
        if k >= output.order.len() {
            return Ok(None);
        }
        let asked = output.order.record(k)?;
        if k < at {
            let said = walk.said(asked, line);
            numbers.add(&said)?;
            walk.keep(alloc, &said)?;
            continue;
        }
        let to = answered_text(&output.input, &asked)?;
        let said = walk.said(asked, line);
        let judged = Judged {
            alloc,
            script: output.input.script,
            history,
            walk: &walk,
            said: &said,
            is_run: output.is_run,
        };
        return match explain_judged(&judged, &numbers, why)? {
            Some(text) => told(&output.input, record, to.as_str(), text.as_str()),
            None => Ok(None),
        };
    }
    Ok(None)
}

// The record whose reply has to come where another line does.
fn explain_shape(output: &Output<'_>, record: u64) -> Result<Option<Reason>, NoMemory> {
    let input = &output.input;
    let Some(at) = first_out_of_shape(&output.order, output.lines)? else {
        return Ok(None);
    };
    if at >= output.order.len() {
        return told(
            input,
            record,
            "",
            "each record of the script has its reply, so the totals come here",
        );
    }
    let asked = output.order.record(at)?;
    let (session, place) = (asked.session, asked.place);
    let to = answered_text(input, &asked)?;
    let forms = forms_of(&asked.statement);
    let why = format!(in input.alloc;
        "what comes here is the reply to {to}, {session},{place} and then {forms}"
    )?;
    told(input, record, "", why.as_str())
}

// What a record of the text that cannot be there would be.
fn explain_text(input: &Input<'_>, record: u64) -> Result<Option<Reason>, NoMemory> {
    let bytes = nth_record(input.text, record);
    if bytes.is_empty() {
        return told(
            input,
            record,
            "",
            "the text ends before its six totals, or has an empty line",
        );
    }
    if bytes.starts_with(b"total,") {
        return told(
            input,
            record,
            "",
            "the text ends with total,made, undone, group, table, interval and left, each with its number",
        );
    }
    let before = input.script.records_before() as u64;
    let index = place_in(bytes)
        .and_then(|place| place.checked_sub(before))
        .and_then(|place| place.checked_sub(1));
    match index {
        Some(index) if index < input.script.record_count() as u64 => {
            let asked = input.script.record(index as usize)?;
            let to = answered_text(input, &asked)?;
            let (session, place) = (asked.session, asked.place);
            let forms = forms_of(&asked.statement);
            let why = format!(in input.alloc; "its reply is {session},{place} and then {forms}")?;
            told(input, record, to.as_str(), why.as_str())
        }
        _ => told(
            input,
            record,
            "",
            "a reply begins with the session and the place of its record",
        ),
    }
}

// What is wrong with the numbers of commits.
fn explain_commits(
    output: &Output<'_>,
    history: &History,
    record: u64,
) -> Result<Option<Reason>, NoMemory> {
    let input = &output.input;
    let Some((place, clash)) = history.clash else {
        return Ok(None);
    };
    let why = explain_clash(input.alloc, input.script, clash)?;
    match asked_text(input, place)? {
        Some(to) => {
            let why = format!(in input.alloc; "of the commit of {to}: {why}")?;
            told(input, record, "", why.as_str())
        }
        None => told(input, record, "", why.as_str()),
    }
}

// The same of lines that were read.
fn explain_output(output: &Output<'_>, record: u64, why: Why) -> Result<Option<Reason>, NoMemory> {
    if why == Why::Shape {
        return explain_shape(output, record);
    }
    let history = read_history(output.input.alloc, &output.order, output.lines)?;
    match why {
        Why::Commits => explain_commits(output, &history, record),
        Why::Totals => {
            let text = explain_totals(output.input.alloc, &history)?;
            told(&output.input, record, "", text.as_str())
        }
        _ => explain_line(output, &history, record, why),
    }
}

/// Why the text after the script in these bytes is unsound.
pub(crate) fn explain_verdict(alloc: Global, bytes: &[u8]) -> Result<Option<Reason>, NoMemory> {
    let (head, text) = part(bytes);
    let Ok(script) = read_script(alloc, head) else {
        return Ok(None);
    };
    let Verdict::Unsound { line, why } = audit(alloc, &script, text)? else {
        return Ok(None);
    };
    let input = Input {
        alloc,
        head,
        script: &script,
        text,
    };
    if why == Why::Text {
        return explain_text(&input, line);
    }
    let Ok(printed) = read_text(alloc, &script, text) else {
        return Ok(None);
    };
    let lines = printed.lines.as_slice();
    let (order, is_run) = order_of(&input, lines)?;
    explain_output(
        &Output {
            input,
            order,
            is_run,
            lines,
        },
        line,
        why,
    )
}
