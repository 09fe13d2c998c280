//! Why a number is not in order with those before it.

use crate::judged::Judged;
use crate::walk::{Said, committed, snapshot_of};
use hg_base::{Answer, Kind, MOST_SESSIONS, NoMemory, Statement, Sweep, Told};
use std::alloc::Global;
use std::collections::BTreeSet;
use std::fmt::Write;

/// The numbers that were printed before a line.
#[derive(Drop)]
pub(crate) struct Numbers {
    // the greatest that each session printed
    heard: [u64; MOST_SESSIONS as usize + 1],
    committed: BTreeSet<u64>,
    newest: u64,
    marks: [u64; 3],
}

fn place_of(kind: Kind) -> usize {
    match kind {
        Kind::Group => 0,
        Kind::Table => 1,
        Kind::Interval => 2,
    }
}

/// The collector's name.
pub(crate) fn name_of(kind: Kind) -> &'static str {
    match kind {
        Kind::Group => "group",
        Kind::Table => "table",
        Kind::Interval => "interval",
    }
}

fn newer_of(said: &Said<'_>) -> Option<u64> {
    match &said.reply.answer {
        Answer::Newer(number) => Some(*number),
        _ => None,
    }
}

impl Numbers {
    pub(crate) fn new(alloc: Global) -> Numbers {
        Numbers {
            heard: [0; MOST_SESSIONS as usize + 1],
            committed: BTreeSet::new(alloc),
            newest: 0,
            marks: [0; 3],
        }
    }

    /// Keeps the numbers of a line.
    pub(crate) fn add(&mut self, said: &Said<'_>) -> Result<(), NoMemory> {
        let number = committed(said);
        let heard = [number, snapshot_of(said), newer_of(said)];
        if let Some(most) = self.heard.get_mut(said.session as usize) {
            for number in heard.iter().flatten() {
                *most = (*most).max(*number);
            }
        }
        if let Some(number) = number {
            self.committed.insert(number)?;
            self.newest = self.newest.max(number);
        }
        if let Answer::Swept(sweep) = &said.reply.answer {
            if let Some(mark) = self.marks.get_mut(place_of(sweep.kind)) {
                *mark = (*mark).max(sweep.mark);
            }
        }
        Ok(())
    }

    fn heard(&self, session: u32) -> u64 {
        self.heard.get(session as usize).copied().unwrap_or(0)
    }

    fn mark(&self, kind: Kind) -> u64 {
        self.marks.get(place_of(kind)).copied().unwrap_or(0)
    }
}

// The snapshots of the transactions that are open, by session.
fn open_text(judged: &Judged<'_>) -> Result<String, NoMemory> {
    let mut text = String::new(judged.alloc);
    for session in 1..MOST_SESSIONS + 1 {
        let tx = judged.walk.tx(session);
        if tx.is_open {
            let at = tx.at;
            if !text.is_empty() {
                text.push_str(" and ")?;
            }
            write!(text, "held,{session},{at}")?;
        }
    }
    Ok(text)
}

fn are_open(judged: &Judged<'_>, held: &[Told]) -> bool {
    let mut count = 0usize;
    for session in 1..MOST_SESSIONS + 1 {
        let tx = judged.walk.tx(session);
        if !tx.is_open {
            continue;
        }
        match held.get(count) {
            Some(told) if told.session == session && told.number == tx.at => {}
            _ => return false,
        }
        count = count.saturating_add(1);
    }
    count == held.len()
}

// What a replay asks of a report besides.
fn explain_replayed(
    judged: &Judged<'_>,
    numbers: &Numbers,
    sweep: &Sweep,
) -> Result<Option<String>, NoMemory> {
    let (alloc, newest) = (judged.alloc, numbers.newest);
    if let Statement::Gc(kind) = &judged.said.statement {
        if *kind != sweep.kind {
            let name = name_of(*kind);
            return Ok(Some(format!(in alloc;
                "a sound report is of the collector that is asked for, {name}"
            )?));
        }
    }
    if sweep.mark != newest {
        return Ok(Some(format!(in alloc;
            "its mark is {newest}, the newest commit number before it"
        )?));
    }
    if sweep.horizon != sweep.mark {
        return Ok(Some(format!(in alloc; "its horizon is {newest}, as its mark is")?));
    }
    if are_open(judged, sweep.held.as_slice()) {
        return Ok(None);
    }
    let open = open_text(judged)?;
    if open.is_empty() {
        return Ok(Some(format!(in alloc; "no transaction is open, so it has no held record")?));
    }
    Ok(Some(format!(in alloc; "its held records are those of the open transactions, {open}")?))
}

// Why held snapshots are wrong.
fn explain_held(judged: &Judged<'_>, held: &[Told]) -> Result<Option<String>, NoMemory> {
    let mut least = 0u32;
    for told in held {
        let (session, number) = (told.session, told.number);
        if session < least {
            return Ok(Some(format!(in judged.alloc; "its held records ascend by session")?));
        }
        if !judged.history.printed.contains(&(session, number)) {
            return Ok(Some(format!(in judged.alloc;
                "session {session} printed no snapshot {number}"
            )?));
        }
        if told.moved && !judged.history.declared.contains(&(session, number)) {
            return Ok(Some(format!(in judged.alloc;
                "no transaction of session {session} at snapshot {number} declared its tables, so it is unmoved"
            )?));
        }
        least = session.saturating_add(1);
    }
    Ok(None)
}

// Why a report's numbers are wrong.
fn explain_report(
    judged: &Judged<'_>,
    numbers: &Numbers,
    sweep: &Sweep,
) -> Result<Option<String>, NoMemory> {
    let (mark, groups) = (numbers.mark(sweep.kind), judged.history.groups);
    if mark > sweep.mark {
        return Ok(Some(format!(in judged.alloc;
            "its mark is at least {mark}, which its collector reported before"
        )?));
    }
    if sweep.horizon > sweep.mark {
        return Ok(Some(format!(in judged.alloc; "its horizon is at most its mark")?));
    }
    if sweep.mark > groups {
        return Ok(Some(format!(in judged.alloc;
            "its mark is at most {groups}, the greatest commit number of the text"
        )?));
    }
    explain_held(judged, sweep.held.as_slice())
}

// Why the numbers of a line of a replay are wrong.
fn explain_exact(judged: &Judged<'_>, numbers: &Numbers) -> Result<Option<String>, NoMemory> {
    let newest = numbers.newest;
    if let Some(at) = snapshot_of(judged.said) {
        if at != newest {
            return Ok(Some(format!(in judged.alloc;
                "its snapshot is {newest}, the newest commit number before it"
            )?));
        }
    }
    if let Some(number) = newer_of(judged.said) {
        if !numbers.committed.contains(&number) {
            return Ok(Some(format!(in judged.alloc; "no commit {number} was printed before it")?));
        }
    }
    match &judged.said.reply.answer {
        Answer::Swept(sweep) => explain_replayed(judged, numbers, sweep),
        _ => Ok(None),
    }
}

/// Why a line is not in order with those before it.
pub(crate) fn explain_fresh(
    judged: &Judged<'_>,
    numbers: &Numbers,
) -> Result<Option<String>, NoMemory> {
    let session = judged.said.session;
    let heard = numbers.heard(session);
    if let Some(at) = snapshot_of(judged.said) {
        if at < heard {
            return Ok(Some(format!(in judged.alloc;
                "its snapshot is at least {heard}, which session {session} printed before"
            )?));
        }
    }
    if !judged.is_run {
        if let Some(why) = explain_exact(judged, numbers)? {
            return Ok(Some(why));
        }
    }
    match &judged.said.reply.answer {
        Answer::Swept(sweep) => explain_report(judged, numbers, sweep),
        _ => Ok(None),
    }
}
