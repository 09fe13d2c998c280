//! What the records before the refused one declared and opened.

use crate::spot::Spot;
use csv::{ByteRecord, Reader, ReaderBuilder};
use hg_base::{MOST_SESSIONS, NoMemory, Statement};
use hg_script::{Judge, Judged, Table};
use std::alloc::Global;

/// What a session has open, and since which line, or since when it has nothing open.
#[derive(Clone, Copy)]
pub(crate) enum State {
    Fresh,
    /// In a transaction.
    Within(u64),
    /// With a cursor.
    Reading(u64),
    Ended(u64),
    Closed(u64),
}

#[derive(Drop)]
pub(crate) struct Before {
    judge: Judge,
    version: u8,
    // the lines of the table records
    declared: Vec<u64>,
    // the line of the first record of a session
    started: Option<u64>,
    states: [State; MOST_SESSIONS as usize + 1],
}

/// The refused record, what came before it, and the bytes of its first line.
#[derive(Drop)]
pub(crate) struct Refused<'a> {
    pub before: Before,
    pub row: ByteRecord,
    pub spot: Spot<'a>,
}

fn state_after(state: State, line: u64, statement: &Statement) -> State {
    match statement {
        Statement::Begin(_) => State::Within(line),
        Statement::CursorOpen { .. } => State::Reading(line),
        Statement::Commit | Statement::Rollback => State::Ended(line),
        Statement::CursorClose => State::Closed(line),
        _ => state,
    }
}

impl Before {
    fn new(alloc: Global) -> Before {
        Before {
            judge: Judge::new(alloc),
            version: 1,
            declared: Vec::new(alloc),
            started: None,
            states: [State::Fresh; MOST_SESSIONS as usize + 1],
        }
    }

    /// 1 or 2.
    pub(crate) fn version(&self) -> u8 {
        self.version
    }

    pub(crate) fn tables(&self) -> &[Table] {
        self.judge.tables()
    }

    /// The table of this name, and the line of its record.
    pub(crate) fn table(&self, name: &[u8]) -> Option<(&Table, u64)> {
        for (table, line) in self.tables().iter().zip(self.declared.iter()) {
            if table.name() == name {
                return Some((table, *line));
            }
        }
        None
    }

    /// The line of the first record of a session.
    pub(crate) fn started(&self) -> Option<u64> {
        self.started
    }

    pub(crate) fn state(&self, session: u64) -> State {
        self.states
            .get(session as usize)
            .copied()
            .unwrap_or(State::Fresh)
    }

    // Notes a record that breaks no rule.
    fn add(
        &mut self,
        alloc: Global,
        place: u64,
        line: u64,
        row: &ByteRecord,
    ) -> Result<(), NoMemory> {
        match self.judge.hear(alloc, place, row)? {
            Judged::Declared if self.tables().len() > self.declared.len() => self
                .declared
                .push(line)?,
            Judged::Declared => self.version = 2,
            Judged::Asked { session, statement } => {
                self.started = self.started.or(Some(line));
                if let Some(state) = self.states.get_mut(session as usize) {
                    *state = state_after(*state, line, &statement);
                }
            }
            Judged::Broken(_) => {}
        }
        Ok(())
    }
}

// Reads the next record into the row.
fn read_row(reader: &mut Reader<&[u8]>, row: &mut ByteRecord) -> Result<bool, NoMemory> {
    match reader.read_byte_record(row) {
        Ok(found) => Ok(found),
        Err(_) => Err(NoMemory),
    }
}

/// Reads a script up to its record at this place, counted from 1. It is none if there are fewer.
pub(crate) fn read_refused(
    alloc: Global,
    bytes: &[u8],
    place: u64,
) -> Result<Option<Refused<'_>>, NoMemory> {
    let mut reader = ReaderBuilder::new()
        .has_headers(false)
        .flexible(true)
        .from_reader(alloc, bytes);
    let mut before = Before::new(alloc);
    let mut row = ByteRecord::new(alloc);
    let mut spot = Spot::new(bytes);
    for at in 1..place {
        if !read_row(&mut reader, &mut row)? {
            return Ok(None);
        }
        spot.go_to(&row);
        before.add(alloc, at, spot.line(), &row)?;
    }
    if !read_row(&mut reader, &mut row)? {
        return Ok(None);
    }
    spot.go_to(&row);
    Ok(Some(Refused { before, row, spot }))
}
