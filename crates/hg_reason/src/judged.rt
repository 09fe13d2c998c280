//! What is known of a printed line when it is judged, and how a reply is shown.

use crate::history::{History, Written};
use crate::shown::shown;
use crate::walk::{Said, Walk};
use hg_base::{Answer, Line, NoMemory, Reply, Rid, Row, RowList, TableId};
use hg_report::reply_text;
use hg_script::Script;
use std::alloc::Global;

/// A line, what those before it left, and what all say together.
#[derive(Clone, Copy)]
pub(crate) struct Judged<'a> {
    pub alloc: Global,
    pub script: &'a Script,
    pub history: &'a History,
    pub walk: &'a Walk,
    pub said: &'a Said<'a>,
    pub is_run: bool,
}

/// Where a transaction sees what is in a record.
#[derive(Clone, Copy)]
pub(crate) enum Sight<'a> {
    /// It stored that itself.
    Own(Option<&'a Row>),
    /// The commit of this number did.
    Commit(u64, Option<&'a Row>),
    Never,
}

impl<'a> Sight<'a> {
    pub(crate) fn row(self) -> Option<&'a Row> {
        match self {
            Sight::Own(row) | Sight::Commit(_, row) => row,
            Sight::Never => None,
        }
    }
}

// The bytes of the last record of a text, without its line feed.
fn last_record(text: &[u8], is_second: bool) -> &[u8] {
    let text = text.strip_suffix(b"\n").unwrap_or(text);
    if !is_second {
        return text;
    }
    match text.iter().position(|b| *b == b'\n') {
        Some(end) => text
            .get(end..)
            .and_then(|rest| rest.get(1..))
            .unwrap_or(text),
        None => text,
    }
}

impl<'a> Judged<'a> {
    /// What the line's transaction sees in a record.
    pub(crate) fn see(&self, rid: Rid) -> Sight<'a> {
        if let Some(row) = self.own(rid) {
            return Sight::Own(row.as_ref());
        }
        match self.history.last(rid, self.said.tx.at) {
            Some((number, written)) => Sight::Commit(number, written.row.as_ref()),
            None => Sight::Never,
        }
    }

    /// What the line's transaction stored of a record before.
    pub(crate) fn own(&self, rid: Rid) -> Option<&'a Option<Row>> {
        if self.said.alone {
            return None;
        }
        self.walk.stored(self.said.session)?.get(&rid)
    }

    /// Why it sees that.
    pub(crate) fn origin(&self, sight: Sight<'_>) -> Result<String, NoMemory> {
        let at = self.said.tx.at;
        Ok(match sight {
            Sight::Own(Some(_)) => format!(in self.alloc; "which its own transaction wrote")?,
            Sight::Own(None) => format!(in self.alloc;
                "since its own transaction deleted the row"
            )?,
            Sight::Commit(number, Some(_)) => format!(in self.alloc;
                "written by commit {number}, at snapshot {at}"
            )?,
            Sight::Commit(number, None) => format!(in self.alloc;
                "since commit {number} deleted the row, at snapshot {at}"
            )?,
            Sight::Never => format!(in self.alloc;
                "since no commit up to snapshot {at} wrote the row"
            )?,
        })
    }

    // The line's reply with this answer. A row is the second record of its own reply.
    fn text(&self, answer: Answer, is_row: bool) -> Result<String, NoMemory> {
        let stores = matches!(&answer, Answer::Stored | Answer::Gone);
        let line = Line {
            session: self.said.session,
            place: self.said.place,
            reply: Reply {
                at: if self.said.alone {
                    Some(self.said.tx.at)
                } else {
                    None
                },
                answer,
                number: if stores { self.said.reply.number } else { None },
            },
        };
        let mut text = Vec::new(self.alloc);
        reply_text(self.alloc, self.script, &line, &mut text)?;
        shown(self.alloc, last_record(&text, is_row))
    }

    /// The line's reply, if that is its answer.
    pub(crate) fn reply(&self, answer: Answer) -> Result<String, NoMemory> {
        self.text(answer, false)
    }

    /// The record of a row in the line's reply.
    pub(crate) fn row(&self, key: u64, row: &Row) -> Result<String, NoMemory> {
        let mut rows = RowList::from(Vec::new(self.alloc));
        rows.push(key, row.copy()?)?;
        self.text(Answer::Rows(rows), true)
    }

    /// The name of a table.
    pub(crate) fn table(&self, table: TableId) -> Result<String, NoMemory> {
        match self.script.tables().get(table.0 as usize) {
            Some(table) => shown(self.alloc, table.name()),
            None => shown(self.alloc, b"?"),
        }
    }
}
