//! How far a reader has come.

ghost use Rattle.std.specs.Prelude.{◌≡◌, ℕ, ◌<◌, ◌∷◌, ◌++◌, [], IfOk, OnOk};
ghost use Rattle.hg_report.specs.Fields.{fields_of};
ghost use Rattle.hg_report.specs.Progress.{after, at_start, guess_after, lines_of, totals_of, with_held, with_row, with_total};
ghost use Rattle.hg_report.specs.declared.progress.Open.TheVariants as opens;
ghost use Rattle.hg_transcript.specs.declared.piece.Piece.TheVariants as pieces;

use crate::fields::{natural_at, says};
use crate::guess::{first_guess, held_guess, row_guess};
use hg_base::{
    Answer, Line, LineList, NoMemory, Reply, Row, RowList, Sweep, TableId, Told, Totals,
};
use hg_script::Script;
use hg_transcript::Piece;
use std::alloc::Global;
use std::mem;

/// The line, or the totals, whose records may go on.
#[derive(Drop)]
pub enum Open {
    Nothing,
    /// A scan, of which so many rows are to come.
    Scan {
        session: u32,
        place: u64,
        at: Option<u64>,
        table: TableId,
        left: u64,
        rows: RowList,
    },
    /// A report, of which any number of held snapshots may come.
    Sweep {
        session: u32,
        place: u64,
        sweep: Sweep,
    },
    /// The totals, of which so many have come.
    Totals {
        index: u8,
        totals: Totals,
    },
}

/// The lines that are whole, and what may go on.
#[derive(Drop)]
pub struct Progress {
    pub(crate) lines: LineList,
    pub(crate) last: Open,
}

fn with_total(index: u8, number: u64, totals: Totals) -> Totals
    ensures { result ≡ with_total index number totals }
{
    match index {
        0 => Totals {
            made: number,
            ..totals
        },
        1 => Totals {
            undone: number,
            ..totals
        },
        2 => Totals {
            group: number,
            ..totals
        },
        3 => Totals {
            table: number,
            ..totals
        },
        4 => Totals {
            interval: number,
            ..totals
        },
        _ => Totals {
            left: number,
            ..totals
        },
    }
}

impl Open {
    fn totals(&self) -> Totals
        ensures { result ≡ totals_of self.now }
    {
        match self {
            Open::Totals { totals, .. } => *totals,
            _ => Totals {
                made: 0,
                undone: 0,
                group: 0,
                table: 0,
                interval: 0,
                left: 0,
            },
        }
    }

    fn add_row(&mut self, key: u64, row: Row) -> Result<(), NoMemory>
        ensures { OnOk result (self.new ≡ with_row self.old (key, row)) }
    {
        match self {
            Open::Scan { left, rows, .. } => {
                *left = left.saturating_sub(1);
                rows.push(key, row)
            }
            _ => Ok(()),
        }
    }

    fn add_held(&mut self, told: Told) -> Result<(), NoMemory>
        ensures { OnOk result (self.new ≡ with_held self.old told) }
    {
        match self {
            Open::Sweep { sweep, .. } => sweep.held.push(told),
            _ => Ok(()),
        }
    }

    /// What the record says if it may come next.
    pub(crate) fn guess(
        &self,
        alloc: Global,
        script: &Script,
        row: &[&[u8]],
    ) -> Result<Option<Piece>, NoMemory>
        ensures { IfOk result (λ o. o ≡ guess_after script.now self.now (fields_of row.now)) }
    {
        match self {
            Open::Nothing => first_guess(alloc, script, row),
            Open::Scan {
                session,
                place,
                table,
                left,
                ..
            } => {
                if *left > 0 {
                    row_guess(alloc, script.tables(), *session, *place, *table, row)
                } else {
                    first_guess(alloc, script, row)
                }
            }
            Open::Sweep { session, place, .. } => {
                if says(row, 2, b"held") {
                    Ok(Some(held_guess(*session, *place, row)))
                } else {
                    first_guess(alloc, script, row)
                }
            }
            Open::Totals { index, .. } => {
                if *index < 6 {
                    Ok(Some(Piece::Total {
                        index: *index,
                        number: natural_at(row, 2),
                    }))
                } else {
                    Ok(None)
                }
            }
        }
    }
}

impl Progress {
    /// The start, with room for so many lines.
    pub(crate) fn with_room(alloc: Global, lines: usize) -> Result<Progress, NoMemory>
        ensures { IfOk result (λ progress. progress ≡ at_start) }
    {
        let lines = Vec::with_capacity(alloc, lines)?;
        Ok(Progress {
            lines: LineList::from(lines),
            last: Open::Nothing,
        })
    }

    // Ends the line that is open.
    fn close(&mut self) -> Result<(), NoMemory>
        ensures { OnOk result
            (self.new ≡ record { lines = lines_of self.old; last = opens.Nothing }) }
    {
        match mem::replace(&mut self.last, Open::Nothing) {
            Open::Nothing => {}
            Open::Scan {
                session,
                place,
                at,
                rows,
                ..
            } => self.lines.push(Line {
                session,
                place,
                reply: Reply {
                    at,
                    answer: Answer::Rows(rows),
                    number: None,
                },
            })?,
            Open::Sweep {
                session,
                place,
                sweep,
            } => self.lines.push(Line {
                session,
                place,
                reply: Reply {
                    at: None,
                    answer: Answer::Swept(sweep),
                    number: None,
                },
            })?,
            Open::Totals { .. } => {}
        }
        Ok(())
    }

    // Ends the line that is open, and adds one more.
    fn add_line(&mut self, line: Line) -> Result<(), NoMemory>
        ensures { OnOk result
            (self.new ≡ record { lines = lines_of self.old ++ line ∷ []; last = opens.Nothing }) }
    {
        self.close()?;
        self.lines.push(line)
    }

    // Ends the line that is open, and begins another.
    fn begin(&mut self, last: Open) -> Result<(), NoMemory>
        ensures { OnOk result (self.new ≡ record { lines = lines_of self.old; last = last }) }
    {
        self.close()?;
        self.last = last;
        Ok(())
    }

    /// Takes a record.
    pub(crate) fn take(&mut self, alloc: Global, piece: Piece) -> Result<(), NoMemory>
        requires { (index number : ℕ) → piece ≡ pieces.Total index number → index < 6 }
        ensures { OnOk result (self.new ≡ after self.old piece) }
    {
        match piece {
            Piece::Line(line) => self.add_line(line),
            Piece::Scan {
                session,
                place,
                at,
                table,
                left,
            } => self.begin(Open::Scan {
                session,
                place,
                at,
                table,
                left,
                rows: RowList::from(Vec::new(alloc)),
            }),
            Piece::Sweep {
                session,
                place,
                sweep,
            } => self.begin(Open::Sweep {
                session,
                place,
                sweep,
            }),
            Piece::Row { key, row, .. } => self.last.add_row(key, row),
            Piece::Held { told, .. } => self.last.add_held(told),
            Piece::Total { index, number } => {
                let totals = with_total(index, number, self.last.totals());
                self.begin(Open::Totals {
                    index: index + 1,
                    totals,
                })
            }
        }
    }
}
