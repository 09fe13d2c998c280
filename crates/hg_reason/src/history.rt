//! What the lines of a printed text say together: what each commit wrote, and how many versions were made.

use crate::walk::{Said, Stored, Walk, committed, ends, snapshot_of, stored_by};
use hg_base::{Answer, Kind, Line, NoMemory, Rid, Row, Scope, Statement, TableId, Totals};
use hg_known::Sequence;
use std::alloc::Global;
use std::collections::{BTreeMap, BTreeSet};

/// A record, and the number of a commit that wrote it.
#[derive(Clone, Copy, PartialEq, Eq, PartialOrd, Ord)]
pub(crate) struct Slot {
    pub rid: Rid,
    pub number: u64,
}

/// What a commit wrote of a record, and the snapshot and the place of that commit.
#[derive(Drop)]
pub(crate) struct Written {
    pub row: Option<Row>,
    pub at: u64,
    pub place: u64,
}

/// What is wrong with the numbers of commits, at the place of one of them.
#[derive(Clone, Copy)]
pub(crate) enum Clash {
    Zero,
    /// It is not above the snapshot of its transaction.
    Low {
        number: u64,
        at: u64,
    },
    /// Its transaction wrote nothing.
    Idle {
        number: u64,
    },
    /// Another transaction of the session has the same number.
    Twice {
        number: u64,
    },
    /// Another transaction with the same number wrote the same record.
    Both {
        number: u64,
        rid: Rid,
    },
    /// No commit has this number, which is below the greatest.
    Missing {
        number: u64,
        greatest: u64,
    },
    /// The earlier commit wrote the record after the snapshot.
    Lost {
        number: u64,
        at: u64,
        earlier: u64,
        rid: Rid,
    },
}

#[derive(Drop)]
pub(crate) struct History {
    pub writes: BTreeMap<Slot, Written>,
    /// The greatest commit number.
    pub groups: u64,
    pub numbers: BTreeSet<u64>,
    seats: BTreeSet<(u64, u32)>,
    /// The snapshots that each session printed, and those of transactions that declared their tables.
    pub printed: BTreeSet<(u32, u64)>,
    pub declared: BTreeSet<(u32, u64)>,
    /// The first clash, and the place of its record, or 0.
    pub clash: Option<(u64, Clash)>,
    made: u64,
    kept: u64,
    group: u64,
    interval: u64,
}

fn declares(said: &Said<'_>) -> bool {
    said.alone || matches!(said.tx.scope, Scope::Declared(_))
}

// What is wrong with a commit, but for the records that it wrote.
fn clash_of(said: &Said<'_>, number: u64, stored: &Stored) -> Option<Clash> {
    let at = said.tx.at;
    if number == 0 {
        Some(Clash::Zero)
    } else if at >= number {
        Some(Clash::Low { number, at })
    } else if stored.is_empty() {
        Some(Clash::Idle { number })
    } else {
        None
    }
}

impl History {
    fn new(alloc: Global) -> History {
        History {
            writes: BTreeMap::new(alloc),
            groups: 0,
            numbers: BTreeSet::new(alloc),
            seats: BTreeSet::new(alloc),
            printed: BTreeSet::new(alloc),
            declared: BTreeSet::new(alloc),
            clash: None,
            made: 0,
            kept: 0,
            group: 0,
            interval: 0,
        }
    }

    fn note(&mut self, place: u64, clash: Clash) {
        if self.clash.is_none() {
            self.clash = Some((place, clash));
        }
    }

    // Adds a commit of what its transaction stored.
    fn commit(&mut self, said: &Said<'_>, number: u64, stored: Stored) -> Result<(), NoMemory> {
        if let Some(clash) = clash_of(said, number, &stored) {
            self.note(said.place, clash);
        }
        if !self.seats.insert((number, said.session))? {
            self.note(said.place, Clash::Twice { number });
        }
        self.numbers.insert(number)?;
        self.groups = self.groups.max(number);
        self.kept = self.kept.saturating_add(stored.len() as u64);
        for (rid, row) in stored {
            let written = Written {
                row,
                at: said.tx.at,
                place: said.place,
            };
            if self.writes.insert(Slot { rid, number }, written)?.is_some() {
                self.note(said.place, Clash::Both { number, rid });
            }
        }
        Ok(())
    }

    fn add(&mut self, alloc: Global, walk: &mut Walk, said: &Said<'_>) -> Result<(), NoMemory> {
        if let Some((rid, _)) = stored_by(said)? {
            let had = walk
                .stored(said.session)
                .map_or(false, |stored| stored.contains_key(&rid));
            self.made = self.made.saturating_add(u64::from(!had));
        }
        if let Some(number) = snapshot_of(said) {
            self.printed.insert((said.session, number))?;
            if declares(said) {
                self.declared.insert((said.session, number))?;
            }
        }
        if let Answer::Swept(sweep) = &said.reply.answer {
            match sweep.kind {
                Kind::Group => self.group = self.group.saturating_add(sweep.removed),
                Kind::Interval => self.interval = self.interval.saturating_add(sweep.removed),
                Kind::Table => {}
            }
        }
        let ended = walk.keep(alloc, said)?;
        match (committed(said), ended) {
            (Some(number), Some(stored)) => self.commit(said, number, stored),
            _ => Ok(()),
        }
    }

    // The first number below the greatest that no commit has.
    fn find_missing(&mut self) {
        let mut next = 1u64;
        let mut missing = None;
        for number in &self.numbers {
            if missing.is_none() && *number > next {
                missing = Some(next);
            }
            next = number.saturating_add(1);
        }
        if let Some(number) = missing {
            let greatest = self.groups;
            self.note(0, Clash::Missing { number, greatest });
        }
    }

    // The first commit that overwrites what it did not see.
    fn find_lost(&mut self) {
        let mut last: Option<Slot> = None;
        let mut lost = None;
        for (slot, written) in &self.writes {
            if let Some(before) = last {
                if lost.is_none() && before.rid == slot.rid && before.number > written.at {
                    let clash = Clash::Lost {
                        number: slot.number,
                        at: written.at,
                        earlier: before.number,
                        rid: slot.rid,
                    };
                    lost = Some((written.place, clash));
                }
            }
            last = Some(*slot);
        }
        if let Some((place, clash)) = lost {
            self.note(place, clash);
        }
    }

    /// The last write of a record at or below a number.
    pub(crate) fn last(&self, rid: Rid, number: u64) -> Option<(u64, &Written)> {
        let end = Slot { rid, number };
        let (slot, written) = self.writes.range(..=end).next_back()?;
        if slot.rid != rid {
            return None;
        }
        Some((slot.number, written))
    }

    /// The totals that follow.
    pub(crate) fn totals(&self) -> Totals {
        let mut left = 0u64;
        let mut last: Option<(Rid, bool)> = None;
        for (slot, written) in &self.writes {
            if let Some((rid, is_row)) = last {
                left = left.saturating_add(u64::from(rid != slot.rid && is_row));
            }
            last = Some((slot.rid, written.row.is_some()));
        }
        if let Some((_, is_row)) = last {
            left = left.saturating_add(u64::from(is_row));
        }
        let (made, group, interval) = (self.made, self.group, self.interval);
        let undone = made.saturating_sub(self.kept);
        let table = self
            .kept
            .saturating_sub(group)
            .saturating_sub(interval)
            .saturating_sub(left);
        Totals {
            made,
            undone,
            group,
            table,
            interval,
            left,
        }
    }
}

/// What all lines say, which answer the records in this order.
pub(crate) fn read_history(
    alloc: Global,
    order: &Sequence<'_>,
    lines: &[Line],
) -> Result<History, NoMemory> {
    let mut history = History::new(alloc);
    let mut walk = Walk::new(alloc)?;
    for (k, line) in lines.iter().enumerate() {
        if k < order.len() {
            let said = walk.said(order.record(k)?, line);
            history.add(alloc, &mut walk, &said)?;
        }
    }
    history.find_missing();
    history.find_lost();
    Ok(history)
}
