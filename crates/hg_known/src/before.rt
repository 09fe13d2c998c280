//! What was printed before a line: numbers by session, commit numbers, marks of collectors, and open transactions.

ghost use Rattle.std.specs.Prelude.{◌≡◌, ◌↔◌, ◌≤◌, ◌==◌, ◌∷◌, [], List, Some, None, IsTrue, map, filter_map, max, unwrap_or, option_map, OnOk};
ghost use Rattle.std.specs.List.{list_any};
ghost use Rattle.std.specs.BTreeMap.{get};
ghost use Rattle.std.specs.Ordering.{nat_cmp};
ghost use Rattle.hg_base.specs.Lists.{Each, greatest};
ghost use Rattle.hg_base.specs.Transcript as script;
ghost use Rattle.hg_base.specs.Transcript.{greatest_commit, open_of};
ghost use Rattle.hg_base.specs.Freshness as fresh;
ghost use Rattle.hg_base.specs.Freshness.{known, mark_of, open_snapshot};
ghost use Rattle.hg_known.specs.Lines.{said_of, open_left};
ghost use Rattle.hg_known.specs.Heard.{AreHeard, AreCommitted};
ghost use Rattle.hg_known.specs.Marked.{AreMarks, mark_in};
ghost use Rattle.hg_known.specs.Before.{AreBefore};

use crate::history::committed;
use crate::said::{Last, Said, keep};
use hg_base::{Answer, Kind, NoMemory};
use std::alloc::Global;
use std::collections::{BTreeMap, BTreeSet};

/// The snapshot that a line prints.
pub fn snapshot_of(said: &Said) -> Option<u64>
    ensures { result ≡ fresh.snapshot_of (said_of said.now) }
{
    match &said.reply.answer {
        Answer::Begun(at) => Some(*at),
        _ => said.reply.at,
    }
}

/// The number of a newer commit, which a refusal names.
pub fn newer_of(said: &Said) -> Option<u64>
    ensures { result ≡ fresh.newer_of (said_of said.now) }
{
    match &said.reply.answer {
        Answer::Newer(number) => Some(*number),
        _ => None,
    }
}

pub fn raised(most: u64, number: Option<u64>) -> u64
    ensures { result ≡ max (unwrap_or number 0) most }
{
    number.unwrap_or(0).max(most)
}

/// Of each session, the greatest number that its lines printed.
#[derive(Drop)]
pub struct Heard {
    pub(crate) most: BTreeMap<u32, u64>,
}

impl Heard {
    /// Nothing was printed. It takes no memory.
    pub fn new(alloc: Global) -> Heard
        ensures { AreHeard result [] }
    {
        Heard {
            most: BTreeMap::new(alloc),
        }
    }

    /// Keeps the numbers of a line.
    pub fn add(&mut self, said: &Said) -> Result<(), NoMemory>
        ensures { OnOk result ((earlier : List script.Said) → AreHeard self.old earlier →
            AreHeard self.new (said_of said.now ∷ earlier)) }
    {
        let before = self.most.get(&said.session).copied().unwrap_or(0);
        let most = raised(
            raised(raised(before, newer_of(said)), committed(said)),
            snapshot_of(said),
        );
        self.most.insert(said.session, most)?;
        Ok(())
    }

    /// Whether a snapshot is at least every number that the session printed before.
    pub fn rises(&self, session: u32, at: u64) -> bool
        ensures { (earlier : List script.Said) → AreHeard self.now earlier →
            (IsTrue result ↔ Each (λ n. n ≤ at) (known session earlier)) }
    {
        self.most.get(&session).copied().unwrap_or(0) <= at
    }
}

/// The commit numbers that were printed, and the greatest of them.
#[derive(Drop)]
pub struct Committed {
    pub(crate) numbers: BTreeSet<u64>,
    pub(crate) greatest: u64,
}

impl Committed {
    /// None was printed. It takes no memory.
    pub fn new(alloc: Global) -> Committed
        ensures { AreCommitted result [] }
    {
        Committed {
            numbers: BTreeSet::new(alloc),
            greatest: 0,
        }
    }

    /// Keeps the commit number of a line.
    pub fn add(&mut self, said: &Said) -> Result<(), NoMemory>
        ensures { OnOk result ((earlier : List script.Said) → AreCommitted self.old earlier →
            AreCommitted self.new (said_of said.now ∷ earlier)) }
    {
        let Some(number) = committed(said) else {
            return Ok(());
        };
        self.numbers.insert(number)?;
        self.greatest = number.max(self.greatest);
        Ok(())
    }

    /// The greatest, and 0 where there is none.
    pub fn greatest(&self) -> u64
        ensures { (earlier : List script.Said) → AreCommitted self.now earlier →
            result ≡ greatest_commit earlier }
    {
        self.greatest
    }

    /// Whether the number was printed.
    pub fn has(&self, number: u64) -> bool
        ensures { (earlier : List script.Said) → AreCommitted self.now earlier →
            result ≡ list_any (λ n. n == number) (filter_map script.committed earlier) }
    {
        self.numbers.contains(&number)
    }
}

/// The greatest mark that each collector reported.
#[derive(Clone, Copy)]
pub struct Marks {
    pub group: u64,
    pub table: u64,
    pub interval: u64,
}

impl Marks {
    /// Nothing was reported.
    pub fn new() -> Marks
        ensures { AreMarks result [] }
    {
        Marks {
            group: 0,
            table: 0,
            interval: 0,
        }
    }

    /// Keeps the mark of a line's report, if it gives one.
    pub fn add(&mut self, said: &Said)
        ensures { (earlier : List script.Said) → AreMarks self.old earlier →
            AreMarks self.new (said_of said.now ∷ earlier) }
    {
        if let Answer::Swept(sweep) = &said.reply.answer {
            match sweep.kind {
                Kind::Group => self.group = sweep.mark.max(self.group),
                Kind::Table => self.table = sweep.mark.max(self.table),
                Kind::Interval => self.interval = sweep.mark.max(self.interval),
            }
        }
    }

    /// The greatest of a collector.
    pub fn of(&self, kind: Kind) -> u64
        ensures { result ≡ mark_in self.now kind }
    {
        match kind {
            Kind::Group => self.group,
            Kind::Table => self.table,
            Kind::Interval => self.interval,
        }
    }
}

/// The numbers and marks that were printed before a line, and what each session left open.
#[derive(Drop)]
pub struct Before {
    pub(crate) heard: Heard,
    pub(crate) committed: Committed,
    pub(crate) marks: Marks,
    pub(crate) lasts: BTreeMap<u32, Last>,
    pub(crate) sessions: u32,
}

// The snapshot of a session's open transaction.
fn left_open(lasts: &BTreeMap<u32, Last>, session: u32) -> Option<u64>
    ensures { option_map (λ at. (session, at)) result ≡
        open_left session (get nat_cmp lasts.now session) }
{
    match lasts.get(&session)? {
        Last::Open { at, .. } => Some(*at),
        Last::Over(_) => None,
    }
}

impl Before {
    /// Nothing was printed. It takes no memory.
    pub fn new(alloc: Global) -> Before
        ensures { AreBefore result [] }
    {
        Before {
            heard: Heard::new(alloc),
            committed: Committed::new(alloc),
            marks: Marks::new(),
            lasts: BTreeMap::new(alloc),
            sessions: 0,
        }
    }

    /// Keeps what a line prints and leaves.
    pub fn add(&mut self, said: &Said) -> Result<(), NoMemory>
        ensures { OnOk result ((earlier : List script.Said) → AreBefore self.old earlier →
            AreBefore self.new (said_of said.now ∷ earlier)) }
    {
        self.heard.add(said)?;
        self.committed.add(said)?;
        self.marks.add(said);
        keep(&mut self.lasts, said)?;
        self.sessions = said.session.max(self.sessions);
        Ok(())
    }

    /// Whether a snapshot is at least every number that the session printed.
    pub fn rises(&self, session: u32, at: u64) -> bool
        ensures { (earlier : List script.Said) → AreBefore self.now earlier →
            (IsTrue result ↔ Each (λ n. n ≤ at) (known session earlier)) }
    {
        self.heard.rises(session, at)
    }

    /// The greatest commit number that was printed, and 0 where there is none.
    pub fn newest(&self) -> u64
        ensures { (earlier : List script.Said) → AreBefore self.now earlier →
            result ≡ greatest_commit earlier }
    {
        self.committed.greatest()
    }

    /// Whether the commit number was printed.
    pub fn has_number(&self, number: u64) -> bool
        ensures { (earlier : List script.Said) → AreBefore self.now earlier →
            result ≡ list_any (λ n. n == number) (filter_map script.committed earlier) }
    {
        self.committed.has(number)
    }

    /// The greatest mark that a collector reported, and 0 where it reported none.
    pub fn mark(&self, kind: Kind) -> u64
        ensures { (earlier : List script.Said) → AreBefore self.now earlier →
            result ≡ greatest (filter_map (mark_of kind) earlier) }
    {
        self.marks.of(kind)
    }

    /// The greatest session that printed a line, and 0 where there is none.
    pub fn sessions(&self) -> u32
        ensures { (earlier : List script.Said) → AreBefore self.now earlier →
            result ≡ greatest (map (λ said. said.session) earlier) }
    {
        self.sessions
    }

    /// The snapshot of a session's open transaction.
    pub fn open_at(&self, session: u32) -> Option<u64>
        ensures { (earlier : List script.Said) → AreBefore self.now earlier →
            option_map (λ at. (session, at)) result ≡
            open_snapshot session (open_of session earlier) }
    {
        left_open(&self.lasts, session)
    }
}
