//! What all lines say that one of them may ask for: commit numbers, stored images and printed snapshots.

ghost use Rattle.std.specs.Prelude.{◌≡◌, ◌↔◌, ◌<◌, ◌&&◌, ◌∷◌, [], List, min, unwrap_or, IsTrue, OnOk};
ghost use Rattle.std.specs.List.{list_any};
ghost use Rattle.hg_base.specs.Lists.{Each};
ghost use Rattle.hg_base.specs.Transcript as script;
ghost use Rattle.hg_base.specs.Transcript.{numbers_in};
ghost use Rattle.hg_base.specs.Freshness as fresh;
ghost use Rattle.hg_known.specs.Asked as asked;
ghost use Rattle.hg_known.specs.Context.{IsContext, wants_of};
ghost use Rattle.hg_known.specs.declared.context.Wants.{Wants};
ghost use Rattle.hg_known.specs.Lines.{said_of};
ghost use Rattle.hg_known.specs.Owned.{AreOwn};
ghost use Rattle.hg_known.specs.Ended.{AreNumbers};
ghost use Rattle.hg_known.specs.Marked.{ArePoints, prints_point};

use crate::before::snapshot_of;
use crate::history::committed;
use crate::lines::Lines;
use crate::own::{Own, Tx};
use crate::said::Said;
use hg_base::{Answer, NoMemory, Reply, Scope, Statement};
use std::alloc::Global;
use std::collections::{BTreeMap, BTreeSet};

/// The least commit number of each transaction that has one.
#[derive(Drop)]
pub struct Numbers {
    pub(crate) least: BTreeMap<Tx, u64>,
}

impl Numbers {
    /// None has a number. It takes no memory.
    pub fn new(alloc: Global) -> Numbers
        ensures { AreNumbers result [] }
    {
        Numbers {
            least: BTreeMap::new(alloc),
        }
    }

    /// Keeps the commit number that a line prints.
    pub fn add(&mut self, said: &Said) -> Result<(), NoMemory>
        ensures { OnOk result ((earlier : List script.Said) → AreNumbers self.old earlier →
            AreNumbers self.new (said_of said.now ∷ earlier)) }
    {
        let Some(number) = committed(said) else {
            return Ok(());
        };
        let tx = Tx {
            session: said.session,
            number: said.transaction,
        };
        let least = number.min(self.least.get(&tx).copied().unwrap_or(number));
        self.least.insert(tx, least)?;
        Ok(())
    }

    /// Whether the transaction has no commit number at or below a snapshot.
    pub fn are_after(&self, tx: Tx, at: u64) -> bool
        ensures { (earlier : List script.Said) → AreNumbers self.now earlier →
            (IsTrue result ↔ Each (λ c. at < c) (numbers_in tx.session tx.number earlier)) }
    {
        match self.least.get(&tx) {
            Some(least) => at < *least,
            None => true,
        }
    }
}

/// A snapshot of a session.
#[derive(Clone, Copy, PartialEq, Eq, PartialOrd, Ord)]
pub struct Point {
    pub session: u32,
    pub number: u64,
}

/// The snapshots that were printed, and those of transactions that declared their tables.
#[derive(Drop)]
pub struct Points {
    pub(crate) printed: BTreeSet<Point>,
    pub(crate) declared: BTreeSet<Point>,
}

fn is_declared(said: &Said) -> bool
    ensures { result ≡ fresh.is_declared (said_of said.now).scope }
{
    if said.alone {
        return matches!(
            &said.statement,
            Statement::Get(_) | Statement::Put(..) | Statement::Del(_) | Statement::Scan { .. }
        );
    }
    matches!(said.scope, Scope::Declared(_))
}

impl Points {
    /// None was printed. It takes no memory.
    pub fn new(alloc: Global) -> Points
        ensures { ArePoints result [] }
    {
        Points {
            printed: BTreeSet::new(alloc),
            declared: BTreeSet::new(alloc),
        }
    }

    /// Keeps the snapshot that a line prints, if it does.
    pub fn add(&mut self, said: &Said) -> Result<(), NoMemory>
        ensures { OnOk result ((earlier : List script.Said) → ArePoints self.old earlier →
            ArePoints self.new (said_of said.now ∷ earlier)) }
    {
        let Some(number) = snapshot_of(said) else {
            return Ok(());
        };
        let point = Point {
            session: said.session,
            number,
        };
        self.printed.insert(point)?;
        if !is_declared(said) {
            return Ok(());
        }
        self.declared.insert(point)?;
        Ok(())
    }

    /// Whether the session printed that snapshot.
    pub fn is_printed(&self, session: u32, number: u64) -> bool
        ensures { (lines : List script.Said) → ArePoints self.now lines →
            result ≡ list_any (prints_point session number) lines }
    {
        let point = Point { session, number };
        self.printed.contains(&point)
    }

    /// Whether a transaction of the session that declared its tables printed it.
    pub fn is_declared(&self, session: u32, number: u64) -> bool
        ensures { (lines : List script.Said) → ArePoints self.now lines →
            result ≡
            list_any (λ said. prints_point session number said && fresh.is_declared said.scope)
            lines }
    {
        let point = Point { session, number };
        self.declared.contains(&point)
    }
}

fn names_writer(reply: &Reply) -> bool
    ensures { (said : script.Said) → reply.now ≡ said.reply → result ≡ asked.names_writer said }
{
    matches!(&reply.answer, Answer::OpenBy(_))
}

fn tells_held(reply: &Reply) -> bool
    ensures { (said : script.Said) → reply.now ≡ said.reply → result ≡ asked.tells_held said }
{
    match &reply.answer {
        Answer::Swept(sweep) => sweep.held.as_slice().len() != 0,
        _ => false,
    }
}

/// What all lines say that one of them may ask for. A part that none asks for is empty.
#[derive(Drop)]
pub struct Context {
    pub stored: Own,
    pub numbers: Numbers,
    pub points: Points,
}

/// Which parts are asked for.
#[derive(Clone, Copy)]
pub(crate) struct Wants {
    pub stored: bool,
    pub numbers: bool,
    pub points: bool,
}

// A refusal for an open write asks for commit numbers, and in a run for what is stored; a report of held snapshots asks for printed ones.
pub(crate) fn find_wants(all: &Lines<'_>, is_run: bool) -> Wants
    ensures { result ≡ wants_of is_run all.now }
{
    let mut numbers = false;
    let mut points = false;
    for k in 0..all.len() {
        let reply = all.reply(k);
        let names = names_writer(reply);
        let tells = tells_held(reply);
        numbers |= names;
        points |= tells;
    }
    Wants {
        stored: is_run & numbers,
        numbers,
        points,
    }
}

fn keep_stored(stored: &mut Own, wanted: bool, said: &Said) -> Result<(), NoMemory>
    ensures { OnOk result ((earlier : List script.Said) →
        (IsTrue wanted → AreOwn stored.old earlier) →
        IsTrue wanted → AreOwn stored.new (said_of said.now ∷ earlier)) }
{
    if !wanted {
        return Ok(());
    }
    stored.add(said)?;
    Ok(())
}

fn keep_number(numbers: &mut Numbers, wanted: bool, said: &Said) -> Result<(), NoMemory>
    ensures { OnOk result ((earlier : List script.Said) →
        (IsTrue wanted → AreNumbers numbers.old earlier) →
        IsTrue wanted → AreNumbers numbers.new (said_of said.now ∷ earlier)) }
{
    if !wanted {
        return Ok(());
    }
    numbers.add(said)
}

fn keep_point(points: &mut Points, wanted: bool, said: &Said) -> Result<(), NoMemory>
    ensures { OnOk result ((earlier : List script.Said) →
        (IsTrue wanted → ArePoints points.old earlier) →
        IsTrue wanted → ArePoints points.new (said_of said.now ∷ earlier)) }
{
    if !wanted {
        return Ok(());
    }
    points.add(said)
}

impl Context {
    // Nothing is kept. It takes no memory.
    pub(crate) fn new(alloc: Global) -> Context
        ensures { (wants : Wants) → IsContext wants result [] }
    {
        let stored = Own::new(alloc);
        let numbers = Numbers::new(alloc);
        let points = Points::new(alloc);
        Context {
            stored,
            numbers,
            points,
        }
    }

    // Keeps what is asked for of a line.
    pub(crate) fn keep(&mut self, wants: Wants, said: &Said) -> Result<(), NoMemory>
        ensures { OnOk result ((earlier : List script.Said) →
            IsContext wants self.old earlier →
            IsContext wants self.new (said_of said.now ∷ earlier)) }
    {
        keep_stored(&mut self.stored, wants.stored, said)?;
        keep_number(&mut self.numbers, wants.numbers, said)?;
        keep_point(&mut self.points, wants.points, said)
    }
}
