//! The history that the printed commit numbers give, where they give one, and whether it loses an update.

ghost use Rattle.std.specs.Prelude.{◌≡◌, ◌↔◌, ℕ, ◌<◌, ◌≤◌, List, [], ◌∷◌, Some, None, length, IsTrue, IsSome, IfSome, IfOk};
ghost use Rattle.std.specs.Bool.{MatchBool};
ghost use Rattle.std.specs.Option.{MatchOption};
ghost use Rattle.hg_base.specs.declared.rid.Rid.{Rid};
ghost use Rattle.hg_base.specs.Lists.{EachAfter, onto};
ghost use Rattle.hg_base.specs.History.{Commit};
ghost use Rattle.hg_base.specs.Transcript as script;
ghost use Rattle.hg_base.specs.Transcript.{history_of};
ghost use Rattle.hg_base.specs.Sound.{IsWhole};
ghost use Rattle.hg_known.specs.Commits.{has_number};
ghost use Rattle.hg_known.specs.Lines.{said_of};
ghost use Rattle.hg_known.specs.Owned.{HasOwn, own_at};
ghost use Rattle.hg_known.specs.Written.{IsOfHistory, image_at};
ghost use Rattle.hg_known.specs.Context.{IsContext, wants_of};
ghost use Rattle.hg_known.specs.Ended.{IsOpen};
ghost use Rattle.hg_known.specs.Joined.{IsJoined, Clashes};
ghost use Rattle.hg_known.specs.Shown.{Shows, Adds, printed};
ghost use Rattle.hg_known.specs.Tallied.{AreTallied, IsTally};

use crate::context::{Context, find_wants};
use crate::gathered::{Gathered, gather};
use crate::lines::Lines;
use crate::own::{LEAST, Own, Tx, copy};
use crate::said::Said;
use crate::tally::Tally;
use crate::writes::Writes;
use hg_base::{Answer, NoMemory, Rid, Statement};
use std::alloc::Global;
use std::collections::BTreeSet;

/// The commit number that a line prints for its transaction.
pub fn committed(said: &Said) -> Option<u64>
    ensures { result ≡ script.committed (said_of said.now) }
{
    if said.alone {
        return said.reply.number;
    }
    match (&said.statement, &said.reply.answer) {
        (Statement::Commit, Answer::Committed(number)) => Some(*number),
        _ => None,
    }
}

/// A session in the group of a number.
#[derive(Clone, Copy, PartialEq, Eq, PartialOrd, Ord)]
pub struct Seat {
    pub number: u64,
    pub session: u32,
}

/// What the printed commits write, of which sessions they are, and which numbers they have.
#[derive(Drop)]
pub struct Commits {
    pub(crate) writes: Writes,
    pub(crate) seats: BTreeSet<Seat>,
    pub(crate) numbers: BTreeSet<u64>,
    pub(crate) greatest: u64,
}

/// Adds what a transaction stored to what the group of a number writes. The answer is whether the group wrote none of it
/// before.
fn add_writes(writes: &mut Writes, own: &Own, tx: Tx, number: u64) -> Result<bool, NoMemory>
    ensures { IfOk result (λ fresh.
        MatchBool fresh (IsJoined own.now tx.session tx.number number writes.old writes.new)
        (Clashes own.now tx.session tx.number number writes.old)) }
{
    let mut found = own.next(tx, LEAST);
    while let Some(rid) = found {
        let Some(image) = own.image(tx, rid) else {
            unreachable!();
        };
        if !writes.add(rid, number, copy(image)?)? {
            return Ok(false);
        }
        found = own.next_after(tx, rid);
    }
    Ok(true)
}

impl Commits {
    /// No commit was printed. It takes no memory.
    pub fn new(alloc: Global) -> Commits
        ensures { Shows result [] }
    {
        Commits {
            writes: Writes::new(alloc),
            seats: BTreeSet::new(alloc),
            numbers: BTreeSet::new(alloc),
            greatest: 0,
        }
    }

    /// The transaction of a line is committed with that number. The answer is whether it fits, and clashes with none before.
    pub fn add(&mut self, own: &Own, said: &Said, number: u64) -> Result<bool, NoMemory>
        ensures { IfOk result (λ fits.
            (earlier : List script.Said) (ps : List (ℕ × Commit)) →
            HasOwn own.now (said_of said.now ∷ earlier) (said_of said.now) →
            Adds self.old self.new ps (printed number earlier (said_of said.now)) fits) }
    {
        let tx = Tx {
            session: said.session,
            number: said.transaction,
        };
        if number == 0 {
            return Ok(false);
        }
        if said.at >= number {
            return Ok(false);
        }
        let Some(_) = own.next(tx, LEAST) else {
            return Ok(false);
        };
        let seat = Seat {
            number,
            session: said.session,
        };
        if !self.seats.insert(seat)? {
            return Ok(false);
        }
        if !add_writes(&mut self.writes, own, tx, number)? {
            return Ok(false);
        }
        self.numbers.insert(number)?;
        self.greatest = self.greatest.max(number);
        Ok(true)
    }
}

/// What each group of a history writes, how many there are, how many versions its lines made and undid, and what a line may ask of all.
#[derive(Drop)]
pub struct Past {
    pub writes: Writes,
    pub groups: u64,
    pub tally: Tally,
    pub context: Context,
}

// Whether some commit has each number from 1 to the greatest.
pub(crate) fn has_each(commits: &Commits) -> bool
    ensures { (ps : List (ℕ × Commit)) → Shows commits.now ps →
        (IsTrue result ↔
        ((n : ℕ) → 1 ≤ n → n < commits.now.greatest → has_number n ps)) }
{
    for number in 1..commits.greatest {
        if !commits.numbers.contains(&number) {
            return false;
        }
    }
    true
}

// What is kept of what was gathered of all lines.
fn past_of(gathered: Gathered) -> Past
    ensures writes { result.writes ≡ gathered.commits.writes }
    ensures groups { result.groups ≡ gathered.commits.greatest }
    ensures tally { (all : List script.Said) → AreTallied gathered.versions (onto all []) →
        IsTally result.tally all }
    ensures context { result.context ≡ gathered.context }
{
    let Gathered {
        context,
        own: _,
        commits,
        versions,
    } = gathered;
    let Commits {
        writes,
        seats: _,
        numbers: _,
        greatest,
    } = commits;
    Past {
        writes,
        groups: greatest,
        tally: versions.tally(),
        context,
    }
}

/// The history that the lines give, if the printed numbers give one.
pub fn read_history(alloc: Global, all: &Lines<'_>, is_run: bool) -> Result<Option<Past>, NoMemory>
    requires { EachAfter IsOpen [] all.now }
    ensures { IfOk result (λ found.
        MatchOption found (¬ IsWhole all.now) (λ past.
        IsWhole all.now × IsOfHistory (history_of all.now) past.writes ×
        (length (history_of all.now) ≡ past.groups) × IsTally past.tally all.now ×
        IsContext (wants_of is_run all.now) past.context (onto all.now []))) }
{
    let wants = find_wants(all, is_run);
    let mut gathered = Gathered::new(alloc);
    match gather(alloc, all, wants, &mut gathered) {
        Ok(true) => Ok(Some(past_of(gathered))),
        Ok(false) => Ok(None),
        Err(e) => Err(e),
    }
}

// Whether no write of the record is numbered over a snapshot and below a number.
fn is_kept(writes: &Writes, rid: Rid, at: u64, number: u64) -> bool
    ensures { IsTrue result ↔
        ((m : ℕ) → at < m → m < number → image_at writes.now rid m ≡ None) }
{
    if number == 0 {
        return true;
    }
    match writes.last(rid, number - 1) {
        Some((last, _)) => last <= at,
        None => true,
    }
}

// The same of each record that a transaction stored.
fn loses_none(writes: &Writes, own: &Own, tx: Tx, at: u64, number: u64) -> bool
    ensures { IsTrue result ↔ ((r : Rid) → IsSome (own_at own.now tx.session tx.number r) →
        (m : ℕ) → at < m → m < number → image_at writes.now r m ≡ None) }
{
    let mut found = own.next(tx, LEAST);
    while let Some(rid) = found {
        if !is_kept(writes, rid, at, number) {
            return false;
        }
        found = own.next_after(tx, rid);
    }
    true
}

/// Whether the commit of a line overwrites nothing that it did not see, where it prints a commit number.
pub fn keeps_update(writes: &Writes, own: &Own, said: &Said) -> bool
    ensures { IsTrue result ↔ IfSome (script.committed (said_of said.now)) (λ number.
        (r : Rid) → IsSome (own_at own.now said.now.session said.now.transaction r) →
        (m : ℕ) → said.now.at < m → m < number → image_at writes.now r m ≡ None) }
{
    let tx = Tx {
        session: said.session,
        number: said.transaction,
    };
    let Some(number) = committed(said) else {
        return true;
    };
    if number <= said.at || number - said.at == 1 {
        return true;
    }
    loses_none(writes, own, tx, said.at, number)
}
