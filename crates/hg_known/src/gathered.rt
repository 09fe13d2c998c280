//! What is gathered of lines, one after the other.

ghost use Rattle.std.specs.Prelude.{◌≡◌, ℕ, ◌<◌, ◌^◌, List, [], ◌∷◌, length, IfOk};
ghost use Rattle.std.specs.Bool.{MatchBool};
ghost use Rattle.hg_base.specs.Lists.{EachAfter, onto};
ghost use Rattle.hg_base.specs.History.{Commit};
ghost use Rattle.hg_base.specs.Transcript as script;
ghost use Rattle.hg_base.specs.Transcript.{commit_of, commits};
ghost use Rattle.hg_base.specs.Sound.{IsWhole};
ghost use Rattle.hg_known.specs.Lines.{said_of};
ghost use Rattle.hg_known.specs.Owned.{HasOwn};
ghost use Rattle.hg_known.specs.declared.context.Wants.{Wants};
ghost use Rattle.hg_known.specs.Ended.{IsOpen};
ghost use Rattle.hg_known.specs.Shown.{AddsAny, Shows};
ghost use Rattle.hg_known.specs.Gathered.{Gathers, IsGathered};

use crate::context::{Context, Wants};
use crate::history::{Commits, committed, has_each};
use crate::lines::Lines;
use crate::own::Own;
use crate::said::Said;
use crate::tally::Versions;
use hg_base::NoMemory;
use std::alloc::Global;

/// What is kept of the lines so far.
#[derive(Drop)]
pub struct Gathered {
    pub(crate) context: Context,
    pub(crate) own: Own,
    pub(crate) commits: Commits,
    pub(crate) versions: Versions,
}

// Keeps the commit that a line prints, if it prints one. The answer is whether it fits, and clashes with none before.
fn add_commit(commits: &mut Commits, own: &Own, said: &Said) -> Result<bool, NoMemory>
    ensures { IfOk result (λ fits. (earlier : List script.Said) (ps : List (ℕ × Commit)) →
        HasOwn own.now (said_of said.now ∷ earlier) (said_of said.now) → Shows commits.old ps →
        AddsAny commits.new ps (commit_of earlier (said_of said.now)) fits) }
{
    match committed(said) {
        Some(number) => commits.add(own, said, number),
        None => Ok(true),
    }
}

impl Gathered {
    // There was no line. It takes no memory.
    pub(crate) fn new(alloc: Global) -> Gathered
        ensures { (wants : Wants) → IsGathered wants result [] [] }
    {
        let context = Context::new(alloc);
        let own = Own::new(alloc);
        let commits = Commits::new(alloc);
        let versions = Versions::new(alloc);
        Gathered {
            context,
            own,
            commits,
            versions,
        }
    }

    // Gathers a line. The answer is whether its commit fits, if it prints one, and clashes with none before.
    fn add(&mut self, wants: Wants, said: &Said) -> Result<bool, NoMemory>
        ensures { IfOk result (λ fits. (earlier : List script.Said) (ps : List (ℕ × Commit)) →
            IsGathered wants self.old earlier ps → IsOpen earlier (said_of said.now) →
            length earlier < 2 ^ 62 →
            Gathers wants self.new earlier (said_of said.now) ps fits) }
    {
        let first = self.own.add(said)?;
        self.versions.add(said, first)?;
        if !add_commit(&mut self.commits, &self.own, said)? {
            return Ok(false);
        }
        self.own.close(said);
        self.context.keep(wants, said)?;
        Ok(true)
    }
}

// Gathers all lines. The answer is whether their commits give a history.
pub(crate) fn gather(
    alloc: Global,
    all: &Lines<'_>,
    wants: Wants,
    into: &mut Gathered,
) -> Result<bool, NoMemory>
    requires open { EachAfter IsOpen [] all.now }
    requires none { IsGathered wants into.old [] [] }
    ensures { IfOk result (λ whole. MatchBool whole
        (IsWhole all.now × IsGathered wants into.new (onto all.now []) (commits all.now))
        (¬ IsWhole all.now)) }
{
    let mut reader = all.reader(alloc);
    for _ in 0..all.len() {
        let said = reader.read()?;
        if !into.add(wants, &said)? {
            return Ok(false);
        }
    }
    Ok(has_each(&into.commits))
}
