//! What fails first of lines and totals, and the order in which that is asked.

ghost use Rattle.std.specs.Prelude.{◌≡◌, ◌≤◌, ◌^◌, ◌↔◌, ◌||◌, length, List, [], Some, is_some, if◌then◌else◌, IsTrue, IfOk};
ghost use Rattle.std.specs.Bool.{MatchBool};
ghost use Rattle.hg_base.specs.declared.line.Line.{Line};
ghost use Rattle.hg_base.specs.declared.line.Printed.{Printed};
ghost use Rattle.hg_base.specs.declared.line.Totals.{Totals};
ghost use Rattle.hg_base.specs.declared.statement.Record.{Record};
ghost use Rattle.hg_base.specs.Lists.{Each, EachAfter};
ghost use Rattle.hg_base.specs.Script.{Mode, Script};
ghost use Rattle.hg_base.specs.Shape.{HasShape};
ghost use Rattle.hg_base.specs.Sound.{IsSound, IsWhole};
ghost use Rattle.hg_base.specs.Transcript.{history_of, in_order};
ghost use Rattle.hg_known.specs.Before.{AreBefore};
ghost use Rattle.hg_known.specs.Ended.{AreOpenOwn, ForgetsOver, IsOpen};
ghost use Rattle.hg_known.specs.Lines.{OpensKnown};
ghost use Rattle.hg_known.specs.Tallied.{IsTally};
ghost use Rattle.hg_audit.specs.declared.fault.Found.TheVariants.{Right};
ghost use Rattle.hg_audit.specs.declared.shape.Command.TheVariants.{Run};
ghost use Rattle.hg_audit.specs.Found.{AreFaults, IsDecided, IsFound};
ghost use Rattle.hg_audit.specs.Judged.{IsOf};
ghost use Rattle.hg_audit.specs.Known.{Knows};

use crate::freshness::is_fresh;
use crate::reply::is_answered;
use crate::shape::{Command, first_out_of_shape};
use crate::totals::are_totals;
use hg_base::{Line, NoMemory, Totals};
use hg_known::{Before, Lines, Own, Past, Sequence, keeps_update, read_history};
use std::alloc::Global;

/// What fails first of the lines and totals, and at which line, counted from 0.
#[derive(Clone, Copy)]
pub enum Found {
    Right,
    Shape(usize),
    Commits,
    Reply(usize),
    Fresh(usize),
    Totals,
}

impl Found {
    /// Whether the lines have the shape of their records.
    pub(crate) fn has_shape(self) -> bool
        ensures { (mode : Mode) (records : List Record) (lines : List Line) (totals : Totals) →
            IsFound mode records lines totals self →
            MatchBool result (HasShape records lines) (¬ HasShape records lines) }
    {
        match self {
            Found::Shape(_) => false,
            Found::Right => true,
            Found::Commits => true,
            Found::Reply(_) => true,
            Found::Fresh(_) => true,
            Found::Totals => true,
        }
    }
}

/// Nothing fails of what was printed exactly where it is sound.
pub fn what_is_right_is_sound()
    ensures sound { (mode : Mode) (script : Script) (printed : Printed) →
        IsFound mode (in_order mode script.records) printed.lines printed.totals Right →
        IsSound mode script printed }
    ensures right { (mode : Mode) (script : Script) (printed : Printed) →
        IsSound mode script printed →
        IsFound mode (in_order mode script.records) printed.lines printed.totals Right }
{}

/// What is known of all lines when one is judged.
#[derive(Clone, Copy)]
pub struct Facts<'a> {
    pub command: Command,
    pub past: &'a Past,
}

/// The first line whose reply is not right, and the first whose numbers are out of order, counted from 0.
#[derive(Clone, Copy)]
pub struct Faults {
    pub unanswered: Option<usize>,
    pub unordered: Option<usize>,
}

// The first that is wrong, where line k is right or not.
fn first(found: Option<usize>, right: bool, k: usize) -> Option<usize>
    ensures { result ≡ (if is_some found || right then found else Some k) }
{
    if found.is_some() || right {
        return found;
    }
    Some(k)
}

/// The first lines that are wrong, where no update is lost.
pub fn first_faults(
    alloc: Global,
    facts: &Facts,
    all: &Lines<'_>,
) -> Result<Option<Faults>, NoMemory>
    requires { EachAfter IsOpen [] all.now }
    ensures { IfOk result (λ found.
        (mode : Mode) → IsOf facts.now.command mode → IsWhole all.now →
        Knows (history_of all.now) all.now facts.now →
        AreFaults mode all.now found) }
{
    let mut own = Own::new(alloc);
    let mut before = Before::new(alloc);
    find_faults(alloc, facts, all, &mut own, &mut before)
}

// The same, with what is kept of the lines before.
fn find_faults(
    alloc: Global,
    facts: &Facts,
    all: &Lines<'_>,
    own: &mut Own,
    before: &mut Before,
) -> Result<Option<Faults>, NoMemory>
    requires opened { EachAfter IsOpen [] all.now }
    requires own { AreOpenOwn own.old [] }
    requires over { ForgetsOver own.old [] }
    requires before { AreBefore before.old [] }
    ensures { IfOk result (λ found.
        (mode : Mode) → IsOf facts.now.command mode → IsWhole all.now →
        Knows (history_of all.now) all.now facts.now →
        AreFaults mode all.now found) }
{
    let mut unanswered = None;
    let mut unordered = None;
    let mut reader = all.reader(alloc);
    for k in 0..all.len() {
        let said = reader.read()?;
        let answered = is_answered(facts, own, &said);
        unanswered = first(unanswered, answered, k);
        let points = &facts.past.context.points;
        let ordered = is_fresh(facts.command, points, facts.past.groups, before, &said);
        unordered = first(unordered, ordered, k);
        own.add(&said)?;
        if !keeps_update(&facts.past.writes, own, &said) {
            return Ok(None);
        }
        own.close(&said);
        before.add(&said)?;
    }
    Ok(Some(Faults {
        unanswered,
        unordered,
    }))
}

// Whether a refusal is judged by all that was stored. A replay asks only for what is still open.
fn is_run(command: Command) -> bool
    ensures { command ≡ Run → IsTrue result }
{
    match command {
        Command::Replay => false,
        Command::Run => true,
    }
}

// Whether an update is lost, or the first line that is not right, or the totals, by what is known of all lines.
fn judge(alloc: Global, facts: &Facts, all: &Lines<'_>, totals: Totals) -> Result<Found, NoMemory>
    requires open { EachAfter IsOpen [] all.now }
    requires whole { IsWhole all.now }
    requires knows { Knows (history_of all.now) all.now facts.now }
    requires tally { IsTally facts.now.past.now.tally all.now }
    ensures { IfOk result (λ found.
        (mode : Mode) → IsOf facts.now.command mode → IsDecided mode all.now totals found) }
{
    let Some(faults) = first_faults(alloc, facts, all)? else {
        return Ok(Found::Commits);
    };
    if let Some(k) = faults.unanswered {
        return Ok(Found::Reply(k));
    }
    if let Some(k) = faults.unordered {
        return Ok(Found::Fresh(k));
    }
    if !are_totals(facts.past, all, totals) {
        return Ok(Found::Totals);
    }
    Ok(Found::Right)
}

// Whether there are more lines than memory holds, at eight bytes or more for each: then a sum over them may be too great.
fn is_too_long(lines: &[Line]) -> bool
    ensures { IsTrue result ↔ (2 ^ 61 ≤ length lines.now) }
{
    lines.len() >= 1 << 61
}

/// What fails first of the lines of these records, and of totals.
pub(crate) fn find_fault(
    alloc: Global,
    command: Command,
    records: &Sequence<'_>,
    lines: &[Line],
    totals: Totals,
) -> Result<Found, NoMemory>
    requires known { Each (λ r. OpensKnown r.statement) records.now }
    ensures { IfOk result (λ found.
        (mode : Mode) → IsOf command mode → IsFound mode records.now lines.now totals found) }
{
    if is_too_long(lines) {
        return Err(NoMemory);
    }
    if let Some(k) = first_out_of_shape(records, lines)? {
        return Ok(Found::Shape(k));
    }
    let all = Lines::new(records, lines);
    let run = is_run(command);
    let Some(past) = read_history(alloc, &all, run)? else {
        return Ok(Found::Commits);
    };
    let facts = Facts {
        command,
        past: &past,
    };
    judge(alloc, &facts, &all, totals)
}
