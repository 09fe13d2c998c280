//! What an audit answers: that a text is sound, or what fails first and the record of the text that shows it.

ghost use Rattle.std.specs.Prelude.{◌≡◌, ◌↔◌, ◌++◌, List, length, take, IfOk, codes, string_bytes};
ghost use Rattle.std.specs.List.{flat_map};
ghost use Rattle.hg_base.specs.declared.line.Printed as base;
ghost use Rattle.hg_base.specs.Lists.{Each};
ghost use Rattle.hg_base.specs.Script.{Declaration, Mode, Script as Meaning, replay};
ghost use Rattle.hg_base.specs.Text.{line_records};
ghost use Rattle.hg_base.specs.Transcript.{in_order};
ghost use Rattle.hg_script.specs.Lawful.{IsLawful};
ghost use Rattle.hg_known.specs.Lines.{OpensKnown};
ghost use Rattle.hg_audit.specs.declared.verdict.Verdict.TheVariants as verdicts;
ghost use Rattle.hg_audit.specs.Found.{IsFound};
ghost use Rattle.hg_audit.specs.Verdict.{IsFinding, IsVerdict, IsOfRun, IsAudit, IsSoundText, first_record, last_record, verdict_text};

use crate::fault::{Found, find_fault};
use crate::shape::{Command, has_session_report};
use hg_base::{Answer, Line, NoMemory, Printed};
use hg_known::Sequence;
use hg_report::{TextRefusal, read_text};
use hg_script::Script;
use std::alloc::Global;
use std::fmt;

/// What fails first.
#[derive(Clone, Copy, PartialEq, Eq)]
pub enum Why {
    /// The bytes are not the text of lines and totals.
    Text,
    /// The lines are not those of the records, one for each in order.
    Shape,
    /// The commit numbers give no history, or an update is lost in it.
    Commits,
    /// A reply is not that of a table that never reclaims, or a refused write does not show its cause.
    Reply,
    /// A number is not in order with those before it.
    Fresh,
    /// The totals are not those of the lines.
    Totals,
}

/// Whether a text is sound, and else the first record of the text that shows what fails, counted from 1.
#[derive(Clone, Copy, PartialEq, Eq)]
pub enum Verdict {
    Sound,
    Unsound { line: u64, why: Why },
}

impl fmt::Display for Why {
    ghost use Rattle.std.specs.Prelude.{Some};
    ghost use Rattle.hg_audit.specs.Verdict.{why_text};

    ghost output = { λ why. Some (why_text why) };

    fn fmt<W: fmt::Write>(&self, f: &mut fmt::Formatter<W>) -> fmt::Result {
        let name = match self {
            Why::Text => "Text",
            Why::Shape => "Shape",
            Why::Commits => "Commits",
            Why::Reply => "Reply",
            Why::Fresh => "Fresh",
            Why::Totals => "Totals",
        };
        f.write_str(name)
    }
}

impl fmt::Display for Verdict {
    ghost use Rattle.std.specs.Prelude.{Some};
    ghost use Rattle.hg_audit.specs.Verdict.{verdict_text};

    ghost output = { λ verdict. Some (verdict_text verdict) };

    fn fmt<W: fmt::Write>(&self, f: &mut fmt::Formatter<W>) -> fmt::Result {
        match self {
            Verdict::Sound => f.write_str("sound"),
            Verdict::Unsound { line, why } => write!(f, "unsound,{line},{why}"),
        }
    }
}

/// The verdict as a line, with its line feed.
pub fn verdict_line(alloc: Global, verdict: Verdict) -> Result<String, NoMemory>
    ensures { IfOk result (λ text. string_bytes text ≡ verdict_text verdict ++ codes "\n") }
{
    let text = format!(in alloc; "{verdict}\n")?;
    Ok(text)
}

// How many records of the text a line has.
fn count_records(line: &Line) -> u64
    ensures { (tables : List Declaration) → result ≡ length (line_records tables line.now) }
{
    match &line.reply.answer {
        Answer::Rows(rows) => rows.as_slice().len() as u64 + 1,
        Answer::Swept(sweep) => sweep.held.as_slice().len() as u64 + 1,
        _ => 1,
    }
}

// How many records the first so many lines have. It answers no number past 64 bits, for which no memory would do.
fn count_before(lines: &[Line], many: usize) -> Result<u64, NoMemory>
    ensures { IfOk result (λ count.
        (tables : List Declaration) →
        count ≡ length (flat_map (line_records tables) (take many lines.now))) }
{
    let mut count = 0u64;
    for k in 0..many.min(lines.len()) {
        let Some(more) = count.checked_add(count_records(&lines[k])) else {
            return Err(NoMemory);
        };
        count = more;
    }
    Ok(count)
}

// The first record of line k, and the first of the totals where there is no such line.
fn first_of(lines: &[Line], k: usize) -> Result<u64, NoMemory>
    ensures { IfOk result (λ record_at.
        (script : Meaning) (printed : base.Printed) → printed.lines ≡ lines.now →
        record_at ≡ first_record script printed k) }
{
    let before = count_before(lines, k)?;
    match before.checked_add(1) {
        Some(line) => Ok(line),
        None => Err(NoMemory),
    }
}

// The last record of the text.
fn last_of(lines: &[Line]) -> Result<u64, NoMemory>
    ensures { IfOk result (λ record_at.
        (script : Meaning) (printed : base.Printed) → printed.lines ≡ lines.now →
        record_at ≡ last_record script printed) }
{
    let before = count_before(lines, lines.len())?;
    match before.checked_add(6) {
        Some(line) => Ok(line),
        None => Err(NoMemory),
    }
}

fn at_line(lines: &[Line], k: usize, why: Why) -> Result<Verdict, NoMemory>
    ensures { IfOk result (λ verdict.
        (script : Meaning) (printed : base.Printed) → printed.lines ≡ lines.now →
        verdict ≡ verdicts.Unsound (first_record script printed k) why) }
{
    let line = first_of(lines, k)?;
    Ok(Verdict::Unsound { line, why })
}

fn at_end(lines: &[Line], why: Why) -> Result<Verdict, NoMemory>
    ensures { IfOk result (λ verdict.
        (script : Meaning) (printed : base.Printed) → printed.lines ≡ lines.now →
        verdict ≡ verdicts.Unsound (last_record script printed) why) }
{
    let line = last_of(lines)?;
    Ok(Verdict::Unsound { line, why })
}

// The verdict by what fails first of the lines and totals.
fn verdict_of(lines: &[Line], found: Found) -> Result<Verdict, NoMemory>
    ensures { IfOk result (λ verdict.
        (mode : Mode) (script : Meaning) (printed : base.Printed) → printed.lines ≡ lines.now →
        IsFound mode (in_order mode script.records) printed.lines printed.totals found →
        IsFinding mode script printed verdict) }
{
    match found {
        Found::Right => Ok(Verdict::Sound),
        Found::Shape(k) => at_line(lines, k, Why::Shape),
        Found::Commits => at_end(lines, Why::Commits),
        Found::Reply(k) => at_line(lines, k, Why::Reply),
        Found::Fresh(k) => at_line(lines, k, Why::Fresh),
        Found::Totals => at_end(lines, Why::Totals),
    }
}

fn find_in_replay(alloc: Global, script: &Script, printed: &Printed) -> Result<Verdict, NoMemory>
    requires known { Each (λ r. OpensKnown r.statement) script.now.records }
    ensures { IfOk result (λ verdict. IsFinding replay script.now printed.now verdict) }
{
    let lines = printed.lines.as_slice();
    let order = Sequence::of_replay(alloc, script);
    let found = find_fault(alloc, Command::Replay, &order, lines, printed.totals)?;
    verdict_of(lines, found)
}

// The same as of a run, where the lines have the shape of one.
fn find_in_run(
    alloc: Global,
    script: &Script,
    printed: &Printed,
) -> Result<Option<Verdict>, NoMemory>
    requires known { Each (λ r. OpensKnown r.statement) script.now.records }
    ensures { IfOk result (λ found. IsOfRun script.now printed.now found) }
{
    let lines = printed.lines.as_slice();
    let Some(order) = Sequence::of_run(alloc, script, lines.len())? else {
        return Ok(None);
    };
    let found = find_fault(alloc, Command::Run, &order, lines, printed.totals)?;
    if !found.has_shape() {
        return Ok(None);
    }
    let verdict = verdict_of(lines, found)?;
    Ok(Some(verdict))
}

// The verdict on what was printed.
fn find_verdict(alloc: Global, script: &Script, printed: &Printed) -> Result<Verdict, NoMemory>
    requires known { Each (λ r. OpensKnown r.statement) script.now.records }
    ensures { IfOk result (λ verdict. IsVerdict script.now printed.now verdict) }
{
    if has_session_report(printed.lines.as_slice()) {
        return find_in_replay(alloc, script, printed);
    }
    match find_in_run(alloc, script, printed)? {
        Some(verdict) => Ok(verdict),
        None => find_in_replay(alloc, script, printed),
    }
}

/// The verdict on a text.
pub fn audit(alloc: Global, script: &Script, text: &[u8]) -> Result<Verdict, NoMemory>
    requires { IsLawful script.now }
    ensures verdict { IfOk result (λ verdict. IsAudit script.now text.now verdict) }
    ensures sound { IfOk result
        (λ verdict. (verdict ≡ verdicts.Sound) ↔ IsSoundText script.now text.now) }
{
    let printed = match read_text(alloc, script, text) {
        Ok(printed) => printed,
        Err(TextRefusal::At { line }) => {
            return Ok(Verdict::Unsound {
                line,
                why: Why::Text,
            });
        }
        Err(TextRefusal::NoMemory) => return Err(NoMemory),
    };
    find_verdict(alloc, script, &printed)
}
