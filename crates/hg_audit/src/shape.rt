//! By which command a text is judged: whether its lines are those of the records, one for each in order.

ghost use Rattle.std.specs.Prelude.{◌≡◌, ◌↔◌, IfOk, IsTrue};
ghost use Rattle.std.specs.List.{list_any};
ghost use Rattle.std.specs.Option.{MatchOption};
ghost use Rattle.hg_base.specs.declared.line.Answer.TheVariants.{Swept};
ghost use Rattle.hg_base.specs.declared.report.Sweep as base;
ghost use Rattle.hg_base.specs.Shape.{IsLineOf, HasShape, IsReportOf};
ghost use Rattle.hg_decide.specs.Audit.{FirstOutOfShape};
ghost use Rattle.hg_audit.specs.Verdict as verdict;

use hg_base::{Answer, Kind, Line, NoMemory, Record, Statement};
use hg_known::Sequence;

/// The command that printed the text.
#[derive(Clone, Copy)]
pub enum Command {
    Replay,
    Run,
}

fn is_session_report(line: &Line) -> bool
    ensures { result ≡ verdict.is_session_report line.now }
{
    line.session != 0 && matches!(&line.reply.answer, Answer::Swept(_))
}

/// Whether a session's record is answered by a report, as only a replay prints it.
pub fn has_session_report(lines: &[Line]) -> bool
    ensures { result ≡ list_any verdict.is_session_report lines.now }
{
    for line in lines {
        if is_session_report(line) {
            return true;
        }
    }
    false
}

pub fn is_report_of(statement: &Statement, kind: Kind) -> bool
    ensures { (sweep : base.Sweep) → sweep.kind ≡ kind →
        (IsTrue result ↔ IsReportOf statement.now (Swept sweep)) }
{
    match statement {
        Statement::Gc(asked) => *asked == kind,
        _ => false,
    }
}

fn is_report(asked: &Record, line: &Line) -> bool
    ensures { IsTrue result ↔ IsReportOf asked.now.statement line.now.reply.answer }
{
    match &line.reply.answer {
        Answer::Swept(sweep) => is_report_of(&asked.statement, sweep.kind),
        _ => false,
    }
}

fn is_line_of(asked: &Record, line: &Line) -> bool
    ensures { IsTrue result ↔ IsLineOf asked.now line.now }
{
    if line.session != asked.session {
        return false;
    }
    if line.place != asked.place {
        return false;
    }
    if asked.session != 0 {
        return true;
    }
    is_report(asked, line)
}

/// The first line that is not that of its record, or that is missing.
pub fn first_out_of_shape(records: &Sequence<'_>, lines: &[Line]) -> Result<Option<usize>, NoMemory>
    ensures { IfOk result (λ found.
        MatchOption found (HasShape records.now lines.now)
        (FirstOutOfShape records.now lines.now)) }
{
    let count = records.len().min(lines.len());
    for k in 0..count {
        let asked = records.record(k)?;
        if !is_line_of(&asked, &lines[k]) {
            return Ok(Some(k));
        }
    }
    if records.len() == lines.len() {
        return Ok(None);
    }
    Ok(Some(count))
}
