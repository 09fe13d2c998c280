//! The loop over the records of a text.

ghost use Rattle.std.specs.Prelude.{◌≡◌, [], List, IfErr, IfOk, false, option_map};
ghost use Rattle.hg_script.specs.Lawful.{IsLawful};
ghost use Rattle.hg_base.specs.declared.line.Printed.{Printed};
ghost use Rattle.hg_report.specs.declared.refusal.TextRefusal.TheVariants as refusal;
ghost use Rattle.hg_report.specs.Readable.{IsTextOf, TellsRefusal};
ghost use Rattle.hg_records.specs.Bytes.{record_bytes};
ghost use Rattle.hg_report.specs.Fields.{fields_of, parted};
ghost use Rattle.hg_transcript.specs.Piece.{piece_fields};
ghost use Rattle.hg_report.specs.Progress.{Begins, Takes, finished};
ghost use Rattle.hg_base.specs.declared.line.Line.{Line};
ghost use Rattle.hg_base.specs.declared.line.Totals.{Totals};

use crate::fields::part;
use crate::progress::{Open, Progress};
use crate::refusal::TextRefusal;
use hg_base::{NoMemory, Printed};
use hg_script::Script;
use hg_transcript::Piece;
use std::alloc::Global;

// The bytes after the record that says this, if they begin with it. Its text is made in `text`.
fn behind<'a>(
    script: &Script,
    piece: &Piece,
    text: &mut Vec<u8>,
    bytes: &'a [u8],
) -> Result<Option<&'a [u8]>, NoMemory>
    ensures { IfOk result (λ o.
        Begins bytes.now (record_bytes (piece_fields script.now.tables piece.now))
        (option_map (λ s. s.now) o)) }
{
    text.clear();
    piece.write(text, script.tables())?;
    Ok(bytes.strip_prefix(text))
}

// Takes the record at the start of the bytes, which has these fields, and gives the bytes after it. Its text is made in `text`.
fn take<'a>(
    alloc: Global,
    script: &Script,
    progress: &mut Progress,
    row: &[&[u8]],
    text: &mut Vec<u8>,
    bytes: &'a [u8],
) -> Result<Option<&'a [u8]>, NoMemory>
    ensures { IfOk result (λ o.
        Takes script.now progress.old (fields_of row.now) bytes.now progress.new
        (option_map (λ s. s.now) o)) }
{
    let Some(piece) = progress.last.guess(alloc, script, row)? else {
        return Ok(None);
    };
    match behind(script, &piece, text, bytes) {
        Ok(Some(rest)) => {
            progress.take(alloc, piece)?;
            Ok(Some(rest))
        }
        Ok(None) => Ok(None),
        Err(e) => Err(e),
    }
}

fn refused(line: u64) -> TextRefusal
    ensures { result ≡ refusal.At line }
{
    TextRefusal::At { line }
}

// What was printed, if all totals have come.
fn finish(progress: Progress, line: u64) -> Result<Printed, TextRefusal>
    ensures done { IfOk result (λ printed. progress ≡ finished printed.lines printed.totals) }
    ensures refused { IfErr result (λ e.
        (e ≡ refusal.At line) ×
        ((lines : List Line) (totals : Totals) → progress ≡ finished lines totals → ⊥)) }
{
    if let Open::Totals { index, totals } = progress.last {
        if index == 6 {
            return Ok(Printed {
                lines: progress.lines,
                totals,
            });
        }
    }
    Err(refused(line))
}

// Takes the record at the start of the bytes, and gives those after it.
fn step<'a>(
    alloc: Global,
    script: &Script,
    progress: &mut Progress,
    fields: &mut Vec<&'a [u8]>,
    text: &mut Vec<u8>,
    bytes: &'a [u8],
) -> Result<Option<&'a [u8]>, NoMemory>
    ensures { IfOk result (λ o.
        Takes script.now progress.old (parted false [] bytes.now) bytes.now progress.new
        (option_map (λ s. s.now) o)) }
{
    part(bytes, fields)?;
    take(alloc, script, progress, fields, text, bytes)
}

// The bytes of a shortest reply, as `1,2,gone` and its line feed.
const SHORTEST_BYTES: usize = 9;

// How many lines such a text has: a reply to each record, where the bytes are enough for so many.
fn usual_lines(script: &Script, bytes: &[u8]) -> usize {
    script.record_count().min(bytes.len() / SHORTEST_BYTES)
}

/// Reads a text: what was printed, or the first record with which the bytes do not begin a text.
pub fn read_text(alloc: Global, script: &Script, bytes: &[u8]) -> Result<Printed, TextRefusal>
    requires lawful { IsLawful script.now }
    ensures text { IfOk result (λ printed. IsTextOf script.now bytes.now printed) }
    ensures only { IfOk result
        (λ printed. (other : Printed) → IsTextOf script.now bytes.now other → other ≡ printed) }
    ensures refused { IfErr result (TellsRefusal script.now bytes.now) }
{
    let mut progress = Progress::with_room(alloc, usual_lines(script, bytes))?;
    let mut fields = Vec::new(alloc);
    let mut text = Vec::new(alloc);
    let mut rest = bytes;
    for line in 1..bytes.len() as u64 + 2 {
        if rest.is_empty() {
            return finish(progress, line);
        }
        match step(alloc, script, &mut progress, &mut fields, &mut text, rest)? {
            Some(more) => rest = more,
            None => return Err(refused(line)),
        }
    }
    unreachable!()
}
