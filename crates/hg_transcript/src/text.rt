//! The text of a reply, of the totals, and of all that was printed.

ghost use Rattle.std.specs.Prelude.{◌≡◌, ◌++◌, IfOk, OnErr, OnOk};
ghost use Rattle.std.specs.List.{flat_map};
ghost use Rattle.hg_base.specs.Text.{line_records, text_of, totals_records};
ghost use Rattle.hg_records.specs.Bytes.{record_bytes};

use crate::line::{write_line, write_lines, write_totals};
use hg_base::{Line, NoMemory, Printed, Totals};
use hg_script::Script;
use std::alloc::Global;

// Most replies have one record of fewer bytes than this.
const USUAL_BYTES: usize = 64;

/// Adds the records of a reply after the bytes of `into`, which a refusal leaves as they were.
pub fn reply_text(
    alloc: Global,
    script: &Script,
    line: &Line,
    into: &mut Vec<u8>,
) -> Result<(), NoMemory>
    ensures text { OnOk result (into.new.items ≡
        into.old.items ++ flat_map record_bytes (line_records script.now.tables line.now)) }
    ensures refused { OnErr result (into.new.items ≡ into.old.items) }
{
    let mut text = Vec::with_capacity(alloc, USUAL_BYTES)?;
    write_line(&mut text, script.tables(), line)?;
    into.extend_from_slice(&text)?;
    Ok(())
}

/// Adds the records of the totals after the bytes of `into`, which a refusal leaves as they were.
pub fn totals_text(alloc: Global, totals: &Totals, into: &mut Vec<u8>) -> Result<(), NoMemory>
    ensures text { OnOk result
        (into.new.items ≡ into.old.items ++ flat_map record_bytes (totals_records totals.now)) }
    ensures refused { OnErr result (into.new.items ≡ into.old.items) }
{
    let mut text = Vec::new(alloc);
    write_totals(&mut text, totals)?;
    into.extend_from_slice(&text)?;
    Ok(())
}

/// The text of all lines and then the totals.
pub fn text_of(alloc: Global, script: &Script, printed: &Printed) -> Result<Vec<u8>, NoMemory>
    ensures { IfOk result (λ text. text.items ≡ text_of record_bytes script.now printed.now) }
{
    let mut text = Vec::new(alloc);
    write_lines(&mut text, script.tables(), printed.lines.as_slice())?;
    write_totals(&mut text, &printed.totals)?;
    Ok(text)
}
