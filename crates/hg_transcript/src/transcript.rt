//! Lines that are kept as their text.

ghost use Rattle.std.specs.Prelude.{◌≡◌, ◌++◌, ◌∷◌, [], IfOk, OnErr, OnOk};
ghost use Rattle.hg_base.specs.Script.{Script};
ghost use Rattle.hg_base.specs.Text.{text_of};
ghost use Rattle.hg_records.specs.Bytes.{record_bytes};
ghost use Rattle.hg_transcript.specs.LinesText.{lines_text};

use crate::line::{write_records, write_totals};
use crate::told::ToldLines;
use crate::usual::add_usual;
use hg_base::{Line, NoMemory, Totals};
use hg_script::{Script, Table};
use std::alloc::Global;
use std::marker::Model;

/// The text of lines, over the tables of a script. Each line is written when it comes, and none is kept but as its text.
/// Clauses see the lines.
#[derive(Drop)]
pub struct Transcript<'a> {
    tables: &'a [Table],
    text: Vec<u8>,
    // the text of a line that is not usual
    scratch: Vec<u8>,
    lines: ToldLines,
}

impl<'a> Model for Transcript<'a> {
    ghost use Rattle.std.specs.Prelude.{◌≡◌};
    ghost use Rattle.hg_transcript.specs.LinesText.{Shown, lines_text};

    ghost Value = { Shown };

    ghost view = { λ t. record { tables = t.tables.now; lines = t.lines.lines } };

    ghost invariant = { λ t. t.text.items ≡ lines_text t.tables.now t.lines.lines };
}

// Adds the records of a line, which are written to `scratch` first if the line is not usual. A refusal leaves the text as before.
fn add_whole(
    text: &mut Vec<u8>,
    scratch: &mut Vec<u8>,
    tables: &[Table],
    line: &Line,
) -> Result<(), NoMemory>
    ensures added { OnOk result
        (text.new.items ≡ text.old.items ++ lines_text tables.now (line.now ∷ [])) }
    ensures kept { OnErr result (text.new.items ≡ text.old.items) }
{
    if add_usual(text, line)? {
        return Ok(());
    }
    scratch.clear();
    write_records(scratch, tables, line)?;
    text.extend_from_slice(scratch)?;
    Ok(())
}

impl<'a> Transcript<'a> {
    /// No lines yet, over the tables of the script.
    pub fn new(alloc: Global, script: &'a Script) -> Transcript<'a>
        ensures { result ≡ record { tables = script.now.tables; lines = [] } }
    {
        Transcript {
            tables: script.tables(),
            text: Vec::new(alloc),
            scratch: Vec::new(alloc),
            lines: ToldLines::new(),
        }
    }

    /// Adds a line. A refusal leaves the lines as before.
    pub fn push(&mut self, line: &Line) -> Result<(), NoMemory>
        ensures ok { OnOk result
            (self.new ≡ record self.old { lines = self.old.lines ++ line.now ∷ [] }) }
        ensures err { OnErr result (self.new ≡ self.old) }
    {
        add_whole(&mut self.text, &mut self.scratch, self.tables, line)?;
        self.lines = self.lines.then(line);
        Ok(())
    }

    /// Adds the lines of another transcript over the same tables. A refusal leaves the lines as before.
    pub fn append(&mut self, other: &Transcript<'_>) -> Result<(), NoMemory>
        requires { other.now.tables ≡ self.old.tables }
        ensures ok { OnOk result
            (self.new ≡ record self.old { lines = self.old.lines ++ other.now.lines }) }
        ensures err { OnErr result (self.new ≡ self.old) }
    {
        self.text.extend_from_slice(&other.text)?;
        self.lines = self.lines.followed(&other.lines);
        Ok(())
    }

    /// The text of the lines, and then the totals.
    pub fn with_totals(self, totals: &Totals) -> Result<Vec<u8>, NoMemory>
        ensures { (script : Script) → script.tables ≡ self.entry.tables
            → IfOk result (λ text. text.items ≡
            text_of record_bytes script
            (record { lines = self.entry.lines; totals = totals.now })) }
    {
        let mut text = self.text;
        write_totals(&mut text, totals)?;
        Ok(text)
    }
}
