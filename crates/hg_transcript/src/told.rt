//! Lines that only proofs see.

ghost use Rattle.std.specs.Prelude.{◌≡◌, ◌++◌, ◌∷◌, [], List};
ghost use base.Fml.{ftrue};
ghost use Rattle.hg_base.specs.declared.line.Line.{Line};
ghost use Rattle.hg_transcript.specs.LineCode.{lines_code};

use hg_base::Line;
use std::marker::Model;

/// The lines that a text was made of, in order, which nothing but clauses can see: a value has no bytes, and its calls do
/// nothing when they run. A `Transcript` ties them to its text.
#[derive(Drop)]
pub(crate) struct ToldLines {
    ghost lines: { List Line } by { lines_code },
}

impl Model for ToldLines {
    ghost also_owns = { λ _. ftrue };
}

// It owns nothing, so it may go to another thread.
unsafe impl Send for ToldLines {}

impl ToldLines {
    /// No lines.
    pub(crate) fn new() -> ToldLines
        ensures { result.lines ≡ [] }
    {
        ToldLines {}
    }

    /// These lines and then one more.
    pub(crate) fn then(&self, _line: &Line) -> ToldLines
        ensures { result.lines ≡ self.now.lines ++ _line.now ∷ [] }
    {
        ToldLines {}
    }

    /// These lines and then the others.
    pub(crate) fn followed(&self, _others: &ToldLines) -> ToldLines
        ensures { result.lines ≡ self.now.lines ++ _others.now.lines }
    {
        ToldLines {}
    }
}
