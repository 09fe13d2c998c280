//! The records of one session.

ghost use Rattle.std.specs.Prelude.{◌≡◌, ◌∷◌, ℕ, List, [], IfOk, IfSome, Some, None, OnErr, OnOk};
ghost use Rattle.hg_base.specs.Transcript.{of_session};
ghost use Rattle.hg_base.specs.declared.statement.Record.{Record};

use crate::script::Script;
use hg_base::{NoMemory, Record};
use std::marker::Model;

/// The records of a session that are still to come, in the order in which they stand. It is lent by a script, and each is made
/// when it is taken.
#[derive(Drop)]
pub struct RecordList<'a> {
    script: &'a Script,
    session: u32,
    // the index of the next record, or `NOWHERE`
    at: u32,
}

impl<'a> Model for RecordList<'a> {
    ghost use Rattle.std.specs.Prelude.{List, drop};
    ghost use Rattle.hg_base.specs.Transcript.{of_session};
    ghost use Rattle.hg_base.specs.declared.statement.Record.{Record};
    ghost use Rattle.hg_records.specs.Links.{StandsAt};

    ghost Value = { List Record };

    ghost view = { λ l. of_session l.session (drop l.at l.script.now.records) };

    ghost invariant = { λ l. StandsAt l.session l.at l.script.now.records };
}

impl<'a> RecordList<'a> {
    pub(crate) fn new(script: &'a Script, session: u32) -> RecordList<'a>
        ensures { result ≡ of_session session script.now.records }
    {
        RecordList {
            script,
            session,
            at: script.first_of(session),
        }
    }

    /// The next record, made anew: it takes no memory but for a row with a text or of more than two numbers. A refusal leaves all that are to
    /// come.
    pub fn take_next(&mut self) -> Result<Option<Record>, NoMemory>
        ensures some { IfOk result (λ next. IfSome next (λ r. self.old ≡ r ∷ self.new)) }
        ensures none { IfOk result (λ next. next ≡ None → (self.old ≡ []) × (self.new ≡ [])) }
        ensures err { OnErr result (self.new ≡ self.old) }
    {
        let i = self.at as usize;
        if i >= self.script.record_count() {
            return Ok(None);
        }
        let record = self.script.record(i)?;
        self.at = self.script.after(i);
        Ok(Some(record))
    }
}
