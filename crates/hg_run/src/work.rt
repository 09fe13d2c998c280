//! A session's worker.
//!
//! It runs the records of its session in order, and asks the gate before each. A `gc` is left to the collectors. At the end it
//! rolls back what is open, or closes its cursor. If it runs out of memory it goes no further, does the same and says so.

ghost use Rattle.std.specs.Prelude.{◌≡◌, ◌+◌, ◌<◌, ◌≤◌, IfOk, OnOk};
ghost use Rattle.hg_session.specs.Engines.{engine_sizes};
ghost use Rattle.hg_session.specs.Sessions.{IsOf, number_of, left_of};
ghost use Rattle.hg_run.specs.Asked.{IsOnTables, MayAsk};
ghost use Rattle.hg_run.specs.Working.{HasTaken};

use crate::end::close_one;
use crate::replay::asked;
use crate::reply::{ask, inside};
use hg_base::{Answer, Gate, Line, NoMemory, Record, Reply, Statement};
use hg_script::RecordList;
use hg_session::{Engine, Session};
use hg_transcript::Transcript;
use std::sync::Wait;

/// A session with the records that it has to run, and the lines that it has written.
#[derive(Drop)]
pub(crate) struct Worker<'a> {
    pub(crate) session: Session,
    pub(crate) records: RecordList<'a>,
    pub(crate) transcript: Transcript<'a>,
    pub(crate) refused: bool,
}

// Answers a statement of a session whose thread has no collector.
fn answer_beside<R: Wait>(
    rt: &R,
    engine: &Engine,
    session: &mut Session,
    statement: Statement,
) -> Result<Reply, NoMemory>
    requires own { IsOf engine.now session.old }
    requires left { 0 < left_of session.old }
    requires may { MayAsk session.old statement }
    requires tables { IsOnTables (engine_sizes engine.now).tables statement }
    ensures taken { IfOk result (λ reply.
        HasTaken (engine_sizes engine.now).buckets session.old statement reply session.new) }
    ensures left { left_of session.old ≤ left_of session.new + 1 }
    ensures number { number_of session.new ≡ number_of session.old }
    ensures own { IsOf engine.now session.new }
{
    match asked(&statement) {
        Some(_) => Ok(inside(Answer::Beside)),
        None => ask(rt, engine, session, statement),
    }
}

impl<'a> Worker<'a> {
    ghost use Rattle.std.specs.Prelude.{true, false, []};
    ghost use Rattle.hg_base.specs.declared.statement.Record.{Record};
    ghost use Rattle.hg_run.specs.Working.{IsReady, IsHired, HasEnded, HasAnswered, HasStepped, HasRun};

    // Answers a record, and writes its line.
    fn answer<R: Wait>(&mut self, rt: &R, engine: &Engine, asked: Record) -> Result<(), NoMemory>
        requires own { IsOf engine.now self.old.session }
        requires left { 0 < left_of self.old.session }
        requires may { MayAsk self.old.session asked.statement }
        requires tables { IsOnTables (engine_sizes engine.now).tables asked.statement }
        ensures answered { OnOk result
            (HasAnswered (engine_sizes engine.now).buckets asked self.old self.new) }
        ensures left { left_of self.old.session ≤ left_of self.new.session + 1 }
        ensures number { number_of self.new.session ≡ number_of self.old.session }
        ensures kept { (self.new.records ≡ self.old.records) ×
            (self.new.refused ≡ self.old.refused) }
        ensures tables { self.new.transcript.tables ≡ self.old.transcript.tables }
        ensures own { IsOf engine.now self.new.session }
    {
        let reply = answer_beside(rt, engine, &mut self.session, asked.statement)?;
        let line = Line {
            session: asked.session,
            place: asked.place,
            reply,
        };
        self.transcript.push(&line)
    }

    // Runs the next record, its session's by that number, if one is left.
    fn step<G: Gate, R: Wait>(
        &mut self,
        rt: &R,
        engine: &Engine,
        gate: &G,
        number: u32,
    ) -> Result<bool, NoMemory>
        requires hired { IsReady engine.now self.old }
        ensures more { IfOk result
            (λ more. more ≡ true → (r : Record) × HasStepped engine.now r self.old self.new) }
        ensures over { IfOk result
            (λ more. more ≡ false → (self.old.records ≡ []) × (self.new ≡ self.old)) }
        ensures number { number_of self.new.session ≡ number_of self.old.session }
        ensures kept { self.new.refused ≡ self.old.refused }
        ensures tables { self.new.transcript.tables ≡ self.old.transcript.tables }
        ensures own { IsOf engine.now self.new.session }
    {
        match self.records.take_next()? {
            Some(record) => {
                gate.at(rt, record.session, number);
                self.answer(rt, engine, record)?;
                Ok(true)
            }
            None => Ok(false),
        }
    }

    // Runs the records.
    fn run<G: Gate, R: Wait>(&mut self, rt: &R, engine: &Engine, gate: &G) -> Result<(), NoMemory>
        requires hired { IsHired engine.now self.old }
        ensures ran { OnOk result (HasRun (engine_sizes engine.now).buckets self.old self.new) }
        ensures number { number_of self.new.session ≡ number_of self.old.session }
        ensures tables { self.new.transcript.tables ≡ self.old.transcript.tables }
        ensures willing { self.new.refused ≡ false }
        ensures own { IsOf engine.now self.new.session }
    {
        let mut number = 1;
        while self.step(rt, engine, gate, number)? {
            number += 1;
        }
        Ok(())
    }

    /// Runs the records of its session, and rolls back what is open then, or closes its cursor.
    pub(crate) fn work<G: Gate, R: Wait>(&mut self, rt: &R, engine: &Engine, gate: &G)
        requires { IsHired engine.now self.old }
        ensures { HasEnded engine.now self.old self.new }
    {
        if self.run(rt, engine, gate).is_err() {
            self.refused = true;
        }
        close_one(rt, engine, &mut self.session);
    }
}
