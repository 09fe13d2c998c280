//! What a conversation goes on with between two records: the engine with its crew, and what is known of the records that broke no rule.
//!
//!     record  ->  judge  ->  bad, declared
//!                        ->  statement  ->  (a round, if one is due)  ->  session or collector  ->  reply
//!
//! No record is kept, and of each answer only its text. The engine has all sessions and tables that there may be.

ghost use Rattle.std.specs.Prelude.{◌≡◌, ◌-◌, ◌<◌, ◌^◌, [], List, map, true, false, IfOk, IfErr, OnOk};
ghost use Rattle.csv.specs.Records.{fields_of};
ghost use Rattle.hg_base.specs.declared.statement.Record.{Record};
ghost use Rattle.hg_base.specs.Transcript.{history_of};
ghost use Rattle.hg_talk.specs.Framing.{Sent};
ghost use Rattle.hg_talk.specs.Framing as framing;
ghost use Rattle.hg_talk.specs.declared.trouble.Stop.{Stop};
ghost use Rattle.hg_talk.specs.Heard.{sent_by};
ghost use Rattle.hg_words.specs.Options.{AreWithin};
ghost use Rattle.hg_exact.specs.AnswerText.{plain_answered};
ghost use Rattle.hg_exact.specs.Conversed.{Answered, conversed, asks_totals as does_ask};
ghost use Rattle.hg_exact.specs.Due.{said_so_far};
ghost use Rattle.hg_exact.specs.SoFar.{AreFinal};

use crate::count::count_live;
use crate::crew::Crew;
use crate::engine::open_for_all;
use crate::live::end_live;
use crate::saying::asks_totals;
use crate::upkeep::Upkeep;
use csv::ByteRecord;
use hg_base::{NoMemory, Record, Totals};
use hg_script::{Judge, Judged};
use hg_session::Engine;
use hg_talk::{Heard, Stop};
use hg_transcript::{add_note, add_note_with, totals_text};
use hg_words::Options;
use std::alloc::Global;
use std::sync::Wait;
use std::thread::Threads;

/// What a conversation goes on with.
#[derive(Drop)]
pub(crate) struct Desk {
    pub(crate) engine: Engine,
    pub(crate) crew: Crew,
    // the place of the session that ran last
    pub(crate) last: usize,
    pub(crate) judge: Judge,
    // how many records there were
    pub(crate) place: u64,
    pub(crate) upkeep: Upkeep,
    pub(crate) long: u64,
    alloc: Global,
}

impl Desk {
    ghost use Rattle.hg_run.specs.Desk.{HasEnded, IsGoing, IsHearing, IsSaid};

    /// An engine just opened, before the first record.
    pub(crate) fn new(alloc: Global, options: &Options) -> Result<Desk, NoMemory>
        requires { AreWithin options.now }
        ensures { IfOk result (λ d. IsGoing d [] []) }
    {
        let (engine, crew) = open_for_all(alloc, options.buckets)?;
        Ok(Desk {
            engine,
            crew,
            last: 0,
            judge: Judge::new(alloc),
            place: 0,
            upkeep: Upkeep::new(options.rounds > 0),
            long: options.long,
            alloc,
        })
    }

    // Makes the answer to a record.
    fn say_record<R: Threads + Wait + Sync>(
        &mut self,
        rt: &R,
        row: &ByteRecord,
        text: &mut Vec<u8>,
    ) -> Result<(), Stop>
        requires going { (sent : List Sent) × (answers : List Answered) ×
            IsGoing self.old sent answers }
        requires other { does_ask (fields_of row.now) ≡ false }
        requires few { self.old.place < 2 ^ 64 - 1 }
        ensures said { OnOk result ((sent : List Sent) (answers : List Answered) →
            IsGoing self.old sent answers →
            IsSaid self.new sent answers (framing.Record (fields_of row.now)) text.old.items
            text.new.items) }
        ensures ended { IfErr result (λ stop. (sent : List Sent) (answers : List Answered) →
            IsGoing self.old sent answers → HasEnded self.new sent answers stop) }
    {
        let place = self.place + 1;
        match self.judge.hear(self.alloc, place, row)? {
            Judged::Broken(code) => {
                let Ok(word) = format!(in self.alloc; "{code}") else {
                    return Err(Stop::NoMemory);
                };
                self.place = place;
                Ok(add_note_with(text, b"bad", place, word.as_bytes())?)
            }
            Judged::Declared => {
                self.place = place;
                Ok(add_note(text, b"declared", place)?)
            }
            Judged::Asked { session, statement } => {
                let record = Record {
                    place,
                    session,
                    statement,
                };
                self.say_reply(rt, record, text)
            }
        }
    }

    // Makes the answer to a record that asks for the totals.
    fn say_totals<R: Wait>(
        &mut self,
        rt: &R,
        row: &ByteRecord,
        text: &mut Vec<u8>,
    ) -> Result<(), Stop>
        requires going { (sent : List Sent) × (answers : List Answered) ×
            IsGoing self.old sent answers }
        requires asks { does_ask (fields_of row.now) ≡ true }
        requires few { self.old.place < 2 ^ 64 - 1 }
        ensures said { OnOk result ((sent : List Sent) (answers : List Answered) →
            IsGoing self.old sent answers →
            IsSaid self.new sent answers (framing.Record (fields_of row.now)) text.old.items
            text.new.items) }
        ensures ended { IfErr result (λ stop. (sent : List Sent) (answers : List Answered) →
            IsGoing self.old sent answers → HasEnded self.new sent answers stop) }
    {
        let totals = count_live(rt, &self.engine, &mut self.crew, self.last);
        self.place += 1;
        Ok(totals_text(self.alloc, &totals, text)?)
    }

    /// Makes the answer to what was sent.
    pub(crate) fn say<R: Threads + Wait + Sync>(
        &mut self,
        rt: &R,
        asked: Heard<'_>,
        text: &mut Vec<u8>,
    ) -> Result<(), Stop>
        requires { (sent : List Sent) × (answers : List Answered) ×
            IsGoing self.old sent answers }
        ensures said { OnOk result ((sent : List Sent) (answers : List Answered) →
            IsGoing self.old sent answers →
            IsSaid self.new sent answers (sent_by asked.entry) text.old.items text.new.items) }
        ensures ended { IfErr result (λ stop. (sent : List Sent) (answers : List Answered) →
            IsGoing self.old sent answers → HasEnded self.new sent answers stop) }
    {
        if self.place == u64::MAX {
            return Err(Stop::Spent);
        }
        match asked {
            Heard::Record(row) => {
                if asks_totals(row) {
                    self.say_totals(rt, row, text)
                } else {
                    self.say_record(rt, row, text)
                }
            }
            Heard::Long => {
                self.place += 1;
                Ok(add_note_with(text, b"bad", self.place, b"Long")?)
            }
        }
    }

    /// Rolls back what is open, settles and counts.
    pub(crate) fn end<R: Wait>(self, rt: &R) -> Totals
        requires { (sent : List Sent) × (answers : List Answered) × (why : Stop) ×
            HasEnded self sent answers why }
        ensures exact { (sent : List Sent) (answers : List Answered) (why : Stop) →
            HasEnded self sent answers why →
            map plain_answered answers ≡ conversed sent }
        ensures totals { (sent : List Sent) (answers : List Answered) →
            IsGoing self sent answers →
            AreFinal (said_so_far sent answers) (history_of (said_so_far sent answers))
            result }
    {
        let Desk {
            engine,
            crew,
            last,
            ..
        } = self;
        let totals = end_live(rt, &engine, crew, last);
        engine.free();
        totals
    }
}
