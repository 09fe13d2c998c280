//! The answer to a statement that breaks no rule: a round of the collectors if one is due, and then what its session or collector replies.

ghost use Rattle.std.specs.Prelude.{◌≡◌, ◌≤◌, ◌++◌, ◌∷◌, ◌<◌, [], List, suc, length, IfOk, IfErr, IsErrOf, OnErr, OnOk};
ghost use Rattle.hg_base.specs.declared.line.Line.{Line};
ghost use Rattle.hg_base.specs.declared.statement.Record.{Record};
ghost use Rattle.hg_base.specs.Transcript.{of_session};
ghost use Rattle.hg_script.specs.declared.judge.Judged.TheVariants as judged;
ghost use Rattle.hg_script.specs.Fields.{Fields};
ghost use Rattle.hg_script.specs.Lawful.{MayStand};
ghost use Rattle.hg_script.specs.Rules.{is_open, is_reading};
ghost use Rattle.hg_session.specs.Engines.{engine_sizes};
ghost use Rattle.hg_talk.specs.Framing.{Sent};
ghost use Rattle.hg_talk.specs.Framing as framing;
ghost use Rattle.hg_talk.specs.declared.trouble.Stop.{Stop};
ghost use Rattle.hg_exact.specs.Conversed.{Answered};
ghost use Rattle.hg_run.specs.Collecting.{AreCollectors};
ghost use Rattle.hg_run.specs.Live.{HasStopped, IsLive, MayCome};
ghost use Rattle.hg_run.specs.Untold.{HaveTold};

use crate::count::count_live;
use crate::desk::Desk;
use crate::live::{answer_next, collect_unasked};
use crate::saying::add_reply;
use hg_base::{Line, MOST_TABLES, Record, Reply};
use hg_talk::Stop;
use std::sync::Wait;
use std::thread::Threads;

impl Desk {
    ghost use Rattle.hg_run.specs.Desk.{HasEnded, IsHearing, IsSaid};

    // Each collector makes a round, of which nothing is told, if it is time for one.
    fn tidy<R: Threads + Wait + Sync>(&mut self, rt: &R)
        requires live { (records : List Record) × (lines : List Line) ×
            IsLive self.old.engine self.old.crew.sessions.items self.old.last records lines }
        requires collectors { AreCollectors self.old.engine self.old.crew.collectors }
        ensures live { (records : List Record) (lines : List Line) →
            IsLive self.old.engine self.old.crew.sessions.items self.old.last records lines →
            IsLive self.new.engine self.new.crew.sessions.items self.new.last records lines }
        ensures told { (lines : List Line) → HaveTold self.old.crew.collectors lines →
            HaveTold self.new.crew.collectors lines }
        ensures collectors { AreCollectors self.new.engine self.new.crew.collectors }
        ensures engine { self.new.engine ≡ self.old.engine }
        ensures last { self.new.last ≡ self.old.last }
        ensures judge { self.new.judge ≡ self.old.judge }
        ensures place { self.new.place ≡ self.old.place }
    {
        if !self.upkeep.is_due() {
            return;
        }
        collect_unasked(rt, &self.engine, &mut self.crew, self.last, self.long);
        let totals = count_live(rt, &self.engine, &mut self.crew, self.last);
        self.upkeep.rest(totals.left);
    }

    // Answers a statement, after a round if one is due.
    fn reply<R: Threads + Wait + Sync>(&mut self, rt: &R, asked: Record) -> Result<Reply, Stop>
        requires some { 0 < (engine_sizes self.old.engine).buckets }
        requires may { MayCome self.old.engine self.old.crew.sessions.items self.old.last
            asked.session asked.statement }
        requires collectors { AreCollectors self.old.engine self.old.crew.collectors }
        ensures live { IfOk result (λ reply.
            (records : List Record) (lines : List Line) →
            IsLive self.old.engine self.old.crew.sessions.items self.old.last records lines →
            MayStand (is_open asked.session records) (is_reading asked.session records)
            asked.statement →
            IsLive self.new.engine self.new.crew.sessions.items self.new.last
            (records ++ asked ∷ []) (lines ++
            (record { session = asked.session; place = asked.place; reply = reply }) ∷ [])) }
        ensures told { IfOk result (λ reply.
            (lines : List Line) → HaveTold self.old.crew.collectors lines →
            HaveTold self.new.crew.collectors (lines ++
            (record { session = asked.session; place = asked.place; reply = reply }) ∷ [])) }
        ensures stopped { OnErr result ((records : List Record) (lines : List Line) →
            IsLive self.old.engine self.old.crew.sessions.items self.old.last records lines →
            HasStopped self.new.engine self.new.crew.sessions.items self.new.last records lines) }
        ensures spent { IsErrOf result Stop.Spent →
            (records : List Record) (lines : List Line) →
            IsLive self.old.engine self.old.crew.sessions.items self.old.last records lines →
            (engine_sizes self.old.engine).quota ≤
            length (of_session asked.session records) }
        ensures collectors { AreCollectors self.new.engine self.new.crew.collectors }
        ensures engine { self.new.engine ≡ self.old.engine }
        ensures judge { self.new.judge ≡ self.old.judge }
        ensures place { self.new.place ≡ self.old.place }
    {
        self.tidy(rt);
        let i = asked.session as usize - 1;
        let reply = answer_next(
            rt,
            &self.engine,
            &mut self.crew,
            self.last,
            asked,
            self.long,
        );
        self.last = i;
        if let Ok(reply) = &reply {
            self.upkeep.note(reply);
        }
        reply
    }

    // Makes the answer to a statement that breaks no rule.
    pub(crate) fn say_reply<R: Threads + Wait + Sync>(
        &mut self,
        rt: &R,
        asked: Record,
        text: &mut Vec<u8>,
    ) -> Result<(), Stop>
        requires hearing { (sent : List Sent) × (answers : List Answered) × (r : Fields) ×
            IsHearing self.old sent answers r (judged.Asked asked.session asked.statement) ×
            (asked.place ≡ suc (length sent)) }
        ensures said { OnOk result ((sent : List Sent) (answers : List Answered) (r : Fields) →
            IsHearing self.old sent answers r (judged.Asked asked.session asked.statement) →
            asked.place ≡ suc (length sent) →
            IsSaid self.new sent answers (framing.Record r) text.old.items text.new.items) }
        ensures ended { IfErr result (λ stop. (sent : List Sent) (answers : List Answered)
            (r : Fields) →
            IsHearing self.old sent answers r (judged.Asked asked.session asked.statement) →
            asked.place ≡ suc (length sent) → HasEnded self.new sent answers stop) }
    {
        let (session, place) = (asked.session, asked.place);
        prove!(self.judge.tables().len() <= usize::from(MOST_TABLES));
        let reply = self.reply(rt, asked)?;
        self.place = place;
        let line = Line {
            session,
            place,
            reply,
        };
        Ok(add_reply(text, self.judge.tables(), &line)?)
    }
}
