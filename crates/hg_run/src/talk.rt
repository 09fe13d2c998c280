//! The host of a conversation: what it says is what its desk makes of each record.

ghost use Rattle.std.specs.Prelude.{◌≡◌, IfOk};
ghost use Rattle.hg_words.specs.Options.{AreWithin};

use crate::desk::Desk;
use hg_base::{NoMemory, Totals};
use hg_talk::{Heard, Host, Minutes, Said, Stop};
use hg_words::Options;
use std::alloc::Global;
use std::sync::Wait;
use std::thread::Threads;

/// The host of a conversation.
#[derive(Drop)]
pub(crate) struct Talk {
    desk: Desk,
    // the answer that is made
    answer: Vec<u8>,
    // what was heard and answered, for clauses alone
    minutes: Minutes,
}

impl Talk {
    ghost use Rattle.std.specs.Prelude.{[], map};
    ghost use Rattle.hg_records.specs.Bytes.{record_bytes};
    ghost use Rattle.hg_talk.specs.Talking.{asked_in};
    ghost use Rattle.hg_talk.specs.declared.trouble.Stop.{Stop};
    ghost use Rattle.hg_exact.specs.AnswerText.{AreAnswers};
    ghost use Rattle.hg_run.specs.Conversing.{IsTold};
    ghost use Rattle.hg_run.specs.Desk.{IsReady, IsThrough};

    /// Nothing was heard.
    pub(crate) fn new(alloc: Global, options: &Options) -> Result<Talk, NoMemory>
        requires { AreWithin options.now }
        ensures heard { IfOk result (λ t. t.minutes.exchanges ≡ []) }
        ensures ready { IfOk result IsReady }
    {
        Ok(Talk {
            desk: Desk::new(alloc, options)?,
            answer: Vec::new(alloc),
            minutes: Minutes::new(),
        })
    }

    /// Rolls back what is open, settles and counts. What was heard was answered exactly, also where no more may be heard.
    pub(crate) fn end<R: Wait>(self, rt: &R) -> Totals
        requires { (why : Stop) × IsThrough self why }
        ensures exact { AreAnswers record_bytes (asked_in self.minutes.exchanges)
            (map (λ e. e.answer) self.minutes.exchanges) }
        ensures told { IsReady self → IsTold self.minutes.exchanges result }
    {
        let Talk { desk, .. } = self;
        desk.end(rt)
    }
}

impl Host for Talk {
    ghost use Rattle.hg_run.specs.Desk.{IsReady, IsThrough};

    ghost heard = { λ t. t.minutes.exchanges };

    ghost ready = { IsReady };

    ghost stopped = { IsThrough };

    fn answer<R: Threads + Wait + Sync>(
        &mut self,
        rt: &R,
        asked: Heard<'_>,
        into: &mut Vec<u8>,
    ) -> Result<(), Stop> {
        self.answer.clear();
        match self.desk.say(rt, asked, &mut self.answer) {
            Ok(()) => {}
            Err(stop) => return Err(stop),
        }
        if into.extend_from_slice(&self.answer).is_err() {
            return Err(Stop::NoMemory);
        }
        self.minutes = self.minutes.then(&Said {
            asked,
            answer: &self.answer,
        });
        Ok(())
    }
}
