//! What a driver made of a script.

ghost use Rattle.std.specs.Prelude.{◌≡◌, length, IfOk, IsOkAnd};
ghost use Rattle.hg_base.specs.Script.{Script};
ghost use Rattle.hg_base.specs.Text.{text_of};
ghost use Rattle.hg_records.specs.Bytes.{record_bytes};
ghost use Rattle.hg_rule.specs.New.{EachFrom};
ghost use Rattle.hg_session.specs.Engines.{engine_sizes};
ghost use Rattle.hg_session.specs.Finished.{IsClosed};
ghost use Rattle.hg_run.specs.Closed.{IsClosedBy};
ghost use Rattle.hg_run.specs.Collecting.{AreCollectors};

use crate::crew::Crew;
use crate::end::close;
use crate::free::free_sessions;
use hg_base::{NoMemory, Totals};
use hg_session::Engine;
use hg_transcript::Transcript;
use std::sync::Wait;

/// The lines of a replay or a run, and its totals.
#[derive(Drop)]
pub(crate) struct Ended<'a> {
    pub(crate) transcript: Transcript<'a>,
    pub(crate) totals: Totals,
}

impl<'a> Ended<'a> {
    /// The text of the lines, and then of the totals.
    pub(crate) fn into_text(self) -> Result<Vec<u8>, NoMemory>
        ensures { (script : Script) → script.tables ≡ self.entry.transcript.tables →
            IfOk result (λ text. text.items ≡
            text_of record_bytes script
            (record { lines = self.entry.transcript.lines; totals = self.entry.totals })) }
    {
        self.transcript.with_totals(&self.totals)
    }
}

/// Frees a crew that is not closed, since memory ran out.
pub(crate) fn free_crew(crew: Crew) {
    free_sessions(crew.sessions);
    crew.collectors.free();
}

/// Closes a crew that a driver left, and gives the lines with the totals. Where the driver ran out of memory, the crew is freed.
pub(crate) fn close_crew<'a, R: Wait>(
    rt: &R,
    engine: &Engine,
    crew: Crew,
    driven: Result<Transcript<'a>, NoMemory>,
) -> Result<Ended<'a>, NoMemory>
    requires many { length crew.sessions.items ≡ (engine_sizes engine.now).sessions }
    requires closed { EachFrom (IsClosed engine.now) 1 crew.sessions.items }
    requires collectors { AreCollectors engine.now crew.collectors }
    ensures { IfOk result (λ o. IsOkAnd driven.entry (λ t. t ≡ o.transcript) ×
        IsClosedBy engine.now crew.sessions.items crew.collectors o.totals) }
{
    match driven {
        Ok(transcript) => {
            let totals = close(rt, engine, crew.sessions, crew.collectors);
            Ok(Ended { transcript, totals })
        }
        Err(NoMemory) => {
            free_crew(crew);
            Err(NoMemory)
        }
    }
}
