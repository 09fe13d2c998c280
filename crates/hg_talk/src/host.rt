//! A host: it answers records.

ghost use Rattle.std.specs.Prelude.{◌≡◌, ◌++◌, ◌∷◌, [], List, ℕ, IfErr, OnErr, OnOk};
ghost use Rattle.std.specs.Thread.{IsSync};
ghost use Rattle.hg_talk.specs.Heard.{sent_by};
ghost use Rattle.hg_talk.specs.Talking.{Exchange};
ghost use Rattle.hg_talk.specs.declared.trouble.Stop.{Stop};

use crate::heard::Heard;
use crate::trouble::Stop;
use std::sync::Wait;
use std::thread::Threads;

/// It answers records, one after the other.
pub trait Host {
    /// What was heard so far, each with the bytes of its answer.
    ghost heard: { Self → List Exchange };

    /// It may be asked.
    ghost ready: { Self → Type 0 };

    /// It has stopped, for this reason.
    ghost stopped: { Self → Stop → Type 0 };

    /// Adds the answer after the bytes of `into`. If the host stops, the record was not heard, and `into` is as before.
    fn answer<R: Threads + Wait + Sync>(
        &mut self,
        rt: &R,
        asked: Heard<'_>,
        into: &mut Vec<u8>,
    ) -> Result<(), Stop>
        // what the bound `Sync` says, which an `impl` is told by a clause alone
        requires sync { IsSync R.row }
        requires ready { ready self.old }
        ensures heard { OnOk result ((text : List ℕ) × (into.new.items ≡ into.old.items ++ text)
            × (heard self.new ≡
            heard self.old ++ (record { asked = sent_by asked.entry; answer = text }) ∷ [])) }
        ensures ready { OnOk result (ready self.new) }
        ensures kept { OnErr result (into.new.items ≡ into.old.items) }
        ensures unheard { OnErr result (heard self.new ≡ heard self.old) }
        ensures stopped { IfErr result (stopped self.new) };
}
