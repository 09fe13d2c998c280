//! What a dump reads.

ghost use Rattle.std.specs.Prelude.{◌≡◌, IfOk, OnErr};
ghost use Rattle.hg_dump.specs.Exports.{MayExport};
ghost use Rattle.hg_rule.specs.Facts.{StartsWith};
ghost use Rattle.hg_rule.specs.Seats.{session_view, IsSessionOf};
ghost use Rattle.hg_session.specs.Engines.{engine_board_id, engine_sizes};

use hg_base::{Gate, NoMemory};
use hg_collectors::READER;
use hg_dump::{Tools, export};
use hg_rule::SessionPass;
use hg_script::Script;
use hg_session::Engine;
use std::alloc::Global;
use std::sync::Wait;

/// The tables of an engine, which are those of a script.
#[derive(Drop)]
pub struct Reader<'e, 'a> {
    pub alloc: Global,
    pub engine: &'e Engine,
    pub script: &'a Script,
}

impl<'e, 'a> Reader<'e, 'a> {
    ghost use Rattle.hg_run.specs.Reader.{HasDumped, IsOver, engine_in, script_in};

    /// Appends the dump of the tables at a snapshot, and returns the snapshot. A refusal leaves `into` as it was.
    pub(crate) fn read<R: Wait>(
        &self,
        rt: &R,
        pass: &mut SessionPass,
        into: &mut Vec<u8>,
    ) -> Result<u64, NoMemory>
        requires { MayExport (engine_board_id (engine_in self.now))
            (engine_sizes (engine_in self.now)) pass.old }
        ensures dumped { IfOk result (λ at. HasDumped (engine_in self.now) (script_in self.now) at
            (session_view pass.old) (session_view pass.new) into.old.items into.new.items) }
        ensures starts { StartsWith into.new.items into.old.items }
        ensures refused { OnErr result (into.new.items ≡ into.old.items) }
        ensures over { IsOver (session_view pass.old) (session_view pass.new) }
        ensures own { IsSessionOf (engine_board_id (engine_in self.now))
            (engine_sizes (engine_in self.now)) pass.new }
    {
        let tools = Tools {
            trackers: self.engine.trackers(),
            store: self.engine.store(),
            script: self.script,
        };
        export(rt, self.alloc, &tools, pass, into)
    }

    /// The work of the worker that reads while the others run. It asks the gate before it reads, and after.
    pub(crate) fn work<R: Wait, G: Gate>(
        &self,
        rt: &R,
        gate: &G,
        pass: &mut SessionPass,
        into: &mut Vec<u8>,
    ) -> Result<u64, NoMemory>
        requires { MayExport (engine_board_id (engine_in self.now))
            (engine_sizes (engine_in self.now)) pass.old }
        ensures dumped { IfOk result (λ at. HasDumped (engine_in self.now) (script_in self.now) at
            (session_view pass.old) (session_view pass.new) into.old.items into.new.items) }
        ensures starts { StartsWith into.new.items into.old.items }
        ensures refused { OnErr result (into.new.items ≡ into.old.items) }
        ensures over { IsOver (session_view pass.old) (session_view pass.new) }
        ensures own { IsSessionOf (engine_board_id (engine_in self.now))
            (engine_sizes (engine_in self.now)) pass.new }
    {
        gate.at(rt, READER, 1);
        let at = self.read(rt, pass, into);
        gate.at(rt, READER, 2);
        at
    }
}
