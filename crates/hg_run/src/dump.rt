//! A run during which all tables are read.
//!
//!     run_on     the sessions and the collectors, as in a run
//!     reader     concurrently one more session, the reader, exports all tables once

ghost use Rattle.std.specs.Prelude.{◌≡◌, suc, length, IfOk, OnErr};
ghost use Rattle.hg_dump.specs.Exports.{MayExport};
ghost use Rattle.hg_rule.specs.Seats.{session_view, IsSessionOf};
ghost use Rattle.hg_session.specs.Engines.{engine_board_id, engine_sizes};
ghost use Rattle.hg_run.specs.Collecting.{AreCollectors};
ghost use Rattle.hg_run.specs.Driven.{AreBack, HasDrivenAll, HasDriven, MayDrive};
ghost use Rattle.hg_run.specs.Reader.{HasDumped, HasTried, IsOver, engine_in, script_in};

use crate::crew::Crew;
use crate::reader::Reader;
use crate::run::run_on;
use hg_base::{Gate, NoMemory};
use hg_collectors::Plan;
use hg_rule::SessionPass;
use hg_transcript::Transcript;
use std::sync::Wait;
use std::thread;
use std::thread::Threads;

// The run, and concurrently what the reader reads.
fn drive_and_read<'e, 'a, R: Threads + Wait + Sync, G: Gate + Sync>(
    rt: &R,
    reader: &Reader<'e, 'a>,
    plan: &Plan<G>,
    crew: &mut Crew,
    extra: &mut SessionPass,
    into: &mut Vec<u8>,
) -> (Result<Transcript<'a>, NoMemory>, Result<u64, NoMemory>)
    requires may { MayDrive (engine_in reader.now) (script_in reader.now) crew.old.sessions.items
        crew.old.collectors }
    requires extra { MayExport (engine_board_id (engine_in reader.now))
        (engine_sizes (engine_in reader.now)) extra.old }
    ensures driven { HasDriven (engine_in reader.now) plan.now.long plan.now.rounds
        (script_in reader.now) crew.old.sessions.items crew.old.collectors result.0
        crew.new.sessions.items crew.new.collectors }
    ensures read { HasTried (engine_in reader.now) (script_in reader.now) result.1 extra.old
        extra.new into.old.items into.new.items }
{
    thread::join_mut(
        rt,
        &mut ||
            requires { MayDrive (engine_in reader.now) (script_in reader.now)
                crew.now.sessions.items crew.now.collectors }
            ensures { HasDriven (engine_in reader.entry.now) plan.entry.now.long
                plan.entry.now.rounds (script_in reader.entry.now) crew.entry.now.sessions.items
                crew.entry.now.collectors result crew.exit.now.sessions.items
                crew.exit.now.collectors }
        { run_on(rt, reader.alloc, reader.script, plan, reader.engine, crew) },
        &mut ||
            requires { MayExport (engine_board_id (engine_in reader.now))
                (engine_sizes (engine_in reader.now)) extra.now }
            ensures { HasTried (engine_in reader.entry.now) (script_in reader.entry.now) result
                extra.entry.now extra.exit.now into.entry.now.items into.exit.now.items }
        { reader.work(rt, plan.gate, extra, into) },
    )
}

/// The driver of `dump`: that of `run`, and concurrently the reader exports all tables once, whose pass is `extra`. The engine has one
/// session more than the script. A refusal leaves `into` as it was.
pub fn dump_on<'e, 'a, R: Threads + Wait + Sync, G: Gate + Sync>(
    rt: &R,
    reader: &Reader<'e, 'a>,
    plan: &Plan<G>,
    crew: &mut Crew,
    extra: &mut SessionPass,
    into: &mut Vec<u8>,
) -> Result<(Transcript<'a>, u64), NoMemory>
    requires may { MayDrive (engine_in reader.now) (script_in reader.now) crew.old.sessions.items
        crew.old.collectors }
    requires more { (engine_sizes (engine_in reader.now)).sessions ≡
        suc (length crew.old.sessions.items) }
    requires extra { MayExport (engine_board_id (engine_in reader.now))
        (engine_sizes (engine_in reader.now)) extra.old }
    ensures driven { IfOk result (λ r.
        HasDrivenAll (engine_sizes (engine_in reader.now)) plan.now.long plan.now.rounds
        (script_in reader.now).records crew.old.sessions.items crew.old.collectors r.0.lines
        crew.new.sessions.items crew.new.collectors) }
    ensures tables { IfOk result (λ r. r.0.tables ≡ (script_in reader.now).tables) }
    ensures back { AreBack (engine_in reader.now) crew.old.sessions.items
        crew.new.sessions.items }
    ensures collectors { AreCollectors (engine_in reader.now) crew.new.collectors }
    ensures dumped { IfOk result (λ r.
        HasDumped (engine_in reader.now) (script_in reader.now) r.1 (session_view extra.old)
        (session_view extra.new) into.old.items into.new.items) }
    ensures refused { OnErr result (into.new.items ≡ into.old.items) }
    ensures over { IsOver (session_view extra.old) (session_view extra.new) }
    ensures extra { IsSessionOf (engine_board_id (engine_in reader.now))
        (engine_sizes (engine_in reader.now)) extra.new }
{
    let before = into.len();
    let (driven, read) = drive_and_read(rt, reader, plan, crew, extra, into);
    let Ok(at) = read else {
        into.truncate(before);
        return Err(NoMemory);
    };
    match driven {
        Ok(transcript) => Ok((transcript, at)),
        Err(NoMemory) => {
            into.truncate(before);
            Err(NoMemory)
        }
    }
}
