//! `serve` over streams that never fail.

ghost use Rattle.std.specs.Prelude.{◌≡◌, ◌+◌, ◌≤◌, ◌<◌, ℕ, List, length, map, Some, None, IsFalse, string_bytes};
ghost use Rattle.hg_memory.specs.Memory.{steady_inflow, steady_outflow};
ghost use Rattle.hg_script.specs.declared.code.Code.{Code};
ghost use Rattle.hg_script.specs.Fields.{rows_of};
ghost use Rattle.hg_script.specs.Meaning.{refusal_of};
ghost use Rattle.hg_run.specs.Words.{AsksFor, IsMaking, audits};
ghost use Rattle.hg_run.specs.Serving.{Comes, HoldsScript, IsUnlessNoMemory, WritesAll, WritesExactly, may_write, most_asked};
ghost use Rattle.hg_streams.specs.Streams.{HasGiven, change_of};

use hg_base::{Gate, MOST_SCRIPT_BYTES};
use hg_memory::{SteadySink, SteadySource};
use hg_run::serve;
use hg_streams::{MOST_AUDIT_BYTES, Status};
use std::alloc::Global;
use std::sync::Wait;
use std::thread::Threads;

/// Does what the words ask for, from a source to a sink in memory that never fail. So no status reports a fault, and where memory is
/// found, the bytes of the source decide which other status is returned. `SteadySink::bytes` lends what was written, if there was room for it.
pub fn serve_steadily<R: Threads + Wait + Sync, G: Gate + Sync>(
    rt: &R,
    alloc: Global,
    words: &[String],
    source: &mut SteadySource,
    sink: &mut SteadySink,
    gate: &G,
) -> Status
    ensures reads { ¬ (result ≡ Status.ReadFault) }
    ensures writes { ¬ (result ≡ Status.WriteFault) }

    // What `serve` says of what was written, of each status, and of what was read.
    ensures sound { result ≡ Status.Done → AsksFor (map string_bytes words.now) (λ task.
        WritesAll task (change_of steady_inflow source.old source.new)
        (change_of steady_outflow sink.old sink.new)) }
    ensures exact { result ≡ Status.Done → AsksFor (map string_bytes words.now) (λ task.
        WritesExactly task (change_of steady_inflow source.old source.new)
        (change_of steady_outflow sink.old sink.new)) }
    ensures comes { Comes (map string_bytes words.now)
        (change_of steady_inflow source.old source.new)
        (change_of steady_outflow sink.old sink.new) result }
    ensures untouched { IsFalse (may_write result) → sink.new ≡ sink.old }
    ensures no_more { HasGiven (most_asked (map string_bytes words.now) + 1)
        (change_of steady_inflow source.old source.new) }

    // The bytes of the source decide.
    ensures complete { (script : List ℕ) →
        AsksFor (map string_bytes words.now) (λ task. HoldsScript task source.old.left script) →
        length script ≤ MOST_SCRIPT_BYTES → refusal_of (rows_of script) ≡ None →
        IsUnlessNoMemory result Status.Done }
    ensures bad_script { (script : List ℕ) (line : ℕ) (code : Code) →
        AsksFor (map string_bytes words.now) (λ task. HoldsScript task source.old.left script) →
        length script ≤ MOST_SCRIPT_BYTES →
        refusal_of (rows_of script) ≡ Some (line, code) →
        IsUnlessNoMemory result (Status.BadScript line code) }
    ensures too_long { (script : List ℕ) →
        AsksFor (map string_bytes words.now) (λ task. HoldsScript task source.old.left script) →
        MOST_SCRIPT_BYTES < length script → IsUnlessNoMemory result Status.TooLong }
    ensures long_input { AsksFor (map string_bytes words.now) (λ task. task ≡ audits) →
        MOST_AUDIT_BYTES < length source.old.left → IsUnlessNoMemory result Status.LongInput }
    ensures loaded { AsksFor (map string_bytes words.now) IsMaking →
        IsUnlessNoMemory result Status.Done }
{
    serve(rt, alloc, words, source, sink, gate)
}
