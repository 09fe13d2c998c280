//! The steps in their order: of a script that is run, of one that is made, and of one whose text is audited.

ghost use Rattle.std.specs.Prelude.{◌≡◌, ◌+◌, map, None, IfOk, IfErr, IsFalse, OnOk, string_bytes};
ghost use Rattle.hg_base.specs.Script.{run};
ghost use Rattle.hg_script.specs.Lawful.{IsLawful};
ghost use Rattle.hg_words.specs.Options.{AreWithin, options_of};
ghost use Rattle.hg_run.specs.Printing.{IsPrintedFor};
ghost use Rattle.hg_run.specs.Words.{AsksFor, IsMaking, Settings, audits, dumps, reads, settings_in, settings_of, task_of};
ghost use Rattle.hg_run.specs.Serving.{Answers, Comes, IsDecided, IsReadFrom, IsUnlessNoMemory, RefusesTask, WritesAll, WritesExactly, may_write, most_asked, most_bytes};
ghost use Rattle.hg_streams.specs.Streams.{HasGiven, ReadsAll, change_of};

use crate::audit::{bytes_of, verdict_on};
use crate::dump_text::dump_all;
use crate::load::load;
use crate::replay_text::replay;
use crate::run_text::run_all;
use hg_audit::Verdict;
use hg_base::{Failed, Gate, MOST_SCRIPT_BYTES, NoMemory, Sink, Source};
use hg_script::{Script, read_script};
use hg_streams::{MOST_AUDIT_BYTES, ReadError, Status, read_all, write_all};
use hg_words::{Command, Options, read_words};
use std::alloc::Global;
use std::sync::Wait;
use std::thread::Threads;

// The script in a source. Its bytes are freed once it is read, and given back where it is refused.
fn script_of_source<S: Source>(alloc: Global, source: &mut S) -> Result<Script, Status>
    ensures read { IfOk result (IsReadFrom (change_of S.flow source.old source.new)) }
    ensures lawful { IfOk result IsLawful }
    ensures refused { (settings : Settings) → IfErr result
        (RefusesTask (reads settings) (change_of S.flow source.old source.new)) }
    ensures refused_dump { (settings : Settings) → IfErr result
        (RefusesTask (dumps settings) (change_of S.flow source.old source.new)) }
    ensures no_more { HasGiven (MOST_SCRIPT_BYTES + 1)
        (change_of S.flow source.old source.new) }
{
    let bytes = read_all(alloc, source, MOST_SCRIPT_BYTES)?;
    match read_script(alloc, &bytes) {
        Ok(script) => {
            free(bytes);
            Ok(script)
        }
        Err(refusal) => {
            source.give_back(bytes);
            Err(Status::from(refusal))
        }
    }
}

// Frees the bytes, and all but one of them first. glibc maps a large block on its own, and such a block grows without a
// copy. But once a mapped block is freed, it takes blocks of up to that size from its heap, where a list that grows is copied, and
// leaves a hole.
fn free(bytes: Vec<u8>) {
    let mut bytes = bytes;
    bytes.truncate(1);
    bytes.shrink_to_fit();
}

// The text that a script prints.
fn text_of_script<R: Threads + Wait + Sync, G: Gate + Sync>(
    rt: &R,
    alloc: Global,
    options: &Options,
    script: &Script,
    gate: &G,
) -> Result<Vec<u8>, NoMemory>
    requires lawful { IsLawful script.now }
    requires within { AreWithin options.now }
    ensures { IfOk result (λ text.
        IsPrintedFor (settings_of options.now) script.now text.items) }
{
    match options.command {
        Command::Run | Command::Dump => run_all(rt, alloc, script, options, gate),
        Command::Replay | Command::Load(_) | Command::Audit => replay(rt, alloc, script, options),
    }
}

// The text that the script in a source prints.
fn text_of_source<R: Threads + Wait + Sync, S: Source, G: Gate + Sync>(
    rt: &R,
    alloc: Global,
    options: &Options,
    source: &mut S,
    gate: &G,
) -> Result<Vec<u8>, Status>
    requires { AreWithin options.now }
    ensures text { IfOk result (λ text.
        Answers (reads (settings_of options.now))
        (change_of S.flow source.old source.new) text.items) }
    ensures refused { IfErr result (RefusesTask (reads (settings_of options.now))
        (change_of S.flow source.old source.new)) }
    ensures no_more { HasGiven (MOST_SCRIPT_BYTES + 1)
        (change_of S.flow source.old source.new) }
{
    let script = script_of_source(alloc, source)?;
    text_of_script(rt, alloc, options, &script, gate).map_err(Status::from)
}

// The text that the script in a source prints, with dumps of its tables.
fn dump_of_source<R: Threads + Wait + Sync, S: Source, G: Gate + Sync>(
    rt: &R,
    alloc: Global,
    options: &Options,
    source: &mut S,
    gate: &G,
) -> Result<Vec<u8>, Status>
    requires { AreWithin options.now }
    ensures text { IfOk result (λ text.
        Answers (dumps (settings_in (run options.now.rounds) options.now))
        (change_of S.flow source.old source.new) text.items) }
    ensures refused { IfErr result
        (RefusesTask (dumps (settings_in (run options.now.rounds) options.now))
        (change_of S.flow source.old source.new)) }
    ensures no_more { HasGiven (MOST_SCRIPT_BYTES + 1)
        (change_of S.flow source.old source.new) }
{
    let script = script_of_source(alloc, source)?;
    dump_all(rt, alloc, &script, options, gate).map_err(Status::from)
}

// Gives a source its bytes back if they were refused.
fn give_back_if<S: Source>(is_refused: bool, source: &mut S, bytes: Vec<u8>)
    ensures { S.flow source.new ≡ S.flow source.old }
{
    if is_refused {
        source.give_back(bytes);
    }
}

// All bytes of an audit.
fn read_audit<S: Source>(alloc: Global, source: &mut S) -> Result<Vec<u8>, Status>
    ensures all { IfOk result (λ bytes.
        ReadsAll MOST_AUDIT_BYTES (change_of S.flow source.old source.new) bytes.items) }
    ensures refused { IfErr result
        (RefusesTask audits (change_of S.flow source.old source.new)) }
    ensures no_more { HasGiven (MOST_AUDIT_BYTES + 1)
        (change_of S.flow source.old source.new) }
{
    match read_all(alloc, source, MOST_AUDIT_BYTES) {
        Ok(bytes) => Ok(bytes),
        Err(ReadError::TooLong) => Err(Status::LongInput),
        Err(error) => Err(Status::from(error)),
    }
}

// The line of the verdict on the text that follows the script in a source, which gets its bytes back unless the text is sound.
fn audit_source<S: Source>(alloc: Global, source: &mut S) -> Result<Vec<u8>, Status>
    ensures text { IfOk result
        (λ text. Answers audits (change_of S.flow source.old source.new) text.items) }
    ensures refused { IfErr result
        (RefusesTask audits (change_of S.flow source.old source.new)) }
    ensures no_more { HasGiven (MOST_AUDIT_BYTES + 1)
        (change_of S.flow source.old source.new) }
{
    let bytes = read_audit(alloc, source)?;
    let verdict = verdict_on(alloc, &bytes);
    give_back_if(verdict != Ok(Verdict::Sound), source, bytes);
    Ok(bytes_of(alloc, verdict?)?)
}

// The text that does what the words ask for.
fn text_for<R: Threads + Wait + Sync, S: Source, G: Gate + Sync>(
    rt: &R,
    alloc: Global,
    options: &Options,
    source: &mut S,
    gate: &G,
) -> Result<Vec<u8>, Status>
    requires { AreWithin options.now }
    ensures text { IfOk result (λ text.
        Answers (task_of options.now) (change_of S.flow source.old source.new)
        text.items) }
    ensures refused { IfErr result
        (RefusesTask (task_of options.now) (change_of S.flow source.old source.new)) }
    ensures unread { IsMaking (task_of options.now) → source.new ≡ source.old }
    ensures no_more { HasGiven (most_bytes (task_of options.now) + 1)
        (change_of S.flow source.old source.new) }
{
    match options.command {
        Command::Load(seed) => Ok(load(rt, alloc, seed, options)?),
        Command::Audit => audit_source(alloc, source),
        Command::Dump => dump_of_source(rt, alloc, options, source, gate),
        Command::Replay | Command::Run => text_of_source(rt, alloc, options, source, gate),
    }
}

// How the call ends.
fn outcome<R: Threads + Wait + Sync, So: Source, Si: Sink, G: Gate + Sync>(
    rt: &R,
    alloc: Global,
    words: &[String],
    source: &mut So,
    sink: &mut Si,
    gate: &G,
) -> Status
    ensures comes { Comes (map string_bytes words.now)
        (change_of So.flow source.old source.new)
        (change_of Si.flow sink.old sink.new) result }
    ensures refused { options_of (map string_bytes words.now) ≡ None →
        IsUnlessNoMemory result Status.Usage }
    ensures unread { result ≡ Status.Usage → source.new ≡ source.old }
    ensures made { AsksFor (map string_bytes words.now) IsMaking → source.new ≡ source.old }
    ensures no_more { HasGiven (most_asked (map string_bytes words.now) + 1)
        (change_of So.flow source.old source.new) }
    ensures untouched { IsFalse (may_write result) → sink.new ≡ sink.old }
{
    let options = match read_words(alloc, words) {
        Ok(options) => options,
        Err(refusal) => return Status::from(refusal),
    };
    let text = match text_for(rt, alloc, &options, source, gate) {
        Ok(text) => text,
        Err(status) => return status,
    };
    match write_all(sink, &text) {
        Ok(()) => Status::Done,
        Err(Failed) => Status::WriteFault,
    }
}

/// Does what the words ask for: runs the script in the source and writes its answers to the sink, with dumps of its tables if the words
/// ask for them; or replays the script of a seed and writes its totals; or checks the text that follows the script against it and
/// writes the verdict.
pub fn serve<R: Threads + Wait + Sync, So: Source, Si: Sink, G: Gate + Sync>(
    rt: &R,
    alloc: Global,
    words: &[String],
    source: &mut So,
    sink: &mut Si,
    gate: &G,
) -> Status
    // The sink took the whole text of a printed value that is sound for the script in the source, and that one list of steps printed, with
    // the settings that the words ask for; or the text of the totals of one for the script of the seed; or the verdict on the text that
    // follows the script.
    ensures sound { result ≡ Status.Done → AsksFor (map string_bytes words.now) (λ task.
        WritesAll task (change_of So.flow source.old source.new)
        (change_of Si.flow sink.old sink.new)) }

    // A replay prints one text: its lines are a function of the script, but for what its reports say was removed and moved.
    ensures exact { result ≡ Status.Done → AsksFor (map string_bytes words.now) (λ task.
        WritesExactly task (change_of So.flow source.old source.new)
        (change_of Si.flow sink.old sink.new)) }

    // Each status has its cause.
    ensures comes { Comes (map string_bytes words.now)
        (change_of So.flow source.old source.new)
        (change_of Si.flow sink.old sink.new) result }

    // Words that ask for nothing are refused before anything is read, a script that is made needs no source, and a script is refused
    // before anything is written.
    ensures usage { result ≡ Status.Usage → options_of (map string_bytes words.now) ≡ None }
    ensures refused { options_of (map string_bytes words.now) ≡ None →
        IsUnlessNoMemory result Status.Usage }
    ensures unread { result ≡ Status.Usage → source.new ≡ source.old }
    ensures made { AsksFor (map string_bytes words.now) IsMaking → source.new ≡ source.old }
    ensures untouched { IsFalse (may_write result) → sink.new ≡ sink.old }

    // However the call ends, at most one byte was read more than the words allow: than a script may have, or the input of an audit.
    ensures no_more { HasGiven (most_asked (map string_bytes words.now) + 1)
        (change_of So.flow source.old source.new) }

    // What the source holds decides the answer, where memory is found.
    ensures decided { IsDecided (map string_bytes words.now)
        (change_of So.flow source.old source.new)
        (change_of Si.flow sink.old sink.new) result }
{
    outcome(rt, alloc, words, source, sink, gate)
}
