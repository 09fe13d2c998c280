//! Whether a write that is refused for a conflict shows its cause.

ghost use Rattle.std.specs.Prelude.{◌≡◌, ◌↔◌, ◌<◌, List, [], length, is_some, IsTrue};
ghost use Rattle.hg_base.specs.declared.writer.Writer.{Writer};
ghost use Rattle.hg_base.specs.declared.rid.Rid.{Rid};
ghost use Rattle.hg_base.specs.Lists.{onto};
ghost use Rattle.hg_base.specs.Script.{Mode};
ghost use Rattle.hg_base.specs.History.{History, image_in};
ghost use Rattle.hg_base.specs.Transcript as script;
ghost use Rattle.hg_base.specs.Transcript.{stored_in, numbers_in, own_writes};
ghost use Rattle.hg_base.specs.Conflicts as conflicts;
ghost use Rattle.hg_base.specs.Conflicts.{ShowsNewer, ShowsOpen, ShowsCause, ShowsConflict, IsStillOpen};
ghost use Rattle.hg_known.specs.Lines.{said_of};
ghost use Rattle.hg_known.specs.Owned.{AreOwn, HasOwn};
ghost use Rattle.hg_known.specs.Ended.{AreNumbers, AreOpenOwn, ForgetsOver};
ghost use Rattle.hg_known.specs.Written.{IsOfHistory};
ghost use Rattle.hg_audit.specs.Judged.{IsOf};
ghost use Rattle.hg_audit.specs.Known.{Knows, IsAsked, IsPart};

use crate::fault::Facts;
use crate::shape::Command;
use hg_base::{Answer, Rid, Statement, Writer};
use hg_known::{Numbers, Own, Said, Tx, Writes};

// The record that a put or del names.
fn target(statement: &Statement) -> Option<Rid>
    ensures { result ≡ conflicts.target statement.now }
{
    match statement {
        Statement::Put(rid, _) | Statement::Del(rid) => Some(*rid),
        _ => None,
    }
}

// Whether the transaction of a line stored the record before it.
fn has_written(own: &Own, now: &Said, rid: Rid) -> bool
    ensures { (earlier : List script.Said) → HasOwn own.now earlier (said_of now.now) →
        result ≡ is_some (image_in rid (own_writes earlier (said_of now.now))) }
{
    let tx = Tx {
        session: now.session,
        number: now.transaction,
    };
    own.has(tx, rid)
}

fn shows_newer(writes: &Writes, groups: u64, at: u64, rid: Rid, number: u64) -> bool
    ensures { (h : History) → IsOfHistory h writes.now → length h ≡ groups →
        (IsTrue result ↔ ShowsNewer h at rid number) }
{
    if number <= at || number > groups {
        return false;
    }
    writes.does_write(rid, number)
}

// Whether another session's transaction stores the record, and is not committed at or below the snapshot.
fn shows_open(own: &Own, numbers: &Numbers, now: &Said, rid: Rid, writer: Writer) -> bool
    ensures { (all : List script.Said) → AreOwn own.now (onto all []) →
        AreNumbers numbers.now (onto all []) →
        (IsTrue result ↔ ShowsOpen (stored_in writer.session writer.transaction all)
        (numbers_in writer.session writer.transaction all) now.now.session now.now.at
        rid writer) }
{
    let tx = Tx {
        session: writer.session,
        number: writer.transaction,
    };
    if writer.session == now.session {
        return false;
    }
    if !own.has(tx, rid) {
        return false;
    }
    numbers.are_after(tx, now.at)
}

// Whether the transaction stored the record before, and did not end: of one that did nothing is kept.
fn is_still_open(own: &Own, rid: Rid, writer: Writer) -> bool
    ensures { (earlier : List script.Said) → AreOpenOwn own.now earlier →
        ForgetsOver own.now earlier → (IsTrue result ↔ IsStillOpen earlier rid writer) }
{
    let tx = Tx {
        session: writer.session,
        number: writer.transaction,
    };
    own.has(tx, rid)
}

// Whether another session's transaction stored the record before, did not end, and is not committed at or below the snapshot.
fn shows_still_open(own: &Own, numbers: &Numbers, now: &Said, rid: Rid, writer: Writer) -> bool
    ensures { (all earlier : List script.Said) → IsPart earlier all →
        AreOpenOwn own.now earlier → ForgetsOver own.now earlier →
        AreNumbers numbers.now (onto all []) →
        (IsTrue result ↔ (ShowsOpen (stored_in writer.session writer.transaction all)
        (numbers_in writer.session writer.transaction all) now.now.session now.now.at
        rid writer × IsStillOpen earlier rid writer)) }
{
    let tx = Tx {
        session: writer.session,
        number: writer.transaction,
    };
    if writer.session == now.session {
        return false;
    }
    if !is_still_open(own, rid, writer) {
        return false;
    }
    numbers.are_after(tx, now.at)
}

// Whether the refusal of a write of that record shows its cause, where the transaction has not written it itself.
fn shows_cause(facts: &Facts, own: &Own, now: &Said, rid: Rid) -> bool
    ensures { (mode : Mode) (h : History) (all earlier : List script.Said) →
        IsOf facts.now.command mode → Knows h all facts.now → IsAsked all (said_of now.now) →
        IsPart earlier all → HasOwn own.now earlier (said_of now.now) → AreOpenOwn own.now earlier →
        ForgetsOver own.now earlier →
        (IsTrue result ↔
        ShowsCause mode h all earlier (said_of now.now) rid now.now.reply.now.answer) }
{
    match &now.reply.answer {
        Answer::Newer(number) => {
            if has_written(own, now, rid) {
                return false;
            }
            shows_newer(&facts.past.writes, facts.past.groups, now.at, rid, *number)
        }
        Answer::OpenBy(writer) => {
            if has_written(own, now, rid) {
                return false;
            }
            let known = &facts.past.context;
            match facts.command {
                Command::Run => shows_open(&known.stored, &known.numbers, now, rid, *writer),
                Command::Replay => shows_still_open(own, &known.numbers, now, rid, *writer),
            }
        }
        _ => true,
    }
}

/// Whether a write that is refused for a conflict shows its cause.
pub fn shows_conflict(facts: &Facts, own: &Own, now: &Said) -> bool
    ensures { (mode : Mode) (h : History) (all earlier : List script.Said) →
        IsOf facts.now.command mode → Knows h all facts.now → IsAsked all (said_of now.now) →
        IsPart earlier all → HasOwn own.now earlier (said_of now.now) → AreOpenOwn own.now earlier →
        ForgetsOver own.now earlier →
        (IsTrue result ↔ ShowsConflict mode h all earlier (said_of now.now)) }
{
    match target(&now.statement) {
        Some(rid) => shows_cause(facts, own, now, rid),
        None => true,
    }
}
