//! Whether the numbers of a line are in order with those before it.

ghost use Rattle.std.specs.Prelude.{◌≡◌, ◌↔◌, ◌<◌, ◌≤◌, ◌==◌, [], List, map, length, IfSome, IsTrue, filter_map};
ghost use Rattle.std.specs.List.{list_any};
ghost use Rattle.hg_base.specs.Lists.{Ascends, Each, onto};
ghost use Rattle.hg_base.specs.History.{History};
ghost use Rattle.hg_base.specs.Script.{Mode};
ghost use Rattle.hg_base.specs.Shape.{report_of};
ghost use Rattle.hg_base.specs.Transcript as script;
ghost use Rattle.hg_base.specs.Transcript.{greatest_commit};
ghost use Rattle.hg_base.specs.Conflicts.{OnReplay};
ghost use Rattle.hg_base.specs.Freshness as fresh;
ghost use Rattle.hg_base.specs.Freshness.{known, open_snapshots, IsHeld, IsReported, IsReplayed, IsExact, IsFresh};
ghost use Rattle.hg_known.specs.Lines.{said_of};
ghost use Rattle.hg_known.specs.Asked.{tells_held};
ghost use Rattle.hg_known.specs.Marked.{ArePoints};
ghost use Rattle.hg_audit.specs.Judged.{IsOf};
ghost use Rattle.hg_known.specs.Before.{AreBefore};

use crate::shape::{Command, is_report_of};
use hg_base::{Answer, Statement, Sweep, Told};
use hg_known::{Before, Points, Said, newer_of, snapshot_of};

// Whether a snapshot is at least every number that its session printed before.
fn is_rising(before: &Before, now: &Said) -> bool
    ensures { (earlier : List script.Said) → AreBefore before.now earlier →
        (IsTrue result ↔ IfSome (fresh.snapshot_of (said_of now.now))
        (λ s. Each (λ n. n ≤ s) (known now.now.session earlier))) }
{
    match snapshot_of(now) {
        Some(at) => before.rises(now.session, at),
        None => true,
    }
}

// Whether a snapshot is the newest commit number that was printed before.
fn is_newest(before: &Before, now: &Said) -> bool
    ensures { (earlier : List script.Said) → AreBefore before.now earlier →
        (IsTrue result ↔
        IfSome (fresh.snapshot_of (said_of now.now)) (λ s. s ≡ greatest_commit earlier)) }
{
    match snapshot_of(now) {
        Some(at) => at == before.newest(),
        None => true,
    }
}

// Whether the number of a newer commit was printed before.
fn is_told(before: &Before, now: &Said) -> bool
    ensures { (earlier : List script.Said) → AreBefore before.now earlier →
        (IsTrue result ↔ IfSome (fresh.newer_of (said_of now.now))
        (λ c. IsTrue (list_any (λ n. n == c) (filter_map script.committed earlier)))) }
{
    match newer_of(now) {
        Some(number) => before.has_number(number),
        None => true,
    }
}

// Whether a held snapshot was printed by its session, and one that was moved, by a transaction that declared its tables.
fn is_held(points: &Points, told: Told) -> bool
    ensures { (all : List script.Said) → ArePoints points.now (onto all []) →
        (IsTrue result ↔ IsHeld all told) }
{
    if !points.is_printed(told.session, told.number) {
        return false;
    }
    if !told.moved {
        return true;
    }
    points.is_declared(told.session, told.number)
}

// Whether held snapshots ascend by session, and each was printed.
fn are_held(points: &Points, held: &[Told]) -> bool
    ensures { (all : List script.Said) →
        (0 < length held.now → ArePoints points.now (onto all [])) →
        (IsTrue result ↔
        (Ascends (map (λ told. told.session) held.now) × Each (IsHeld all) held.now)) }
{
    let mut least = 0u64;
    for k in 0..held.len() {
        let told = &held[k];
        let session = u64::from(told.session);
        if session < least {
            return false;
        }
        if !is_held(points, *told) {
            return false;
        }
        least = session + 1;
    }
    true
}

// Whether the marks of a collector did not fall, and a report's numbers and held snapshots are in order.
fn is_reported(points: &Points, groups: u64, before: &Before, sweep: &Sweep) -> bool
    ensures { (h : History) (all earlier : List script.Said) → length h ≡ groups →
        (0 < length sweep.now.held → ArePoints points.now (onto all [])) →
        AreBefore before.now earlier → (IsTrue result ↔ IsReported h all earlier sweep.now) }
{
    if before.mark(sweep.kind) > sweep.mark {
        return false;
    }
    if sweep.horizon > sweep.mark {
        return false;
    }
    if sweep.mark > groups {
        return false;
    }
    are_held(points, sweep.held.as_slice())
}

fn is_point(told: Told, session: u32, number: u64) -> bool
    ensures { IsTrue result ↔ ((told.session ≡ session) × (told.number ≡ number)) }
{
    told.session == session && told.number == number
}

// Whether these are the snapshots of the transactions that are open, by session.
fn are_open(before: &Before, held: &[Told]) -> bool
    ensures { (earlier : List script.Said) → AreBefore before.now earlier →
        (IsTrue result ↔
        (map (λ told. (told.session, told.number)) held.now ≡ open_snapshots earlier)) }
{
    let mut told = 0;
    for j in 0..before.sessions() {
        let Some(at) = before.open_at(j + 1) else {
            continue;
        };
        if told >= held.len() {
            return false;
        }
        if !is_point(held[told], j + 1, at) {
            return false;
        }
        told += 1;
    }
    told == held.len()
}

// Whether a report is that of its record, at the newest commit, with exactly the open snapshots.
fn is_replayed(before: &Before, statement: &Statement, sweep: &Sweep) -> bool
    ensures { (earlier : List script.Said) → AreBefore before.now earlier →
        (IsTrue result ↔ IsReplayed earlier statement.now sweep.now) }
{
    if !is_report_of(statement, sweep.kind) {
        return false;
    }
    if sweep.mark != before.newest() {
        return false;
    }
    if sweep.horizon != sweep.mark {
        return false;
    }
    are_open(before, sweep.held.as_slice())
}

// What a replay asks besides.
fn is_exact(before: &Before, now: &Said) -> bool
    ensures { (earlier : List script.Said) → AreBefore before.now earlier →
        (IsTrue result ↔ IsExact earlier (said_of now.now)) }
{
    if !is_newest(before, now) {
        return false;
    }
    if !is_told(before, now) {
        return false;
    }
    match &now.reply.answer {
        Answer::Swept(sweep) => is_replayed(before, &now.statement, sweep),
        _ => true,
    }
}

fn is_exact_on_replay(command: Command, before: &Before, now: &Said) -> bool
    ensures { (mode : Mode) (earlier : List script.Said) → IsOf command mode →
        AreBefore before.now earlier →
        (IsTrue result ↔ OnReplay mode (IsExact earlier (said_of now.now))) }
{
    match command {
        Command::Replay => is_exact(before, now),
        Command::Run => true,
    }
}

// Whether a report that the line gives is in order.
fn gives_order(points: &Points, groups: u64, before: &Before, now: &Said) -> bool
    ensures { (h : History) (all earlier : List script.Said) → length h ≡ groups →
        (IsTrue (tells_held (said_of now.now)) → ArePoints points.now (onto all [])) →
        AreBefore before.now earlier →
        (IsTrue result ↔ IfSome (report_of now.now.reply.now) (IsReported h all earlier)) }
{
    match &now.reply.answer {
        Answer::Swept(sweep) => is_reported(points, groups, before, sweep),
        _ => true,
    }
}

/// Whether the numbers of a line are in order with those before it.
pub fn is_fresh(command: Command, points: &Points, groups: u64, before: &Before, now: &Said) -> bool
    ensures { (mode : Mode) (h : History) (all earlier : List script.Said) → IsOf command mode →
        length h ≡ groups →
        (IsTrue (tells_held (said_of now.now)) → ArePoints points.now (onto all [])) →
        AreBefore before.now earlier →
        (IsTrue result ↔ IsFresh mode h all earlier (said_of now.now)) }
{
    if !is_rising(before, now) {
        return false;
    }
    if !is_exact_on_replay(command, before, now) {
        return false;
    }
    gives_order(points, groups, before, now)
}
