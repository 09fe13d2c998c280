//! Whether totals are those of the lines.

ghost use Rattle.std.specs.Prelude.{◌≡◌, ◌↔◌, ◌+◌, ◌≤◌, ◌<◌, length, sum_by, is_some, IsTrue};
ghost use Rattle.std.specs.Option.{MatchOption};
ghost use Rattle.hg_base.specs.History.{History, visible};
ghost use Rattle.hg_base.specs.Transcript as script;
ghost use Rattle.hg_base.specs.Transcript.{history_of};
ghost use Rattle.hg_base.specs.Counts.{removed_by, live, AreTotals};
ghost use Rattle.hg_known.specs.Tallied.{IsTally};
ghost use Rattle.hg_known.specs.Written.{IsOfHistory};
ghost use Rattle.hg_audit.specs.Known.{HasHistory};

use hg_base::{Answer, Kind, Reply, Rid, Totals};
use hg_known::{LEAST, Lines, Past, Writes};

// What a line says that a collector of that kind removed.
fn removed(reply: &Reply, kind: Kind) -> u64
    ensures { (said : script.Said) → reply.now ≡ said.reply →
        result ≡ removed_by kind said }
{
    match &reply.answer {
        Answer::Swept(sweep) => { if sweep.kind == kind { sweep.removed } else { 0 } }
        _ => 0,
    }
}

// What is left of a number without what the reports of a collector say that they removed, if they say no more.
fn without_removed(all: &Lines<'_>, kind: Kind, told: u64) -> Option<u64>
    ensures { MatchOption result (told < sum_by (removed_by kind) all.now)
        (λ rest. rest + sum_by (removed_by kind) all.now ≡ told) }
{
    let mut rest = told;
    for k in 0..all.len() {
        rest = rest.checked_sub(removed(all.reply(k), kind))?;
    }
    Some(rest)
}

fn is_removed(all: &Lines<'_>, kind: Kind, told: u64) -> bool
    ensures { IsTrue result ↔ (told ≡ sum_by (removed_by kind) all.now) }
{
    match without_removed(all, kind, told) {
        Some(rest) => rest == 0,
        None => false,
    }
}

fn is_removed_within(all: &Lines<'_>, kind: Kind, told: u64) -> bool
    ensures { IsTrue result ↔ (sum_by (removed_by kind) all.now ≤ told) }
{
    match without_removed(all, kind, told) {
        Some(_) => true,
        None => false,
    }
}

// Whether the record is a row after that many groups.
fn is_row(writes: &Writes, rid: Rid, groups: u64) -> bool
    ensures { (h : History) → IsOfHistory h writes.now → length h ≡ groups →
        result ≡ is_some (visible h rid (length h)).row }
{
    writes.visible(rid, groups).is_some()
}

// Whether that many records are rows after the last group.
fn are_left(writes: &Writes, groups: u64, told: u64) -> bool
    requires { HasHistory writes.now groups }
    ensures { (h : History) → IsOfHistory h writes.now → length h ≡ groups →
        (IsTrue result ↔ (told ≡ length (live h))) }
{
    let mut rest = told;
    let mut found = writes.next_rid(LEAST, 0);
    while let Some(rid) = found {
        found = writes.next_rid(rid, groups);
        if !is_row(writes, rid, groups) {
            continue;
        }
        if rest == 0 {
            return false;
        }
        rest -= 1;
    }
    rest == 0
}

// Whether each version made is undone, removed or left.
fn are_balanced(t: Totals) -> bool
    ensures { IsTrue result ↔ (t.made ≡ t.undone + t.group + t.table + t.interval + t.left) }
{
    let Some(stored) = t.made.checked_sub(t.undone) else {
        return false;
    };
    let Some(outside) = stored.checked_sub(t.group) else {
        return false;
    };
    let Some(timed) = outside.checked_sub(t.table) else {
        return false;
    };
    let Some(left) = timed.checked_sub(t.interval) else {
        return false;
    };
    left == t.left
}

/// Whether these are the totals of the lines, which give this history.
pub fn are_totals(past: &Past, all: &Lines<'_>, t: Totals) -> bool
    requires tally { IsTally past.now.tally all.now }
    requires writes { IsOfHistory (history_of all.now) past.now.writes }
    requires groups { length (history_of all.now) ≡ past.now.groups }
    ensures { IsTrue result ↔ AreTotals all.now (history_of all.now) t }
{
    if past.tally.made != t.made {
        return false;
    }
    if past.tally.undone != t.undone {
        return false;
    }
    if !is_removed(all, Kind::Group, t.group) {
        return false;
    }
    if !is_removed_within(all, Kind::Table, t.table) {
        return false;
    }
    if !is_removed(all, Kind::Interval, t.interval) {
        return false;
    }
    if !are_left(&past.writes, past.groups, t.left) {
        return false;
    }
    are_balanced(t)
}
