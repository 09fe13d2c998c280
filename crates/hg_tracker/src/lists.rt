//! The lists that a gather makes of the live registers: those of them that were moved, and the numbers that count for all tables
//! and for each one.

ghost use Rattle.std.specs.Prelude.{◌≡◌, ◌<◌, ◌≤◌, false, length, map, vec_capacity, All, IsPermutation};
ghost use Rattle.std.specs.List.Sorted.{IsNonDecreasingBy};
ghost use Rattle.hg_base.specs.declared.report.Entry.{Entry};
ghost use Rattle.hg_tracker.specs.Gathers.{AreEmpty, AreListsOf};
ghost use Rattle.hg_tracker.specs.Entries.{counts_for, numbers_for, common_numbers, moved_of, served, lowest};

use hg_base::{Entry, TableId};

// Whether a live register counts for a table.
fn counts(entry: &Entry, table: u8) -> bool
    requires { table < 64 }
    ensures { result ≡ counts_for table entry.now }
{
    !entry.moved || entry.scope.has(TableId(table))
}

fn fill(list: &mut Vec<u64>, table: u8, ranked: &[Entry])
    requires table { table < 64 }
    requires room { length ranked.now ≤ vec_capacity list.old }
    ensures items { list.new.items ≡ numbers_for table ranked.now }
    ensures room { vec_capacity list.old ≤ vec_capacity list.new }
{
    list.clear();
    for entry in ranked {
        if counts(entry, table) && list.push(entry.number).is_err() {
            unreachable!();
        }
    }
}

// The numbers of those that count for all tables.
pub(crate) fn fill_common(common: &mut Vec<u64>, ranked: &[Entry])
    requires room { length ranked.now ≤ vec_capacity common.old }
    ensures items { common.new.items ≡ common_numbers ranked.now }
    ensures room { vec_capacity common.old ≤ vec_capacity common.new }
{
    common.clear();
    for entry in ranked {
        if !entry.moved && common.push(entry.number).is_err() {
            unreachable!();
        }
    }
}

// Those that were moved.
pub(crate) fn fill_moved(moved: &mut Vec<Entry>, ranked: &[Entry])
    requires room { length ranked.now ≤ vec_capacity moved.old }
    ensures items { moved.new.items ≡ moved_of ranked.now }
    ensures room { vec_capacity moved.old ≤ vec_capacity moved.new }
{
    moved.clear();
    for entry in ranked {
        if entry.moved && moved.push(*entry).is_err() {
            unreachable!();
        }
    }
}

// A table's own list stays empty where no moved one counts for it.
fn fill_own(list: &mut Vec<u64>, table: u8, moved: &[Entry], ranked: &[Entry])
    requires table { table < 64 }
    requires moved { moved.now ≡ moved_of ranked.now }
    requires room { length ranked.now ≤ vec_capacity list.old }
    ensures items { served (common_numbers ranked.now) list.new.items ≡
        numbers_for table ranked.now }
    ensures none { length moved.now ≡ 0 → length list.new.items ≡ 0 }
    ensures room { vec_capacity list.old ≤ vec_capacity list.new }
{
    fill(list, table, moved);
    if !list.is_empty() {
        fill(list, table, ranked);
    }
}

// Each table's own list. None needs more room than for so many sessions.
fn fill_all(lists: &mut [Vec<u64>], moved: &[Entry], ranked: &[Entry], _sessions: u32)
    requires tables { length lists.old ≤ 64 }
    requires moved { moved.now ≡ moved_of ranked.now }
    requires room { (length ranked.now ≤ _sessions) ×
        All (λ list. _sessions ≤ vec_capacity list) lists.old }
    ensures lists { AreListsOf 0 (common_numbers ranked.now) ranked.now lists.new }
    ensures none { length moved.now ≡ 0 → AreEmpty lists.new }
    ensures room { (length lists.new ≡ length lists.old) ×
        All (λ list. _sessions ≤ vec_capacity list) lists.new }
{
    for table in 0..lists.len() {
        fill_own(&mut lists[table], table as u8, moved, ranked);
    }
}

// Each table's own list, where a moved one may count for some table now, or did before. Else each is empty, and stays so.
pub(crate) fn fill_claimed(
    lists: &mut [Vec<u64>],
    claimed: &mut bool,
    moved: &[Entry],
    ranked: &[Entry],
    sessions: u32,
)
    requires tables { length lists.old ≤ 64 }
    requires moved { moved.now ≡ moved_of ranked.now }
    requires room { (length ranked.now ≤ sessions) ×
        All (λ list. sessions ≤ vec_capacity list) lists.old }
    requires empty { claimed.old ≡ false → AreEmpty lists.old }
    ensures lists { AreListsOf 0 (common_numbers ranked.now) ranked.now lists.new }
    ensures empty { claimed.new ≡ false → AreEmpty lists.new }
    ensures room { (length lists.new ≡ length lists.old) ×
        All (λ list. sessions ≤ vec_capacity list) lists.new }
{
    let claims = !moved.is_empty();
    if claims || *claimed {
        fill_all(lists, moved, ranked, sessions);
        *claimed = claims;
    }
}

// The entries by ascending number.
pub(crate) fn rank(ranked: &mut Vec<Entry>, entries: &[Entry])
    requires room { length entries.now ≤ vec_capacity ranked.old }
    ensures shuffled { IsPermutation entries.now ranked.new.items }
    ensures rises { IsNonDecreasingBy (λ (e : Entry). e.number) ranked.new.items }
    ensures room { vec_capacity ranked.old ≤ vec_capacity ranked.new }
{
    ranked.clear();
    if ranked.extend_from_slice(entries).is_err() {
        unreachable!();
    }
    ranked.sort_unstable_by_key(|entry| entry.number);
}

// A table's own list where it has one, and else what counts for all tables.
pub(crate) fn serve<'a>(common: &'a [u64], own: &'a [u64]) -> &'a [u64]
    ensures { result.now ≡ served common.now own.now }
{
    if own.is_empty() { common } else { own }
}

pub(crate) fn lowest_of(horizon: u64, numbers: &[u64]) -> u64
    ensures { result ≡ lowest horizon numbers.now }
{
    match numbers.first() {
        Some(number) => horizon.min(*number),
        None => horizon,
    }
}

pub(crate) fn lowest_entry(horizon: u64, ranked: &[Entry]) -> u64
    ensures { result ≡ lowest horizon (map (λ (e : Entry). e.number) ranked.now) }
{
    match ranked.first() {
        Some(entry) => horizon.min(entry.number),
        None => horizon,
    }
}
