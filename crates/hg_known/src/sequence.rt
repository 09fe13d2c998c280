//! The records of a script in the order of their lines.

ghost use Rattle.std.specs.Prelude.{◌≡◌, ℕ, ◌+◌, ◌*◌, ◌<◌, ◌^◌, ◌++◌, List, get_or, length, map, IfOk, OnOk};
ghost use Rattle.std.specs.Option.{MatchOption};
ghost use Rattle.hg_base.specs.Lists.{Each};
ghost use Rattle.hg_base.specs.Script.{run};
ghost use Rattle.hg_base.specs.Transcript.{in_order, of_session};
ghost use Rattle.hg_script.specs.Numbered.{AreNumbered};
ghost use Rattle.hg_known.specs.Sequenced.{IsIndex, IsIndexOf, IsRecordOf, record_at, round_at, shown_of};

use hg_base::{Kind, NoMemory, Record, Statement};
use hg_script::Script;
use std::alloc::Global;
use std::marker::Model;

/// The records that lines answer, in the order of the lines: those of a script, and then one for each round of the group, the
/// table and the interval collector. Each is made when it is asked for.
#[derive(Drop)]
pub struct Sequence<'a> {
    script: &'a Script,
    // whether they are the script's as they stand
    is_plain: bool,
    // where they stand among the script's, where they don't
    indices: Vec<u32>,
    rounds: usize,
}

impl<'a> Model for Sequence<'a> {
    ghost use Rattle.std.specs.Prelude.{◌+◌, ◌*◌, ◌<◌, ◌^◌, List, length};
    ghost use Rattle.hg_base.specs.Lists.{Each};
    ghost use Rattle.hg_base.specs.declared.statement.Record.{Record};
    ghost use Rattle.hg_known.specs.Sequenced.{IsIndex, sequence_of};

    ghost Value = { List Record };

    ghost view = { λ s. sequence_of s.is_plain s.script.now s.indices.items s.rounds };

    ghost invariant = { λ s. Each (IsIndex s.script.now) s.indices.items
        × (length s.indices.items + 3 * s.rounds < 2 ^ 64) };
}

// The place of a record of the script among all.
fn index_of(script: &Script, asked: Record) -> u32
    requires asked { IsRecordOf script.now asked }
    requires places { AreNumbered script.now }
    requires few { length script.now.records < 2 ^ 32 }
    ensures { IsIndexOf script.now asked result }
{
    (asked.place - script.records_before() as u64 - 1) as u32
}

// Adds where the records of one session stand.
fn add_session(into: &mut Vec<u32>, script: &Script, session: u32) -> Result<(), NoMemory>
    requires places { AreNumbered script.now }
    requires few { length script.now.records < 2 ^ 32 }
    ensures records { OnOk result (map (record_at script.now) into.new.items ≡
        map (record_at script.now) into.old.items ++ of_session session script.now.records) }
    ensures indices { OnOk result
        (Each (IsIndex script.now) into.old.items → Each (IsIndex script.now) into.new.items) }
{
    let mut list = script.records_of(session);
    while let Some(record) = list.take_next()? {
        into.push(index_of(script, record))?;
    }
    Ok(())
}

// Where the records of each session stand, by session number.
fn by_session(alloc: Global, script: &Script) -> Result<Vec<u32>, NoMemory>
    ensures records { IfOk result
        (λ indices. map (record_at script.now) indices.items ≡ shown_of script.now.records) }
    ensures indices { IfOk result (λ indices. Each (IsIndex script.now) indices.items) }
{
    let mut indices = Vec::with_capacity(alloc, script.record_count())?;
    for j in 0..script.sessions() {
        add_session(&mut indices, script, j + 1)?;
    }
    Ok(indices)
}

// How many rounds a run has that prints so many lines, where its sessions print so many.
fn count_rounds(shown: usize, lines: usize) -> Option<usize>
    ensures { MatchOption result ((n : ℕ) → shown + 3 * n ≡ lines → ⊥)
        (λ n. shown + 3 * n ≡ lines) }
{
    let reports = lines.checked_sub(shown)?;
    if reports % 3 != 0 {
        return None;
    }
    Some(reports / 3)
}

// The n-th record for rounds, counted from 0, where each collector has so many.
fn round(n: usize, rounds: usize) -> Record
    requires { n < 3 * rounds }
    ensures { result ≡ round_at n rounds }
{
    let (kind, place) = if n < rounds {
        (Kind::Group, n)
    } else if n - rounds < rounds {
        (Kind::Table, n - rounds)
    } else {
        (Kind::Interval, n - rounds - rounds)
    };
    Record {
        place: place as u64 + 1,
        session: 0,
        statement: Statement::Gc(kind),
    }
}

impl<'a> Sequence<'a> {
    /// The records as they stand.
    pub fn of_replay(alloc: Global, script: &'a Script) -> Sequence<'a>
        ensures { result ≡ script.entry.now.records }
    {
        Sequence {
            script,
            is_plain: true,
            indices: Vec::new(alloc),
            rounds: 0,
        }
    }

    /// The records of each session by session number, with as many rounds of each collector as so many lines leave. There are none
    /// where no number of rounds gives so many.
    pub fn of_run(
        alloc: Global,
        script: &'a Script,
        lines: usize,
    ) -> Result<Option<Sequence<'a>>, NoMemory>
        ensures { IfOk result (λ found. MatchOption found
            ((n : ℕ) → length (in_order (run n) script.entry.now.records) ≡ lines → ⊥)
            (λ sequence. (n : ℕ) × (sequence ≡ in_order (run n) script.entry.now.records) ×
            (length sequence ≡ lines))) }
    {
        let indices = by_session(alloc, script)?;
        let Some(rounds) = count_rounds(indices.len(), lines) else {
            return Ok(None);
        };
        Ok(Some(Sequence {
            script,
            is_plain: false,
            indices,
            rounds,
        }))
    }

    pub fn len(&self) -> usize
        ensures { result ≡ length self.now }
    {
        if self.is_plain {
            return self.script.record_count();
        }
        self.indices.len() + 3 * self.rounds
    }

    /// The record at k, made anew. It takes no memory but for a row of more than two values.
    pub fn record(&self, k: usize) -> Result<Record, NoMemory>
        requires { k < length self.now }
        ensures { IfOk result (λ r. r ≡ get_or self.now k r) }
    {
        if self.is_plain {
            return self.script.record(k);
        }
        if k >= self.indices.len() {
            return Ok(round(k - self.indices.len(), self.rounds));
        }
        self.script.record(self.indices[k] as usize)
    }
}
