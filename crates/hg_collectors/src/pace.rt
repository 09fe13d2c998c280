//! When a collector makes its rounds.
//!
//! Rounds that are made as fast as they can be are over before the sessions have written much. So they are spread evenly over the
//! script: each session counts the records that it has begun, and a collector's worker waits with a round until the sessions have
//! together begun as many as lie before it. With two rounds each,
//!
//!     records    ------+------+--------+-----+------+--------+------
//!     rounds         group  table  interval group  table  interval
//!
//! The reader of a dump waits until half of the records are begun.
//!
//! Nothing is claimed of when a round is made. A sleep may end early. And if no session begins a record for a while, the collectors go
//! on without waiting: a gate may hold all sessions, or a system with no threads left may run the collectors first. So each wait ends:
//! between two looks either more records are begun, or the wait grows.

ghost use Rattle.std.specs.Prelude.{◌≡◌, ◌+◌, ◌*◌, ◌<◌, ◌≤◌, ◌^◌, ◌↔◌, ◌||◌, nat_le, nat_lt, length, IsTrue, IfOk};
ghost use Rattle.hg_collectors.specs.Pacing.{turn_of, records_before};
ghost use Rattle.hg_collectors.specs.declared.pace.TheConstants.{LONGEST_PAUSE};

use hg_base::{Gate, MOST_SESSIONS, NoMemory};
use hg_rounds::HELPERS;
use std::alloc::Global;
use std::sync::Wait;
use std::sync::atomic::AtomicU64;
use std::sync::atomic::Ordering::SeqCst;
use std::time::Duration;

/// A gate that holds nobody.
#[derive(Clone, Copy)]
pub struct NoGate;

impl Gate for NoGate {
    fn at<R: Wait>(&self, _rt: &R, _worker: u32, _statement: u32) {}
}

// The numbers by which a gate knows the collectors' workers. A session's worker has its session's.
pub(crate) const GROUP: u32 = 101;

pub(crate) const TABLE: u32 = 102;

pub(crate) const INTERVAL: u32 = 103;

/// The number by which a gate knows the worker that reads for a dump.
pub const READER: u32 = 104;

// No worker has the number of another: sessions are below the collectors, and these and the reader below the helpers.
const _: () = prove!(MOST_SESSIONS < GROUP);

const _: () = prove!(READER < HELPERS);

// How many words a cache line has.
const LINE: usize = 8;

// How many microseconds a collector's worker sleeps before its second look, and at most before any, each time twice as long.
const FIRST_PAUSE: u64 = 50;

const LONGEST_PAUSE: u64 = 800;

// How many it sleeps with nothing begun meanwhile before all give up. A session that holds a lock may be off its processor for some
// hundredths of a second where there are many threads, and all others wait for it then.
const LONGEST_STILL: u64 = 100_000;

// Which word counts the records of a session. Each is on a cache line of its own.
fn word_of(session: u32) -> usize
    ensures { result ≡ LINE * session }
{
    LINE * session as usize
}

// How many of so many records are begun before a collector's worker makes this round.
fn due(records: u64, rounds: u32, worker: u32, round: u32) -> u64
    ensures { records * turn_of worker round < 2 ^ 64 →
        result ≡ records_before records (turn_of worker round) (3 * rounds) }
{
    let parts = 3 * rounds as u64 + 1;
    let turn = (3 * round as u64 + worker as u64).saturating_sub(GROUP as u64 + 2);
    records.saturating_mul(turn) / parts
}

// Whether a wait is over: as many records as it is for are begun, or no more than when a collector gave up last.
fn is_enough(begun: u64, due: u64, given_up: u64) -> bool
    ensures { result ≡ (nat_le due begun || nat_lt begun given_up) }
{
    begun >= due || begun < given_up
}

// What a collector's worker knows while it waits.
#[derive(Clone, Copy)]
struct Waiting {
    // How many records were begun when that number rose last.
    last: u64,
    // For how many microseconds it has slept since then.
    still: u64,
    // For how many it sleeps next.
    pause: u64,
    ghost sleeps: { 0 < pause },
    ghost looks: { pause ≤ LONGEST_PAUSE },
}

impl Waiting {
    fn new() -> Waiting
        ensures { (result.last ≡ 0) × (result.still ≡ 0) }
    {
        Waiting {
            last: 0,
            still: 0,
            pause: FIRST_PAUSE,
        }
    }

    // Notes how many records are begun.
    fn note(&mut self, begun: u64)
        ensures more { self.old.last < begun → (self.new.last ≡ begun) × (self.new.still ≡ 0) }
        ensures no_more { begun ≤ self.old.last → self.new ≡ self.old }
    {
        if begun > self.last {
            self.last = begun;
            self.still = 0;
        }
    }

    // Whether it gives up.
    fn is_too_long(&self) -> bool
        ensures { IsTrue result ↔ (LONGEST_STILL ≤ self.now.still) }
    {
        self.still >= LONGEST_STILL
    }

    // Counts one more sleep, and returns for how many microseconds it is.
    fn rest(&mut self) -> u64
        requires { self.old.still < LONGEST_STILL }
        ensures slept { self.new.still ≡ self.old.still + result }
        ensures some { (0 < result) × (result ≤ LONGEST_PAUSE) }
        ensures last { self.new.last ≡ self.old.last }
    {
        let pause = self.pause;
        self.still += pause;
        self.pause = (2 * pause).min(LONGEST_PAUSE);
        pause
    }
}

/// Lets the collectors wait for the sessions, and asks another gate then.
#[derive(Drop)]
pub struct Pace<'a, G> {
    gate: &'a G,
    rounds: u32,
    records: u64,

    // How many of its records the session of each number has begun.
    begun: Vec<AtomicU64>,

    // One more than were begun when a collector gave up last, and 0 before.
    given_up: AtomicU64,
}

// So many words, each 0.
fn zeros(alloc: Global, count: usize) -> Result<Vec<AtomicU64>, NoMemory>
    ensures { IfOk result (λ words. length words.items ≡ count) }
{
    let mut words = Vec::new(alloc);
    while words.len() < count {
        words.push(AtomicU64::new(0))?;
    }
    Ok(words)
}

impl<'a, G: Gate> Pace<'a, G> {
    ghost use Rattle.std.specs.Prelude.{ℕ};
    ghost use Rattle.hg_collectors.specs.Pacing.{records_in, rounds_in, Counts};

    /// Of a script with so many sessions and records, where each collector makes so many rounds.
    pub fn new(
        alloc: Global,
        sessions: u32,
        records: u64,
        rounds: u32,
        gate: &'a G,
    ) -> Result<Pace<'a, G>, NoMemory>
        ensures plan { IfOk result (λ pace. (rounds_in pace ≡ rounds) × (records_in pace ≡ records)) }
        ensures counts { (s : ℕ) → s ≤ sessions → IfOk result (Counts s) }
    {
        let begun = zeros(alloc, word_of(sessions) + 1)?;
        Ok(Pace {
            gate,
            rounds,
            records,
            begun,
            given_up: AtomicU64::new(0),
        })
    }

    // How many records the sessions have begun.
    fn begun(&self) -> u64 {
        let mut sum = 0u64;
        for begun in self.begun.as_slice() {
            sum = sum.wrapping_add(begun.load(SeqCst));
        }
        sum
    }

    // Whether a wait goes on. If it does not, and too few are begun, no other collector waits for more either.
    fn goes_on(&self, due: u64, waiting: &mut Waiting) -> bool
        ensures more { waiting.old.last ≤ waiting.new.last }
        ensures due { IsTrue result → waiting.old.last < waiting.new.last →
            waiting.new.last < due }
        ensures still { waiting.new.last ≡ waiting.old.last →
            waiting.new.still ≡ waiting.old.still }
        ensures short { IsTrue result → waiting.new.still < LONGEST_STILL }
    {
        let begun = self.begun();
        if is_enough(begun, due, self.given_up.load(SeqCst)) {
            return false;
        }
        waiting.note(begun);
        if waiting.is_too_long() {
            self.given_up.store(begun.wrapping_add(1), SeqCst);
            return false;
        }
        true
    }

    // Waits until so many are begun, or nobody waits.
    fn wait<R: Wait>(&self, rt: &R, due: u64) {
        let never_woken = AtomicU64::new(0);
        let mut waiting = Waiting::new();
        while self.goes_on(due, &mut waiting) {
            let pause = waiting.rest();
            never_woken.park_timeout(rt, 0, Duration::from_micros(pause));
        }
    }
}

impl<'a, G: Gate> Gate for Pace<'a, G> {
    fn at<R: Wait>(&self, rt: &R, worker: u32, statement: u32) {
        if worker >= GROUP && worker <= INTERVAL {
            self.wait(rt, due(self.records, self.rounds, worker, statement));
        } else if worker == READER && statement == 1 {
            self.wait(rt, self.records / 2);
        } else if let Some(begun) = self.begun.get(word_of(worker)) {
            begun.store(statement as u64, SeqCst);
        }
        self.gate.at(rt, worker, statement);
    }
}
