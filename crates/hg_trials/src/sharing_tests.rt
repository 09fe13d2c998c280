//! Eight threads commit at one engine.

ghost use Rattle.std.specs.Prelude.{◌≡◌, ◌+◌, ◌<◌, ◌≤◌, None, All};
ghost use Rattle.hg_session.specs.Engines.{engine_sizes};
ghost use Rattle.hg_session.specs.Sessions.{IsOf, open_of, left_of};
ghost use Rattle.hg_session.specs.Resting.{MayRun};

use hg_base::{NoMemory, Rid, Row, Scope, TableId};
use hg_group::Receipt;
use hg_session::{Ended, Engine, Session, TableDecl};
use std::alloc::Global;
use std::sync::Wait;
use std::sync::atomic::AtomicU64;
use std::sync::atomic::Ordering::SeqCst;
use std::thread;
use std::thread::Threads;

// How often each place was answered.
#[derive(Drop)]
struct Tally {
    places: Vec<AtomicU64>,
}

impl Tally {
    fn new(alloc: Global, most: u64) -> Result<Tally, NoMemory> {
        let mut places = Vec::new(alloc);
        for _ in 0..most {
            places.push(AtomicU64::new(0))?;
        }
        Ok(Tally { places })
    }

    fn count(&self, receipt: Receipt) {
        if let Some(count) = self.places.get(receipt.place as usize) {
            count.fetch_add(1, SeqCst);
        }
    }

    // How many places were answered exactly once.
    fn once(&self) -> u64 {
        let mut once = 0u64;
        for count in self.places.as_slice() {
            if count.load(SeqCst) == 1 {
                once = once.wrapping_add(1);
            }
        }
        once
    }
}

// A transaction with one write. Where it isn't committed, it is rolled back.
fn commit_one<R: Wait>(
    rt: &R,
    engine: &Engine,
    session: &mut Session,
    rid: Rid,
    row: Row,
) -> Option<Receipt>
    requires ready { MayRun engine.now 2 session.old }
    requires table { rid.table.0 < (engine_sizes engine.now).tables }
    ensures own { IsOf engine.now session.new }
    ensures again { (open_of session.new ≡ None) × (left_of session.new + 2 ≡ left_of session.old) }
{
    session.begin(engine, Scope::All);
    if session.put(rt, engine, rid, row).is_ok() {
        if let Ok(Ended { receipt }) = session.commit(rt, engine) {
            return receipt;
        }
    }
    session.rollback(rt, engine);
    None
}

// Two hundred transactions, each on a key of its own among these.
fn commit_often<R: Wait>(
    rt: &R,
    alloc: Global,
    engine: &Engine,
    session: &mut Session,
    first: u64,
    tally: &Tally,
)
    requires ready { MayRun engine.now 400 session.old }
    requires table { 0 < (engine_sizes engine.now).tables }
    requires first { first < 1000000 }
{
    for i in 0..200u64 {
        let rid = Rid {
            table: TableId(0),
            key: first + i,
        };
        let Ok(row) = Row::from_slice(alloc, &[7]) else {
            return;
        };
        if let Some(receipt) = commit_one(rt, engine, session, rid, row) {
            tally.count(receipt);
        }
    }
}

// The first keys of two sessions are so far apart.
fn commit_beside<R: Threads + Wait + Sync>(
    rt: &R,
    alloc: Global,
    engine: &Engine,
    sessions: &mut [Session],
    apart: u64,
    tally: &Tally,
)
    requires ready { All (MayRun engine.now 400) sessions.old }
    requires table { 0 < (engine_sizes engine.now).tables }
    requires apart { apart ≤ 1000 }
{
    thread::for_each_mut(
        rt,
        sessions,
        8,
        &|i, session| { commit_often(rt, alloc, engine, session, apart * (i as u64 % 8), tally) },
    );
}

// Nobody is refused, and each place below the count of commits is answered once. What numbers the groups have is told by a row
// (tests/generated.py, `eight_workers_commit_beside_the_collectors`).
#[test]
fn eight_threads_commit_on_their_own_keys(rt: HostRuntime) {
    let tables = [TableDecl { columns: 1 }];
    let Ok((engine, sessions, _)) = Engine::open(rt.alloc(), 8, &tables[..], 8, 400) else {
        panic!(rt; "no engine");
    };
    let mut sessions = sessions.into_vec();
    let tally = Tally::new(rt.alloc(), 1600).expect(&rt, "a tally");
    let all = sessions.as_mut_slice();
    commit_beside(&rt, rt.alloc(), &engine, all, 1000, &tally);
    engine.free();
    assert_eq!(rt; tally.once(), 1600);
}
