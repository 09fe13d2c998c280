//! The board: the words that threads share, the views that their seats carry in proofs, and one rule over both.
//!
//! `hg_core` says what each event makes of one state. Here threads make these events, each by one atomic load, store or exchange. So
//! whatever the threads do, they have made a list of events of `hg_core`, and its invariant holds.
//!
//! # The words
//!
//!     word 0    word 8, 9             word 16, 17         ..   word 8 n, 8 n + 1
//!     mark      register 1, mask 1    register 2, mask 2       register n, mask n
//!
//! The mark is the number of the last group of commits. A session's register shows whether it is idle, entering or live, and its mask
//! the tables that its transaction declared. Eight words are one cache line, and the other words of a line are not used. So a session's
//! store does not take the mark or another session's words out of the cache of a processor that reads them.
//!
//! # Seats and views
//!
//! Threads share the words and nothing else. The rest of the state of `hg_core` is in views. A view is plain data that a seat carries in
//! proofs only; it has no bytes at run time. Each kind of seat has its part of the state:
//!
//!     SessionPass      phase and log of its session
//!     BucketSeat       records and counters of its bucket
//!     CommitSeat       history, stamped writes, and how many groups were taken
//!     CollectorPass    record and visits of its pass
//!     TxSeat           phase and log of a session that handed them over
//!
//! A view is three lists: the parts that the seat has, what it has seen, and the steps that it made. Each part is in exactly one view.
//! A seat can be joined to another one, whose view then has its parts too, and can be split off again. Histories and logs only grow, so
//! what was seen stays true: where two views are joined, one list of what was seen is appended to the other.
//!
//! # The rule
//!
//! The rule (`specs/Rules.antt`) says that words and views show a state, and that this state meets the invariant of `hg_core`. It holds
//! between any two steps of any threads. The state is not hidden: one function reads it from words and views (`state_is_read`).
//!
//! Each step is one atomic operation, and one event of `hg_core`:
//!
//!     session      declare, probe, enter, fix, go_live, look, install, undo, end
//!     collector    mark, sample, sample_mask, move_one, reclaim, take_group
//!     committer    stamp, publish
//!
//! A step's contract is one equation for the view after it. The call answers by the word that it found, appends its event to the seat's
//! list, changes only the seat's own parts, and keeps what was seen. Nothing about snapshots or versions is proved again here: a step is
//! allowed by the law of its event, and by one lemma, that a step which changes only its own word and its own parts keeps the rule
//! (`proofs/Keeps.antt`).
//!
//! The other calls join and split seats. To read or change a bucket, a pass first joins the bucket's seat (`join_bucket`). Then a session
//! can `look`, `install` and `undo` there, and a collector can `reclaim`. A collector's visit of the bucket begins with the join, and ends
//! when it gives the bucket back (`split_bucket`). `agents.rt` says how a session's part goes to the leader that commits it, and
//! returns.
//!
//! A load of the mark can say more: that some state which meets the rule agrees with the view (`look_at`). What two passes learn when they
//! meet (`meet`), and what a pass knows to which all others were joined (`know_all`), are lemmas over that one fact.
#![tactic(auto)]

mod agents;
mod board;
mod groups;
mod joins;
mod maker;
mod moves;
mod passes;
mod session;
mod steps;
mod trio;
mod view;
mod words;

pub use board::{Board, state_is_read};
pub use groups::Groups;
pub use hg_core::{Ask, Loaded, PassEntry, Register};
pub use passes::{
    BucketSeat, BucketSeatList, CollectorPass, CommitSeat, Pass, Seats, SessionPass,
    SessionPassList, TxSeat,
};
pub use view::{BucketPart, CommitPart, Event, Part, PassPart, SessionPart, Sight, Sizes, View};
