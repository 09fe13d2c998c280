//! Open transactions that were handed over, and the queue in which they wait for the session that commits the next group.
//!
//!     session 2   push
//!     session 5   push   ->   [ 2/7 ] [ 5/1 ] [ 3/4 ]   ->   pop   leader
//!     session 3   push
//!
//! A transaction is named by a pair: its session, and its number among that session's transactions (3/4). It enters the queue together
//! with its session's part of the state, so no other seat has that part while it waits. Each session has a pass that pushes (`twin`). One
//! pass pops, and it is kept with the committer's seat. What a pass knows is a list of pairs, oldest first.
//!
//!     pushed so far         6/2   2/6   3/4   5/1   2/7
//!     the pass that pops    6/2   2/6                         what was popped, all of it
//!     one that pushes       6/2   2/6   3/4                   a prefix, which ends with its own last push
//!
//! The rule (`Ordered`) says that what was pushed is what was popped followed by what the queue holds: no transaction is lost, none
//! comes twice, and none overtakes another. Each transaction in the queue is of one board, live, unchanged since it was handed over,
//! and has exactly the records that its context names.
#![tactic(auto)]

mod handed;
mod known;
mod line;
mod open_tx;
mod picks;
mod plays;
mod queue;
mod rid_list;

pub use handed::Handed;
pub use known::{BoardId, Known};
pub use line::{InOrder, QueuePass};
pub use open_tx::OpenTx;
pub use queue::Queue;
pub use rid_list::RidList;
