//! From a history and the sessions' logs to the lines that a command prints.
//!
//! The state machine of `hg_core` has no lines. It has a history of groups of commits, and for each session a log of what its
//! transactions read, wrote and committed. Lines and logs correspond, statement by statement (`Reading` of `hg_core`):
//!
//!     record        its line               the log of its session gains
//!     1,put,t,5,7   1,1,at,0,stored,       Began 0, Wrote t/5, Published 1, Over
//!                   committed,1
//!     2,begin       2,2,begun,1            Began 1
//!     2,put,t,5,8   2,3,stored             Wrote t/5
//!     1,put,t,5,9   1,4,at,1,refused,      Began 1, Refused t/5, Over
//!                   open,2,1
//!     2,rollback    2,5,undone             Undid t/5, Over
//!
//! If each entry of each log is right over the machine's history, then each line is right over it by the definitions of `hg_base`.
//! Those definitions, though, take the history from the printed numbers. The two histories have the same commits, session by session
//! and group by group: each commit of the machine is in a log with its number, and each number in a log is printed. So a line that is
//! right over one of them is right over the other.
//!
//! `HasReplayed` is what a replay knows after each record, and so at its end. It is kept line by line: for each kind of statement
//! `proofs/Stepping` has a lemma on one in an open transaction, and `proofs/Singles` on one that is a transaction of its own. They
//! say what a caller must know of a log. `HasRun` is what a run knows once its threads are joined: of each session only its log and
//! its lines, and of each collector its reports. `replay_is_sound` and `run_is_sound` are the headline.
//!
//! A text is also that of one run of the machine (`IsOneRun`). Where the list of steps is known that ends with the logs and the journals
//! (`HasEnded`), `one_run_is_printed` reads lines from the logs, reports from the journals and totals from the counters.
#![tactic(auto)]

mod laws;
mod one_run;
mod totals;

pub use laws::{premises_are_met, replay_is_sound, run_is_sound, states_are_logged};
pub use one_run::{one_run_is_printed, three_lists_are_worked};
pub use totals::buckets_tell;
