//! The state machine under every claim about threads: snapshots, commits, and the removal of old versions.
//!
//! There are no threads here. An event is one atomic action of one actor, and one invariant holds after every list of events and moves
//! of seats (`always_steady`). So no layer above has to argue about an order of steps again. Nearly all functions of this crate are
//! laws: their bodies are empty, and their contracts are the theorems. The functions that do something are in `register.rt`.
//!
//! The mark is the number of the last group of commits. A session reads at a mark, its snapshot, and takes no lock to get it. A
//! collector has to know every snapshot in use, since it removes what none of them sees. For that, each session has a register, one
//! word, which a collector's pass loads:
//!
//!     session                       its register       pass of a collector
//!     Declare store the mask word   idle               Mark    load the mark: M, which begins a record
//!     Probe   load the mark: f      idle               Sample  load one register, for each session in turn, and
//!     Enter   store the register    entering f         SampleMask   its mask word, where that is live and declared
//!     Fix     load the mark: m      entering f         Move    exchange a live register for the same, moved
//!     GoLive  store the register    live at m          Miss    the same, too late: the register is another
//!     Look    read, or try a write  live at m          Take    take the oldest group
//!     Install store a write         live at m          Reclaim remove versions of a record
//!     Undo    take it back          live at m
//!     End     store the register    idle               committer
//!                                                      Stamp   give a write the next number
//!                                                      Publish store the mark: one more
//!
//! A pass has a journal of what it loaded, tried and took, and its visits have the number of the round in which they were made. So
//! what it reports can be read from the state that a list of steps leaves, and so can each session's replies from its log.
//!
//! A session that a pass finds idle has not yet loaded the mark for the second time, so it goes live at or above M. One that the pass
//! finds entering f goes live at or above f. The horizon of a record is the least of M and of all numbers that were found entering. So
//! it is at or below every snapshot that the pass did not find live (`no_gather_misses_a_snapshot`).
//!
//! A live register shows whether its transaction declared tables; which ones, the session's mask word shows. A snapshot that is long in
//! use is moved: from then on it holds back those tables only. A pass loads the mask word after the register. If the session began anew
//! between the two loads, it fixed its new snapshot after the pass loaded M, so at or above M. So whatever the mask says, nothing is
//! removed that the session reads.
//!
//! A bucket holds the versions of its records, newest first:
//!
//!     written by 3/7  ->  9, by 2/4  ->  5, by 1/2  ->  oldest 3
//!
//! At most the first one is unpublished: an open write, or one that is stamped with the next number. A version lives from its number up
//! to, and not including, its successor's. A sweep removes it if the successor is at or below the horizon and no snapshot that counts
//! for the table is in that lifetime. A cut removes all versions at or below a bound except the newest of them, and that one too if it
//! is a deletion (`removal_is_exact`). So a reader finds what a table that never reclaims would show (`no_removal_is_seen`), every
//! reply is right (`every_answer_is_right`), and no update is lost (`history_is_sound`).
//!
//! A pass takes a bucket to remove versions there, and gives it back: that is a visit. A bucket counts the versions that were made,
//! undone and removed. These counts agree with the logs and the visits, and the versions that are left are the rest
//! (`counters_balance`). A record that was cut at a bound, or clean, when its bucket was given back, still is (`what_was_left_stays`).
//!
//! Each law named `.._is_refuted` takes a wrong version of a step and shows that it does not do what the right one does: it breaks the
//! invariant, misses a snapshot, or leaves a version that no session reads. Its proof gives a state in which that happens.
//!
//! `specs/` has the state, the events and the invariant, one part a file. `Register`, `Loaded` and `Ask` are types of the layer above.
//! No value is ever made of `Phase`, `LogEntry`, `Version` and `Visit`: only contracts use them.
#![tactic(auto)]

mod ask;
mod journal;
mod laws;
mod loaded;
mod log;
mod phase;
mod refuted;
mod register;
mod theorems;
mod version;
mod visit;

pub use ask::Ask;
pub use journal::PassEntry;
pub use laws::{
    always_steady, arrive_keeps, declare_keeps, each_is_reached, end_keeps, enter_keeps, fix_keeps,
    go_live_keeps, install_keeps, leave_keeps, look_keeps, mark_keeps, miss_keeps, move_keeps,
    probe_keeps, publish_keeps, reclaim_keeps, sample_keeps, sample_mask_keeps, split_keeps,
    stamp_keeps, take_keeps, undo_keeps, unite_keeps,
};
pub use loaded::Loaded;
pub use log::LogEntry;
pub use phase::Phase;
pub use refuted::{
    bound_without_mask_is_refuted, bound_without_moved_is_refuted,
    horizon_without_entering_is_refuted, lifetime_with_successor_is_refuted,
    lifetime_without_own_number_is_refuted, mark_loaded_last_is_refuted,
    mask_loaded_first_is_refuted, mask_stored_late_is_refuted, newest_deletion_removed_is_refuted,
    one_load_is_refuted, publish_before_stamp_is_refuted, second_writer_is_refuted,
    undeclared_scope_is_refuted,
};
pub use register::{Register, mask_word};
pub use theorems::{
    a_log_is_read, a_visit_counts, commits_are_bounded, counters_balance, counts_are_bounded,
    each_move_is_noted, each_moved_snapshot_was_live, each_refusal_had_its_cause,
    each_snapshot_was_the_mark, every_answer_is_right, every_event_happens, history_is_sound,
    mark_is_bounded, no_conflict_is_lost, no_gather_misses_a_snapshot, no_removal_is_seen,
    records_are_placed, removal_is_exact, replies_are_right, what_is_live_is_left,
    what_is_open_is_new, what_was_left_stays, words_are_exact,
};
pub use version::{Stamp, Version};
pub use visit::{Counters, Removed, Visit};
