//! What a replay prints, as a function of its script.
//!
//! The definitions of `hg_base` say what may be printed, for every command. A replay has one thread, so one text is enough for it, but for
//! what its reports say was removed and moved. `replayed` (`specs/Replayed.antt`) is that text: one step a record, from a state of the
//! committed groups and of what each session has open. `serve` of `hg_run` prints it (`exact`).
//!
//!     record                      known before                          reply
//!     1, put, t, 5, 20            group 1 wrote t 5, nothing is open    at, 1, stored, committed, 2
//!     2, put, t, 5, 30            session 1 has an open write of t 5    refused, open, 1, 1
//!     2, put, t, 5, 30            group 2 wrote t 5, snapshot 1         refused, newer, 2
//!
//! Nothing of the server is in it, so a person can say what is printed by reading these pages and the script.
//!
//! Its laws are that this text is sound, and that a sound text is this one if its commit numbers ascend and each write is refused for
//! the first conflict (`IsFirst`). So what a driver has to show of a line besides is small. `ShowsFirsts` (`Shown` of `hg_core`) says it of
//! logs, which a driver knows: before a write is stored, no other session has the record open, and no newer group wrote it. The driver of
//! a replay shows it (`hg_run`). The worked examples of `hg_decide` are evaluated, and four sound texts that are not replayed.
//!
//! # Conversations
//!
//! In a conversation each record is answered when it comes (`conversed`). The records that break no rule make a script, and the lines of the
//! answers are those of its replay:
//!
//!     sent              answered
//!     table,t,1         declared,1
//!     1,put,t,5,20      1,2,at,0,stored,committed,1
//!     1,get,t,five      bad,3,Number
//!     2,get,t,5         2,4,at,1,row,20
//!
//! So no answer depends on a later record, and a script that is sent record by record is answered as it is replayed (`conversations`).
//! A driver shows that each answer is the one that is due, whatever the replies (`AreSoFar`), and at the end that its lines are those of a
//! replay. Then all its answers are exact.
//!
//! # What is sound fits
//!
//! What is sound for a script, in any mode, has its rows, its numbers and its lines in the widths and columns of the format (`fit`):
//!
//!     any lines                                    =>     each row that their history shows was put by a record
//!     lawful script  +  sound lines and totals     =>     each row has its table's columns
//!                                                  =>     each number has its width, each line answers its record
//!
//! Nothing here runs: each law is the contract of a function with no body. What replays and runs a script proves that its lines are
//! sound, and takes from here that they fit.
#![tactic(auto)]

mod conversations;
mod fit;
mod laws;
mod worked;

pub use conversations::{
    accepted_statements_are_answered, due_answers_are_exact, first_answers_are_of_first_records,
    next_answer_is_due, scripts_are_conversed_as_replayed, totals_are_of_the_lines_so_far,
    totals_so_far_are_replayed, what_is_conversed_is_replayed,
};
pub use fit::{rows_have_their_columns, shown_rows_were_put, what_is_sound_fits};
pub use laws::{
    answered_records_are_replayed, commit_numbers_ascend, lawful_scripts_are_answered,
    newest_group_is_of_the_history, shown_first_causes_are_replayed,
    sound_with_first_causes_is_replayed, three_totals_are_replayed, what_is_replayed_is_sound,
};
pub use worked::{
    examples_with_collectors_are_replayed, examples_without_collectors_are_replayed,
    first_causes_can_be_shown, short_talk_is_answered, sound_texts_that_are_not_exact,
};
