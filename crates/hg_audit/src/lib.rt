//! Checks a printed run: whether a text is sound for a script, and if not, what fails first and where.
//!
//! It uses none of the engine's crates: it compares what was printed with the definitions of `hg_base`. `audit` reads the bytes and
//! finds the command by which they are judged: as a run if the lines have the shape of one and no session's record is answered by a
//! report, and otherwise as a replay. It returns what fails first, in this order, with the record of the text that shows it:
//!
//!     Text       the bytes are no text                                        the first record that cannot be there
//!     Shape      a line is not that of the next record                        its first record
//!     Commits    the commit numbers give no history, or an update is lost     the last record
//!     Reply      a reply is wrong, or a refusal does not show its cause       the line's first record
//!     Fresh      a number is not in order with those before it                the line's first record
//!     Totals     the totals are not those of the lines                        the last record
//!
//! `find_fault` decides the lines and totals, by what `hg_known` gathers from them. Lost updates, replies and numbers are decided in
//! one pass over the lines (`first_faults`), and `verdict_of` finds the record of the line that fails. For a scan it checks that no
//! key is seen between the rows, neither one that the transaction stored nor one that anybody else wrote. A fetch is checked like a
//! scan of what its cursor has left, up to the last key that it passed, so a scan in parts costs about what the whole scan does.
#![tactic(auto)]

mod conflict;
mod fault;
mod freshness;
mod reply;
mod scan;
mod shape;
mod totals;
mod verdict;

pub use fault::{Found, what_is_right_is_sound};
pub use shape::Command;
pub use verdict::{Verdict, Why, audit, verdict_line};
