//! Reasons: why a call was refused, in one line for a person.
//!
//!     bytes of the script, record 4, Number  ->  line 7, field 5 (x1): a value of table t is a whole number from ..
//!
//! A status says what is wrong in few words, which programs rely on. A `Reason` says where that is and what is allowed. It is made only
//! after a refusal, from the bytes that were read, so that nothing is kept for it while a script is read. The records before the refused
//! one are read once more (`Before`), for what they declared and opened. Then the refused record is looked at by its word (`Form`) and by
//! what each of its fields has to be (`Part`).
//!
//! The one rule of the crate: a reason is one line of printed ASCII (`IsOneLine`), whatever bytes it shows. What it says is a help alone:
//! no clause says it, and rows of text test it.
#![tactic(auto)]

mod answered;
mod before;
mod commits;
mod end;
mod finding;
mod form;
mod fresh;
mod help;
mod history;
mod judged;
mod names;
mod numbers;
mod order;
mod output;
mod outside;
mod part;
mod reason;
mod replies;
mod rows;
mod script;
mod shown;
mod spot;
mod verdict;
mod walk;
mod words;

pub use end::{Call, Why, explain};
pub use reason::Reason;
