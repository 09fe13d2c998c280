//! A script that is made from a seed, as a load for the engine.
//!
//!     table,a,1        256 keys of three tables
//!     table,b,2
//!     table,c,1
//!     1,..             sessions 1 to 8 take turns, 2,000 times
//!     2,..
//!
//! Each statement is drawn: a number below 16 makes the choice, from one table of choices inside a transaction and another outside
//! (`chosen`), and further numbers give its table, its key and its values. The numbers come from a linear congruence whose first state
//! is the seed, so that a seed has one script (`a_seed_has_one_script`). Its one rule: what is made is lawful, so it runs like a script
//! that was read.
#![tactic(auto)]

mod choice;
mod draws;
mod generator;
mod law;

pub use generator::make_script;
pub use law::a_seed_has_one_script;
