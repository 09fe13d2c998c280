//! One record's versions, newest first, in a list of their own.
//!
//! `Chain` is what a place of `Chains` is, for a single record: each call does to its list what the call of the same name on `Chains` does
//! to the list of a place, and crates/hg_chains/src/lib.rt says how. The engine uses `Chains`. `Chain` is for a caller with one record,
//! and for tests, which make the same calls on both.
//!
//! `cut` takes the end of the list off. `sweep` lets each version leave the list at the front, and come back at the end if it stays. After
//! as many turns as there were versions the others are gone, none was copied, and nothing was allocated.
#![tactic(auto)]

mod chain;

pub use chain::Chain;
pub use hg_chains::{Chains, Cut, Stamp, Swept, Version};
