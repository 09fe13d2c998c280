//! Decision procedures for the definitions of `hg_base`.
//!
//! A definition there is a statement about a script and the lines that were printed for it. Here each has a decision
//! (`proofs/Decide.antt` defines the word): a term that follows the definition and evaluates either to a proof that it holds or to a
//! proof that it does not. So the soundness of a text that is written out, such as an example, is proved by `refl`:
//!
//!     so (decide_sound replay own_write.script own_write.printed) refl : IsSound replay own_write.script own_write.printed
//!
//! The decisions repeat the definitions part by part. A definition that is changed without its decision leaves this crate unproved. The
//! audit of a printed run, `hg_audit`, is stated in the terms of `specs/Audit.antt`, which defines the first part in which an unsound
//! text fails.
//!
//! The functions are laws: their bodies are empty, and their contracts state what the definitions make of the worked examples of
//! `specs/Examples.antt`: which texts they accept, byte for byte, and which they refuse. Two more laws state the limits of `hg_base`
//! as numbers.
#![tactic(auto)]

mod examples;
mod limits;

pub use examples::{
    broken_cursors_are_not_sound, broken_transactions_are_not_sound,
    examples_with_collectors_are_sound, examples_with_collectors_print_their_text,
    examples_without_collectors_are_sound, examples_without_collectors_print_their_text,
};
pub use limits::{limits_of_options_are_these_numbers, limits_of_scripts_are_these_numbers};
