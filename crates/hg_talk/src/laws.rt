//! Laws of what is sent, each the contract of a function with no body.

ghost use Rattle.std.specs.Prelude.{◌≡◌, ℕ, List, map};
ghost use Rattle.std.specs.List.{AllZip, Contains};
ghost use Rattle.csv.specs.Reading.{default_config, records, strip_bom};
ghost use Rattle.hg_talk.specs.Framing.{IsSent, Long, Record, all_in};

/// What is sent in a conversation is what a script has: its records, one after the other, but of one that is too long nothing is known.
/// If none is, it is the records of the script.
pub fn what_is_sent_is_what_a_script_has()
    ensures each { (bytes : List ℕ) →
        AllZip IsSent (all_in bytes) (records default_config (strip_bom bytes)) }
    ensures all { (bytes : List ℕ) → ¬ Contains (all_in bytes) Long →
        all_in bytes ≡ map Record (records default_config (strip_bom bytes)) }
{}
