//! `serve` for a caller who has the bytes of the source in memory, and wants those of the sink there: no stream fails, so more is known of
//! how a call ends.
#![tactic(auto)]

mod steady;

pub use steady::serve_steadily;
