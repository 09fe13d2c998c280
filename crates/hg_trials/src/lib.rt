//! Tests of the crates that threads share, each alone and several at once, as a program would call them; and of the whole, where a test
//! needs a source, a sink or a gate of its own.
//!
//!     lock, store    two or more threads take locks and buckets
//!     register       its word
//!     seat           seats move to one pass
//!     batch          two sessions commit in one group, one step after the other
//!     entering       a session enters while others commit, or begins anew while a pass looks, step by step
//!     session        the caller that crates/hg_session/CALLING.md shows
//!     sharing        eight threads commit at one engine
//!
//!     serve          sources and sinks that fail, that watch how they are called, and that never fail
//!     order_tests    workers that are held, so that one schedule alone is possible
//!     round          the same, of rounds that are made while a session stays, or a helper
//!     order          a gate that holds workers
//!     watched        a source and a sink that watch how they are called
//!
//! What words, a script and its text can show is a row of tests/, on which the program is run.
//!
//! No crate uses this one.
#![tactic(auto)]

#[cfg(test)]
mod batch_tests;
#[cfg(test)]
mod entering_tests;
#[cfg(test)]
mod lock_tests;
#[cfg(test)]
mod order;
#[cfg(test)]
mod order_tests;
#[cfg(test)]
mod register_tests;
#[cfg(test)]
mod round_tests;
#[cfg(test)]
mod seat_tests;
#[cfg(test)]
mod serve_tests;
#[cfg(test)]
mod session_tests;
#[cfg(test)]
mod sharing_tests;
#[cfg(test)]
mod store_tests;
#[cfg(test)]
mod watched;
