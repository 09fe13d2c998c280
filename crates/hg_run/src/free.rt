//! Frees sessions and passes.
//!
//! What they own is a tree of many types. Each function that owns one of them at an exit has to prove how the whole tree is freed. Those that
//! hand it on to these need not, so it is proved here once. An engine is freed by `Engine::free` in the same way, and its collectors by
//! `Collectors::free`.

use hg_rule::SessionPass;
use hg_session::Session;

/// Frees sessions. An open transaction is not rolled back.
pub(crate) fn free_sessions(_sessions: Vec<Session>) {}

/// Frees the pass of a session.
pub(crate) fn free_pass(_pass: SessionPass) {}
