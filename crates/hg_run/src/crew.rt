//! What a driver takes through a script.

use hg_collectors::Collectors;
use hg_session::Session;

/// The sessions of an engine by ascending number, and its collectors.
#[derive(Drop)]
pub struct Crew {
    pub sessions: Vec<Session>,
    pub collectors: Collectors,
}
