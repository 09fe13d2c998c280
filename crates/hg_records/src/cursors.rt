//! The table that each session's cursor reads.

ghost use Rattle.std.specs.Prelude.{◌≡◌, ◌≤◌, ◌==◌, ℕ, None, get_or, if◌then◌else◌};
ghost use Rattle.std.specs.Option.{option_or};

use hg_base::{MOST_SESSIONS, TableId};

/// For each session, by its number, the table of the cursor that it opened last.
#[derive(Drop)]
pub(crate) struct Cursors {
    tables: [Option<TableId>; MOST_SESSIONS as usize + 1],
}

impl Cursors {
    pub(crate) fn new() -> Cursors
        ensures { (j : ℕ) → j ≤ MOST_SESSIONS → get_or result.tables j None ≡ None }
    {
        Cursors {
            tables: [None; MOST_SESSIONS as usize + 1],
        }
    }

    pub(crate) fn of(&self, session: u32) -> Option<TableId>
        requires { session ≤ MOST_SESSIONS }
        ensures { result ≡ get_or self.now.tables session None }
    {
        self.tables[session as usize]
    }

    /// Records the table of a cursor that the session opens. `None` changes nothing.
    pub(crate) fn note(&mut self, session: u32, opened: Option<TableId>)
        requires { session ≤ MOST_SESSIONS }
        ensures { (j : ℕ) →
            get_or self.new.tables j None ≡
            option_or (if session == j then opened else None) (get_or self.old.tables j None) }
    {
        if opened.is_some() {
            self.tables[session as usize] = opened;
        }
    }
}
