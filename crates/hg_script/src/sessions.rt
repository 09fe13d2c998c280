//! Which sessions have an open transaction, and which have an open cursor.

ghost use Rattle.std.specs.Prelude.{◌≡◌, ◌≤◌, ◌==◌, ℕ, [], false, get_or, if◌then◌else◌};
ghost use Rattle.hg_script.specs.Sessions.{KnowsSessions};
ghost use Rattle.hg_script.specs.Rules.{opened, reading};

use hg_base::{MOST_SESSIONS, Statement};
use std::marker::Model;

/// For each session, by its number, whether its transaction is open and whether its cursor is open.
#[derive(Drop)]
pub struct OpenSessions {
    flags: [bool; MOST_SESSIONS as usize + 1],
    cursors: [bool; MOST_SESSIONS as usize + 1],
}

impl Model for OpenSessions {
    ghost use Rattle.hg_script.specs.Sessions.{OpenFlags};

    ghost Value = { OpenFlags };

    ghost view = { λ s. record { flags = s.flags; cursors = s.cursors } };
}

impl OpenSessions {
    /// Before the first statement.
    pub fn new() -> OpenSessions
        ensures { KnowsSessions result [] }
    {
        OpenSessions {
            flags: [false; MOST_SESSIONS as usize + 1],
            cursors: [false; MOST_SESSIONS as usize + 1],
        }
    }

    /// Whether a transaction of the session is open.
    pub fn is_open(&self, session: u64) -> bool
        requires { session ≤ MOST_SESSIONS }
        ensures { result ≡ get_or self.now.flags session false }
    {
        self.flags[session as usize]
    }

    /// Whether a cursor of the session is open.
    pub fn is_reading(&self, session: u64) -> bool
        requires { session ≤ MOST_SESSIONS }
        ensures { result ≡ get_or self.now.cursors session false }
    {
        self.cursors[session as usize]
    }

    /// Records what a statement does to its session's transaction and cursor.
    pub fn note(&mut self, session: u32, statement: &Statement)
        requires { session ≤ MOST_SESSIONS }
        ensures flags { (j : ℕ) →
            get_or self.new.flags j false ≡
            (if session == j then opened (get_or self.old.flags j false) statement.now else
            get_or self.old.flags j false) }
        ensures cursors { (j : ℕ) →
            get_or self.new.cursors j false ≡
            (if session == j then reading (get_or self.old.cursors j false) statement.now else
            get_or self.old.cursors j false) }
    {
        match statement {
            Statement::Begin(_) => self.flags[session as usize] = true,
            Statement::Commit => self.flags[session as usize] = false,
            Statement::Rollback => self.flags[session as usize] = false,
            Statement::Get(_) => {}
            Statement::Put(_, _) => {}
            Statement::Del(_) => {}
            Statement::Scan { .. } => {}
            Statement::CursorOpen { .. } => self.cursors[session as usize] = true,
            Statement::Fetch(_) => {}
            Statement::CursorClose => self.cursors[session as usize] = false,
            Statement::Gc(_) => {}
        }
    }
}
