//! Where the statements of each session begin and end.

ghost use Rattle.std.specs.Prelude.{◌≡◌, ◌≤◌, ◌<◌, ◌==◌, ◌&&◌, ℕ, if◌then◌else◌};
ghost use Rattle.hg_records.specs.declared.ends.TheConstants.{NOWHERE};
ghost use Rattle.hg_records.specs.Links.{first_in, last_in};

use hg_base::MOST_SESSIONS;

/// What leads to no statement.
pub const NOWHERE: u32 = u32::MAX;

/// For each session, by its number, the index of its first statement, or `NOWHERE`, and that of its last.
#[derive(Drop)]
pub(crate) struct Ends {
    firsts: [u32; MOST_SESSIONS as usize + 1],
    lasts: [u32; MOST_SESSIONS as usize + 1],
}

impl Ends {
    pub(crate) fn new() -> Ends
        ensures { (j : ℕ) → j ≤ MOST_SESSIONS → first_in result j ≡ NOWHERE }
    {
        Ends {
            firsts: [NOWHERE; MOST_SESSIONS as usize + 1],
            lasts: [NOWHERE; MOST_SESSIONS as usize + 1],
        }
    }

    /// The index of a session's first statement, or `NOWHERE`.
    pub(crate) fn first(&self, session: u32) -> u32
        ensures known { session ≤ MOST_SESSIONS → result ≡ first_in self.now session }
        ensures other { MOST_SESSIONS < session → result ≡ NOWHERE }
    {
        if session > MOST_SESSIONS {
            return NOWHERE;
        }
        self.firsts[session as usize]
    }

    /// Notes that a session's newest statement is at i, and returns the index of the one before it, or `NOWHERE`.
    pub(crate) fn note(&mut self, session: u32, i: u32) -> u32
        requires { session ≤ MOST_SESSIONS }
        ensures before { result ≡
            (if first_in self.old session == NOWHERE then NOWHERE else last_in self.old session) }
        ensures first { (j : ℕ) →
            first_in self.new j ≡
            (if (session == j) && (first_in self.old j == NOWHERE) then i else first_in self.old
            j) }
        ensures last { (j : ℕ) →
            last_in self.new j ≡ (if session == j then i else last_in self.old j) }
    {
        let last = self.lasts[session as usize];
        self.lasts[session as usize] = i;
        if self.firsts[session as usize] != NOWHERE {
            return last;
        }
        self.firsts[session as usize] = i;
        NOWHERE
    }
}
