//! Sessions in a row.

ghost use Rattle.std.specs.Prelude.{◌≡◌, map, IfOk};
ghost use Rattle.hg_session.specs.Opened.{seated};

use crate::session::Session;
use hg_base::NoMemory;
use hg_group::RidList;
use hg_rule::SessionPass;
use std::alloc::Global;
use std::marker::Model;

/// Sessions by ascending number.
#[derive(Drop)]
pub struct SessionList {
    sessions: Vec<Session>,
}

impl Model for SessionList {
    ghost use Rattle.std.specs.Prelude.{List};
    ghost use Rattle.hg_session.specs.declared.session.Session.{Session};

    ghost Value = { List Session };

    ghost view = { λ a. a.sessions.items };
}

impl From<Vec<Session>> for SessionList {
    ghost from_gives = { λ sessions list. list ≡ sessions.items };

    fn from(sessions: Vec<Session>) -> SessionList {
        SessionList { sessions }
    }
}

impl SessionList {
    pub fn into_vec(self) -> Vec<Session>
        ensures { result.items ≡ self }
    {
        self.sessions
    }
}

// A session in each place.
pub(crate) fn seat_all(
    alloc: Global,
    passes: Vec<SessionPass>,
    quota: u64,
) -> Result<Vec<Session>, NoMemory>
    ensures { IfOk result (λ sessions. sessions.items ≡ map (seated alloc quota) passes.items) }
{
    let mut sessions = Vec::new(alloc);
    for pass in passes {
        let written = RidList::new(alloc);
        sessions.push(Session {
            pass,
            opened: None,
            written,
            cursor: None,
            left: quota,
            retries: 0,
            alloc,
        })?;
    }
    Ok(sessions)
}
