//! The words of the board: the place of each, and what a register shows.

ghost use Rattle.std.specs.Prelude.{◌≡◌};
ghost use Rattle.hg_base.specs.Freshness.{is_declared};
ghost use Rattle.hg_core.specs.Events.{moved};
ghost use Rattle.hg_rule.specs.Words.{words_for, register_at, mask_at};

use hg_base::Scope;
use hg_core::Register;

// How many words a cache line has.
const LINE: usize = 8;

// The place of a session's register.
pub(crate) fn register_at(session: u32) -> usize
    ensures { result ≡ register_at session }
{
    LINE * session as usize
}

// The place of the mask of its tables.
pub(crate) fn mask_at(session: u32) -> usize
    ensures { result ≡ mask_at session }
{
    register_at(session) + 1
}

// How many words there are.
pub(crate) fn words_for(sessions: u32) -> usize
    ensures { result ≡ words_for sessions }
{
    LINE * (sessions as usize + 1)
}

// Whether the register of a session shows that it declared tables.
pub(crate) fn is_declared(scope: Scope) -> bool
    ensures { result ≡ is_declared scope }
{
    match scope {
        Scope::All => false,
        Scope::Declared(_) => true,
    }
}

// What a register shows once its snapshot is moved.
pub(crate) fn moved(register: Register) -> Register
    ensures { result ≡ moved register }
{
    match register {
        Register::Live {
            number,
            declared,
            ..
        } => Register::Live {
            number,
            declared,
            moved: true,
        },
        other => other,
    }
}
