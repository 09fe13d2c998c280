//! Why a script is refused.

use crate::code::Code;
use hg_base::NoMemory;
use thiserror::Error;

/// The first record that breaks a rule, or want of memory.
#[derive(Clone, Copy, Debug, PartialEq, Eq, Error)]
pub enum ScriptRefusal {
    /// The record's number among all records, counted from 1, and the first rule that it breaks.
    #[error("record {line}: {code}")]
    At { line: u64, code: Code },
    #[error("out of memory")]
    NoMemory,
}

impl From<NoMemory> for ScriptRefusal {
    ghost use Rattle.std.specs.Prelude.{◌≡◌};
    ghost use Rattle.hg_script.specs.declared.refusal.ScriptRefusal.TheVariants as refusal;

    ghost from_gives = { λ _ e. e ≡ refusal.NoMemory };

    fn from(_: NoMemory) -> ScriptRefusal {
        ScriptRefusal::NoMemory
    }
}
