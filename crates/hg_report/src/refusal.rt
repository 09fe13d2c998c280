//! Why a text is refused.

use hg_base::NoMemory;
use thiserror::Error;

/// The first record with which the bytes do not begin a text, or running out of memory.
#[derive(Clone, Copy, Debug, PartialEq, Eq, Error)]
pub enum TextRefusal {
    /// The record's number, counted from 1.
    #[error("record {line}")]
    At { line: u64 },
    #[error("out of memory")]
    NoMemory,
}

impl From<NoMemory> for TextRefusal {
    ghost use Rattle.std.specs.Prelude.{◌≡◌};
    ghost use Rattle.hg_report.specs.declared.refusal.TextRefusal.TheVariants as refusal;

    ghost from_gives = { λ _ e. e ≡ refusal.NoMemory };

    fn from(_: NoMemory) -> TextRefusal {
        TextRefusal::NoMemory
    }
}
