//! Why a write is refused.

ghost use Rattle.std.specs.Prelude.{◌≡◌, [], ◌∷◌};
ghost use Rattle.hg_base.specs.declared.image.Image.{Image};
ghost use Rattle.hg_bucket.specs.Conflicts.{conflict, open_by};
ghost use Rattle.hg_bucket.specs.Parts.{kept_as};

use hg_base::{NoMemory, Writer};
use hg_chains::Stamp;
use thiserror::Error;

/// The first of these that is so.
#[derive(Clone, Copy, Debug, PartialEq, Eq, Error)]
pub enum WriteRefusal {
    /// The newest version is an open write of this transaction, or it committed it and that is not published.
    #[error("the record has an open write")]
    Open { session: u32, transaction: u64 },
    /// The newest version has this number, which is over the writer's snapshot.
    #[error("the record was written by group {number}")]
    Newer { number: u64 },
    #[error("out of memory")]
    NoMemory,
}

impl From<NoMemory> for WriteRefusal {
    ghost use Rattle.std.specs.Prelude.{◌≡◌};
    ghost use Rattle.hg_bucket.specs.declared.refusal.WriteRefusal.TheVariants as refusal;

    ghost from_gives = { λ _ e. e ≡ refusal.NoMemory };

    fn from(_: NoMemory) -> WriteRefusal {
        WriteRefusal::NoMemory
    }
}

/// Why a write over a newest version of that stamp is refused, memory aside.
pub(crate) fn refusal(stamp: Stamp, by: Writer, snapshot: u64, mark: u64) -> Option<WriteRefusal>
    ensures { (image : Image) → result ≡ conflict by snapshot mark (kept_as stamp image ∷ []) }
{
    match stamp {
        Stamp::Written(writer) if writer == by => None,
        Stamp::Written(writer) => Some(held_by(writer)),
        Stamp::Numbered { number, by: writer } if number > mark => Some(held_by(writer)),
        Stamp::Numbered { number, by: _ } if number > snapshot => Some(WriteRefusal::Newer {
            number,
        }),
        Stamp::Numbered { .. } => None,
    }
}

// The refusal for an open write of that transaction.
fn held_by(writer: Writer) -> WriteRefusal
    ensures { result ≡ open_by writer }
{
    WriteRefusal::Open {
        session: writer.session,
        transaction: writer.transaction,
    }
}
