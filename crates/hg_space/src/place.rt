//! One place of the table space.

use hg_base::Image;

/// Free, with the next free place where there is one; or taken, with the oldest image and its number where there is one.
#[derive(Drop)]
pub(crate) enum Place {
    Free(Option<u64>),
    Taken(Option<(u64, Image)>),
}
