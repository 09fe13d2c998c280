//! What a cut and a sweep took away.

use hg_base::Image;

/// What a cut took away: the newest version at the bound, by its number and image, and how many others.
#[derive(Debug, Drop)]
pub struct Cut {
    pub image: Option<(u64, Image)>,
    pub gone: u64,
}

/// How many versions a sweep took away, and whether the oldest image that stands behind them is to go too.
#[derive(Clone, Copy, Debug)]
pub struct Swept {
    pub gone: u64,
    pub base_gone: bool,
}
