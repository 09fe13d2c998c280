//! What each join and each split of seats makes of their views.

ghost use Rattle.hg_rule.specs.Moves.{joined, merged, spent, left_bare, right_given, left_but_second, right_second, left_tail, right_first};
ghost use Rattle.hg_rule.specs.Places.{with_bucket, without_bucket, bucket_alone, without_commit, commit_alone};
ghost use Rattle.hg_rule.specs.Handing.{received, hands_back};
ghost use Rattle.hg_rule.specs.Sharing.{rejoined};

use crate::view::View;
use atomic_table::{Join, Split};

pub(crate) struct Joining;

impl Join<View> for Joining {
    ghost both = { joined };

    ghost spent = { spent };
}

/// Another seat's parts join the first, and its steps stay known.
pub(crate) struct Merging;

impl Join<View> for Merging {
    ghost both = { merged };

    ghost spent = { spent };
}

/// All parts leave.
pub(crate) struct Giving;

impl Split<View> for Giving {
    ghost left = { left_bare };

    ghost right = { right_given };
}

/// The part that follows the first leaves.
pub(crate) struct Returning;

impl Split<View> for Returning {
    ghost left = { left_but_second };

    ghost right = { right_second };
}

/// The first part leaves.
pub(crate) struct Dealing;

impl Split<View> for Dealing {
    ghost left = { left_tail };

    ghost right = { right_first };
}

/// A bucket's part joins the first, and a collector's visit begins.
pub(crate) struct Arriving;

impl Join<View> for Arriving {
    ghost both = { with_bucket };

    ghost spent = { spent };
}

/// The bucket's part leaves, and a collector's visit is over.
pub(crate) struct Departing;

impl Split<View> for Departing {
    ghost left = { without_bucket };

    ghost right = { bucket_alone };
}

/// The committer's part leaves.
pub(crate) struct Resigning;

impl Split<View> for Resigning {
    ghost left = { without_commit };

    ghost right = { commit_alone };
}

/// What was handed over is appended to all else.
pub(crate) struct Receiving;

impl Join<View> for Receiving {
    ghost both = { received };

    ghost spent = { spent };
}

/// The part that follows the first is handed back.
pub(crate) struct HandingBack;

impl Split<View> for HandingBack {
    ghost left = { hands_back };

    ghost right = { right_second };
}

/// What was split off joins the first again. What it did is the pass's own.
pub(crate) struct Rejoining;

impl Join<View> for Rejoining {
    ghost both = { rejoined };

    ghost spent = { spent };
}
