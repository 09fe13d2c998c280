//! What a commit answers.

/// The number of the commit's group, and how many commits stand before it in commit order.
#[derive(Clone, Copy, Debug, PartialEq, Eq)]
pub struct Receipt {
    pub number: u64,
    pub place: u64,
}
