//! A walk along a chain.

/// How many versions were passed, the node of the last of them, and the node behind it.
#[derive(Clone, Copy)]
pub(crate) struct Cursor {
    pub kept: u32,
    pub last: u32,
    pub at: u32,
}
