//! The transaction that wrote a version.

/// A transaction of a session. Both are counted from 1.
#[derive(Clone, Copy, Debug, PartialEq, Eq)]
pub struct Writer {
    pub session: u32,
    pub transaction: u64,
}
