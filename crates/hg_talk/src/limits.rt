//! The limit of a conversation.

/// Bytes of a record.
pub const MOST_RECORD_BYTES: usize = 1_048_576;
