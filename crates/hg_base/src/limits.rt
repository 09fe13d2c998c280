//! The limits of the server.

/// Sessions are numbered from 1 to this.
pub const MOST_SESSIONS: u32 = 64;

/// Tables are numbered from 0, in the order of their declarations.
pub const MOST_TABLES: u8 = 64;

/// A table has from 1 to this many columns.
pub const MOST_COLUMNS: u8 = 8;

/// A text has from 0 to this many bytes.
pub const MOST_TEXT_BYTES: usize = 64;

/// A table's name has from 1 to this many bytes.
pub const MOST_NAME_BYTES: usize = 32;

/// Bytes of a script.
pub const MOST_SCRIPT_BYTES: usize = 16_777_216;

/// Records of a script, those that declare tables included.
pub const MOST_RECORDS: u64 = 1_048_576;

/// From 1 to this many buckets.
pub const MOST_BUCKETS: u32 = 1_024;

/// The number of buckets where none is asked for.
pub const DEFAULT_BUCKETS: u32 = 64;

/// A declared snapshot is long when the mark has grown by at least the long limit, from 1 to this many commits.
pub const MOST_LONG: u64 = 1_048_576;

/// The long limit where none is asked for.
pub const DEFAULT_LONG: u64 = 4;

/// Rounds of each collector in a run.
pub const MOST_ROUNDS: u32 = 1_000;

/// The number of rounds where none is asked for.
pub const DEFAULT_ROUNDS: u32 = 8;

/// No commit, transaction or version number passes this.
pub const MOST_NUMBER: u64 = 1 << 40;
