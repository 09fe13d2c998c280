//! The limits of the server, in numbers.

ghost use Rattle.std.specs.Prelude.{◌≡◌, ◌^◌};

use hg_base::{
    DEFAULT_BUCKETS, DEFAULT_LONG, DEFAULT_ROUNDS, MOST_BUCKETS, MOST_COLUMNS, MOST_LONG,
    MOST_NAME_BYTES, MOST_NUMBER, MOST_RECORDS, MOST_ROUNDS, MOST_SCRIPT_BYTES, MOST_SESSIONS,
    MOST_TABLES, MOST_TEXT_BYTES,
};

/// Clauses elsewhere name a limit, and would follow a change of it. This one says which numbers are those of a script, and of what a
/// server numbers.
pub fn limits_of_scripts_are_these_numbers()
    ensures sessions { MOST_SESSIONS ≡ 64 }
    ensures tables { MOST_TABLES ≡ 64 }
    ensures columns { MOST_COLUMNS ≡ 8 }
    ensures name_bytes { MOST_NAME_BYTES ≡ 32 }
    ensures text_bytes { MOST_TEXT_BYTES ≡ 64 }
    ensures script_bytes { MOST_SCRIPT_BYTES ≡ 16777216 }
    ensures records { MOST_RECORDS ≡ 1048576 }
    ensures numbers { MOST_NUMBER ≡ 2 ^ 40 }
{}

/// The numbers of the options: the most that each may be, and what it is if it is not given.
pub fn limits_of_options_are_these_numbers()
    ensures buckets { MOST_BUCKETS ≡ 1024 }
    ensures long { MOST_LONG ≡ 1048576 }
    ensures rounds { MOST_ROUNDS ≡ 1000 }
    ensures default_buckets { DEFAULT_BUCKETS ≡ 64 }
    ensures default_long { DEFAULT_LONG ≡ 4 }
    ensures default_rounds { DEFAULT_ROUNDS ≡ 8 }
{}
