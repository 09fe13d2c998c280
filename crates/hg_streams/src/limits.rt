//! How many bytes a source may have, if it is not a script alone.

ghost use Rattle.std.specs.Prelude.{◌≡◌};

/// Bytes of the input of an audit: a script, the line that parts it, and a text.
pub const MOST_AUDIT_BYTES: usize = 1_073_741_824;

/// Clauses name the limit, and would follow a change of it. This one says which number it is.
pub fn limit_of_audits_is_this_number()
    ensures { MOST_AUDIT_BYTES ≡ 1073741824 }
{}
