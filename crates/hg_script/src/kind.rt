//! The collector that a `gc` names.

ghost use Rattle.std.specs.Prelude.{◌≡◌};
ghost use Rattle.hg_script.specs.Draft.{kind_named};

use crate::word::is_word;
use hg_base::Kind;

/// The collector of this name.
pub(crate) fn find_kind(name: &[u8]) -> Option<Kind>
    ensures { result ≡ kind_named name.now }
{
    if is_word(name, b"group") {
        Some(Kind::Group)
    } else if is_word(name, b"table") {
        Some(Kind::Table)
    } else if is_word(name, b"interval") {
        Some(Kind::Interval)
    } else {
        None
    }
}
