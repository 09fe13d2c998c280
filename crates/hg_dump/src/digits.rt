//! Numbers, appended to a record.

ghost use Rattle.std.specs.Prelude.{◌≡◌, ◌++◌, OnOk, decimal};
ghost use Rattle.std.specs.Fmt.{signed_decimal};
ghost use Rattle.hg_records.specs.Bytes.{further_bytes};

use hg_base::NoMemory;
use hg_records::add_field;
use itoa::Buffer;

/// Adds a number without a sign after another field.
pub(crate) fn add_natural(text: &mut Vec<u8>, n: u64) -> Result<(), NoMemory>
    ensures { OnOk result (text.new.items ≡ text.old.items ++ further_bytes (decimal n)) }
{
    let mut buffer = Buffer::new();
    add_field(text, buffer.format(n).as_bytes())
}

/// Adds a number that may have a minus after another field.
pub(crate) fn add_integer(text: &mut Vec<u8>, n: i64) -> Result<(), NoMemory>
    ensures { OnOk result (text.new.items ≡ text.old.items ++ further_bytes (signed_decimal n)) }
{
    let mut buffer = Buffer::new();
    add_field(text, buffer.format(n).as_bytes())
}
