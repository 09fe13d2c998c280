//! Numbers and the beginning of a reply, appended to a record.

ghost use Rattle.std.specs.Prelude.{◌≡◌, ◌++◌, OnOk, decimal};
ghost use Rattle.std.specs.Fmt.{signed_decimal};
ghost use Rattle.hg_records.specs.Bytes.{field_bytes, further_bytes};

use crate::number_fields::{FIELD_ROOM, put_number, put_value};
use hg_base::NoMemory;
use itoa::write_digits;

/// Adds a number after another field.
pub(crate) fn add_number(text: &mut Vec<u8>, n: u64) -> Result<(), NoMemory>
    ensures { OnOk result (text.new.items ≡ text.old.items ++ further_bytes (decimal n)) }
{
    let mut bytes = [0; FIELD_ROOM];
    let start = put_number(n, &mut bytes, FIELD_ROOM);
    text.extend_from_slice(&bytes[start..])?;
    Ok(())
}

/// Adds a value of a row after another field.
pub(crate) fn add_value(text: &mut Vec<u8>, n: i64) -> Result<(), NoMemory>
    ensures { OnOk result (text.new.items ≡ text.old.items ++ further_bytes (signed_decimal n)) }
{
    let mut bytes = [0; FIELD_ROOM];
    let start = put_value(n, &mut bytes, FIELD_ROOM);
    text.extend_from_slice(&bytes[start..])?;
    Ok(())
}

/// Begins a record of a reply with the session and the place.
pub(crate) fn begin_reply(text: &mut Vec<u8>, session: u32, place: u64) -> Result<(), NoMemory>
    ensures { OnOk result (text.new.items ≡
        text.old.items ++ (field_bytes (decimal session) ++ further_bytes (decimal place))) }
{
    let mut bytes = [0; 2 * FIELD_ROOM];
    let after = put_number(place, &mut bytes, 2 * FIELD_ROOM);
    let start = write_digits(u64::from(session), &mut bytes, after);
    text.extend_from_slice(&bytes[start..])?;
    Ok(())
}
