//! Fields of numbers, written from the last byte to the first.

ghost use Rattle.std.specs.Prelude.{◌≡◌, ◌+◌, ◌*◌, ◌≤◌, ◌++◌, decimal, drop, length, map};
ghost use Rattle.std.specs.Fmt.{signed_decimal};
ghost use Rattle.std.specs.List.{flat_map};
ghost use Rattle.hg_records.specs.Bytes.{further_bytes};

use itoa::write_digits;

/// A comma and a number take no more bytes.
pub(crate) const FIELD_ROOM: usize = 22;

// Writes a value so that it ends at `end`, and returns where it starts.
fn put_signed(n: i64, bytes: &mut [u8], end: usize) -> usize
    requires { (22 ≤ end) × (end ≤ length bytes.old) }
    ensures written { drop result bytes.new ≡ signed_decimal n ++ drop end bytes.old }
    ensures near { end ≤ result + 21 }
    ensures after { result + 1 ≤ end }
    ensures long { length bytes.new ≡ length bytes.old }
{
    let start = write_digits(n.unsigned_abs(), bytes, end);
    if n >= 0 {
        return start;
    }
    bytes[start - 1] = b'-';
    start - 1
}

/// Writes a number's field with its comma so that it ends at `end`, and returns where it starts.
pub(crate) fn put_number(n: u64, bytes: &mut [u8], end: usize) -> usize
    requires { (22 ≤ end) × (end ≤ length bytes.old) }
    ensures written { drop result bytes.new ≡ further_bytes (decimal n) ++ drop end bytes.old }
    ensures near { end ≤ result + 22 }
    ensures within { result ≤ end }
    ensures long { length bytes.new ≡ length bytes.old }
{
    let start = write_digits(n, bytes, end);
    bytes[start - 1] = b',';
    start - 1
}

/// Writes a value's field with its comma so that it ends at `end`, and returns where it starts.
pub(crate) fn put_value(n: i64, bytes: &mut [u8], end: usize) -> usize
    requires { (22 ≤ end) × (end ≤ length bytes.old) }
    ensures written { drop result bytes.new ≡
        further_bytes (signed_decimal n) ++ drop end bytes.old }
    ensures near { end ≤ result + 22 }
    ensures within { result ≤ end }
    ensures long { length bytes.new ≡ length bytes.old }
{
    let start = put_signed(n, bytes, end);
    bytes[start - 1] = b',';
    start - 1
}

/// Writes the fields of a row's values with their commas so that they end at `end`, and returns where they start.
pub(crate) fn put_values(values: &[i64], bytes: &mut [u8], end: usize) -> usize
    requires { (22 * length values.now ≤ end) × (end ≤ length bytes.old) }
    ensures written { drop result bytes.new ≡
        flat_map further_bytes (map signed_decimal values.now) ++ drop end bytes.old }
    ensures near { end ≤ result + 22 * length values.now }
    ensures within { result ≤ end }
    ensures long { length bytes.new ≡ length bytes.old }
{
    let mut start = end;
    let mut left = values.len();
    while left > 0 {
        left -= 1;
        start = put_value(values[left], bytes, start);
    }
    start
}
