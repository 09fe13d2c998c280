//! The fields of a record as they are written, with their quotes, and what they say. Each is read whether it is well formed or not.

ghost use Rattle.std.specs.Prelude.{◌≡◌, ◌≤◌, ◌-◌, ◌==◌, ◌∷◌, ◌++◌, [], OnOk, drop, false, if◌then◌else◌, length, not, take};
ghost use Rattle.hg_report.specs.Fields.{fields_of, narrow, nth, natural_at, parted, says, session_in};

use hg_base::{NoMemory, read_natural};

// Whether what follows the byte is within quotes.
fn is_quoted_behind(quoted: bool, b: u8) -> bool
    ensures { result ≡ (if b == 34 then not quoted else quoted) }
{
    if b == b'"' { !quoted } else { quoted }
}

// Adds the bytes from one place up to another.
fn push_part<'a>(
    fields: &mut Vec<&'a [u8]>,
    bytes: &'a [u8],
    start: usize,
    end: usize,
) -> Result<(), NoMemory>
    requires { (start ≤ end) × (end ≤ length bytes.now) }
    ensures { OnOk result (fields_of fields.new.items ≡
        fields_of fields.old.items ++ take (end - start) (drop start bytes.now) ∷ []) }
{
    fields.push(&bytes[start..end])?;
    Ok(())
}

/// Parts the record at the start of the bytes at its commas, up to its line feed, where these stand outside of quotes.
pub(crate) fn part<'a>(bytes: &'a [u8], fields: &mut Vec<&'a [u8]>) -> Result<(), NoMemory>
    ensures { OnOk result (fields_of fields.new.items ≡ parted false [] bytes.now) }
{
    fields.clear();
    let mut start = 0;
    let mut quoted = false;
    for i in 0..bytes.len() {
        // Line feeds, commas and quotes are below the bytes of words and numbers.
        if bytes[i] <= b',' {
            if bytes[i] == b'\n' && !quoted {
                return push_part(fields, bytes, start, i);
            }
            if bytes[i] == b',' && !quoted {
                push_part(fields, bytes, start, i)?;
                start = i + 1;
            }
            quoted = is_quoted_behind(quoted, bytes[i]);
        }
    }
    push_part(fields, bytes, start, bytes.len())
}

/// The field at a place, counted from 0, and no bytes where there is none.
#[tactic(auto, unfolding(crate::specs::Fields::fields_of))]
pub(crate) fn field<'a>(row: &[&'a [u8]], i: usize) -> &'a [u8]
    ensures { result.now ≡ nth (fields_of row.now) i }
{
    match row.get(i) {
        Some(bytes) => *bytes,
        None => &[],
    }
}

/// Whether the field is this word.
pub(crate) fn says(row: &[&[u8]], i: usize, word: &[u8]) -> bool
    ensures { result ≡ says (fields_of row.now) i word.now }
{
    field(row, i) == word
}

/// The number that the field is, and 0 where it is none.
pub(crate) fn natural_at(row: &[&[u8]], i: usize) -> u64
    ensures { result ≡ natural_at (fields_of row.now) i }
{
    read_natural(field(row, i)).value()
}

fn narrow(n: u64) -> u32
    ensures { result ≡ narrow n }
{
    if n < 1 << 32 { n as u32 } else { 0 }
}

/// The session that the field is.
pub(crate) fn session_in(row: &[&[u8]], i: usize) -> u32
    ensures { result ≡ session_in (fields_of row.now) i }
{
    narrow(natural_at(row, i))
}
