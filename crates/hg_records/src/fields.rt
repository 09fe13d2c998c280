//! A record, appended field by field.

ghost use Rattle.std.specs.Prelude.{◌≡◌, ◌++◌, ◌∷◌, [], OnErr, OnOk, false};
ghost use Rattle.std.specs.List.{list_any};
ghost use Rattle.csv.specs.Writing.{escaped, needs_byte, quoted};
ghost use Rattle.std.specs.Io.{StartsWith};
ghost use Rattle.hg_records.specs.Bytes.{field_bytes, flexible_writer, further_bytes};

use hg_base::NoMemory;

fn calls_for_quotes(b: u8) -> bool
    ensures { result ≡ needs_byte flexible_writer b }
{
    b == b',' || b == b'"' || b == b'\r' || b == b'\n'
}

fn needs_quotes(field: &[u8]) -> bool
    ensures { result ≡ list_any (needs_byte flexible_writer) field.now }
{
    field.iter().any(|b| calls_for_quotes(*b))
}

// A quote within quotes is written twice.
fn add_byte(text: &mut Vec<u8>, b: u8) -> Result<(), NoMemory>
    ensures added { OnOk result
        (text.new.items ≡ text.old.items ++ escaped flexible_writer (b ∷ [])) }
    ensures kept { OnErr result (StartsWith text.new.items text.old.items) }
{
    if b == b'"' {
        text.push(b'"')?;
    }
    text.push(b)?;
    Ok(())
}

fn add_escaped(text: &mut Vec<u8>, field: &[u8]) -> Result<(), NoMemory>
    ensures added { OnOk result
        (text.new.items ≡ text.old.items ++ escaped flexible_writer field.now) }
    ensures kept { OnErr result (StartsWith text.new.items text.old.items) }
{
    for b in field {
        add_byte(text, *b)?;
    }
    Ok(())
}

fn add_quoted(text: &mut Vec<u8>, field: &[u8]) -> Result<(), NoMemory>
    ensures added { OnOk result
        (text.new.items ≡ text.old.items ++ quoted flexible_writer field.now) }
    ensures kept { OnErr result (StartsWith text.new.items text.old.items) }
{
    text.push(b'"')?;
    add_escaped(text, field)?;
    text.push(b'"')?;
    Ok(())
}

/// Adds the first field of a record.
#[tactic(auto, unfolding(crate::specs::Bytes::field_bytes))]
pub fn add_first(text: &mut Vec<u8>, field: &[u8]) -> Result<(), NoMemory>
    ensures added { OnOk result (text.new.items ≡ text.old.items ++ field_bytes field.now) }
    ensures kept { OnErr result (StartsWith text.new.items text.old.items) }
{
    if needs_quotes(field) {
        add_quoted(text, field)?;
    } else {
        text.extend_from_slice(field)?;
    }
    Ok(())
}

/// Adds a field after another one.
#[tactic(auto, unfolding(crate::specs::Bytes::field_bytes, crate::specs::Bytes::further_bytes))]
pub fn add_field(text: &mut Vec<u8>, field: &[u8]) -> Result<(), NoMemory>
    ensures added { OnOk result (text.new.items ≡ text.old.items ++ further_bytes field.now) }
    ensures kept { OnErr result (StartsWith text.new.items text.old.items) }
{
    text.push(b',')?;
    add_first(text, field)?;
    Ok(())
}

/// Adds a field after another one. It needs no quotes, so none of its bytes is looked at.
#[tactic(auto, unfolding(crate::specs::Bytes::field_bytes, crate::specs::Bytes::further_bytes))]
pub fn add_plain(text: &mut Vec<u8>, field: &[u8]) -> Result<(), NoMemory>
    requires { list_any (needs_byte flexible_writer) field.now ≡ false }
    ensures added { OnOk result (text.new.items ≡ text.old.items ++ further_bytes field.now) }
    ensures kept { OnErr result (StartsWith text.new.items text.old.items) }
{
    text.push(b',')?;
    text.extend_from_slice(field)?;
    Ok(())
}

/// Begins a record with its first two fields.
pub fn begin_record(text: &mut Vec<u8>, first: &[u8], second: &[u8]) -> Result<(), NoMemory>
    ensures added { OnOk result (text.new.items ≡
        text.old.items ++ (field_bytes first.now ++ further_bytes second.now)) }
    ensures kept { OnErr result (StartsWith text.new.items text.old.items) }
{
    add_first(text, first)?;
    add_field(text, second)?;
    Ok(())
}

/// Ends a record.
pub fn end_record(text: &mut Vec<u8>) -> Result<(), NoMemory>
    ensures added { OnOk result (text.new.items ≡ text.old.items ++ 10 ∷ []) }
    ensures kept { OnErr result (StartsWith text.new.items text.old.items) }
{
    text.push(b'\n')?;
    Ok(())
}
