//! Records of a conversation that no script's text has: a word, the place of the record that is answered, and maybe one field more.

ghost use Rattle.std.specs.Prelude.{◌≡◌, ◌++◌, ◌∷◌, [], OnOk, decimal};
ghost use Rattle.std.specs.List.{flat_map};
ghost use Rattle.hg_base.specs.Text.{line_records};
ghost use Rattle.hg_records.specs.Bytes.{record_bytes};

use crate::bytes::add_number;
use crate::line::write_line;
use hg_base::{Line, NoMemory};
use hg_records::{add_field, add_first, end_record};
use hg_script::Table;

/// Adds the records of a reply, over these tables.
pub fn add_line(text: &mut Vec<u8>, tables: &[Table], line: &Line) -> Result<(), NoMemory>
    ensures { OnOk result (text.new.items ≡
        text.old.items ++ flat_map record_bytes (line_records tables.now line.now)) }
{
    write_line(text, tables, line)
}

/// Adds a record of a word and a number.
pub fn add_note(text: &mut Vec<u8>, word: &[u8], number: u64) -> Result<(), NoMemory>
    ensures { OnOk result
        (text.new.items ≡ text.old.items ++ record_bytes (word.now ∷ decimal number ∷ [])) }
{
    add_first(text, word)?;
    add_number(text, number)?;
    end_record(text)
}

/// Adds a record of a word, a number and a further word.
pub fn add_note_with(
    text: &mut Vec<u8>,
    word: &[u8],
    number: u64,
    further: &[u8],
) -> Result<(), NoMemory>
    ensures { OnOk result (text.new.items ≡
        text.old.items ++ record_bytes (word.now ∷ decimal number ∷ further.now ∷ [])) }
{
    add_first(text, word)?;
    add_number(text, number)?;
    add_field(text, further)?;
    end_record(text)
}
