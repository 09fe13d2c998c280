//! The values of a row, appended to a record.

ghost use Rattle.std.specs.Prelude.{◌≡◌, ◌++◌, OnOk, map};
ghost use Rattle.std.specs.Fmt.{signed_decimal};
ghost use Rattle.std.specs.List.{flat_map};
ghost use Rattle.hg_base.specs.Text.{value_field};
ghost use Rattle.hg_records.specs.Bytes.{further_bytes};

use crate::bytes::add_value;
use hg_base::{NoMemory, Row, Value};
use hg_records::add_field;

fn add_numbers(text: &mut Vec<u8>, numbers: &[i64]) -> Result<(), NoMemory>
    ensures { OnOk result (text.new.items ≡
        text.old.items ++ flat_map further_bytes (map signed_decimal numbers.now)) }
{
    for n in numbers {
        add_value(text, *n)?;
    }
    Ok(())
}

fn add_number_or_text(text: &mut Vec<u8>, value: &Value) -> Result<(), NoMemory>
    ensures { OnOk result
        (text.new.items ≡ text.old.items ++ further_bytes (value_field value.now)) }
{
    match value {
        Value::Number(n) => add_value(text, *n),
        Value::Text(bytes) => add_field(text, bytes.as_bytes()),
    }
}

fn add_values(text: &mut Vec<u8>, row: &Row) -> Result<(), NoMemory>
    ensures { OnOk result
        (text.new.items ≡ text.old.items ++ flat_map further_bytes (map value_field row.now)) }
{
    for i in 0..row.len() {
        add_number_or_text(text, &row.value(i))?;
    }
    Ok(())
}

#[tactic(auto, using(crate::proofs::RecordBytes::numbers_are))]
pub(crate) fn add_row(text: &mut Vec<u8>, row: &Row) -> Result<(), NoMemory>
    ensures { OnOk result
        (text.new.items ≡ text.old.items ++ flat_map further_bytes (map value_field row.now)) }
{
    match row.numbers() {
        Some(numbers) => add_numbers(text, numbers),
        None => add_values(text, row),
    }
}
